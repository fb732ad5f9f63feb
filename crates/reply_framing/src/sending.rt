// What a connection holds of a reply, which may go from thread to thread. That it is Send is proved here,
// where this call is.
use crate::Framer;
use rack_types::Body;

fn are_send<B: Body + Send, H: Send>() {
    is_send::<Framer<B, H>>()
}

fn is_send<T: Send>() {}
