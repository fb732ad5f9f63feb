// A connection may go from thread to thread. That it is Send is proved here, where this call is.
use crate::Conn;
use rack_types::Body;

fn conn_is_send<L: Send, B: Body + Send, H: Send>() {
    is_send::<Conn<L, B, H>>()
}

fn is_send<T: Send>() {}
