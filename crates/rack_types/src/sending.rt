// What goes into a connection, which may go from thread to thread. That each type is Send is proved here,
// where these calls are.
use super::{Bytes, Env, Input, Local, Peer};

fn are_send() {
    is_send::<Bytes>();
    is_send::<Input>();
    is_send::<Env>();
    is_send::<Peer>();
    is_send::<Local>()
}

fn is_send<T: Send>() {}
