// What goes into a stack or through a connection, which may go from thread to thread; a stack is shared
// between them. That each type is Send, and Sync, is proved here, where these calls are.
use super::{Undo, Ware, WareBody};
use rack_types::Plain;

fn are_send() {
    is_send::<Ware>();
    is_send::<Undo>();
    is_send::<WareBody<Plain>>();
    is_sync::<Ware>()
}

fn is_send<T: Send>() {}

fn is_sync<T: Sync>() {}
