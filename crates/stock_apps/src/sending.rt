// What goes into a stack, which threads share. That it is Send and Sync is proved here, where these calls
// are.
use crate::App;

fn is_shared() {
    is_send::<App>();
    is_sync::<App>();
}

fn is_send<T: Send>() {}

fn is_sync<T: Sync>() {}
