// What goes into a connection, which may go from thread to thread. That each type is Send is proved here,
// where these calls are.
use crate::{Never, Said, StockHijack};

fn are_send() {
    is_send::<Never>();
    is_send::<StockHijack>();
    is_send::<Said>();
}

fn is_send<T: Send>() {}
