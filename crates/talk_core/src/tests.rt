// What goes into a connection, and what is handed back, may cross threads.
use crate::{Ended, Life, Why};
use rack_outside::MemLink;

fn sends<T: Send>() {}

#[test]
fn an_end_may_cross_threads() {
    sends::<Life>();
    sends::<Why>();
    sends::<Ended<MemLink>>();
}
