//! What a server reads and writes, as traits with counts of faults, and objects in memory that meet them.
//!
//! Each trait whose calls can fail has a count of faults that never falls. An answer `Failed` comes only
//! where that count rose in that call, so that a contract can name the cause. What an object has given, left or taken
//! is told by the objects in memory and not by the real ones: a member that tells is an `Option`, and
//! `None` claims nothing.
#![tactic(auto)]

mod clock;
mod files;
mod keys;
mod link;
mod mem_files;
mod mem_link;
mod mem_sink;
mod mem_source;
mod mem_watcher;
mod numbered;
mod pair_link;
mod places;
mod sink;
mod source;
mod sure_link;
mod sure_sink;
mod sure_source;
mod touch;
mod watcher;

pub use clock::{Clock, MemClock};
pub use files::{FileRead, Files};
pub use keys::Keys;
pub use link::{Link, LinkRead, LinkWrite};
pub use mem_files::MemFiles;
pub use mem_link::MemLink;
pub use mem_sink::MemSink;
pub use mem_source::MemSource;
pub use mem_watcher::MemWatcher;
pub use numbered::Numbered;
pub use pair_link::PairLink;
pub use sink::{Sink, SinkWrite};
pub use source::{Source, SourceRead};
pub use sure_link::SureLink;
pub use sure_sink::SureSink;
pub use sure_source::SureSource;
pub use touch::Touch;
pub use watcher::{Waited, Watcher};
