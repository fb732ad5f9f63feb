//! What takes a connection over: a hijacker is told the bytes that come, and what it says goes to the
//! peer. Two stock hijackers, and one that nobody can make.
#![tactic(auto)]

mod hijack;
mod never;
mod sending;
mod stock;
mod stock_hijack;

pub use hijack::{Hijack, Said};
pub use never::Never;
pub use stock::Stock;
pub use stock_hijack::StockHijack;
