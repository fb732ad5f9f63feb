//! The short texts that messages and files are made of: decimal numbers, tokens, words whose case does
//! not count, lists with commas, and hosts, which are read without memory; and numbers and escaped
//! texts, which are written and read into a list of bytes.
#![tactic(auto)]

mod decimal;
mod escaped;
mod host;
mod laws;
mod list;
mod number;
mod word;

pub use decimal::{is_decimal, read_decimal};
pub use escaped::{escape, unescape};
pub use host::{Host, read_host};
pub use laws::escaped_text_is_read_again;
pub use list::{ListElements, elements, list_has};
pub use number::{put_hex, write_decimal, write_hex};
pub use word::{is_token, same_ignoring_case};
