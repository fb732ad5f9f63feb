// What the stock hijackers say.
ghost use Rattle.std.specs.Prelude.{◌≡◌, ◌≤◌, true, false, List, ℕ, [], map, if◌then◌else◌, Ok, IfOk};
ghost use Rattle.std.specs.Char.{to_ascii_uppercase};
ghost use Rattle.hijack_core.specs.declared.stock.Stock.TheVariants.{Echo, Upper};
ghost use Rattle.hijack_core.specs.Silence.{silence};
ghost use Rattle.hijack_core.specs.Stock.{stock_says, stock_ends, echoed, uppered};
ghost use Rattle.hijack_core.specs.StockLaws.{stock-begins, stock-joins, stock-stops, stock-short, stock_end-short};

use crate::{Hijack, Said, Stock};
use memchr::memchr;
use rack_types::{Bytes, NoMemory};
use std::alloc::Global;
use std::marker::Model;

// The byte that ends upper.
const END: u8 = 4;

/// A stock hijacker at work. A contract sees it as the choice that it was made of.
///
/// It keeps no byte: what it says to a piece depends on that piece alone.
///
/// - Echo says each byte again, and goes on.
/// - Upper says each byte again, a to z as A to Z, and ends before the first byte 4: nothing is said
///   to that byte or to any behind it in that piece.
///
/// Neither says anything at the end. What is said to a piece takes memory for as many bytes as are
/// said; an end takes none.
#[derive(Debug, Drop)]
pub struct StockHijack {
    alloc: Global,
    stock: Stock,
}

impl Model for StockHijack {
    ghost use Rattle.hijack_core.specs.declared.stock.Stock.{Stock};

    ghost Value = { Stock };

    ghost view = { λ h. h.stock };
}

impl Stock {
    /// Upper where `upper` is true, else Echo. It takes no memory; what it says is kept in memory of
    /// `alloc`.
    pub fn new(alloc: Global, upper: bool) -> StockHijack
        ensures { result ≡ (if upper then Upper else Echo) }
    {
        StockHijack {
            alloc,
            stock: if upper { Stock::Upper } else { Stock::Echo },
        }
    }
}

// What this one says to a piece.
fn answer(alloc: Global, stock: Stock, piece: &[u8]) -> Result<Said, NoMemory>
    ensures { IfOk result (λ said. said ≡ stock_says stock piece.now) }
{
    match stock {
        Stock::Echo => echo(alloc, piece),
        Stock::Upper => upper(alloc, piece),
    }
}

// Each byte again.
fn echo(alloc: Global, piece: &[u8]) -> Result<Said, NoMemory>
    ensures { IfOk result (λ said. said ≡ echoed piece.now) }
{
    Ok(Said {
        bytes: Bytes::new(piece.to_vec(alloc)?),
        go_on: true,
    })
}

// What stands before the first byte that ends, a to z as A to Z.
fn upper(alloc: Global, piece: &[u8]) -> Result<Said, NoMemory>
    ensures { IfOk result (λ said. said ≡ uppered piece.now) }
{
    match memchr(END, piece) {
        Some(place) => capitals(alloc, &piece[..place], false),
        None => capitals(alloc, piece, true),
    }
}

// This text, a to z as A to Z.
fn capitals(alloc: Global, text: &[u8], go_on: bool) -> Result<Said, NoMemory>
    ensures { IfOk result (λ said. said ≡ record { bytes = map to_ascii_uppercase text.now; go_on = go_on }) }
{
    Ok(Said {
        bytes: Bytes::new(text.to_ascii_uppercase(alloc)?),
        go_on,
    })
}

impl Hijack for StockHijack {
    ghost says = { stock_says };

    ghost ends = { stock_ends };

    fn on_bytes(&mut self, piece: &[u8]) -> Result<Said, NoMemory> {
        answer(self.alloc, self.stock, piece)
    }

    /// Says nothing, and closes. It takes no memory.
    fn on_end(&mut self) -> Result<Said, NoMemory>
        ensures ends { IfOk result (λ said. said.bytes ≡ stock_ends self.old []) }
        ensures closes { result ≡ Ok silence }
    {
        Ok(Said {
            bytes: Bytes::new(Vec::new(self.alloc)),
            go_on: false,
        })
    }

    fn leave(&mut self) {}

    ghost begins = { stock-begins };

    ghost joins = { λ stock bytes goes. (stock, stock-joins stock bytes goes) };

    ghost stops = { stock-stops };

    ghost short = { stock-short };

    ghost short_end = { stock_end-short };
}
