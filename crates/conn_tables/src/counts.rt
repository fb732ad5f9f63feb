// A hijacker that counts how often it was told to leave, and what hands it out.
ghost use Rattle.std.specs.Prelude.{◌≡◌, [], None, true, IfOk};
ghost use Rattle.hijack_core.specs.Stock.{echoed};
ghost use Rattle.hijack_core.specs.StockLaws.{stock-begins, stock-joins, stock-stops, stock-short, stock_end-short};
ghost use Rattle.hijack_core.specs.declared.stock.Stock.TheVariants.{Echo};
ghost use Rattle.rack_types.specs.declared.answer.Answer.TheVariants.{Taken};

use hijack_core::{Hijack, Said};
use rack_types::{Answer, Bytes, Env, NoMemory, Plain, Runner};
use std::alloc::Global;
use std::cell::Cell;

/// Says each byte again. How often it was told to leave stands outside, where it outlives its connection.
#[derive(Drop)]
pub(crate) struct Counts<'a> {
    pub(crate) alloc: Global,
    pub(crate) left: &'a Cell<u8>,
}

impl<'a> Hijack for Counts<'a> {
    ghost says = { λ h bytes. echoed bytes };

    ghost ends = { λ h bytes. [] };

    fn on_bytes(&mut self, piece: &[u8]) -> Result<Said, NoMemory> {
        Ok(Said {
            bytes: Bytes::new(piece.to_vec(self.alloc)?),
            go_on: true,
        })
    }

    fn on_end(&mut self) -> Result<Said, NoMemory> {
        Ok(Said {
            bytes: Bytes::new(Vec::new(self.alloc)),
            go_on: false,
        })
    }

    fn leave(&mut self) {
        self.left.set(self.left.get().saturating_add(1));
    }

    ghost begins = { λ h. stock-begins Echo };

    ghost joins = { λ h bytes goes. (h, stock-joins Echo bytes goes) };

    ghost stops = { λ h. stock-stops Echo };

    ghost short = { λ h. stock-short Echo };

    ghost short_end = { λ h. stock_end-short Echo };
}

/// Hands the connection to such a hijacker, in place of a reply.
#[derive(Drop)]
pub(crate) struct HandsOut<'a> {
    pub(crate) alloc: Global,
    pub(crate) left: &'a Cell<u8>,
    pub(crate) runs: u64,
}

impl<'a> Runner<Plain, Counts<'a>> for HandsOut<'a> {
    ghost runs = { λ r. r.runs };

    ghost answer = { λ r ps input. Taken (record { alloc = r.alloc; left = r.left }) };

    ghost steady = { true };

    ghost answered = { λ r. None };

    ghost asked = { λ r. None };

    fn run(&mut self, env: &mut Env) -> Result<Answer<Plain, Counts<'a>>, NoMemory> {
        let _env = env;
        self.runs += 1;
        Ok(Answer::Taken(Counts {
            alloc: self.alloc,
            left: self.left,
        }))
    }
}
