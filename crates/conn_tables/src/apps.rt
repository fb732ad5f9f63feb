// What answers the requests of a connection.
ghost use Rattle.std.specs.Prelude.{[], ◌∷◌, None, Some, true, false};
ghost use Rattle.hijack_core.specs.declared.stock.Stock.TheVariants.{Upper};
ghost use Rattle.rack_types.specs.declared.answer.Answer.TheVariants.{Reply, Taken};
ghost use Rattle.rack_types.specs.declared.body.Kind.TheVariants.{Enumerable};
ghost use Rattle.rack_types.specs.Plain.{plain_content};

use hijack_core::{Stock, StockHijack};
use rack_types::{Answer, Bytes, Env, Headers, Kind, NoMemory, Plain, Runner};
use std::alloc::Global;

/// Which of them.
#[derive(Clone, Copy, Debug, PartialEq, Eq)]
pub(crate) enum App {
    /// Each request is answered with its body.
    Echoes,
    /// The first request hands the connection to a hijacker, in place of a reply.
    Hands,
    /// The first request hands the connection to a hijacker, behind the head of a reply.
    Parts,
    /// Each request is answered with the name of the connection's phase: old for the first, and else new.
    Names,
}

/// Answers a request with its body.
#[derive(Drop)]
pub(crate) struct Echoes {
    pub(crate) alloc: Global,
    pub(crate) runs: u64,
}

impl Runner<Plain, StockHijack> for Echoes {
    ghost runs = { λ r. r.runs };

    ghost answer = { λ r ps input. Reply 200 [] (plain_content (input ∷ []) false true Enumerable) None };

    ghost steady = { true };

    ghost answered = { λ r. None };

    ghost asked = { λ r. None };

    fn run(&mut self, env: &mut Env) -> Result<Answer<Plain, StockHijack>, NoMemory> {
        self.runs += 1;
        let mut pieces = Vec::with_capacity(self.alloc, 1)?;
        pieces.push(Bytes::new(Vec::from_slice(self.alloc, env.input().all())?))?;
        Ok(Answer::Reply {
            status: 200,
            headers: Headers::new(self.alloc),
            body: Plain::new(pieces, false, true, Kind::Enumerable),
            part: None,
        })
    }
}

/// Answers a request with a name.
#[derive(Drop)]
pub(crate) struct Names {
    pub(crate) alloc: Global,
    pub(crate) name: &'static str,
    pub(crate) runs: u64,
}

impl Runner<Plain, StockHijack> for Names {
    ghost runs = { λ r. r.runs };

    ghost answer = { λ r ps input. Reply 200 [] (plain_content (r.name.now ∷ []) false true Enumerable) None };

    ghost steady = { true };

    ghost answered = { λ r. None };

    ghost asked = { λ r. None };

    fn run(&mut self, env: &mut Env) -> Result<Answer<Plain, StockHijack>, NoMemory> {
        let _env = env;
        self.runs += 1;
        let mut pieces = Vec::with_capacity(self.alloc, 1)?;
        pieces.push(Bytes::new(Vec::from_slice(self.alloc, self.name.as_bytes())?))?;
        Ok(Answer::Reply {
            status: 200,
            headers: Headers::new(self.alloc),
            body: Plain::new(pieces, false, true, Kind::Enumerable),
            part: None,
        })
    }
}

/// Hands the connection to a hijacker, in place of a reply.
#[derive(Drop)]
pub(crate) struct Hands {
    pub(crate) alloc: Global,
    pub(crate) runs: u64,
}

impl Runner<Plain, StockHijack> for Hands {
    ghost runs = { λ r. r.runs };

    ghost answer = { λ r ps input. Taken Upper };

    ghost steady = { true };

    ghost answered = { λ r. None };

    ghost asked = { λ r. None };

    fn run(&mut self, env: &mut Env) -> Result<Answer<Plain, StockHijack>, NoMemory> {
        let _env = env;
        self.runs += 1;
        Ok(Answer::Taken(Stock::new(self.alloc, true)))
    }
}

/// Hands the connection to a hijacker, behind the head of a reply.
#[derive(Drop)]
pub(crate) struct Parts {
    pub(crate) alloc: Global,
    pub(crate) runs: u64,
}

impl Runner<Plain, StockHijack> for Parts {
    ghost runs = { λ r. r.runs };

    ghost answer = { λ r ps input. Reply 200 [] (plain_content [] false true Enumerable) (Some Upper) };

    ghost steady = { true };

    ghost answered = { λ r. None };

    ghost asked = { λ r. None };

    fn run(&mut self, env: &mut Env) -> Result<Answer<Plain, StockHijack>, NoMemory> {
        let _env = env;
        self.runs += 1;
        Ok(Answer::Reply {
            status: 200,
            headers: Headers::new(self.alloc),
            body: Plain::new(Vec::new(self.alloc), false, true, Kind::Enumerable),
            part: Some(Stock::new(self.alloc, true)),
        })
    }
}
