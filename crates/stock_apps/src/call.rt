// What the endpoints answer.
ghost use Rattle.std.specs.Prelude.{◌≡◌};
ghost use Rattle.rack_types.specs.Answer.{told};
ghost use Rattle.stock_apps.specs.Answers as spec;
ghost use Rattle.stock_apps.specs.Answers.{app_answer};

use crate::App;
use crate::bad::{bad_headers, bad_status};
use crate::bodies::{copy, empty_body, one_piece, unmeasured};
use crate::headers::{cookie_headers, plain_type, sized, typed};
use crate::lines::pair_lines;
use hijack_core::{Stock, StockHijack};
use rack_types::{Answer, Endpoint, Env, Headers, Kind, NoMemory, Plain};
use std::alloc::Global;

impl Endpoint for App {
    type Body = Plain;

    type Take = StockHijack;

    ghost answer = { λ app pairs input. app_answer app pairs input };

    fn call(&self, env: &mut Env) -> Result<Answer<Plain, StockHijack>, NoMemory> {
        let alloc = allocator_of(env);
        match self {
            App::Text { status, kind, body } => {
                let headers = typed(alloc, kind.get())?;
                let body = one_piece(alloc, copy(alloc, body.get())?)?;
                Ok(reply(*status, headers, body))
            }
            App::Echo => {
                let body = one_piece(alloc, copy(alloc, env.input().all())?)?;
                Ok(reply(200, plain_type(alloc)?, body))
            }
            App::Env => {
                let body = one_piece(alloc, pair_lines(alloc, env)?)?;
                Ok(reply(200, plain_type(alloc)?, body))
            }
            App::Pieces { status, pieces } => {
                let body = unmeasured(alloc, pieces, false, Kind::Enumerable)?;
                Ok(reply(*status, plain_type(alloc)?, body))
            }
            App::Stream(pieces) => {
                let body = unmeasured(alloc, pieces, false, Kind::Streaming)?;
                Ok(reply(200, plain_type(alloc)?, body))
            }
            App::Cookies(values) => {
                let headers = cookie_headers(alloc, values.get())?;
                Ok(reply(200, headers, empty_body(alloc)))
            }
            App::Bad(numbers) => {
                let headers = bad_headers(alloc, numbers.get())?;
                let body = one_piece(alloc, copy(alloc, b"ok")?)?;
                Ok(reply(bad_status(numbers.get()), headers, body))
            }
            App::Raise(text) => Ok(Answer::Raised(copy(alloc, text.get())?)),
            App::Late {
                length,
                pieces,
                raises,
            } => {
                let body = unmeasured(alloc, pieces, *raises, Kind::Enumerable)?;
                Ok(reply(200, sized(alloc, *length)?, body))
            }
            App::Take { upper } => Ok(Answer::Taken(Stock::new(alloc, *upper))),
            App::Part { status, upper } => Ok(handed_over(alloc, *status, *upper)),
        }
    }
}

// What the environment takes its memory from.
fn allocator_of(env: &mut Env) -> Global
    ensures { env.new ≡ env.old }
{
    let room = env.take_room();
    let alloc = *room.allocator();
    env.keep_room(room);
    alloc
}

// A reply that leaves the connection with the server.
fn reply(status: u32, headers: Headers, body: Plain) -> Answer<Plain, StockHijack>
    ensures { told (λ b. b.content) result ≡ spec.reply status headers body.content }
{
    Answer::Reply {
        status,
        headers,
        body,
        part: None,
    }
}

// A reply without headers, behind which a stock hijacker takes the connection over. It takes no memory.
fn handed_over(alloc: Global, status: u32, upper: bool) -> Answer<Plain, StockHijack>
    ensures { told (λ b. b.content) result ≡ spec.handed_over status upper }
{
    Answer::Reply {
        status,
        headers: Headers::new(alloc),
        body: Plain::new(Vec::new(alloc), false, false, Kind::Enumerable),
        part: Some(Stock::new(alloc, upper)),
    }
}
