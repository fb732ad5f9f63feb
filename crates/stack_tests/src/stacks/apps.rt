// The endpoint of the tests, and stacks that are written as words.
ghost use Rattle.std.specs.Prelude.{◌≡◌, ◌==◌, ◌++◌, IfOk, ◌∷◌, [], true, false, codes, None, if◌then◌else◌};
ghost use Rattle.rack_types.specs.Plain.{plain_content};
ghost use Rattle.rack_types.specs.declared.answer.Answer.TheVariants.{Reply, Raised, Taken};
ghost use Rattle.rack_types.specs.declared.body.Kind.TheVariants.{Enumerable};
ghost use Rattle.builder_core.specs.Places.{path_of, value_or_empty};

use builder_core::{Line, Steps};
use rack_types::{Answer, Body, Bytes, Endpoint, Env, Headers, Kind, NoMemory, Plain, Step};
use std::alloc::Global;
use std::cell::Cell;
use std::mem;
use std::rc::Rc;
use stock_middleware::Ware;

// A body that counts that it was closed. It has no `Drop`.
pub(crate) struct Counted {
    plain: Plain,
    closed: Rc<Cell<u32>>,
}

impl Body for Counted {
    ghost content = { λ b. b.plain.content };

    ghost taken = { λ b. b.plain.taken };

    fn next(&mut self) -> Result<Step, NoMemory> {
        self.plain.next()
    }

    fn piece(&self) -> &[u8] {
        self.plain.piece()
    }

    fn known_length(&self) -> Option<u64> {
        self.plain.known_length()
    }

    fn kind(&self) -> Kind {
        self.plain.kind()
    }

    fn close(self) {
        let Counted { plain, closed } = self;
        plain.close();
        closed.set(closed.get().saturating_add(1));
    }
}

// Answers with this status, and with its name, the script's name, a colon and the path as the body. The status 0
// raises the name, and the status 1 takes the connection.
#[derive(Drop)]
pub(crate) struct Says {
    alloc: Global,
    status: u32,
    name: Bytes,
    closed: Rc<Cell<u32>>,
}

impl Says {
    // The body's text.
    fn text(&self, env: &Env) -> Result<Bytes, NoMemory>
        ensures { IfOk result (λ text. text ≡ self.now.name ++ (value_or_empty (codes "SCRIPT_NAME") env.now.pairs ++ (codes ":" ++ path_of env.now.pairs))) }
    {
        let mut text = Vec::from_slice(self.alloc, self.name.get())?;
        text.extend_from_slice(env.get(b"SCRIPT_NAME").unwrap_or(b""))?;
        text.extend_from_slice(b":")?;
        text.extend_from_slice(env.get(b"PATH_INFO").unwrap_or(b""))?;
        Ok(Bytes::new(text))
    }
}

impl Endpoint for Says {
    type Body = Counted;

    type Take = u8;

    ghost answer = { λ s ps input.
        if s.status == 0 then Raised s.name
        else if s.status == 1 then Taken 7
        else Reply s.status [] (plain_content ((s.name ++ (value_or_empty (codes "SCRIPT_NAME") ps ++ (codes ":" ++ path_of ps))) ∷ []) false true Enumerable) None };

    fn call(&self, env: &mut Env) -> Result<Answer<Counted, u8>, NoMemory> {
        if self.status == 0 {
            let name = Vec::from_slice(self.alloc, self.name.get())?;
            return Ok(Answer::Raised(Bytes::new(name)));
        }
        if self.status == 1 {
            return Ok(Answer::Taken(7));
        }
        let mut pieces = Vec::new(self.alloc);
        pieces.push(self.text(env)?)?;
        let closed = self.closed.clone()?;
        Ok(Answer::Reply {
            status: self.status,
            headers: Headers::new(self.alloc),
            body: Counted {
                plain: Plain::new(pieces, false, true, Kind::Enumerable),
                closed,
            },
            part: None,
        })
    }
}

// An endpoint of this name: `raise`, `take`, a number, which is its status, or another name, which has the
// status 200.
fn endpoint(alloc: Global, name: &[u8], closed: &Rc<Cell<u32>>) -> Result<Says, NoMemory> {
    let closed = closed.clone()?;
    Ok(Says {
        alloc,
        status: status_of(name),
        name: Bytes::new(Vec::from_slice(alloc, name)?),
        closed,
    })
}

fn status_of(name: &[u8]) -> u32 {
    match name {
        b"raise" => 0,
        b"take" => 1,
        b"404" => 404,
        b"405" => 405,
        b"500" => 500,
        _ => 200,
    }
}

fn add_endpoint(
    alloc: Global,
    apps: &mut Vec<Says>,
    name: &[u8],
    closed: &Rc<Cell<u32>>,
) -> Result<(), NoMemory> {
    Ok(apps.push(endpoint(alloc, name, closed)?)?)
}

fn add_endpoints(
    alloc: Global,
    apps: &mut Vec<Says>,
    names: &[u8],
    closed: &Rc<Cell<u32>>,
) -> Result<(), NoMemory> {
    for name in names.split(|byte| *byte == b',') {
        if !name.is_empty() {
            add_endpoint(alloc, apps, name, closed)?;
        }
    }
    Ok(())
}

fn several(alloc: Global, names: &[u8], closed: &Rc<Cell<u32>>) -> Result<Vec<Says>, NoMemory> {
    let mut apps = Vec::new(alloc);
    match add_endpoints(alloc, &mut apps, names, closed) {
        Ok(()) => Ok(apps),
        Err(refused) => Err(refused),
    }
}

// A middleware of this name: `lint`, `method`, or another name, which is set as a header.
fn ware(alloc: Global, name: &[u8]) -> Result<Ware, NoMemory> {
    match name {
        b"lint" => Ok(Ware::Lint),
        b"method" => Ok(Ware::MethodOverride),
        _ => set_header(alloc, name),
    }
}

fn set_header(alloc: Global, name: &[u8]) -> Result<Ware, NoMemory> {
    let name = Bytes::new(Vec::from_slice(alloc, name)?);
    Ok(Ware::SetHeader(name, Bytes::new(Vec::from_slice(alloc, b"1")?)))
}

// A block that is open: its place, and the lines in front of it.
type Open = (Bytes, Vec<Line<Says>>);

fn put_line(lines: &mut Vec<Line<Says>>, line: Line<Says>) -> Result<(), NoMemory> {
    Ok(lines.push(line)?)
}

// Opens a block for a place.
fn open(
    alloc: Global,
    outer: &mut Vec<Open>,
    lines: &mut Vec<Line<Says>>,
    place: &[u8],
) -> Result<(), NoMemory> {
    let place = Bytes::new(Vec::from_slice(alloc, place)?);
    let before = mem::replace(lines, Vec::new(alloc));
    outer.push((place, before))?;
    Ok(())
}

// Ends the innermost block.
fn end(outer: &mut Vec<Open>, lines: &mut Vec<Line<Says>>) -> Result<(), NoMemory> {
    match outer.pop() {
        Some((place, before)) => {
            let block = Steps {
                lines: mem::replace(lines, before),
            };
            put_line(lines, Line::Map(place, block))
        }
        None => Ok(()),
    }
}

fn add_word(
    alloc: Global,
    outer: &mut Vec<Open>,
    lines: &mut Vec<Line<Says>>,
    word: &[u8],
    closed: &Rc<Cell<u32>>,
) -> Result<(), NoMemory> {
    let Some((kind, rest)) = word.split_first() else {
        return Ok(());
    };
    match *kind {
        b'u' => put_line(lines, Line::Use(ware(alloc, rest)?)),
        b'r' => put_line(lines, Line::Run(endpoint(alloc, rest, closed)?)),
        b'c' => put_line(lines, Line::Cascade(several(alloc, rest, closed)?)),
        b'm' => open(alloc, outer, lines, rest),
        _ => end(outer, lines),
    }
}

fn add_words(
    alloc: Global,
    lines: &mut Vec<Line<Says>>,
    text: &str,
    closed: &Rc<Cell<u32>>,
) -> Result<(), NoMemory> {
    let mut outer = Vec::new(alloc);
    for word in text.as_bytes().split(|byte| *byte == b' ') {
        add_word(alloc, &mut outer, lines, word, closed)?;
    }
    Ok(())
}

// The steps that the words say. The first byte of a word is `u` for a middleware, `r` for an endpoint, `c`
// for a cascade of endpoints that are parted by commas, `m` for a map, or `e` for its end.
pub(crate) fn steps(
    alloc: Global,
    text: &str,
    closed: &Rc<Cell<u32>>,
) -> Result<Steps<Says>, NoMemory> {
    let mut lines = Vec::new(alloc);
    match add_words(alloc, &mut lines, text, closed) {
        Ok(()) => Ok(Steps { lines }),
        Err(refused) => Err(refused),
    }
}
