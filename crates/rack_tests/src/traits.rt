// Each trait at a type of its own, through its bound: a body by hand, a small endpoint, a runner over any
// endpoint, and a runner that tells what it was asked and what it answered.
ghost use Rattle.std.specs.Prelude.{◌≡◌, ◌+◌, ◌-◌, ◌^◌, ◌<◌, [], ◌∷◌, true, false, None, Some, codes, map, if◌then◌else◌};
ghost use Rattle.rack_types.specs.declared.answer.Answer.TheVariants.{Reply};
ghost use Rattle.rack_types.specs.declared.body.Kind.TheVariants.{Enumerable, Streaming};
ghost use Rattle.rack_types.specs.Answer.{told};
ghost use Rattle.rack_types.specs.Plain.{plain_content};

use http_server::Log;
use rack_types::*;
use std::alloc::Global;
use std::convert::Infallible;

// A body of one piece that raises behind it.
#[derive(Drop)]
struct OnePiece {
    text: Bytes,
    given: bool,
}

impl Body for OnePiece {
    ghost content = { λ b. record { pieces = if b.given then [] else (b.text ∷ []); raises = true; known = None; kind = Streaming; sure = true } };

    ghost taken = { λ b. if b.given then b.text else [] };

    fn next(&mut self) -> Result<Step, NoMemory> {
        if self.given {
            return Ok(Step::Raised);
        }
        self.given = true;
        Ok(Step::Piece)
    }

    fn piece(&self) -> &[u8] {
        if self.given { self.text.get() } else { &[] }
    }

    fn known_length(&self) -> Option<u64> {
        None
    }

    fn kind(&self) -> Kind {
        Kind::Streaming
    }

    fn close(self) {}
}

// An endpoint that answers every request alike.
#[derive(Drop)]
struct Hello {
    alloc: Global,
    status: u32,
}

impl Endpoint for Hello {
    type Body = Plain;

    type Take = Infallible;

    ghost answer = { λ h ps input. Reply h.status [] (plain_content (codes "hel" ∷ codes "lo" ∷ []) false true Enumerable) None };

    fn call(&self, env: &mut Env) -> Result<Answer<Plain, Infallible>, NoMemory> {
        let mut pieces = Vec::with_capacity(self.alloc, 2)?;
        pieces.push(Bytes::new(Vec::from_slice(self.alloc, b"hel")?))?;
        pieces.push(Bytes::new(Vec::from_slice(self.alloc, b"lo")?))?;
        Ok(Answer::Reply {
            status: self.status,
            headers: Headers::new(self.alloc),
            body: Plain::new(pieces, false, true, Kind::Enumerable),
            part: None,
        })
    }
}

// A runner over an endpoint, which tells nothing.
#[derive(Drop)]
struct Over<E> {
    endpoint: E,
    runs: u64,
}

impl<E: Endpoint> Runner<E::Body, E::Take> for Over<E> {
    ghost runs = { λ r. r.runs };

    ghost answer = { λ r. E.answer r.endpoint };

    ghost steady = { true };

    ghost answered = { λ r. None };

    ghost asked = { λ r. None };

    fn run(&mut self, env: &mut Env) -> Result<Answer<E::Body, E::Take>, NoMemory> {
        self.runs += 1;
        self.endpoint.call(env)
    }
}

// A runner that tells what it was asked and what it answered. Each run answers a higher status.
#[derive(Drop)]
struct Teller {
    hello: Hello,
    runs: u64,
    answered: Log<Answer<Plain, Infallible>, ()>,
    asked: Log<Env, bool>,
}

impl Runner<Plain, Infallible> for Teller {
    ghost runs = { λ t. t.runs };

    ghost answer = { λ t. ⟦<Hello as Endpoint>⟧.answer t.hello };

    ghost steady = { false };

    ghost answered = { λ t. Some (map (λ p. told (λ b. b.content) p.0) t.answered.items) };

    ghost asked = { λ t. Some (map (λ p. ((p.0.pairs, p.0.input.bytes), p.1)) t.asked.items) };

    fn run(&mut self, env: &mut Env) -> Result<Answer<Plain, Infallible>, NoMemory> {
        let well = self.asked.and(&*env, &true);
        let refused = self.asked.and(&*env, &false);
        self.runs += 1;
        match self.hello.call(env) {
            Ok(answer) => {
                self.asked = well;
                self.answered = self.answered.and(&answer, &());
                self.hello.status = self.hello.status.saturating_add(1);
                Ok(answer)
            }
            Err(e) => {
                self.asked = refused;
                Err(e)
            }
        }
    }
}

// What a body gives: its pieces joined, each with a bar behind it, and `!` where it raises.
fn read_body<B: Body>(alloc: Global, mut body: B) -> Result<Vec<u8>, NoMemory> {
    let mut text = Vec::new(alloc);
    let read = read_pieces(&mut body, &mut text);
    body.close();
    read?;
    Ok(text)
}

fn read_pieces<B: Body>(body: &mut B, text: &mut Vec<u8>) -> Result<(), NoMemory> {
    for _ in 0..8 {
        match body.next()? {
            Step::Piece => {
                text.extend_from_slice(body.piece())?;
                text.push(b'|')?;
            }
            Step::End => return Ok(()),
            Step::Raised => {
                text.push(b'!')?;
                return Ok(());
            }
        }
    }
    Ok(())
}

// The status that a runner answers, and its body as `read_body` has it; 0 where it gives no reply.
fn run_once<B: Body, H: Drop, R: Runner<B, H>>(
    alloc: Global,
    runner: &mut R,
    env: &mut Env,
) -> Result<(u32, Vec<u8>), NoMemory>
    requires { R.runs runner.old < 2 ^ 64 - 1 }
    ensures { R.runs runner.new ≡ R.runs runner.old + 1 }
{
    match runner.run(env)? {
        Answer::Reply { status, body, .. } => Ok((status, read_body(alloc, body)?)),
        Answer::Raised(_) => Ok((0, Vec::new(alloc))),
        Answer::Taken(_) => Ok((0, Vec::new(alloc))),
    }
}

fn empty_env(alloc: Global) -> Env {
    Env::new(alloc, Input::new(Bytes::new(Vec::new(alloc))))
}

fn one_piece(alloc: Global) -> Result<OnePiece, NoMemory> {
    let text = Bytes::new(Vec::from_slice(alloc, b"text")?);
    Ok(OnePiece { text, given: false })
}

#[test]
fn bodies_are_pulled(rt: HostRuntime) -> Result<(), NoMemory> {
    let text = read_body(rt.alloc(), one_piece(rt.alloc())?)?;
    assert_eq!(rt; text.as_slice(), "text|!".as_bytes());
    Ok(())
}

fn put_piece(alloc: Global, pieces: &mut Vec<Bytes>, text: &[u8]) -> Result<(), NoMemory> {
    pieces.push(Bytes::new(Vec::from_slice(alloc, text)?))?;
    Ok(())
}

fn put_two(alloc: Global, pieces: &mut Vec<Bytes>) -> Result<(), NoMemory> {
    put_piece(alloc, pieces, b"hel")?;
    put_piece(alloc, pieces, b"lo")
}

fn length_of_two(alloc: Global) -> Result<Option<u64>, NoMemory> {
    let mut pieces = Vec::new(alloc);
    match put_two(alloc, &mut pieces) {
        Ok(()) => Ok(Plain::new(pieces, false, true, Kind::Enumerable).known_length()),
        Err(refused) => Err(refused),
    }
}

#[test]
fn length_is_known(rt: HostRuntime) -> Result<(), NoMemory> {
    assert_eq!(rt; length_of_two(rt.alloc())?, Some(5));
    Ok(())
}

fn says_hello(alloc: Global, over: &mut Over<Hello>, env: &mut Env) -> Result<bool, NoMemory>
    requires { over.old.runs < 2 ^ 64 - 1 }
{
    let (status, text) = run_once(alloc, over, env)?;
    Ok(status == 200 && text.as_slice() == "hel|lo|".as_bytes())
}

#[test]
fn runs_an_endpoint(rt: HostRuntime) -> Result<(), NoMemory> {
    let mut env = empty_env(rt.alloc());
    let endpoint = Hello {
        alloc: rt.alloc(),
        status: 200,
    };
    let mut over = Over { endpoint, runs: 0 };
    assert!(rt; says_hello(rt.alloc(), &mut over, &mut env)?);
    Ok(())
}

// The status of the second run.
fn second_status(alloc: Global, teller: &mut Teller, env: &mut Env) -> Result<u32, NoMemory>
    requires { teller.old.runs ≡ 0 }
{
    let _ = run_once(alloc, teller, env)?;
    let (second, _) = run_once(alloc, teller, env)?;
    Ok(second)
}

#[test]
fn tells_its_runs(rt: HostRuntime) -> Result<(), NoMemory> {
    let mut env = empty_env(rt.alloc());
    let mut teller = Teller {
        hello: Hello {
            alloc: rt.alloc(),
            status: 201,
        },
        runs: 0,
        answered: Log::new(),
        asked: Log::new(),
    };
    assert_eq!(rt; second_status(rt.alloc(), &mut teller, &mut env)?, 202);
    Ok(())
}

// What goes into a connection crosses threads.
fn crosses<T: Send + Drop>(_value: T) {}

fn answers_cross<B: Send + Drop, H: Send + Drop>(answer: Answer<B, H>) {
    crosses(answer);
}

#[test]
fn answers_and_bodies_cross(rt: HostRuntime) {
    let alloc = rt.alloc();
    crosses(Headers::new(alloc));
    crosses(Plain::new(Vec::new(alloc), false, true, Kind::Enumerable));
    answers_cross::<Plain, Infallible>(Answer::Raised(Bytes::new(Vec::new(alloc))));
}
