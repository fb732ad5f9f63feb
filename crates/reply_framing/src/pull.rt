// The body of a reply, pulled piece by piece.
ghost use Rattle.std.specs.Prelude.{◌≡◌, ◌≤◌, ◌++◌, true, length, vec_capacity, None};
ghost use Rattle.reply_framing.specs.declared.pull.Stage.TheVariants as stage;
ghost use Rattle.reply_framing.specs.declared.types.Form.TheVariants as form;
ghost use Rattle.reply_framing.specs.Body.{body_bytes, rule_in};
ghost use Rattle.reply_framing.specs.Coming.{Appends};
ghost use Rattle.reply_framing.specs.Framed.{pending, IsAllOrFull, IsClear};
ghost use Rattle.reply_framing.specs.Fills.{Fills};
ghost use Rattle.reply_framing.specs.Pull.{IsIn, EndsSo, Takes, AsksTo, rest_of, lent, content_of, sure_by};
ghost use Rattle.reply_framing.specs.PullOrder.{AskedNothing};

use crate::framed::Framed;
use crate::types::{Filled, Form};
use circular_buffer::HeapCircularBuffer;
use lint_core::BodyWatch;
use rack_types::{Body, BodyRule, NoMemory, Step};

/// What is known of the body's end.
#[derive(Clone, Copy, Debug, PartialEq, Eq)]
pub(crate) enum Stage {
    Pulling,
    Ended,
    Broken(BodyRule),
}

// What an ask came to: a piece of so many bytes, or an end.
#[derive(Drop)]
pub(crate) enum Asked {
    Piece(usize),
    End(bool),
}

/// What was framed, and the body behind it.
#[derive(Drop)]
pub(crate) struct Pull<B> {
    pub(crate) framed: Framed,
    pub(crate) form: Form,
    pub(crate) watch: BodyWatch,
    pub(crate) stage: Stage,
    pub(crate) body: Option<B>,
}

impl<B: Body> Pull<B> {
    // These bytes, and then a body in this form that promises so many bytes. A body that isn't sent is
    // kept unasked.
    pub(crate) fn new(lead: Vec<u8>, form: Form, promised: Option<u64>, body: B) -> Pull<B>
        requires { 80 ≤ vec_capacity lead }
        ensures within { IsIn B.content B.taken result }
        ensures bytes { (rest_of B.content B.taken result).bytes ≡ lead.items ++ body_bytes form promised (B.content body).pieces (B.content body).raises }
        ensures rule { (rest_of B.content B.taken result).rule ≡ rule_in form promised (B.content body).pieces (B.content body).raises }
        ensures asked { AskedNothing (rest_of B.content B.taken result) form promised (B.content body).pieces (B.content body).raises }
        ensures sure { (rest_of B.content B.taken result).sure ≡ sure_by form (B.content body).sure }
    {
        match form {
            Form::Bare => Pull::alone(lead, promised, Some(body)),
            _ => Pull {
                framed: Framed::new(lead),
                form,
                watch: BodyWatch::new(promised),
                stage: Stage::Pulling,
                body: Some(body),
            },
        }
    }

    // These bytes alone. The body is kept unasked.
    pub(crate) fn alone(lead: Vec<u8>, promised: Option<u64>, body: Option<B>) -> Pull<B>
        requires { 80 ≤ vec_capacity lead }
        ensures within { IsIn B.content B.taken result }
        ensures bytes { (rest_of B.content B.taken result).bytes ≡ lead.items }
        ensures rule { (rest_of B.content B.taken result).rule ≡ None }
        ensures asked { AskedNothing (rest_of B.content B.taken result) form.Bare promised (content_of B.content B.taken body).pieces (content_of B.content B.taken body).raises }
        ensures sure { (rest_of B.content B.taken result).sure ≡ true }
    {
        Pull {
            framed: Framed::new(lead),
            form: Form::Bare,
            watch: BodyWatch::new(promised),
            stage: Stage::Ended,
            body,
        }
    }

    // Appends the next bytes.
    pub(crate) fn fill(&mut self, ring: &mut HeapCircularBuffer<u8>) -> Result<Filled, NoMemory>
        requires { IsIn B.content B.taken self.old }
        ensures within { IsIn B.content B.taken self.new }
        ensures fills { Fills (rest_of B.content B.taken self.old) result (rest_of B.content B.taken self.new) ring.old ring.new }
    {
        loop {
            if !self.append(ring) {
                return Ok(Filled::Full);
            }
            match self.stage {
                Stage::Ended => return Ok(Filled::Done),
                Stage::Broken(rule) => return Ok(Filled::Broke(rule)),
                Stage::Pulling => self.pull()?,
            }
        }
    }

    // Appends what fits of what was framed. Whether all fitted.
    fn append(&mut self, ring: &mut HeapCircularBuffer<u8>) -> bool
        requires { IsIn B.content B.taken self.old }
        ensures within { IsIn B.content B.taken self.new }
        ensures appends { Appends (rest_of B.content B.taken self.old).bytes (rest_of B.content B.taken self.new).bytes ring.old ring.new }
        ensures same { (self.new.form ≡ self.old.form) × (self.new.watch ≡ self.old.watch) × (self.new.stage ≡ self.old.stage) × (self.new.body ≡ self.old.body) }
        ensures answer { IsAllOrFull result (pending self.new.framed (lent B.content B.taken self.new.body)) ring.new }
        ensures clear { result ≡ true → IsClear self.new.framed }
    {
        self.framed.append(lend(&self.body), ring)
    }

    // Asks the body for its next piece, once all before it was appended.
    fn pull(&mut self) -> Result<(), NoMemory>
        requires clear { IsClear self.old.framed }
        requires pulling { self.old.stage ≡ stage.Pulling }
        requires within { IsIn B.content B.taken self.old }
        ensures within { IsIn B.content B.taken self.new }
        ensures takes { Takes B.content B.taken self.old result self.new }
    {
        match ask(&mut self.body)? {
            Asked::Piece(len) => match self.watch.piece(len as u64) {
                None => self.framed.put_piece(self.form, len),
                Some(rule) => {
                    // nothing is left of the promise that the piece passes
                    self.watch = BodyWatch::new(Some(0));
                    self.stage = Stage::Broken(rule);
                }
            },
            Asked::End(raised) => self.end(raised),
        }
        Ok(())
    }

    // The body has told its end.
    fn end(&mut self, raised: bool)
        ensures ended { EndsSo B.content B.taken self.old raised self.new }
    {
        match self.watch.end(raised) {
            None => {
                self.framed.put_last(self.form);
                self.stage = Stage::Ended;
            }
            Some(rule) => {
                self.framed.clear();
                self.stage = Stage::Broken(rule);
            }
        }
    }

    // Closes the body.
    pub(crate) fn close(self) {
        let Pull {
            framed: _,
            form: _,
            watch: _,
            stage: _,
            body,
        } = self;
        if let Some(body) = body {
            body.close();
        }
    }
}

// The piece that the body lends.
fn lend<B: Body>(body: &Option<B>) -> &[u8]
    ensures { result.now ≡ lent B.content B.taken body.now }
{
    match body {
        Some(body) => body.piece(),
        None => &[],
    }
}

// Asks the body for its next piece. With no body that is the end.
fn ask<B: Body>(body: &mut Option<B>) -> Result<Asked, NoMemory>
    ensures { AsksTo result (content_of B.content B.taken body.old) (lent B.content B.taken body.new) (content_of B.content B.taken body.new) }
{
    match body {
        None => Ok(Asked::End(false)),
        Some(body) => ask_body(body),
    }
}

// The same of a body.
fn ask_body<B: Body>(body: &mut B) -> Result<Asked, NoMemory>
    ensures { AsksTo result (B.content body.old) (B.taken body.new) (B.content body.new) }
{
    match body.next()? {
        Step::Piece => Ok(Asked::Piece(body.piece().len())),
        Step::End => Ok(Asked::End(false)),
        Step::Raised => Ok(Asked::End(true)),
    }
}
