// A reply, put into a ring as there is room.
ghost use Rattle.std.specs.Prelude.{◌≡◌, ◌↔◌, [], false, true, IfOk, IsSome, IsTrue, Some, None};
ghost use Rattle.rack_types.specs.declared.rules.Set.TheVariants.{Server};
ghost use Rattle.rack_types.specs.Answer.{told};
ghost use Rattle.rack_types.specs.AnswerRules.{broken_rule};
ghost use Rattle.reply_framing.specs.declared.types.Form.TheVariants.{Bare};
ghost use Rattle.reply_framing.specs.Fills.{Fills, after_then};
ghost use Rattle.reply_framing.specs.Owes.{StandsFor, AsksNothingBy, is_sure};
ghost use Rattle.reply_framing.specs.Reply.{reply};

use crate::pull::Pull;
use crate::start::{broken, partial, taken, with_body};
use crate::types::{After, Ask, Filled};
use circular_buffer::HeapCircularBuffer;
use lint_core::{Set, check_head, check_taken};
use rack_types::{Answer, Body, Env, NoMemory, Rule};
use std::alloc::Global;
use std::marker::Model;

/// The reply to an answer, of which some was appended to a ring and the rest is still to come.
///
/// It holds the head, the body, and what is left of one framed piece: behind each `fill` the bytes of
/// all pieces that it took but the last were appended. So it takes memory at its start alone, beside
/// what the body takes. A framer has no `Drop` where its body has none: it is spent by `finish`.
#[derive(Drop)]
pub struct Framer<B: Body, H> {
    pub(crate) pull: Pull<B>,
    pub(crate) after: After,
    pub(crate) hijacker: Option<H>,
}

impl<B: Body, H> Model for Framer<B, H> {
    ghost use Rattle.reply_framing.specs.Coming.{Coming};
    ghost use Rattle.reply_framing.specs.Pull.{rest_of};
    ghost use Rattle.reply_framing.specs.Framer.{IsFramer};

    ghost Value = { Coming H };

    ghost view = { λ f. record { rest = rest_of B.content B.taken f.pull; after = f.after; hijacker = f.hijacker } };

    ghost invariant = { λ f. IsFramer B.content B.taken f.pull f.after f.hijacker };
}

impl<B: Body, H: Drop> Framer<B, H> {
    /// A framer of the reply to this answer, which was given to this environment. `last` says that the
    /// connection takes no further request, whatever the answer is.
    ///
    /// An answer that breaks a rule of the server's set is put aside, and its body closed: the reply is
    /// then the 500 that names the least such rule (docs/DEFINITIONS.md). The body that it holds was
    /// asked nothing. It takes memory for the head. Where that is refused, the body was closed.
    pub fn start(
        alloc: Global,
        ask: Ask,
        env: &Env,
        answer: Answer<B, H>,
        last: bool,
    ) -> Result<Framer<B, H>, NoMemory>
        ensures stands { IfOk result (λ f. StandsFor f (reply ask env.now.pairs (told B.content answer) last)) }
        ensures asked { IfOk result (λ f. AsksNothingBy (broken_rule Server env.now.pairs (told B.content answer)) ask (told B.content answer) f.rest) }
        ensures sure { IfOk result (λ f. IsTrue (is_sure (told B.content answer)) → f.rest.sure ≡ true) }
        ensures bare { IfOk result (λ f. f.rest.form ≡ Bare → f.rest.sure ≡ true) }
    {
        match answer {
            Answer::Reply {
                status,
                headers,
                body,
                part,
            } => {
                let known = body.known_length();
                match check_head(Set::Server, env, status, &headers, known, part.is_some()) {
                    Some(rule) => {
                        body.close();
                        broken(alloc, ask, rule, last)
                    }
                    None => match part {
                        None => with_body(alloc, ask, status, &headers, body, last),
                        Some(hijacker) => partial(alloc, status, &headers, body, hijacker),
                    },
                }
            }
            Answer::Raised(_) => broken(alloc, ask, Rule(0), last),
            Answer::Taken(hijacker) => match check_taken(env) {
                Some(rule) => broken(alloc, ask, rule, last),
                None => taken(alloc, hijacker),
            },
        }
    }
}

impl<B: Body, H> Framer<B, H> {
    /// Appends the next bytes of the reply.
    ///
    /// `Full` comes exactly where the ring is full and bytes remain, `Done` exactly where the whole
    /// reply was appended, and `Broke` exactly where the body broke a rule and all before the break was
    /// appended. It takes no memory: want of memory comes only of a body that may want it and that is
    /// sent, and the framer can go on behind it.
    pub fn fill(&mut self, ring: &mut HeapCircularBuffer<u8>) -> Result<Filled, NoMemory>
        ensures fills { Fills self.old.rest result self.new.rest ring.old ring.new }
        ensures after { self.new.after ≡ after_then result self.old.after }
        ensures hijacker { self.new.hijacker ≡ self.old.hijacker }
    {
        let answer = self.pull.fill(ring);
        if let Ok(Filled::Broke(_)) = &answer {
            self.after = After::Close;
        }
        answer
    }

    /// What becomes of the connection behind the reply, as far as it is known. Where the body breaks a
    /// rule it is `Close` from that `fill` on which told so.
    pub fn after(&self) -> After
        ensures { result ≡ self.now.after }
    {
        self.after
    }

    /// Closes the body, in whatever state it is, and hands out the hijacker, which is there exactly where
    /// `after` is `Hijack`. It may be called at any time, and takes no memory.
    pub fn finish(self) -> Option<H>
        ensures hijacker { result ≡ self.hijacker }
        ensures exactly { IsSome result ↔ (self.after ≡ After.Hijack) }
    {
        let Framer {
            pull,
            after: _,
            hijacker,
        } = self;
        pull.close();
        hijacker
    }
}
