// What runs an application, once for each request.
ghost use Rattle.std.specs.Prelude.{◌≡◌, ◌+◌, ◌<◌, ◌-◌, ◌^◌, List, ℕ, Bool, true, Option, IfOk, OnOk, ⊤};
ghost use Rattle.rack_types.specs.Env.{Pairs};
ghost use Rattle.rack_types.specs.declared.answer.Answer.{Answer};
ghost use Rattle.rack_types.specs.Body.{Content};
ghost use Rattle.rack_types.specs.Answer.{told, IsAsGiven};
ghost use Rattle.rack_types.specs.Runner.{Asked, answered_then, asked_then};

use super::{Answer, Body, Env, NoMemory};

/// What a connection asks for the answer to each of its requests.
///
/// A runner counts its runs. Where it is `steady`, what it answers is foretold by `answer`, and a run
/// leaves that as it was. Of another one, whose answers may rest on what is outside, it isn't. What a
/// runner was asked and what it answered contracts see where it tells that; and what a run makes of the
/// runner itself, where it says so.
pub trait Runner<B: Body, H> {
    /// How many runs there were, refused ones too.
    ghost runs: { Self → ℕ };
    /// The answer, as data, that a run of a steady runner gives to these pairs and this input.
    ghost answer: { Self → Pairs → List ℕ → Answer Content H };
    /// Each run gives the answer that is foretold, and leaves the answers to all environments as they were.
    ghost steady: { Bool };
    /// The answers that its runs gave, in order, where it tells them.
    ghost answered: { Self → Option (List (Answer Content H)) };
    /// The environments that its runs were given, in order, each with whether that run was Ok, where
    /// it tells them.
    ghost asked: { Self → Option (List (Asked × Bool)) };
    /// A run, refused or not, makes of the first the second. A runner that says nothing of it keeps this default.
    ghost becomes: { Self → Self → Type 0 } = { λ _ _. ⊤ };

    /// Answers, and counts the run. The pairs and the input's bytes are then as on entry; the input may
    /// be read further. After a refusal all of the environment may have changed.
    fn run(&mut self, env: &mut Env) -> Result<Answer<B, H>, NoMemory>
        requires { runs self.old < 2 ^ 64 - 1 }
        ensures counts { runs self.new ≡ runs self.old + 1 }
        ensures answers { steady ≡ true → IfOk result (λ a. told B.content a ≡ answer self.old env.old.pairs env.old.input.bytes) }
        ensures same { OnOk result (IsAsGiven env.old env.new) }
        ensures keeps { steady ≡ true → (ps : Pairs) (input : List ℕ) → answer self.new ps input ≡ answer self.old ps input }
        ensures answered { answered self.new ≡ answered_then B.content result (answered self.old) }
        ensures asked { asked self.new ≡ asked_then result env.old (asked self.old) }
        ensures becomes { becomes self.old self.new };
}
