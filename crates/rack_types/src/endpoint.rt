// An application.
ghost use Rattle.std.specs.Prelude.{◌≡◌, List, ℕ, IfOk, OnOk};
ghost use Rattle.rack_types.specs.Env.{Pairs};
ghost use Rattle.rack_types.specs.declared.answer.Answer.{Answer};
ghost use Rattle.rack_types.specs.Body.{Content};
ghost use Rattle.rack_types.specs.Answer.{told, IsAsGiven};

use super::{Answer, Body, Env, NoMemory};

/// An application: what it answers is a function of the environment's pairs and the input's bytes,
/// however far the input is read.
pub trait Endpoint {
    /// The bodies of its answers.
    type Body: Body;
    /// What takes a connection over.
    type Take: Drop;

    /// The answer, as data, to these pairs and this input.
    ghost answer: { Self → Pairs → List ℕ → Answer Content Self.Take };

    /// Answers. The pairs and the input's bytes are then as on entry; the input may be read further.
    /// After a refusal all of the environment may have changed.
    fn call(&self, env: &mut Env) -> Result<Answer<Self::Body, Self::Take>, NoMemory>
        ensures answers { IfOk result (λ a. told Self.Body.content a ≡ answer self.now env.old.pairs env.old.input.bytes) }
        ensures same { OnOk result (IsAsGiven env.old env.new) };
}
