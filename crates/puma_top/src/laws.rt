// Laws over the definitions. Each function does nothing: its contract is the law.
ghost use Rattle.std.specs.Prelude.{◌≡◌, ℕ, List};
ghost use Rattle.stock_apps.specs.declared.app.App.{App};
ghost use Rattle.builder_core.specs.Tree.{Tree};
ghost use Rattle.puma_top.specs.Stack.{IsStackOf};
ghost use Rattle.puma_top.specs.Once.{Site, AnsweredAll};

/// A text is one stack at most: what it answers is determined.
pub fn one_stack_at_most()
    ensures { (text : List ℕ) (stack other : Tree App) → IsStackOf text stack → IsStackOf text other → stack ≡ other }
{}

/// What is written is determined by what serves and by the bytes that came.
pub fn one_answer_at_most()
    ensures { (site : Site) (bytes text other : List ℕ) → AnsweredAll site bytes text → AnsweredAll site bytes other → text ≡ other }
{}
