// The middleware, and what each does.
ghost use Rattle.std.specs.Prelude.{◌≡◌, IfOk, IsSome, OnOk, OnErr, option_map};
ghost use Rattle.rack_types.specs.Answer.{told};
ghost use Rattle.rack_types.specs.Env.{with_pairs};
ghost use Rattle.rack_types.specs.EnvRules.{broken_env_rule};
ghost use Rattle.stock_middleware.specs.Undo.{undone, CanUndo};
ghost use Rattle.stock_middleware.specs.WareBody.{ware_content};
ghost use Rattle.stock_middleware.specs.Wares as spec;

use crate::body::WareBody;
use crate::overriding::change_method;
use crate::undo::{Undo, put_back};
use crate::{lint, reply};
use rack_types::{Answer, Body, Bytes, Env, NoMemory};
use std::alloc::Global;

/// A middleware. It stands around an application: `refuses` says whether the application is called at
/// all, `before` changes the environment for it, `after` changes its answer, and `undo` brings the
/// environment back.
///
/// An answer that was raised passes unchanged through all of them. So does one that was taken, except
/// that Lint names the rule L9.
#[derive(Debug, Drop)]
pub enum Ware {
    /// An answer to HEAD gets an empty body of known length; its own is closed.
    Head,
    /// Adds `content-length` where the body's length is known and neither that header nor
    /// `transfer-encoding` is there. A status without a body (100 to 199, 204, 304) gets none.
    ContentLength,
    /// Adds `content-type` with this value where it isn't there. A status without a body gets none.
    ContentType(Bytes),
    /// Gives a POST the method that its form or its header `X-HTTP-Method-Override` asks for.
    ///
    /// Where CONTENT_TYPE up to its first `;` is `application/x-www-form-urlencoded` in any case, the
    /// last pair `_method` of the body counts; without such a pair the header does. Where that, in upper
    /// case, is GET, HEAD, PUT, POST, DELETE, OPTIONS, PATCH, LINK or UNLINK, it becomes
    /// REQUEST_METHOD, and `rack.methodoverride.original_method` is `POST`.
    MethodOverride,
    /// Gives a header, by its name, exactly this value. A name that is there keeps its place.
    SetHeader(Bytes, Bytes),
    /// Holds the environment and the answer to all their rules (docs/DEFINITIONS.md). Where one is
    /// broken, the least by its number, the answer is a 500 whose header `x-lint` names it.
    Lint,
}

impl Ware {
    /// Whether the application isn't called, and then the answer that stands in its place: the 500
    /// that names the least rule E which the environment breaks. Only Lint ever refuses, and only that
    /// answer takes memory.
    pub fn refuses<B: Body, H: Drop>(
        &self,
        alloc: Global,
        env: &Env,
    ) -> Result<Option<Answer<WareBody<B>, H>>, NoMemory>
        ensures refusal { IfOk result (λ o. option_map (told (ware_content B.content)) o ≡ spec.refusal self.now env.now.pairs) }
        ensures memory { OnErr result ((self.now ≡ Ware.Lint) × IsSome (broken_env_rule env.now.pairs)) }
    {
        match self {
            Ware::Lint => lint::refuse(alloc, env),
            Ware::Head
            | Ware::ContentLength
            | Ware::ContentType(_)
            | Ware::MethodOverride
            | Ware::SetHeader(_, _) => Ok(None),
        }
    }

    /// Changes the pairs for the application, and answers how that is undone. The input stays as it
    /// is, also how far it is read. Only MethodOverride changes anything or takes memory.
    ///
    /// A refused call changes nothing.
    pub fn before(&self, alloc: Global, env: &mut Env) -> Result<Undo, NoMemory>
        ensures changed { OnOk result (env.new ≡ with_pairs env.old (spec.before self.now env.old.pairs env.old.input.bytes)) }
        ensures can { IfOk result (λ u. CanUndo u env.new.pairs) }
        ensures back { IfOk result (λ u. undone u env.new.pairs ≡ env.old.pairs) }
        ensures unchanged { OnErr result (env.new ≡ env.old) }
        ensures memory { OnErr result (self.now ≡ Ware.MethodOverride) }
    {
        match self {
            Ware::MethodOverride => change_method(alloc, env),
            Ware::Head
            | Ware::ContentLength
            | Ware::ContentType(_)
            | Ware::SetHeader(_, _)
            | Ware::Lint => Ok(Undo::Nothing),
        }
    }

    /// Brings back the pairs that `before` changed, whatever became of the application. The names
    /// that had a value must have one now, as behind `before`. This takes no memory.
    pub fn undo(&self, env: &mut Env, undo: Undo)
        requires { CanUndo undo env.old.pairs }
        ensures { env.new ≡ with_pairs env.old (undone undo env.old.pairs) }
    {
        match undo {
            Undo::Nothing => {}
            Undo::Method(mut method, original) => {
                env.replace(b"REQUEST_METHOD", &mut method);
                put_back(env, b"rack.methodoverride.original_method", original);
            }
        }
    }

    /// What becomes of the application's answer. The environment is the one that the application was
    /// called with, or the one before the change: it makes no difference.
    ///
    /// A body that is put aside is closed, and so is the answer's body where memory is refused. Head
    /// and MethodOverride take no memory.
    pub fn after<B: Body, H: Drop>(
        &self,
        alloc: Global,
        env: &Env,
        answer: Answer<WareBody<B>, H>,
    ) -> Result<Answer<WareBody<B>, H>, NoMemory>
        ensures after { IfOk result (λ a. told (ware_content B.content) a ≡ spec.after self.now env.now.pairs (told (ware_content B.content) answer)) }
        ensures memory { OnErr result (spec.MayTakeMemory self.now) }
    {
        match self {
            Ware::Head => Ok(reply::empty_for_head(alloc, env, answer)),
            Ware::ContentLength => reply::add_length(alloc, env, answer),
            Ware::ContentType(kind) => reply::add_type(kind, env, answer),
            Ware::MethodOverride => Ok(answer),
            Ware::SetHeader(name, value) => reply::set_header(name, value, env, answer),
            Ware::Lint => lint::lint(alloc, env, answer),
        }
    }
}
