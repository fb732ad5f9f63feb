// A cascade: endpoints that are called in order, until the answer of one counts.
ghost use Rattle.std.specs.Prelude.{◌≡◌, IfOk, OnOk};
ghost use Rattle.rack_types.specs.Answer.{told, IsAsGiven};
ghost use Rattle.stock_middleware.specs.WareBody.{ware_content};
ghost use Rattle.builder_core.specs.Meaning.{tried};

use crate::replies::{call_app, close, is_passed, say_nothing};
use rack_types::{Answer, Endpoint, Env, NoMemory};
use std::alloc::Global;
use stock_middleware::WareBody;

// Calls the endpoints in order, until an answer isn't passed over. The bodies of those that are passed
// over are closed.
pub(crate) fn call_first<E: Endpoint>(
    alloc: Global,
    apps: &[E],
    env: &mut Env,
) -> Result<Answer<WareBody<E::Body>, E::Take>, NoMemory>
    ensures answers { IfOk result (λ a. told (ware_content E.Body.content) a ≡ tried E.answer apps.now env.old.pairs env.old.input.bytes) }
    ensures same { OnOk result (IsAsGiven env.old env.new) }
{
    let Some((last, front)) = apps.split_last() else {
        return Ok(say_nothing(alloc));
    };
    for app in front {
        let answer = call_app(app, env)?;
        if !is_passed(&answer) {
            return Ok(answer);
        }
        close(answer);
    }
    call_app(last, env)
}
