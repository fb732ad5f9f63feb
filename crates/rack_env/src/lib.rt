//! The environment of a request, as the Rack SPEC asks for it: pairs of a name and a value, in one
//! fixed order, and the body as input.
#![tactic(auto)]

ghost use Rattle.std.specs.Prelude.{◌≡◌, ◌<◌, None, length, IfOk, OnOk};
ghost use Rattle.rack_types.specs.Input.{unread};
ghost use Rattle.rack_types.specs.Request.{with_body};
ghost use Rattle.rack_types.specs.Rules.{broken_env_rule};
ghost use Rattle.rack_env.specs.Environment.{env_pairs, environment};

mod content;
mod fields;
mod fixed;
mod host;
mod laws;

pub use laws::fields_are_found;
use rack_types::{Bytes, Env, Input, Local, NoMemory, Peer, Request};
use std::alloc::Global;

/// The environment of a request with this input, which came from this peer to this local side.
///
/// The request's body is what the input holds, read or not: a request whose body was moved out into
/// the input has the environment of the whole one. It breaks no rule of an environment where the
/// local name is not empty.
///
/// It takes memory for its table, for room in which names are put together, once for each value that is
/// not empty, and once for each name that comes of a field.
pub fn env_of(
    alloc: Global,
    request: &Request,
    input: Input,
    peer: &Peer,
    local: &Local,
) -> Result<Env, NoMemory>
    ensures pairs { IfOk result (λ e. e.pairs ≡ env_pairs (with_body input.bytes request.now) peer.now local.now) }
    ensures input { IfOk result (λ e. e.input ≡ input) }
    ensures whole { input ≡ unread input.bytes → IfOk result (λ e. e ≡ environment (with_body input.bytes request.now) peer.now local.now) }
    ensures rules { 0 < length local.now.name → IfOk result (λ e. broken_env_rule e.pairs ≡ None) }
{
    let pairs = request.field_count().saturating_add(fixed::COUNT + 2);
    let mut env = Env::with_room(alloc, pairs, Input::new(Bytes::new(Vec::new(alloc))))?;
    refill(&mut env, request, input, peer, local)?;
    Ok(env)
}

/// Makes an environment anew, whatever it was: it is then the request's, as `env_of` makes it.
///
/// What was there gives its room. It takes memory only where that doesn't suffice: none for a request
/// like the one before. After a refusal the environment has some pairs of the new one, and can be made
/// anew.
pub fn refill(
    env: &mut Env,
    request: &Request,
    input: Input,
    peer: &Peer,
    local: &Local,
) -> Result<(), NoMemory>
    ensures pairs { OnOk result (env.new.pairs ≡ env_pairs (with_body input.bytes request.now) peer.now local.now) }
    ensures input { OnOk result (env.new.input ≡ input) }
    ensures whole { input ≡ unread input.bytes → OnOk result (env.new ≡ environment (with_body input.bytes request.now) peer.now local.now) }
    ensures rules { 0 < length local.now.name → OnOk result (broken_env_rule env.new.pairs ≡ None) }
{
    request.soundness();
    let body = input.all().len();
    env.clear(input);
    fixed::put_fixed(env, request, peer, local)?;
    content::put_content(env, request, body)?;
    fields::put_fields(env, request)
}
