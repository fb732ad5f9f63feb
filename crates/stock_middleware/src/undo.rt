// Changes of an environment's pairs, and how they are undone.
ghost use Rattle.std.specs.Prelude.{◌≡◌, IfOk, OnOk, OnErr};
ghost use Rattle.rack_types.specs.Env.{get_pair, set_pair, with_pairs};
ghost use Rattle.stock_middleware.specs.Undo.{put_back, CanPutBack};

use rack_types::{Bytes, Env, NoMemory};
use std::alloc::Global;

/// What brings back the pairs that a middleware has changed for the application.
#[derive(Debug, Drop)]
pub enum Undo {
    /// Nothing was changed.
    Nothing,
    /// The method, and the value of `rack.methodoverride.original_method`, as they were; of the second
    /// there may have been none.
    Method(Bytes, Option<Bytes>),
}

/// Sets the value of a name, as `Env::set` does, and answers what it was, for `put_back`: None where
/// the name wasn't there.
///
/// A refused call changes nothing.
pub fn set_saved(
    alloc: Global,
    env: &mut Env,
    name: &[u8],
    value: &[u8],
) -> Result<Option<Bytes>, NoMemory>
    ensures changed { OnOk result (env.new ≡ with_pairs env.old (set_pair name.now value.now env.old.pairs)) }
    ensures saved { IfOk result (λ was. was ≡ get_pair name.now env.old.pairs) }
    ensures can { IfOk result (λ was. CanPutBack name.now was env.new.pairs) }
    ensures back { IfOk result (λ was. put_back name.now was env.new.pairs ≡ env.old.pairs) }
    ensures unchanged { OnErr result (env.new ≡ env.old) }
{
    let was = swap_value(alloc, env, name, value)?;
    Ok(was)
}

// The same, without what follows from it.
fn swap_value(
    alloc: Global,
    env: &mut Env,
    name: &[u8],
    value: &[u8],
) -> Result<Option<Bytes>, NoMemory>
    ensures changed { OnOk result (env.new ≡ with_pairs env.old (set_pair name.now value.now env.old.pairs)) }
    ensures saved { IfOk result (λ was. was ≡ get_pair name.now env.old.pairs) }
    ensures unchanged { OnErr result (env.new ≡ env.old) }
{
    if env.get(name).is_none() {
        env.set(name, value)?;
        return Ok(None);
    }
    let mut bytes = Bytes::new(Vec::from_slice(alloc, value)?);
    env.replace(name, &mut bytes);
    Ok(Some(bytes))
}

/// Gives a name again what it had: this value, or none. Where it had a value it must have one now; the
/// others keep their places. This takes no memory.
pub fn put_back(env: &mut Env, name: &[u8], was: Option<Bytes>)
    requires { CanPutBack name.now was env.old.pairs }
    ensures { env.new ≡ with_pairs env.old (put_back name.now was env.old.pairs) }
{
    match was {
        None => env.remove(name),
        Some(mut value) => env.replace(name, &mut value),
    }
}
