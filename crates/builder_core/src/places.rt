// Places: which one fits a path, and what changes inside it.
ghost use Rattle.std.specs.Prelude.{◌≡◌, ◌++◌, ◌≤◌, IfOk, OnOk, Some, None, length, drop, codes, if◌then◌else◌};
ghost use Rattle.rack_types.specs.Env.{with_pairs};
ghost use Rattle.builder_core.specs.Leaving.{outside, CanLeave};
ghost use Rattle.builder_core.specs.Nodes.{numbered, shown};
ghost use Rattle.builder_core.specs.Places.{best, ends_segment, fits, inside, longer, path_of, value_or_empty};

use rack_types::{Bytes, Env, NoMemory};
use std::alloc::Global;
use stock_middleware::{put_back, set_saved};

// A place, and the number of the node that answers there.
#[derive(Drop)]
pub(crate) struct Place {
    pub(crate) path: Bytes,
    pub(crate) node: usize,
}

// The value of a name, empty where there is none.
fn value_of<'a>(env: &'a Env, name: &[u8]) -> &'a [u8]
    ensures { result.now ≡ value_or_empty name.now env.now.pairs }
{
    match env.get(name) {
        Some(value) => value,
        None => b"",
    }
}

// The path that places are looked for in.
pub(crate) fn path_of(env: &Env) -> &[u8]
    ensures { result.now ≡ path_of env.now.pairs }
{
    value_of(env, b"PATH_INFO")
}

// Whether the place fits the path.
fn fits(path: &[u8], place: &[u8]) -> bool
    ensures { result ≡ fits path.now place.now }
{
    path.starts_with(place) && ends_segment(&path[place.len()..])
}

// Whether what is left of a path is empty or begins with `/`.
fn ends_segment(rest: &[u8]) -> bool
    ensures { result ≡ ends_segment rest.now }
{
    match rest {
        [] => true,
        [first, ..] => *first == b'/',
    }
}

// The longest place that fits the path, the first at a tie.
pub(crate) fn find_place<'a>(places: &'a [Place], path: &[u8]) -> Option<&'a Place>
    ensures { shown result ≡ best path.now (numbered places.now) }
{
    let mut found: Option<&Place> = None;
    for place in places {
        found = longer_of(found, place, path);
    }
    found
}

// The new place, where it fits and is longer than the one that was found so far.
fn longer_of<'a>(found: Option<&'a Place>, place: &'a Place, path: &[u8]) -> Option<&'a Place>
    ensures { shown result ≡ longer (shown found.entry) (if fits path.now place.now.path then Some (place.now.path, place.now.node) else None) }
{
    if !fits(path, place.path.get()) {
        return found;
    }
    match found {
        None => Some(place),
        Some(former) => {
            if former.path.get().len() < place.path.get().len() {
                Some(place)
            } else {
                Some(former)
            }
        }
    }
}

// What `leave` brings back: the script's name, and the path.
pub(crate) type Former = (Option<Bytes>, Option<Bytes>);

// Goes into a place, which is at most as long as the path.
pub(crate) fn enter(alloc: Global, env: &mut Env, place: &[u8]) -> Result<Former, NoMemory>
    requires { length place.now ≤ length (path_of env.old.pairs) }
    ensures moved { OnOk result (env.new ≡ with_pairs env.old (inside place.now env.old.pairs)) }
    ensures can { IfOk result (λ was. CanLeave was env.new.pairs) }
    ensures back { IfOk result (λ was. outside was env.new.pairs ≡ env.old.pairs) }
{
    let rest = rest_of_path(alloc, env, place.len())?;
    let script = longer_script(alloc, env, place)?;
    let script_was = set_saved(alloc, env, b"SCRIPT_NAME", &script)?;
    let path_was = set_saved(alloc, env, b"PATH_INFO", &rest)?;
    Ok((script_was, path_was))
}

// Goes out of it again. This takes no memory.
pub(crate) fn leave(env: &mut Env, was: Former)
    requires { CanLeave was env.old.pairs }
    ensures { env.new ≡ with_pairs env.old (outside was env.old.pairs) }
{
    let (script, path) = was;
    put_back(env, b"PATH_INFO", path);
    put_back(env, b"SCRIPT_NAME", script);
}

// The path behind so many bytes.
fn rest_of_path(alloc: Global, env: &Env, len: usize) -> Result<Vec<u8>, NoMemory>
    requires { len ≤ length (path_of env.now.pairs) }
    ensures { IfOk result (λ v. v.items ≡ drop len (path_of env.now.pairs)) }
{
    Ok(Vec::from_slice(alloc, &path_of(env)[len..])?)
}

// The script's name with the place behind it.
fn longer_script(alloc: Global, env: &Env, place: &[u8]) -> Result<Vec<u8>, NoMemory>
    ensures { IfOk result (λ v. v.items ≡ value_or_empty (codes "SCRIPT_NAME") env.now.pairs ++ place.now) }
{
    let former = value_of(env, b"SCRIPT_NAME");
    let mut script = Vec::with_capacity(alloc, former.len().saturating_add(place.len()))?;
    script.extend_from_slice(former)?;
    script.extend_from_slice(place)?;
    Ok(script)
}
