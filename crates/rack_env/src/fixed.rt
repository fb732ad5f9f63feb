// The pairs that each environment has.
ghost use Rattle.std.specs.Prelude.{◌≡◌, [], OnOk};
ghost use Rattle.rack_types.specs.Env.{with_pairs};
ghost use Rattle.rack_env.specs.Environment as spec;

use crate::host::server;
use itoa::Buffer;
use rack_types::{Env, Local, NoMemory, Peer, Request, Version};

/// How many pairs each environment has.
pub(crate) const COUNT: usize = 11;

/// Puts the pairs that each environment has into an empty one.
pub(crate) fn put_fixed(
    env: &mut Env,
    request: &Request,
    peer: &Peer,
    local: &Local,
) -> Result<(), NoMemory>
    requires { env.old.pairs ≡ [] }
    ensures { OnOk result (env.new ≡ with_pairs env.old (spec.fixed_pairs request.now peer.now local.now)) }
{
    let (name, port) = server(request, local);
    env.set_static(b"REQUEST_METHOD", request.method())?;
    env.set_static(b"SCRIPT_NAME", b"")?;
    env.set_static(b"PATH_INFO", request.path())?;
    env.set_static(b"QUERY_STRING", request.query())?;
    env.set_static(b"SERVER_NAME", name)?;
    env.set_static(b"SERVER_PORT", Buffer::new().format(port).as_bytes())?;
    env.set_static(b"SERVER_PROTOCOL", protocol(request.version()))?;
    env.set_static(b"REMOTE_ADDR", peer.get())?;
    env.set_static(b"rack.url_scheme", scheme(local.https))?;
    env.set_static(b"rack.errors", b"discard")?;
    env.set_static(b"rack.hijack?", truth(local.hijack))
}

fn protocol(version: Version) -> &'static [u8]
    ensures { result.now ≡ spec.protocol version }
{
    match version {
        Version::Http10 => b"HTTP/1.0",
        Version::Http11 => b"HTTP/1.1",
    }
}

fn scheme(https: bool) -> &'static [u8]
    ensures { result.now ≡ spec.scheme https }
{
    if https { b"https" } else { b"http" }
}

fn truth(value: bool) -> &'static [u8]
    ensures { result.now ≡ spec.truth value }
{
    if value { b"true" } else { b"false" }
}
