// The host that a request is for.
ghost use Rattle.std.specs.Prelude.{◌≡◌, codes};
ghost use Rattle.rack_types.specs.Fields.{values_of};
ghost use Rattle.rack_env.specs.Host as spec;

use rack_text::{read_host, same_ignoring_case};
use rack_types::{Local, Request};

/// The name and the port that the request is for: those of the target's authority, else of the Host
/// field. Without a host, or with an empty one, they are the local ones.
#[tactic(auto, unfolding(crate::specs::Host::server))]
pub(crate) fn server<'a>(request: &'a Request, local: &'a Local) -> (&'a [u8], u16)
    ensures { (result.0.now, result.1) ≡ spec.server request.now local.now }
{
    match read_host(host_text(request)) {
        Some(host) if !host.name.is_empty() => {
            (host.name, host.port.unwrap_or(default_port(local.https)))
        }
        _ => (local.name.get(), local.port),
    }
}

// The text of the host, empty where there is none.
fn host_text(request: &Request) -> &[u8]
    ensures { result.now ≡ spec.host_text request.now.authority (values_of (codes "host") request.now.fields) }
{
    if let Some(authority) = request.authority() {
        return authority;
    }
    for i in 0..request.field_count() {
        if same_ignoring_case(request.field_name(i), b"host") {
            return request.field_value(i);
        }
    }
    b""
}

// The port of a host that names none.
fn default_port(https: bool) -> u16
    ensures { result ≡ spec.default_port https }
{
    if https { 443 } else { 80 }
}
