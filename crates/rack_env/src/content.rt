// The pairs of the body's type and length.
ghost use Rattle.std.specs.Prelude.{◌≡◌, ◌++◌, ℕ, List, [], None, OnOk, codes, false, length, take};
ghost use Rattle.rack_text.specs.Case as spec;
ghost use Rattle.rack_types.specs.Env.{get_pair, with_pairs};
ghost use Rattle.rack_types.specs.Request.{with_body};
ghost use Rattle.rack_types.specs.Fields.{values_of};
ghost use Rattle.rack_env.specs.Environment.{content_pairs, pair_if};
ghost use Rattle.rack_env.specs.Fields.{joined};

use itoa::Buffer;
use rack_text::same_ignoring_case;
use rack_types::{Env, NoMemory, Request};

/// Puts the body's type and length behind what is there, where the request has them. The body has
/// so many bytes.
pub(crate) fn put_content(env: &mut Env, request: &Request, body: usize) -> Result<(), NoMemory>
    requires no_type { get_pair (codes "CONTENT_TYPE") env.old.pairs ≡ None }
    requires no_length { get_pair (codes "CONTENT_LENGTH") env.old.pairs ≡ None }
    ensures { (bytes : List ℕ) → length bytes ≡ body → OnOk result (env.new ≡ with_pairs env.old
        (env.old.pairs ++ content_pairs (with_body bytes request.now))) }
{
    let from = first_content(request);
    put_values(env, request, from, b"content-type", b"CONTENT_TYPE")?;
    if request.chunked() {
        return env.set_static(b"CONTENT_LENGTH", Buffer::new().format(body).as_bytes());
    }
    put_values(env, request, from, b"content-length", b"CONTENT_LENGTH")
}

// A place before which no field tells the body's type or length.
fn first_content(request: &Request) -> usize
    ensures types { values_of (codes "content-type") (take result request.now.fields) ≡ [] }
    ensures lengths { values_of (codes "content-length") (take result request.now.fields) ≡ [] }
{
    for i in 0..request.field_count() {
        if may_be_content(request.field_name(i)) {
            return i;
        }
    }
    request.field_count()
}

// Whether the name may be that of the body's type or length, by what is quickly seen: how long it is, and how it
// begins.
fn may_be_content(name: &[u8]) -> bool
    ensures types { result ≡ false → spec.same_ignoring_case name.now (codes "content-type") ≡ false }
    ensures lengths { result ≡ false → spec.same_ignoring_case name.now (codes "content-length") ≡ false }
{
    match name {
        [first, ..] => {
            (name.len() == 12 || name.len() == 14) && first.to_ascii_lowercase() == b'c'
        }
        [] => false,
    }
}

// Puts the values of all fields with this name behind what is there, joined. They are looked for from this place
// on, before which there are none.
fn put_values(
    env: &mut Env,
    request: &Request,
    from: usize,
    field: &[u8],
    name: &'static [u8],
) -> Result<(), NoMemory>
    requires absent { get_pair name.now env.old.pairs ≡ None }
    requires before { values_of field.now (take from request.now.fields) ≡ [] }
    ensures { OnOk result (env.new ≡ with_pairs env.old
        (env.old.pairs ++ pair_if name.now (joined (values_of field.now request.now.fields)))) }
{
    for i in from..request.field_count() {
        if same_ignoring_case(request.field_name(i), field) {
            env.add_static(name, b", ", request.field_value(i))?;
        }
    }
    Ok(())
}
