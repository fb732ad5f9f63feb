// The pairs of an environment as lines.
ghost use Rattle.std.specs.Prelude.{◌≡◌, ◌++◌, IfOk, OnOk};
ghost use Rattle.stock_apps.specs.Lines.{pair_line, pair_lines};

use rack_text::escape;
use rack_types::{Bytes, Env, NoMemory};
use std::alloc::Global;

// The lines, in room that is taken once where few bytes have to be escaped.
pub(crate) fn pair_lines(alloc: Global, env: &Env) -> Result<Bytes, NoMemory>
    ensures { IfOk result (λ lines. lines ≡ pair_lines env.now.pairs) }
{
    let mut lines = Vec::with_capacity(alloc, usual_room(env))?;
    for i in 0..env.len() {
        put_line(env.name(i), env.value(i), &mut lines)?;
    }
    Ok(Bytes::new(lines))
}

// How many bytes the lines have where an empty value is all that is escaped, or a few more.
fn usual_room(env: &Env) -> usize {
    let mut room: usize = 0;
    for i in 0..env.len() {
        let line = env.name(i).len().saturating_add(env.value(i).len());
        room = room.saturating_add(line.saturating_add(4));
    }
    room
}

fn put_line(name: &[u8], value: &[u8], lines: &mut Vec<u8>) -> Result<(), NoMemory>
    ensures { OnOk result (lines.new.items ≡ lines.old.items ++ pair_line (name.now, value.now)) }
{
    lines.extend_from_slice(name)?;
    lines.extend_from_slice(b"=")?;
    escape(value, lines)?;
    lines.extend_from_slice(b"\n")?;
    Ok(())
}
