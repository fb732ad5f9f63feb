// Reading.
ghost use Rattle.std.specs.Prelude.{◌≡◌, ◌<◌, ◌^◌, ◌-◌, IfOk, IfErr, List, ℕ, length};
ghost use Rattle.builder_core.specs.Plan.{plan};
ghost use Rattle.stack_file.specs.Reads.{IsStack, IsBadAt, HasReadFault};

use crate::blocks::Standing;
use crate::fault::{FileFault, ReadFault};
use crate::lines::first_line;
use crate::said::read_line;
use builder_core::Steps;
use std::alloc::Global;
use stock_apps::App;

/// The steps that the text of a stack file says, exactly where no rule stands. Else the fault is the
/// first line that breaks a rule, with the least rule that it breaks, or want of memory, which may come
/// at any text.
///
/// Lines end with LF, and the last may lack it. Words are parted by one or more spaces, and spaces at the
/// front of a line are ignored. Empty lines, and lines whose first byte behind the spaces is `#`, are
/// ignored and counted. Each argument is an escaped text. `use NAME ARGS` is a middleware, `run NAME
/// ARGS` an endpoint, `map PLACE` up to its `end` a block, and `cascade` up to its `end` zero or more
/// `run` lines. A place begins with `/`, and one `/` at its end is dropped.
///
/// S1: a byte outside 32 to 126, or a line of more than 4,096 bytes, the spaces at its front not counted.
/// S2: the first word is none of `use`, `map`, `end`, `run` and `cascade`. S3: an unknown middleware or
/// endpoint. S4: a wrong number of arguments. S5: an argument that isn't of its form. S6: `end` without a
/// block, or a block that isn't ended, at the line behind the last. S7: inside `cascade` a line other than
/// `run` and `end`. S8, only where no other rule stands: a block that has no application, at its `end`, or
/// the whole file, at the line behind the last. S9: the line that makes more than 256 steps or a depth
/// above 32.
///
/// The text is shorter than 4,294,967,295 bytes, so that its lines have numbers. It takes memory for the
/// steps, and for the words of one line at a time.
pub fn read(alloc: Global, text: &[u8]) -> Result<Steps<App>, ReadFault>
    requires { length text.now < 2 ^ 32 - 1 }
    ensures steps { IfOk result (λ steps. IsStack text.now (plan steps)) }
    ensures fault { IfErr result (λ fault. HasReadFault text.now fault) }
{
    let mut standing = Standing::new(alloc);
    let mut left = text;
    let mut number: u32 = 1;
    while !left.is_empty() {
        let (line, behind) = first_line(left);
        match standing.step(alloc, number, read_line(alloc, line)?)? {
            Ok(next) => standing = next,
            Err(rule) => return Err(bad(number, rule)),
        }
        left = behind;
        number += 1;
    }
    match standing.finish(number) {
        Ok(steps) => Ok(steps),
        Err(fault) => Err(ReadFault::Bad(fault)),
    }
}

fn bad(line: u32, rule: u8) -> ReadFault
    ensures { (text : List ℕ) → IsBadAt text line rule → HasReadFault text result }
{
    ReadFault::Bad(FileFault { line, rule })
}
