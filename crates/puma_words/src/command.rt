// The command that the words say.
ghost use Rattle.std.specs.Prelude.{◌≡◌, IfOk, map, option_map, string_bytes};
ghost use Rattle.puma_words.specs.Words.{command_of};
ghost use Rattle.clap.specs.Words.{subcommand_rows_of};
ghost use Rattle.puma_words.specs.Program.{Follows};
ghost use Rattle.puma_words.specs.Said.{said};

use crate::program::program;
use clap::ArgMatches;
use clap::error::ErrorKind;
use rack_types::NoMemory;
use std::alloc::{AllocError, Global};

/// What the words behind the program's name say. A stack is the name of a stack file, as it was written.
#[derive(Clone, Copy, Debug, PartialEq)]
pub enum Command<'a> {
    /// `once [--no-hijack] STACK`: one connection, answered by the stack of this file.
    Once {
        /// Whether an application may take the connection over. False where the words have `--no-hijack`.
        hijack: bool,
        /// The file's name.
        stack: &'a str,
    },
    /// `check STACK`: the stack of this file in its canonical form.
    Check {
        /// The file's name.
        stack: &'a str,
    },
}

/// The command that the words behind the program's name say; None where they say none.
///
/// The first word is `once` or `check`, and one name follows. Options begin with a hyphen and have more
/// behind it; `once` alone has one, `--no-hijack`, which stands before or behind the name, once at most.
/// Behind `--` each word is a name, whatever it begins with. `clap` reads the words, and None comes exactly
/// where it refuses them for another cause than memory. There is no `--help` and no `--version` here.
///
/// It takes memory while it reads, and a refused allocation is the only error. The answer has no memory of
/// its own: its stack is one of the words.
pub fn command_of<'a>(alloc: Global, words: &'a [String]) -> Result<Option<Command<'a>>, NoMemory>
    ensures { IfOk result (λ r. option_map said r ≡ command_of (map string_bytes words.entry.now)) }
{
    match program(alloc)?.try_get_matches_from(words) {
        Ok(matches) => Ok(command_in(&matches)),
        Err(error) if error.kind() == ErrorKind::OutOfMemory => Err(AllocError),
        Err(_) => Ok(None),
    }
}

// The command of a command line that was read.
fn command_in<'a>(matches: &ArgMatches<'a>) -> Option<Command<'a>>
    ensures { Follows (subcommand_rows_of matches.now) (option_map said result) }
{
    let (verb, rest) = matches.subcommand()?;
    let stack = rest.get_str("stack")?;
    match verb {
        "once" => Some(Command::Once {
            hijack: !rest.get_flag("no-hijack"),
            stack,
        }),
        _ => Some(Command::Check { stack }),
    }
}
