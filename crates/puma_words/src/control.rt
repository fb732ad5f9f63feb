// The order that the words say.
ghost use Rattle.std.specs.Prelude.{◌≡◌, IfOk, false, map, string_bytes};
ghost use Rattle.std.specs.Option.{option_map};
ghost use Rattle.clap.specs.Words.{app_of, rule_of, subcommand_rows_of};
ghost use Rattle.clap.specs.declared.builder.command.Command.TheViews.{out-Command};
ghost use Rattle.puma_words.specs.Control.{control_of, order_met};
ghost use Rattle.puma_words.specs.ControlProgram.{address_rule, bare_control, control_app, order_rule, token_rule};
ghost use Rattle.puma_words.specs.ControlSaid.{said_control};

use clap::error::ErrorKind;
use clap::{Arg, ArgAction, ArgMatches, Command};
use rack_types::NoMemory;
use std::alloc::{AllocError, Global};

/// An order to a running server, as the words say it: where its control server listens, the token, and what is asked for.
/// Each is the word as it was written.
#[derive(Clone, Copy, Debug, PartialEq)]
pub struct Control<'a> {
    /// The address of the control server.
    pub address: &'a str,
    /// The token.
    pub token: &'a str,
    /// What is asked for.
    pub order: &'a str,
}

/// The order that the words behind the program's name say; None where they say none.
///
/// The first word is `control`. Two names follow, the address and the order, and an option `--token` with the token, which
/// must be there. `clap` reads the words, and None comes exactly where it refuses them for another cause than memory.
///
/// It takes memory while it reads, and a refused allocation is the only error. The answer has no memory of its own.
pub fn control_of<'a>(alloc: Global, words: &'a [String]) -> Result<Option<Control<'a>>, NoMemory>
    ensures { IfOk result (λ r. option_map said_control r ≡ control_of (map string_bytes words.entry.now)) }
{
    match control_program(alloc)?.try_get_matches_from(words) {
        Ok(matches) => Ok(order_in(&matches)),
        Err(error) if error.kind() == ErrorKind::OutOfMemory => Err(AllocError),
        Err(_) => Ok(None),
    }
}

// The order of a command line that was read.
fn order_in<'a>(matches: &ArgMatches<'a>) -> Option<Control<'a>>
    ensures { option_map said_control result ≡ order_met (subcommand_rows_of matches.now) }
{
    let (_, rest) = matches.subcommand()?;
    let address = rest.get_str("address")?;
    let token = rest.get_str("token")?;
    let order = rest.get_str("order")?;
    Some(Control {
        address,
        token,
        order,
    })
}

// The command line of an order: `control ADDRESS --token T ORDER`.
fn control_program<'a>(alloc: Global) -> Result<Command<'a>, NoMemory>
    ensures { IfOk result (λ c. app_of c ≡ control_app) }
{
    Command::new(alloc, "puma")
        .no_binary_name(true)
        .disable_help_flag(true)
        .disable_help_subcommand(true)
        .subcommand_required(true)
        .subcommand(control_command(alloc)?)
}

// `control ADDRESS --token T ORDER`
fn control_command<'a>(alloc: Global) -> Result<Command<'a>, NoMemory>
    ensures app { IfOk result (λ c. app_of c ≡ bare_control) }
    ensures local { IfOk result (λ c. (out-Command c).has_globals ≡ false) }
{
    Command::new(alloc, "control")
        .arg(token(alloc))?
        .arg(address(alloc))?
        .arg(order(alloc))
}

// The address, which must be there.
fn address<'a>(alloc: Global) -> Arg<'a>
    ensures rule { rule_of result ≡ address_rule }
    ensures local { result.global ≡ false }
{
    Arg::new(alloc, "address").required(true)
}

// What is asked for, which must be there.
fn order<'a>(alloc: Global) -> Arg<'a>
    ensures rule { rule_of result ≡ order_rule }
    ensures local { result.global ≡ false }
{
    Arg::new(alloc, "order").required(true)
}

// The token, which must be there.
fn token<'a>(alloc: Global) -> Arg<'a>
    ensures rule { rule_of result ≡ token_rule }
    ensures local { result.global ≡ false }
{
    Arg::new(alloc, "token")
        .long("token")
        .action(ArgAction::Set)
        .required(true)
}
