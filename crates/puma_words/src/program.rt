// The program's command line, as `clap` is told it.
ghost use Rattle.std.specs.Prelude.{◌≡◌, IfOk, false};
ghost use Rattle.clap.specs.Words.{app_of, rule_of};
ghost use Rattle.clap.specs.declared.builder.command.Command.TheViews.{out-Command};
ghost use Rattle.puma_words.specs.Program.{check_app, once_app, puma_app, stack_rule};

use clap::{Arg, ArgAction, Command};
use rack_types::NoMemory;
use std::alloc::Global;

// The whole command line. Neither help nor a version is asked for by a word.
pub(crate) fn program<'a>(alloc: Global) -> Result<Command<'a>, NoMemory>
    ensures { IfOk result (λ c. app_of c ≡ puma_app) }
{
    Command::new(alloc, "puma")
        .no_binary_name(true)
        .disable_help_flag(true)
        .disable_help_subcommand(true)
        .subcommand_required(true)
        .subcommand(once(alloc)?)?
        .subcommand(check(alloc)?)
}

// `once [--no-hijack] STACK`
fn once<'a>(alloc: Global) -> Result<Command<'a>, NoMemory>
    ensures app { IfOk result (λ c. app_of c ≡ once_app) }
    ensures local { IfOk result (λ c. (out-Command c).has_globals ≡ false) }
{
    let no_hijack = Arg::new(alloc, "no-hijack")
        .long("no-hijack")
        .action(ArgAction::SetTrue);
    Command::new(alloc, "once")
        .arg(no_hijack)?
        .arg(stack(alloc))
}

// `check STACK`
fn check<'a>(alloc: Global) -> Result<Command<'a>, NoMemory>
    ensures app { IfOk result (λ c. app_of c ≡ check_app) }
    ensures local { IfOk result (λ c. (out-Command c).has_globals ≡ false) }
{
    Command::new(alloc, "check").arg(stack(alloc))
}

// The name of the stack file, which must be there.
fn stack<'a>(alloc: Global) -> Arg<'a>
    ensures rule { rule_of result ≡ stack_rule }
    ensures local { result.global ≡ false }
{
    Arg::new(alloc, "stack").required(true)
}
