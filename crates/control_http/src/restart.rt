// A phased restart.
ghost use Rattle.std.specs.Prelude.{◌≡◌, [], IfOk, OnErr};
ghost use Rattle.rack_types.specs.Answer.{told};
ghost use Rattle.rack_types.specs.Runner.{went_well};
ghost use Rattle.control_http.specs.Said as spec;
ghost use Rattle.control_http.specs.Runs.{ServesBy, Serves, UsesLoader};
ghost use Rattle.control_http.specs.Said.{loads, answer_of, loaded};
ghost use Rattle.control_http.specs.declared.wish.Wish.TheVariants.{PhasedRestart};

use crate::said::{Reply, say, say_broken, say_busy, say_no_file};
use master_core::{Load, Loader, Master, Order};
use rack_types::NoMemory;
use std::alloc::Global;

// Takes a phased order where the master isn't busy and something could be loaded.
pub(crate) fn restart<Ld: Loader>(
    alloc: Global,
    master: &mut Master,
    loader: &mut Ld,
) -> Result<Reply, NoMemory>
    ensures serves { IfOk result (λ a. Serves PhasedRestart [] (Ld.answered loader.new) master.old (told (λ b. b.content) a) master.new) }
    ensures unchanged { OnErr result (master.new ≡ master.old) }
    ensures uses { UsesLoader Ld.loads Ld.faults Ld.answered (loads PhasedRestart master.old) (went_well result) loader.old loader.new }
{
    if let Some((phase, target)) = master.busy() {
        return say_busy(alloc, phase, target);
    }
    let load = loader.load()?;
    let answer = say_loaded(alloc, load)?;
    let _reply = master.order(Order::Phased(load));
    Ok(answer)
}

// What a master that isn't busy answers to a phased order, by what was loaded for it.
fn say_loaded(alloc: Global, load: Load) -> Result<Reply, NoMemory>
    ensures { IfOk result (λ a. told (λ b. b.content) a ≡ answer_of (loaded load)) }
{
    match load {
        Load::Read => say(alloc, 200, b"{\"status\":\"ok\"}"),
        Load::Bad { line, rule } => say_broken(alloc, line, rule),
        Load::Absent => say_no_file(alloc, b"absent"),
        Load::Long => say_no_file(alloc, b"long"),
        Load::Failed => say_no_file(alloc, b"failed"),
    }
}
