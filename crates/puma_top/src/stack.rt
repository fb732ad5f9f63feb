// The stack file: its text, its steps, and what runs them.
ghost use Rattle.std.specs.Prelude.{◌≡◌, ℕ, List, IfOk};
ghost use Rattle.builder_core.specs.Nodes.{tree_of};
ghost use Rattle.builder_core.specs.Plan.{plan};
ghost use Rattle.stack_file.specs.Reads.{IsStack};
ghost use Rattle.puma_top.specs.Stack.{IsStackOf};
ghost use Rattle.puma_top.specs.QuietSteps.{Opens, OpensSteps, plan_read, files_seen};

use crate::{FileWhy, Status};
use builder_core::{BuildFault, StackRunner, Steps, to_app};
use rack_outside::{FileRead, Files};
use rack_types::{Bytes, NoMemory};
use stack_file::ReadFault;
use std::alloc::{AllocError, Global};
use std::sync::Arc;
use stock_apps::App;

// The bytes that a stack file may have.
const STACK_LIMIT: usize = 65_536;

/// The steps of the stack file with this name.
///
/// It takes memory. A file object that gives a longer text than was asked for counts as want of memory.
pub(crate) fn read_steps<F: Files>(
    alloc: Global,
    files: &mut F,
    name: &str,
) -> Result<Steps<App>, Status>
    ensures { let shown = files_seen F.holds F.texts F.faults in OpensSteps (plan_read result) name.now (shown files.old) (shown files.new) }
{
    let text = read_stack(files, name)?;
    if text.get().len() > STACK_LIMIT {
        return Err(Status::NoMemory);
    }
    match stack_file::read(alloc, text.get()) {
        Ok(steps) => Ok(steps),
        Err(ReadFault::Bad(fault)) => Err(Status::Stack {
            line: fault.line,
            rule: fault.rule,
        }),
        Err(ReadFault::NoMemory) => Err(Status::NoMemory),
    }
}

// The text of the stack file.
fn read_stack<F: Files>(files: &mut F, name: &str) -> Result<Bytes, Status>
    ensures { let shown = files_seen F.holds F.texts F.faults in Opens result name.now (shown files.old) (shown files.new) }
{
    match files.read(name, STACK_LIMIT) {
        Ok(FileRead::Text(text)) => Ok(text),
        Ok(FileRead::Absent) => Err(Status::File(FileWhy::Absent)),
        Ok(FileRead::Long) => Err(Status::File(FileWhy::Long)),
        Ok(FileRead::Failed) => Err(Status::File(FileWhy::Failed)),
        Err(_) => Err(Status::NoMemory),
    }
}

/// What runs the stack of these steps, which were read. Only memory can be refused.
pub(crate) fn runner_of(alloc: Global, steps: Steps<App>) -> Result<StackRunner<App>, NoMemory>
    requires read { (text : List ℕ) × IsStack text (plan steps) }
    ensures stack { IfOk result (λ runner. (text : List ℕ) → IsStack text (plan steps) → IsStackOf text (tree_of runner.stack)) }
    ensures fresh { IfOk result (λ runner. runner.runs ≡ 0) }
{
    match to_app(alloc, steps) {
        Ok(stack) => Ok(StackRunner::new(Arc::new(alloc, stack)?)),
        Err(BuildFault::NoMemory) => Err(AllocError),
        Err(BuildFault::TooMany) => unreachable!(),
        Err(BuildFault::TooDeep) => unreachable!(),
        Err(BuildFault::NoRun) => unreachable!(),
    }
}
