// The commands that wait for nobody.
ghost use Rattle.std.specs.Prelude.{◌≡◌, ◌≢◌, ℕ, List, [], None, Some, map, string_bytes};
ghost use Rattle.rack_outside.specs.Link.{Tells};
ghost use Rattle.rack_outside.specs.Source.{IsPrefix};
ghost use Rattle.puma_top.specs.Seen.{seen, sink_seen};
ghost use Rattle.puma_words.specs.Words.{check, command_of};
ghost use Rattle.puma_top.specs.Status.{OnUnread};
ghost use Rattle.puma_top.specs.Quiet.{Ran, Did, OnceDid, CheckDid};
ghost use Rattle.puma_top.specs.QuietSteps.{files_seen};

use crate::Status;
use crate::check::print;
use crate::once::serve;
use crate::stack::{read_steps, runner_of};
use puma_words::{Command, command_of};
use rack_outside::{Files, Sink, Source};
use std::alloc::Global;

/// Runs the command that the words behind the program's name say, and tells how it ended.
///
/// `once NAME` serves one connection from the source to the sink: it reads the stack file of that
/// name, and then answers all requests that come, one behind the other, until the connection ends: by a
/// reply that closes, behind a refusal, at the input's end, or where a hijacker that took the connection over
/// ends it. `once --no-hijack NAME` tells the applications that none may take the connection over: an answer that
/// does so is broken, and the reply is the 500 that names the rule. `check NAME` reads the stack file of that name and
/// writes its written form to the sink.
///
/// It waits for nobody but the objects that it was handed, and takes memory.
///
/// Nothing was given by the source yet, and nothing written to the sink.
pub fn run_quiet<F: Files, S: Source, K: Sink>(
    alloc: Global,
    words: &[String],
    files: &mut F,
    src: &mut S,
    out: &mut K,
) -> Status
    requires given { Tells (S.given src.old) [] }
    requires written { Tells (K.written out.old) [] }
    ensures ran { let shown = seen F.holds F.texts F.faults S.input S.given S.faults K.written K.faults in
        Ran (command_of (map string_bytes words.now)) result (shown files.old src.old out.old) (shown files.new src.new out.new) }
    ensures unasked { command_of (map string_bytes words.now) ≡ None → (files.new ≡ files.old) × ((src.new ≡ src.old) × (out.new ≡ out.old)) }
    ensures apart { (name : List ℕ) → command_of (map string_bytes words.now) ≡ Some (check name) → src.new ≡ src.old }
    ensures unread { OnUnread result ((src.new ≡ src.old) × (out.new ≡ out.old)) }
{
    run_command(alloc, words, files, src, out)
}

// Runs the command that the words say.
fn run_command<F: Files, S: Source, K: Sink>(
    alloc: Global,
    words: &[String],
    files: &mut F,
    src: &mut S,
    out: &mut K,
) -> Status
    requires given { Tells (S.given src.old) [] }
    requires written { Tells (K.written out.old) [] }
    ensures did { let shown = seen F.holds F.texts F.faults S.input S.given S.faults K.written K.faults in
        Did result (command_of (map string_bytes words.now)) (shown files.old src.old out.old) (shown files.new src.new out.new) }
    ensures same { S.input src.new ≡ S.input src.old }
    ensures prefix { IsPrefix (S.given src.old) (S.input src.old) → IsPrefix (S.given src.new) (S.input src.new) }
    ensures unasked { command_of (map string_bytes words.now) ≡ None → (files.new ≡ files.old) × ((src.new ≡ src.old) × (out.new ≡ out.old)) }
    ensures apart { (name : List ℕ) → command_of (map string_bytes words.now) ≡ Some (check name) → src.new ≡ src.old }
    ensures unread { OnUnread result ((src.new ≡ src.old) × (out.new ≡ out.old)) }
{
    match command_of(alloc, words) {
        Ok(Some(Command::Once { hijack, stack })) => {
            run_once(alloc, hijack, stack, files, src, out)
        }
        Ok(Some(Command::Check { stack })) => run_check(alloc, stack, files, out),
        Ok(None) => Status::Usage,
        Err(_) => Status::NoMemory,
    }
}

// Serves one connection by the stack of the file with this name.
fn run_once<F: Files, S: Source, K: Sink>(
    alloc: Global,
    hijack: bool,
    name: &str,
    files: &mut F,
    src: &mut S,
    out: &mut K,
) -> Status
    requires given { Tells (S.given src.old) [] }
    requires written { Tells (K.written out.old) [] }
    ensures did { let shown = seen F.holds F.texts F.faults S.input S.given S.faults K.written K.faults in
        OnceDid result hijack name.now (shown files.old src.old out.old) (shown files.new src.new out.new) }
    ensures same { S.input src.new ≡ S.input src.old }
    ensures prefix { IsPrefix (S.given src.old) (S.input src.old) → IsPrefix (S.given src.new) (S.input src.new) }
    ensures used { result ≢ Status.Usage }
    ensures unread { OnUnread result ((src.new ≡ src.old) × (out.new ≡ out.old)) }
{
    let steps = match read_steps(alloc, files, name) {
        Ok(steps) => steps,
        Err(status) => return status,
    };
    match runner_of(alloc, steps) {
        Ok(runner) => serve(alloc, runner, hijack, src, out),
        Err(_) => Status::NoMemory,
    }
}

// Writes the written form of the stack of the file with this name.
fn run_check<F: Files, K: Sink>(alloc: Global, name: &str, files: &mut F, out: &mut K) -> Status
    requires written { Tells (K.written out.old) [] }
    ensures did { let shown = files_seen F.holds F.texts F.faults in
        CheckDid result name.now (shown files.old) (shown files.new) (sink_seen K.written K.faults out.old) (sink_seen K.written K.faults out.new) }
    ensures used { result ≢ Status.Usage }
    ensures unread { OnUnread result (out.new ≡ out.old) }
{
    let steps = match read_steps(alloc, files, name) {
        Ok(steps) => steps,
        Err(status) => return status,
    };
    let mut text = Vec::new(alloc);
    match stack_file::write(alloc, &steps, &mut text) {
        Ok(()) => print(&text, out),
        Err(_) => Status::NoMemory,
    }
}
