// The program `puma`: standard input and output, real files and the words of the command line for
// the proved top call, and its answer as a line on standard error and an exit status.
#![tactic(auto)]

mod help;
mod net_dial;
mod read_source;
mod real_files;
#[cfg(test)]
mod temporary;
mod words;
mod write_sink;

use help::{answer, asked_for};
use net_dial::NetDial;
use puma_top::{FileWhy, Status, run_control, run_quiet};
use read_source::ReadSource;
use real_files::RealFiles;
use std::io;
use std::io::ErrorKind;
use std::process::ExitCode;
use write_sink::WriteSink;

fn main(rt: HostRuntime) -> ExitCode {
    let status = match words::behind_name(&rt) {
        Ok(words) => run(&rt, words.as_slice()),
        Err(e) if e.kind() == ErrorKind::OutOfMemory => Status::NoMemory,
        Err(_) => Status::Usage,
    };
    // Where standard error takes nothing either, the exit status alone tells.
    let _ = report(&rt, &status);
    ExitCode::from(status.code())
}

/// Answers what the words ask of the program itself, or else runs the command that they say.
fn run(rt: &HostRuntime, words: &[String]) -> Status {
    if let Some(asked) = asked_for(words) {
        return match answer(asked, &mut rt.stdout()) {
            Ok(()) => Status::Done,
            Err(_) => Status::SinkFault,
        };
    }
    if is_order(words) {
        let mut dial = NetDial::new(rt);
        let mut sink = WriteSink::new(rt.stdout());
        return run_control(rt.alloc(), words, &mut dial, &mut sink);
    }
    let mut files = RealFiles::new(rt);
    let mut source = ReadSource::new(rt.stdin());
    let mut sink = WriteSink::new(rt.stdout());
    run_quiet(rt.alloc(), words, &mut files, &mut source, &mut sink)
}

/// The words begin as an order to a running server does, which is not run here.
fn is_order(words: &[String]) -> bool {
    match words.first() {
        Some(word) => word.as_str() == "control",
        None => false,
    }
}

/// One line on standard error for each answer but Done.
fn report(runtime: &impl Eprint, status: &Status) -> io::Result<()> {
    match status {
        Status::Done => Ok(()),
        Status::NoMemory => runtime.eprintln("puma: no memory"),
        Status::Usage => runtime.eprintln("puma: usage"),
        Status::File(FileWhy::Absent) => runtime.eprintln("puma: file absent"),
        Status::File(FileWhy::Long) => runtime.eprintln("puma: file long"),
        Status::File(FileWhy::Failed) => runtime.eprintln("puma: file failed"),
        Status::Stack { line, rule } => eprintln!(runtime; "puma: stack line {line} S{rule}"),
        Status::SourceFault => runtime.eprintln("puma: read failed"),
        Status::SinkFault => runtime.eprintln("puma: write failed"),
        Status::TooLong => runtime.eprintln("puma: input too long"),
        Status::Dial => runtime.eprintln("puma: dial failed"),
        Status::NoAnswer => runtime.eprintln("puma: no answer"),
        Status::Denied { status } => eprintln!(runtime; "puma: denied {status}"),
    }
}
