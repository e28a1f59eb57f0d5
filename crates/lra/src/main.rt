//! The analyser: words of a command line, a source in a file or on standard input, a report on
//! standard output. What goes wrong with words or files is reported on standard error.
#![tactic(auto)]

use lra_commands::{Request, Status, read_request, run};
use lra_io::{RealSink, RealSource, write_whole};
use std::env;
use std::fs::File;
use std::io::{Error, ErrorKind, Read};
use std::process::ExitCode;
use std::rt::Env;

/// The words of the command line, the program's name first.
///
/// Without memory for them there is [`Status::Memory`]; a word that isn't UTF-8 is [`Status::Usage`], and it is
/// reported.
fn words_of(rt: &(impl Env + AllocGlobal + Eprint)) -> Result<Vec<String>, Status> {
    match env::args(rt) {
        Ok(words) => words.collect(rt.alloc()).map_err(|_| Status::Memory),
        Err(error) => {
            if error.kind() == ErrorKind::OutOfMemory {
                Err(Status::Memory)
            } else {
                let _ = eprintln!(rt; "error: a word isn't UTF-8");
                Err(Status::Usage)
            }
        }
    }
}

/// Says why the input of this name can't be read. If that can't be reported, the exit status still does.
fn tell_fault(rt: &HostRuntime, name: &str, error: Error) {
    let _ = eprintln!(rt; "lra: {name}: {error}");
}

/// Runs the words' command over the reader, and says why it couldn't be read, if that is so.
fn run_over<R: Read + Drop>(rt: &HostRuntime, words: &[String], name: &str, reader: R) -> Status {
    let mut source = RealSource::new(reader);
    let mut sink = RealSink::new(rt.stdout());
    let status = run(rt.alloc(), words, &mut source, &mut sink);
    if status == Status::ReadFault {
        if let Some(error) = source.last_error() {
            tell_fault(rt, name, error);
        }
    }
    status
}

/// Runs the words' command over standard input.
fn run_input(rt: &HostRuntime, words: &[String]) -> Status {
    run_over(rt, words, "standard input", rt.stdin())
}

/// Runs the words' command over the file of this name.
fn run_file(rt: &HostRuntime, words: &[String], name: &str) -> Status {
    match File::open(rt, name) {
        Ok(file) => run_over(rt, words, name, file),
        Err(error) => {
            tell_fault(rt, name, error);
            Status::ReadFault
        }
    }
}

/// Shows help or the version.
fn show(rt: &HostRuntime, text: &str) -> ExitCode {
    match write_whole(&mut RealSink::new(rt.stdout()), text.as_bytes()) {
        Ok(()) => ExitCode::SUCCESS,
        Err(_) => ExitCode::from(Status::WriteFault.exit_number()),
    }
}

/// Answers the words as `run` does, and says why they aren't accepted.
fn refuse(rt: &HostRuntime, words: &[String], why: &str) -> Status {
    let status = run_input(rt, words);
    let _ = eprint!(rt; "{why}");
    status
}

/// Does what the words ask for.
fn answer(rt: &HostRuntime, words: &[String]) -> ExitCode {
    let status = match read_request(rt.alloc(), words) {
        Ok(Request::Show(text)) => return show(rt, &text),
        Ok(Request::Run(Some(name))) => run_file(rt, words, name),
        Ok(Request::Run(None)) => run_input(rt, words),
        Ok(Request::Refuse(why)) => refuse(rt, words, &why),
        Err(_) => Status::Memory,
    };
    ExitCode::from(status.exit_number())
}

/// Ends with the exit number of the status. Nothing is written if there are no words.
fn main(rt: HostRuntime) -> ExitCode {
    match words_of(&rt) {
        Ok(words) => answer(&rt, &words),
        Err(status) => ExitCode::from(status.exit_number()),
    }
}
