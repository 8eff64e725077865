//! The program `hctree`: it runs a SQL script on the engine and prints every reply.
//!
//! `top_step` of `hc_top` runs the script, and its contract says that what it prints is right.
//! `main` hands it the real streams, and tells a person what went wrong.
#![tactic(auto)]

ghost use Rattle.std.specs.Prelude.{◌≡◌};
ghost use Rattle.std.specs.Process.{exit_status};
ghost use Rattle.hc_top.specs.Causes.{exit_number_of};
ghost use Rattle.hctree.specs.Ends.{status_of};

mod command_line;
mod fault;

use crate::command_line::{Question, gather_words, question_in};
use crate::fault::Fault;
use hc_io::{StdSink, StdSource};
use hc_top::{Status, top_step};
use hc_value::Str;
use std::process::ExitCode;

fn main(rt: HostRuntime) -> ExitCode {
    match gather_words(&rt) {
        Err(fault) => end_with(&rt, fault),
        Ok(words) => match question_in(&words) {
            Some(question) => answer(&rt, question),
            None => run_input(&rt, &words),
        },
    }
}

// Runs the script on standard input.
fn run_input(rt: &HostRuntime, words: &[Str]) -> ExitCode {
    let mut source = StdSource::new(rt.stdin());
    let mut sink = StdSink::new(rt.stdout());
    let status = top_step(rt.alloc(), words, &mut source, &mut sink);
    end(rt, status, words)
}

// Ends with the exit number of this status, and prints the fault line where it is not `Done`.
fn end(rt: &HostRuntime, status: Status, words: &[Str]) -> ExitCode
    ensures { exit_status result ≡ exit_number_of status }
{
    match status {
        Status::Done => ExitCode::SUCCESS,
        _ => end_with(rt, Fault::of_status(rt.alloc(), status, words)),
    }
}

fn answer(rt: &HostRuntime, question: Question) -> ExitCode {
    match rt.print(question.answer()) {
        Ok(()) => ExitCode::SUCCESS,
        Err(_) => end_with(rt, Fault::Ended(Status::WriteFault)),
    }
}

// Prints the fault line. Where standard error is closed, the exit number alone tells.
fn end_with(rt: &HostRuntime, fault: Fault) -> ExitCode
    ensures { exit_status result ≡ exit_number_of (status_of fault) }
{
    let _ = rt.eprintln(format_args!("hctree: {fault}"));
    ExitCode::from(fault.status().exit_number())
}
