//! Runs a Lisp program from standard input, and writes its journal and report to standard output.
#![tactic(auto)]

use lisp_base::memory::Memory;
use lisp_edge::clock::VirtualClock;
use lisp_edge::gate::OpenGate;
use lisp_edge::standard::{StdSink, StdSource};
use lisp_session::top::run_top;
use std::env::{self, FillError};
use std::io::ErrorKind;
use std::process::ExitCode;
use std::rt::Env;

/// What stands for words that are no text.
const NO_TEXT: &str = "\u{fffd}";

/// The status where the words find no memory.
const NO_MEMORY: u8 = 7;

/// The environment of a process, whose arguments are the words alone: those after the program's name.
#[derive(Drop)]
struct AfterName<'a, R> {
    process: &'a R,
}

impl<R: Env> Env for AfterName<'_, R> {
    fn arg(&self, i: usize, buf: &mut [u8]) -> Result<usize, FillError> {
        match i.checked_add(1) {
            Some(position) => self.process.arg(position, buf),
            None => Err(FillError::NotPresent),
        }
    }

    fn var(&self, name: &str, buf: &mut [u8]) -> Result<usize, FillError> {
        self.process.var(name, buf)
    }

    fn var_at(&self, i: usize, buf: &mut [u8]) -> Result<usize, FillError> {
        self.process.var_at(i, buf)
    }
}

/// The words of the command line. Where one of them is not UTF-8, a single word stands for all, which is no accepted list
/// either.
fn words<R: Env + AllocGlobal>(rt: &R) -> Result<Vec<String>, Memory> {
    let mut words = Vec::new(rt.alloc());
    match env::args(&(AfterName { process: rt }, rt.alloc())) {
        Ok(all) => {
            for word in all {
                words.push(word)?;
            }
        }
        Err(error) if error.kind() == ErrorKind::InvalidData => {
            words.push(String::from_str(rt.alloc(), NO_TEXT)?)?;
        }
        Err(_) => return Err(Memory),
    }
    Ok(words)
}

fn main(rt: HostRuntime) -> ExitCode {
    let Ok(words) = words(&rt) else {
        return ExitCode::from(NO_MEMORY);
    };
    let mut source = StdSource::new(rt.stdin());
    let mut sink = StdSink::new(rt.stdout());
    let clock = VirtualClock::new();
    let status = run_top(
        rt.alloc(),
        words.as_slice(),
        &mut source,
        &mut sink,
        &clock,
        &OpenGate,
    );
    ExitCode::from(status)
}
