ghost use Rattle.std.specs.Prelude.{◌≡◌, ◌≤◌, length, IfSome, None};

use crate::answers::{ReadAnswer, WriteAnswer};
use crate::sink::Sink;
use crate::source::Source;
use std::io::{ErrorKind, Read, Write};
use std::marker::Model;
use std::rt::{Stdin, Stdout};

/// How many times a call that is interrupted is made before it counts as a failure.
const TRIES: u32 = 1_000_000;

/// The standard input. A clause sees only the count of its faults.
#[derive(Drop)]
pub struct StdSource {
    input: Stdin,
    faults: u64,
}

impl Model for StdSource {
    ghost use Rattle.std.specs.Prelude.{ℕ};

    ghost Value = { ℕ };

    ghost view = { λ s. s.faults };
}

impl StdSource {
    /// The standard input, with no fault yet.
    pub fn new(input: Stdin) -> Self
        ensures { result ≡ 0 }
    {
        StdSource { input, faults: 0 }
    }
}

impl Source for StdSource {
    ghost left = { λ _. None };

    ghost faults = { λ s. s };

    fn read(&mut self, buf: &mut [u8]) -> ReadAnswer {
        match read_some(self.input, buf) {
            Some(0) => ReadAnswer::End,
            Some(count) => ReadAnswer::Took(count),
            None => {
                self.faults = self.faults.saturating_add(1);
                ReadAnswer::Failed
            }
        }
    }
}

/// The standard output. A clause sees only the count of its faults.
#[derive(Drop)]
pub struct StdSink {
    output: Stdout,
    faults: u64,
}

impl Model for StdSink {
    ghost use Rattle.std.specs.Prelude.{ℕ};

    ghost Value = { ℕ };

    ghost view = { λ s. s.faults };
}

impl StdSink {
    /// The standard output, with no fault yet.
    pub fn new(output: Stdout) -> Self
        ensures { result ≡ 0 }
    {
        StdSink { output, faults: 0 }
    }
}

impl Sink for StdSink {
    ghost held = { λ _. None };

    ghost faults = { λ s. s };

    fn write(&mut self, bytes: &[u8]) -> WriteAnswer {
        match write_some(self.output, bytes) {
            None | Some(0) => {
                self.faults = self.faults.saturating_add(1);
                WriteAnswer::Failed
            }
            Some(count) => WriteAnswer::Took(count),
        }
    }
}

/// The count of one read, which is 0 at the end of the input, or `None` where it failed.
fn read_some(mut input: Stdin, buf: &mut [u8]) -> Option<usize>
    ensures { IfSome result (λ count. count ≤ length buf.new) }
{
    for _ in 0..TRIES {
        match input.read(buf) {
            Ok(count) => return Some(count),
            Err(error) if error.kind() == ErrorKind::Interrupted => {}
            Err(_) => return None,
        }
    }
    None
}

/// The count of one write, or `None` where it failed. The stream keeps no buffer, so there is nothing to flush.
fn write_some(mut output: Stdout, bytes: &[u8]) -> Option<usize>
    ensures { IfSome result (λ count. count ≤ length bytes.now) }
{
    for _ in 0..TRIES {
        match output.write(bytes) {
            Ok(count) => return Some(count),
            Err(error) if error.kind() == ErrorKind::Interrupted => {}
            Err(_) => return None,
        }
    }
    None
}

#[cfg(test)]
mod tests {
    use super::*;

    #[test]
    fn the_input_reads_or_ends(rt: HostRuntime) {
        let mut source = StdSource::new(rt.stdin());
        let mut buf = [0; 8];
        let answer = source.read(&mut buf);
        assert_ne!(rt; answer, ReadAnswer::Failed);
        assert_eq!(rt; source.faults, 0);
    }

    #[test]
    fn the_output_takes_a_line(rt: HostRuntime) {
        let mut sink = StdSink::new(rt.stdout());
        let answer = sink.write(b"a line\n");
        assert!(rt; matches!(answer, WriteAnswer::Took(1..=7)));
        assert_eq!(rt; sink.faults, 0);
    }
}
