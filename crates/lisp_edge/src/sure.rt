ghost use Rattle.std.specs.Prelude.{◌≡◌, ◌<◌, ◌≤◌, length, take, drop, ◌++◌, min};
ghost use Rattle.lisp_edge.specs.Answers.{Reads};
ghost use Rattle.lisp_edge.specs.Memory.{answer_with};

use crate::answers::{ReadAnswer, WriteAnswer};
use crate::sink::Sink;
use crate::source::Source;
use std::marker::Model;

/// A source of bytes in memory. No call fails. A clause sees the bytes that are left.
#[derive(Drop)]
pub struct SureSource {
    bytes: Vec<u8>,
    at: usize,
}

impl Model for SureSource {
    ghost use Rattle.std.specs.Prelude.{ℕ, ◌≤◌, List, length, drop};

    ghost Value = { List ℕ };

    ghost view = { λ s. drop s.at s.bytes.items };

    ghost invariant = { λ s. s.at ≤ length s.bytes.items };
}

impl SureSource {
    /// A source of these bytes.
    pub fn new(bytes: Vec<u8>) -> Self
        ensures { result ≡ bytes.items }
    {
        SureSource { bytes, at: 0 }
    }
}

impl Source for SureSource {
    ghost use Rattle.std.specs.Prelude.{Some};

    ghost left = { λ s. Some s };

    ghost faults = { λ _. 0 };

    /// Reads as many bytes as there is room for and are left. It never fails.
    fn read(&mut self, buf: &mut [u8]) -> ReadAnswer
        requires { 0 < length buf.old }
        ensures bytes { Reads (Some self.old) (Some self.new) 0 0 buf.new result }
        ensures answer { result ≡ answer_with self.old (length buf.old) }
    {
        let left = &self.bytes[self.at..];
        if left.is_empty() {
            return ReadAnswer::End;
        }
        let count = copy_front(left, buf);
        self.at += count;
        ReadAnswer::Took(count)
    }
}

/// A sink that takes all bytes and keeps none. No call fails.
#[derive(Clone, Copy)]
pub struct SureSink;

impl Sink for SureSink {
    ghost use Rattle.std.specs.Prelude.{None};

    ghost held = { λ _. None };

    ghost faults = { λ _. 0 };

    /// Takes all the bytes. It never fails.
    fn write(&mut self, bytes: &[u8]) -> WriteAnswer
        requires { 0 < length bytes.now }
        ensures { result ≡ WriteAnswer.Took (length bytes.now) }
    {
        WriteAnswer::Took(bytes.len())
    }
}

/// Copies as many of the bytes as there is room for into the front of the buffer, and returns how many.
fn copy_front(bytes: &[u8], buf: &mut [u8]) -> usize
    ensures count { result ≡ min (length buf.old) (length bytes.now) }
    ensures front { bytes.now ≡ take result buf.new ++ drop result bytes.now }
{
    let count = buf.len().min(bytes.len());
    buf[..count].copy_from_slice(&bytes[..count]);
    count
}
