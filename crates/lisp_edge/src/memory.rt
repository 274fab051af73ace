ghost use Rattle.std.specs.Prelude.{◌≡◌, ◌==◌, ◌<◌, ◌≤◌, [], length, IsTrue, Some, None, if◌then◌else◌};
ghost use Rattle.lisp_edge.specs.Answers.{Reads, Writes};
ghost use Rattle.lisp_edge.specs.Memory.{is_failing, read_answer, after_read, after_write, TakesPiece};

use crate::answers::{ReadAnswer, WriteAnswer};
use crate::sink::Sink;
use crate::source::Source;
use crate::sure::SureSource;
use std::alloc::Global;
use std::marker::Model;

/// A source of bytes in memory, which come in pieces. Chosen calls fail.
#[derive(Drop)]
pub struct MemorySource {
    bytes: SureSource,
    piece: usize,
    failing: Vec<u32>,
    calls: u64,
    faults: u64,
}

impl Model for MemorySource {
    ghost use Rattle.std.specs.Prelude.{◌<◌};
    ghost use Rattle.lisp_edge.specs.Memory.{Reading};

    ghost Value = { Reading };

    ghost view = { λ s. record { left = s.bytes; piece = s.piece; failing = s.failing.items; calls = s.calls; faults = s.faults } };

    ghost invariant = { λ s. 0 < s.piece };
}

impl MemorySource {
    /// A source of these bytes. A call reads as many as there is room for.
    /// The calls with these numbers, counted from 0, fail.
    pub fn new(bytes: Vec<u8>, failing: Vec<u32>) -> Self
        ensures { result ≡ record { left = bytes.items; piece = usize.MAX; failing = failing.items; calls = 0; faults = 0 } }
    {
        MemorySource {
            bytes: SureSource::new(bytes),
            piece: usize::MAX,
            failing,
            calls: 0,
            faults: 0,
        }
    }

    /// A source of these bytes, of which each call reads at most `piece`, or `None` where that is 0.
    /// The calls with these numbers, counted from 0, fail.
    pub fn in_pieces(bytes: Vec<u8>, piece: usize, failing: Vec<u32>) -> Option<Self>
        ensures { result ≡ (if piece == 0 then None else Some (record { left = bytes.items; piece = piece; failing = failing.items; calls = 0; faults = 0 })) }
    {
        if piece == 0 {
            return None;
        }
        let source = MemorySource::new(bytes, failing);
        Some(MemorySource { piece, ..source })
    }
}

impl Source for MemorySource {
    ghost use Rattle.std.specs.Prelude.{Some};

    ghost left = { λ s. Some s.left };

    ghost faults = { λ s. s.faults };

    /// Reads as many bytes as there is room for and are left, at most a piece.
    /// It fails in exactly the calls that were named.
    fn read(&mut self, buf: &mut [u8]) -> ReadAnswer
        requires { 0 < length buf.old }
        ensures bytes { Reads (Some self.old.left) (Some self.new.left) self.old.faults self.new.faults buf.new result }
        ensures later { self.old.faults ≤ self.new.faults }
        ensures answer { result ≡ read_answer self.old (length buf.old) }
        ensures after { self.new ≡ after_read self.old result }
    {
        let is_failing = fails(&self.failing, self.calls);
        self.calls = self.calls.saturating_add(1);
        if is_failing {
            self.faults = self.faults.saturating_add(1);
            return ReadAnswer::Failed;
        }
        let room = self.piece.min(buf.len());
        self.bytes.read(&mut buf[..room])
    }
}

/// A sink that holds bytes in memory, and takes them in pieces. Chosen calls fail.
#[derive(Drop)]
pub struct MemorySink {
    bytes: Vec<u8>,
    piece: usize,
    failing: Vec<u32>,
    calls: u64,
    faults: u64,
}

impl Model for MemorySink {
    ghost use Rattle.std.specs.Prelude.{◌<◌};
    ghost use Rattle.lisp_edge.specs.Memory.{Holding};

    ghost Value = { Holding };

    ghost view = { λ s. record { held = s.bytes.items; piece = s.piece; failing = s.failing.items; calls = s.calls; faults = s.faults } };

    ghost invariant = { λ s. 0 < s.piece };
}

impl MemorySink {
    /// A sink that holds nothing yet. A call takes all the bytes that it is given.
    /// The calls with these numbers, counted from 0, fail. So does any other call where memory runs out.
    pub fn new(alloc: Global, failing: Vec<u32>) -> Self
        ensures { result ≡ record { held = []; piece = usize.MAX; failing = failing.items; calls = 0; faults = 0 } }
    {
        MemorySink {
            bytes: Vec::new(alloc),
            piece: usize::MAX,
            failing,
            calls: 0,
            faults: 0,
        }
    }

    /// A sink that holds nothing yet, of which each call takes at most `piece` bytes, or `None` where that is 0.
    /// The calls with these numbers, counted from 0, fail. So does any other call where memory runs out.
    pub fn in_pieces(alloc: Global, piece: usize, failing: Vec<u32>) -> Option<Self>
        ensures { result ≡ (if piece == 0 then None else Some (record { held = []; piece = piece; failing = failing.items; calls = 0; faults = 0 })) }
    {
        if piece == 0 {
            return None;
        }
        let sink = MemorySink::new(alloc, failing);
        Some(MemorySink { piece, ..sink })
    }

    /// The bytes that it has taken, in order.
    pub fn held(&self) -> &[u8]
        ensures { result.now ≡ self.now.held }
    {
        self.bytes.as_slice()
    }
}

impl Sink for MemorySink {
    ghost use Rattle.std.specs.Prelude.{Some};

    ghost held = { λ s. Some s.held };

    ghost faults = { λ s. s.faults };

    /// Takes all the bytes, or a piece of them where they are more.
    /// It fails in the calls that were named, and where memory runs out.
    fn write(&mut self, bytes: &[u8]) -> WriteAnswer
        requires { 0 < length bytes.now }
        ensures bytes { Writes (Some self.old.held) (Some self.new.held) self.old.faults self.new.faults bytes.now result }
        ensures later { self.old.faults ≤ self.new.faults }
        ensures failing { IsTrue (is_failing self.old.failing self.old.calls) → result ≡ WriteAnswer.Failed }
        ensures whole { TakesPiece self.old.piece bytes.now result }
        ensures after { self.new ≡ after_write self.old bytes.now result }
    {
        let is_failing = fails(&self.failing, self.calls);
        self.calls = self.calls.saturating_add(1);
        let count = self.piece.min(bytes.len());
        if is_failing || self.bytes.extend_from_slice(&bytes[..count]).is_err() {
            self.faults = self.faults.saturating_add(1);
            return WriteAnswer::Failed;
        }
        WriteAnswer::Took(count)
    }
}

/// Whether the call with this number is among those that fail.
fn fails(failing: &[u32], call: u64) -> bool
    ensures { result ≡ is_failing failing.now call }
{
    failing.iter().any(|number| u64::from(*number) == call)
}

#[cfg(test)]
mod tests {
    use super::*;
    use std::test::Fail;

    #[test]
    fn a_read_fails_in_mid_stream(rt: HostRuntime) -> Result<(), Fail> {
        let bytes = Vec::from_slice(rt.alloc(), b"abcde")?;
        let failing = Vec::from_slice(rt.alloc(), &[1, 4])?;
        let mut source = MemorySource::new(bytes, failing);
        let mut buf = [b'-'; 2];
        for (answer, held) in [
            (ReadAnswer::Took(2), b"ab"),
            (ReadAnswer::Failed, b"ab"),
            (ReadAnswer::Took(2), b"cd"),
            (ReadAnswer::Took(1), b"ed"),
            (ReadAnswer::Failed, b"ed"),
            (ReadAnswer::End, b"ed"),
            (ReadAnswer::End, b"ed"),
        ] {
            assert_eq!(rt; source.read(&mut buf), answer);
            assert_eq!(rt; buf.as_slice(), held.as_slice());
        }
        assert_eq!(rt; source.faults, 2);
        Ok(())
    }

    #[test]
    fn a_text_comes_in_pieces(rt: HostRuntime) -> Result<(), Fail> {
        let bytes = Vec::from_slice(rt.alloc(), b"abcde")?;
        let failing = Vec::from_slice(rt.alloc(), &[1])?;
        let mut source = MemorySource::in_pieces(bytes, 2, failing).ok_or("no source")?;
        let mut buf = [b'-'; 4];
        for (answer, held) in [
            (ReadAnswer::Took(2), b"ab--"),
            (ReadAnswer::Failed, b"ab--"),
            (ReadAnswer::Took(2), b"cd--"),
            (ReadAnswer::Took(1), b"ed--"),
            (ReadAnswer::End, b"ed--"),
        ] {
            assert_eq!(rt; source.read(&mut buf), answer);
            assert_eq!(rt; buf.as_slice(), held.as_slice());
        }
        Ok(())
    }

    #[test]
    fn a_write_fails_between_others(rt: HostRuntime) -> Result<(), Fail> {
        let failing = Vec::from_slice(rt.alloc(), &[1])?;
        let mut sink = MemorySink::new(rt.alloc(), failing);
        for (bytes, answer, held) in [
            (b"abc", WriteAnswer::Took(3), b"abc".as_slice()),
            (b"def", WriteAnswer::Failed, b"abc"),
            (b"ghi", WriteAnswer::Took(3), b"abcghi"),
        ] {
            assert_eq!(rt; sink.write(bytes), answer);
            assert_eq!(rt; sink.held(), held);
        }
        assert_eq!(rt; sink.faults, 1);
        Ok(())
    }

    #[test]
    fn a_text_is_taken_in_pieces(rt: HostRuntime) -> Result<(), Fail> {
        let failing = Vec::from_slice(rt.alloc(), &[1])?;
        let mut sink = MemorySink::in_pieces(rt.alloc(), 3, failing).ok_or("no sink")?;
        for (bytes, answer, held) in [
            (b"abcde".as_slice(), WriteAnswer::Took(3), b"abc".as_slice()),
            (b"de", WriteAnswer::Failed, b"abc"),
            (b"de", WriteAnswer::Took(2), b"abcde"),
        ] {
            assert_eq!(rt; sink.write(bytes), answer);
            assert_eq!(rt; sink.held(), held);
        }
        Ok(())
    }

    #[test]
    fn a_piece_is_not_empty(rt: HostRuntime) {
        let alloc = rt.alloc();
        assert!(rt; MemorySource::in_pieces(Vec::new(alloc), 0, Vec::new(alloc)).is_none());
        assert!(rt; MemorySink::in_pieces(alloc, 0, Vec::new(alloc)).is_none());
    }
}
