ghost use Rattle.std.specs.Prelude.{ℕ, ◌<◌, ◌≤◌, List, Option, length};
ghost use Rattle.lisp_edge.specs.Answers.{Reads};

use crate::answers::ReadAnswer;

/// Something that bytes are read from.
pub trait Source {
    /// The bytes that are left to read, where the source tells them.
    ghost left: { Self → Option (List ℕ) };

    /// How many calls have failed. Only a call that fails raises the count, which stops at the end of its type.
    ghost faults: { Self → ℕ };

    /// Reads some bytes into the front of the buffer, finds the end, or fails.
    /// The count of faults stays as it was unless the call fails.
    fn read(&mut self, buf: &mut [u8]) -> ReadAnswer
        requires { 0 < length buf.old }
        ensures bytes { Reads (left self.old) (left self.new) (faults self.old) (faults self.new) buf.new result }
        ensures later { faults self.old ≤ faults self.new };
}
