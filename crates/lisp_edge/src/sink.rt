ghost use Rattle.std.specs.Prelude.{ℕ, ◌<◌, ◌≤◌, List, Option, length};
ghost use Rattle.lisp_edge.specs.Answers.{Writes};

use crate::answers::WriteAnswer;

/// Something that bytes are written to.
pub trait Sink {
    /// The bytes that it holds, where the sink tells them.
    ghost held: { Self → Option (List ℕ) };

    /// How many calls have failed. Only a call that fails raises the count, which stops at the end of its type.
    ghost faults: { Self → ℕ };

    /// Takes some bytes from the front of those given, or fails.
    /// The count of faults stays as it was unless the call fails.
    fn write(&mut self, bytes: &[u8]) -> WriteAnswer
        requires { 0 < length bytes.now }
        ensures bytes { Writes (held self.old) (held self.new) (faults self.old) (faults self.new) bytes.now result }
        ensures later { faults self.old ≤ faults self.new };
}
