pub use form_points::act::{Act, Opening, Question};
pub use lisp_base::condition::Class;

/// An instruction: one point of a form, or the end of a frame, but for `Jump`, which is no point. A position is the number of an
/// instruction in its code, from 0.
#[derive(Clone, Copy, Debug, PartialEq, Eq)]
pub enum Instr {
    /// A local point that opens no frame. That of a call stands here only where the program has no such function.
    Do(Act),
    /// Calls the function with this number, which takes so many operands.
    Call(u32, u32),
    /// An operation on shared objects, or a local point where the thread alone has what is asked for.
    Ask(Question),
    /// A question; goes on at this position where the reply settles the matter.
    Test(Question, u32),
    /// Takes a value; goes on at this position where it is NIL.
    Branch(u32),
    /// Takes the value of a loop's test; where it is NIL gives NIL, and goes on at this position.
    LoopTest(u32),
    /// Goes on at this position.
    Jump(u32),
    /// Opens a frame. An exit that reaches it goes on at this position.
    Enter(Opening, u32),
    /// Opens a Protect frame, whose cleanup is at this position.
    EnterProtect(u32),
    /// Opens a Handler frame with the clauses of this row.
    EnterHandler(u32),
    /// Leaves the innermost frame, which an `Enter` or a call has opened.
    Leave,
    /// Turns the innermost Protect frame into a Cleanup frame, and goes on with the cleanup.
    LeaveProtect,
    /// Leaves the innermost Cleanup frame, and goes on with what it keeps.
    LeaveCleanup,
    /// Leaves the innermost Handler frame, and goes on at this position.
    LeaveHandler(u32),
}

/// A clause of a `handler-case`: the class of the conditions that it handles, whether it is given the condition, and its first position.
#[derive(Clone, Copy, Debug, PartialEq, Eq)]
pub struct Clause {
    pub class: Class,
    pub is_given: bool,
    pub start: u32,
}
