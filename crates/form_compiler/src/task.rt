use crate::hold::Hold;
use crate::mark::Light;
use lisp_base::id::Place;

/// What is still to be written.
#[derive(Clone, Copy)]
pub enum Task {
    /// The next form.
    Form(Hold),
    /// The next form as a clause, which goes on at a position, and the place of its `handler-case`.
    Clause(Hold, u32, Place),
    /// The next form where some are there, else NIL, at a place.
    Part(usize, Place, Hold),
    /// So many forms as a body, at a place.
    Body(usize, Place, Hold),
    /// So many forms in turn.
    All(usize, Hold),
    /// So many operands, where so many forms are there, at a place.
    Operands(usize, usize, Place, Hold),
    /// So many forms as clauses, which go on at a position, and the place of their `handler-case`.
    Clauses(usize, u32, Place, Hold),
    /// So many forms are passed over.
    Skip(usize),
    /// This.
    Write(Light),
}
