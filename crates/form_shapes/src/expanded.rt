use lisp_base::id::{Place, SymbolId};
use lisp_base::refusal::Refusal;
use lisp_program::form::CoreKind;

/// A form round which an implicit block may stand.
#[derive(Clone, Copy)]
pub enum Turning {
    While,
    Let,
}

/// What a datum is expanded to by itself.
#[derive(Clone, Copy)]
pub enum Expanded {
    /// A form of this kind.
    Form(CoreKind),
    /// A form of this kind in an implicit block with this number, which is only made where something in it returns to it.
    InBlock(u32, Turning),
    /// A `lambda` with so many parameters; its body stands under it.
    Lambda(u32),
    /// A `defun` of this function with so many parameters; its body stands under it.
    Defun(SymbolId, u32),
    /// What is refused for this reason.
    Refused(Refusal),
    /// A function that is refused for this reason, and still counts among the functions.
    RefusedFunction(Refusal),
}

/// One form of an expansion in preorder: what it is, its place, and how many forms stand directly under it.
#[derive(Clone, Copy)]
pub struct ExpandedNode {
    pub kind: Expanded,
    pub place: Place,
    pub parts: u32,
}
