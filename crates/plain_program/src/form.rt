use lisp_base::id::{Place, SymbolId};
use lisp_base::value::Value;

/// The kinds of core forms that are run.
#[derive(Clone, Copy, Debug, PartialEq, Eq)]
pub enum PlainKind {
    Constant(Value),
    Plus,
    Print,
    Progn,
    /// A special variable.
    Special(SymbolId),
    /// `setq` of a special variable; its value stands under it.
    Setq(SymbolId),
    /// `defvar` of a special variable; its value stands under it.
    Defvar(SymbolId),
    /// `let`: the values of its variables stand under it, and then one `Bind`.
    Let,
    /// One variable of a `let`, which takes the value that has so many others before it. Under it stands the next
    /// variable, or the body.
    Bind(SymbolId, u32),
}

/// One form of a program in preorder: its kind, its place, and how many forms stand directly under it.
#[derive(Clone, Copy, Debug, PartialEq, Eq)]
pub struct PlainNode {
    pub kind: PlainKind,
    pub place: Place,
    pub parts: u32,
}
