use lisp_base::id::SymbolId;
use lisp_base::value::Value;

/// A special variable and its global value, where it has one.
#[derive(Clone, Copy, Debug, PartialEq, Eq)]
pub struct Global {
    pub symbol: SymbolId,
    pub value: Option<Value>,
}
