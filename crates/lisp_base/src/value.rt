ghost use Rattle.std.specs.Prelude.{◌≡◌, ◌↔◌, ℕ, true, false, Bool, IsTrue, IsSome, IsNone, IfSome};
ghost use Rattle.lisp_base.specs.Value.{is_in_range, is_untold};

use crate::condition::Condition;
use crate::id::{Micros, MutexId, QueueId, StringId, SymbolId, ThreadId, TimerId};
use std::marker::Model;

/// What a value is made of.
#[derive(Clone, Copy, Debug, PartialEq, Eq)]
pub enum Node {
    Int(i64),
    Symbol(SymbolId),
    /// A string.
    Text(StringId),
    Time(Micros),
    /// A condition.
    Cond(Condition),
    Thread(ThreadId),
    Mutex(MutexId),
    /// A waitqueue.
    Queue(QueueId),
    Timer(TimerId),
}

/// A value: a node in range. It has no parts, and is copied wherever it goes.
#[derive(Clone, Copy, Debug, PartialEq, Eq)]
pub struct Value {
    node: Node,
}

impl Model for Value {
    ghost use Rattle.lisp_base.specs.declared.value.Node.{Node};

    ghost Value = { Node };

    ghost use Rattle.std.specs.Prelude.{IsTrue};
    ghost use Rattle.lisp_base.specs.Value.{is_in_range};

    ghost view = { λ v. v.node };

    ghost invariant = { λ v. IsTrue (is_in_range v.node) };

    ghost inverse = { λ n. record { node = n } };
}

/// The greatest integer. The least is -GREATEST - 1.
const GREATEST: i64 = (1 << 62) - 1;

/// Times are below this number of microseconds, which is the greatest reading of a clock and the longest wait after it.
const TIMES: u64 = (1 << 62) + (1 << 52);

impl Value {
    /// The value of a node: `None` exactly where the node is not in range.
    pub fn of(node: Node) -> Option<Value>
        ensures given { IsSome result ↔ IsTrue (is_in_range node) }
        ensures same { IfSome result (λ v. v ≡ node) }
    {
        match node {
            Node::Int(number) => {
                if number < -GREATEST - 1 || number > GREATEST {
                    return None;
                }
                Some(Value { node })
            }
            Node::Time(time) => {
                if time.0 >= TIMES {
                    return None;
                }
                Some(Value { node })
            }
            _ => Some(Value { node }),
        }
    }

    /// Its node, which is in range.
    pub fn node(self) -> Node
        ensures same { result ≡ self }
        ensures in_range { IsTrue (is_in_range result) }
    {
        self.node
    }

    /// A symbol.
    pub fn symbol(symbol: SymbolId) -> Value
        ensures { result ≡ Node.Symbol symbol }
    {
        Value {
            node: Node::Symbol(symbol),
        }
    }

    /// NIL, which is also what is false.
    pub fn nil() -> Value
        ensures { result ≡ Node.Symbol 0 }
    {
        Value {
            node: Node::Symbol(SymbolId::nil()),
        }
    }

    /// Whether two values are the same: `None` exactly where both are strings or both are conditions, since no program can tell whether these are the same.
    pub fn eq(&self, other: &Value) -> Option<bool>
        ensures untold { IsNone result ↔ IsTrue (is_untold self.now other.now) }
        ensures told { IfSome result (λ same. IsTrue same ↔ (self.now ≡ other.now)) }
    {
        match (self.node, other.node) {
            (Node::Text(_), Node::Text(_)) | (Node::Cond(_), Node::Cond(_)) => None,
            (node, with) => Some(node == with),
        }
    }
}
