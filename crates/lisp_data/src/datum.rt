ghost use Rattle.std.specs.Prelude.{◌≡◌, ◌<◌, ◌^◌, length};
ghost use Rattle.lisp_data.specs.Data.{IsDatum, count_of, data_of, leaf_kind, nodes_under, written};

use lisp_base::id::{Micros, Place, StringId, SymbolId};
use std::marker::Model;

/// A datum that is no list.
#[derive(Clone, Copy, Debug, PartialEq, Eq)]
pub enum Leaf {
    /// An integer.
    Int(i64),
    /// A symbol or a keyword.
    Symbol(SymbolId),
    /// A string literal.
    Text(StringId),
    /// A time.
    Time(Micros),
}

/// What a node of data is.
#[derive(Clone, Copy, Debug, PartialEq, Eq)]
pub enum DatumKind {
    /// A list of so many items, in which so many nodes stand.
    List { items: u32, nodes: u32 },
    /// An integer: in data that were read, from -2^62 to 2^62 - 1.
    Int(i64),
    /// A symbol or a keyword.
    Symbol(SymbolId),
    /// A string literal.
    Text(StringId),
    /// A time: in data that were read, up to 4,000,000,000 seconds.
    Time(Micros),
}

/// One node of data in preorder: where it begins, and what it is.
#[derive(Clone, Copy, Debug, PartialEq, Eq)]
pub struct DatumNode {
    /// The place of its first byte in the text.
    pub place: Place,
    pub kind: DatumKind,
}

/// One datum, as its nodes in preorder. Contracts see the tree.
#[derive(Debug, Drop)]
pub struct Datum<'a> {
    nodes: &'a [DatumNode],
}

impl<'a> Model for Datum<'a> {
    ghost use Rattle.lisp_data.specs.Data.{Data, IsDatum, data_of};
    ghost use Rattle.lisp_data.specs.inside.DataCode.{data_code};

    ghost Value = { Data };

    ghost coded = { data_code };

    ghost view = { λ d. data_of d.nodes.now };

    ghost invariant = { λ d. IsDatum d.nodes.now };
}

impl Leaf {
    /// The kind of the node of a leaf.
    pub fn kind(self) -> DatumKind
        ensures { result ≡ leaf_kind self }
    {
        match self {
            Leaf::Int(number) => DatumKind::Int(number),
            Leaf::Symbol(symbol) => DatumKind::Symbol(symbol),
            Leaf::Text(text) => DatumKind::Text(text),
            Leaf::Time(time) => DatumKind::Time(time),
        }
    }
}

impl DatumNode {
    /// How many nodes stand in it: those in a list, and none in a leaf.
    pub fn under(&self) -> u32
        ensures { result ≡ nodes_under self.now.kind }
    {
        match self.kind {
            DatumKind::List { nodes, .. } => nodes,
            _ => 0,
        }
    }
}

impl<'a> Datum<'a> {
    /// The datum with these nodes. It takes no memory.
    pub fn of(nodes: &'a [DatumNode]) -> Self
        requires { IsDatum nodes.now }
        ensures { result ≡ data_of nodes.now }
    {
        Datum { nodes }
    }

    /// Its nodes, each list before its items.
    pub fn nodes(&self) -> &'a [DatumNode]
        ensures nodes { result.now ≡ written self.now }
        ensures one { count_of self.now ≡ 1 }
        ensures short { length result.now < 2 ^ 30 }
    {
        self.nodes
    }
}
