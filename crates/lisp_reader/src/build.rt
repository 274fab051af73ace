ghost use Rattle.std.specs.Prelude.{◌≡◌, ◌+◌, ◌<◌, ◌≤◌, ◌^◌, length, IfOk, OnOk};
ghost use Rattle.lisp_reader.specs.inside.Build.{built, closed, first_size as first_size_of, moved, nothing_built, opened, quoted, total, with_item};
ghost use Rattle.lisp_reader.specs.inside.Stack.{top_of};

use crate::gather::{Mark, MarkKind};
use crate::stack::Stack;
use lisp_base::id::{Place, SymbolId};
use lisp_base::memory::Memory;
use lisp_data::datum::{DatumKind, DatumNode};
use std::alloc::Global;

/// A list whose beginning is still to come, or the top level.
#[derive(Clone, Copy)]
pub struct Partial {
    /// How many items it has so far.
    pub items: u32,
    /// How many nodes stand after its end.
    pub after: usize,
}

/// What the marks from one mark to the last have built.
#[derive(Drop)]
pub struct Builder {
    /// The innermost list whose beginning is still to come, or else the top level.
    pub inner: Partial,
    /// The lists round it and the top level, innermost first.
    pub outer: Stack<Partial>,
    /// The nodes, in preorder.
    pub nodes: Stack<DatumNode>,
}

/// Nothing of a list, after which no nodes stand.
const NOTHING: Partial = Partial { items: 0, after: 0 };

/// How many nodes the first datum has, or 0 where there is none.
fn first_size(nodes: &Stack<DatumNode>) -> u32
    requires { first_size_of (top_of nodes.now) < 2 ^ 32 }
    ensures { result ≡ first_size_of (top_of nodes.now) }
{
    match nodes.top() {
        Some(node) => node.under() + 1,
        None => 0,
    }
}

impl Builder {
    fn new(alloc: Global) -> Self
        ensures { result ≡ nothing_built }
    {
        Builder {
            inner: NOTHING,
            outer: Stack::new(alloc),
            nodes: Stack::new(alloc),
        }
    }

    fn add_item(&mut self, kind: DatumKind, place: Place) -> Result<(), Memory>
        requires { total self.old + 1 < 2 ^ 32 }
        ensures { OnOk result (self.new ≡ with_item kind place self.old) }
    {
        self.inner.items += 1;
        self.nodes.push(DatumNode { place, kind })?;
        Ok(())
    }

    /// Takes the end of a list, of which no item is seen yet.
    fn close(&mut self) -> Result<(), Memory>
        ensures { OnOk result (self.new ≡ closed self.old) }
    {
        self.outer.push(self.inner)?;
        self.inner = Partial {
            items: 0,
            after: self.nodes.len(),
        };
        Ok(())
    }

    /// Takes the beginning of the innermost list.
    fn open(&mut self, place: Place) -> Result<(), Memory>
        requires items { total self.old + 1 < 2 ^ 32 }
        requires nodes { length self.old.nodes < 2 ^ 32 }
        ensures { OnOk result (self.new ≡ opened place self.old) }
    {
        let nodes = self.nodes.len().saturating_sub(self.inner.after);
        let kind = DatumKind::List {
            items: self.inner.items,
            nodes: nodes as u32,
        };
        self.inner = self.outer.pop().unwrap_or(NOTHING);
        self.add_item(kind, place)?;
        Ok(())
    }

    /// Takes a quote before a datum: it makes a list of its symbol and that datum.
    fn quote(&mut self, symbol: SymbolId, place: Place) -> Result<(), Memory>
        requires { first_size_of (top_of self.old.nodes) + 1 < 2 ^ 32 }
        ensures { OnOk result (self.new ≡ quoted symbol place self.old) }
    {
        let kind = DatumKind::List {
            items: 2,
            nodes: first_size(&self.nodes) + 1,
        };
        self.nodes.push(DatumNode {
            place,
            kind: DatumKind::Symbol(symbol),
        })?;
        self.nodes.push(DatumNode { place, kind })?;
        Ok(())
    }

    /// Takes one more mark, which is before the others.
    fn add(&mut self, mark: Mark) -> Result<(), Memory>
        requires items { total self.old + 1 < 2 ^ 32 }
        requires nodes { length self.old.nodes < 2 ^ 31 }
        requires first { first_size_of (top_of self.old.nodes) ≤ length self.old.nodes }
        ensures { OnOk result (self.new ≡ moved mark.kind mark.place self.old) }
    {
        let Mark { kind, place } = mark;
        match kind {
            MarkKind::Open => self.open(place)?,
            MarkKind::Close => self.close()?,
            MarkKind::Quote(symbol) => self.quote(symbol, place)?,
            MarkKind::ALeaf(leaf) => self.add_item(leaf.kind(), place)?,
        }
        Ok(())
    }
}

/// The nodes of the data with these marks, in preorder.
pub fn nodes_of(alloc: Global, marks: &[Mark]) -> Result<Vec<DatumNode>, Memory>
    requires { length marks.now < 2 ^ 30 }
    ensures { IfOk result (λ nodes. nodes.items ≡ (built marks.now).nodes) }
{
    let mut builder = Builder::new(alloc);
    for mark in marks.iter().rev().copied() {
        builder.add(mark)?;
    }
    Ok(builder.nodes.into_vec())
}
