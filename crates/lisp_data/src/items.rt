ghost use Rattle.std.specs.Prelude.{◌≡◌, ◌<◌, ◌^◌, length, IfNone, IfSome};
ghost use Rattle.lisp_data.specs.Data.{NoData, behind, count_of, written};
ghost use Rattle.lisp_data.specs.First.{with_first};

use crate::datum::{Datum, DatumKind, DatumNode, Leaf};
use crate::split::end_of;
use lisp_base::id::Place;
use std::marker::Model;

/// Data beside one another. Contracts see them as trees.
#[derive(Debug, Drop)]
pub struct Items<'a> {
    nodes: &'a [DatumNode],
    count: u32,
}

impl<'a> Model for Items<'a> {
    ghost use Rattle.lisp_data.specs.Data.{AreItems, Data, data_of};
    ghost use Rattle.lisp_data.specs.inside.DataCode.{data_code};

    ghost Value = { Data };

    ghost coded = { data_code };

    ghost view = { λ i. data_of i.nodes.now };

    ghost invariant = { λ i. AreItems i.nodes.now i.count };
}

/// The first of several data: a leaf with its place, or a list with its place and its items.
#[derive(Debug, Drop)]
pub enum First<'a> {
    Leaf(Leaf, Place),
    List(Place, Items<'a>),
}

impl<'a> Items<'a> {
    /// Just one datum.
    pub fn of(datum: &Datum<'a>) -> Items<'a>
        ensures same { result ≡ datum.now }
        ensures one { count_of result ≡ 1 }
        ensures short { length (written result) < 2 ^ 30 }
    {
        Items {
            nodes: datum.nodes(),
            count: 1,
        }
    }

    /// How many there are: fewer than 2^30, which is more than any text has.
    pub fn count(&self) -> u32
        ensures is { result ≡ count_of self.now }
        ensures few { result < 2 ^ 30 }
    {
        self.count
    }

    /// The first and the others: `None` exactly where there are none. There are fewer than 2^30.
    pub fn split_first(&self) -> Option<(First<'a>, Items<'a>)>
        ensures some { IfSome result (λ split. self.now ≡ with_first split.0 split.1) }
        ensures none { IfNone result (self.now ≡ NoData) }
        ensures few { count_of self.now < 2 ^ 30 }
    {
        if self.count == 0 {
            return None;
        }
        let node = &self.nodes[0];
        let end = end_of(self.nodes, 0);
        let others = Items {
            nodes: &self.nodes[end..],
            count: self.count - 1,
        };
        let first = match node.kind {
            DatumKind::List { items, .. } => First::List(
                node.place,
                Items {
                    nodes: &self.nodes[1..end],
                    count: items,
                },
            ),
            DatumKind::Int(number) => First::Leaf(Leaf::Int(number), node.place),
            DatumKind::Symbol(symbol) => First::Leaf(Leaf::Symbol(symbol), node.place),
            DatumKind::Text(text) => First::Leaf(Leaf::Text(text), node.place),
            DatumKind::Time(time) => First::Leaf(Leaf::Time(time), node.place),
        };
        Some((first, others))
    }

    /// Those after the first so many.
    pub fn skip(&self, number: u32) -> Items<'a>
        ensures { result ≡ behind number self.now }
    {
        let mut left = Items {
            nodes: self.nodes,
            count: self.count,
        };
        for _skipped in 0..number {
            match left.split_first() {
                None => return left,
                Some((_, others)) => left = others,
            }
        }
        left
    }
}
