ghost use Rattle.std.specs.Prelude.{◌≡◌, ◌<◌, ◌≤◌, ◌^◌, ◌-◌, drop, take, length, IfOk};
ghost use Rattle.lisp_data.specs.Data.{AreData, AreWhole, behind, data_of, each, front, written};
ghost use Rattle.lisp_data.specs.inside.Splitting.{IsEnd};

use crate::datum::{Datum, DatumNode};
use lisp_base::memory::Memory;
use std::alloc::Global;
use std::marker::Model;

/// The node after the datum that begins at a node.
pub fn end_of(nodes: &[DatumNode], at: usize) -> usize
    requires whole { AreWhole (drop at nodes.now) }
    requires inside { at < length nodes.now }
    requires short { length nodes.now < 2 ^ 30 }
    ensures { IsEnd nodes.now at result }
{
    at + 1 + nodes[at].under() as usize
}

/// The data with these nodes, each by itself.
fn split<'a>(alloc: Global, nodes: &'a [DatumNode]) -> Result<Vec<Datum<'a>>, Memory>
    requires whole { AreWhole nodes.now }
    requires short { length nodes.now < 2 ^ 30 }
    ensures { IfOk result (λ read. read.items ≡ each (data_of nodes.now)) }
{
    let mut data = Vec::new(alloc);
    let mut at = 0;
    while at < nodes.len() {
        let end = end_of(nodes, at);
        data.push(Datum::of(&nodes[at..end]))?;
        at = end;
    }
    Ok(data)
}

/// All data of a text, as their nodes in preorder. Contracts see the trees.
#[derive(Debug, Drop)]
pub struct AllData {
    nodes: Vec<DatumNode>,
}

impl Model for AllData {
    ghost use Rattle.lisp_data.specs.Data.{AreData, Data, data_of};
    ghost use Rattle.lisp_data.specs.inside.DataCode.{data_code};

    ghost Value = { Data };

    ghost coded = { data_code };

    ghost view = { λ d. data_of d.nodes.items };

    ghost invariant = { λ d. AreData d.nodes.items };
}

impl AllData {
    /// The data with these nodes. It takes no memory.
    pub fn of(nodes: Vec<DatumNode>) -> Self
        requires { AreData nodes.items }
        ensures { result ≡ data_of nodes.items }
    {
        AllData { nodes }
    }

    /// The data, each by itself. Their nodes are not copied.
    pub fn each<'a>(&'a self, alloc: Global) -> Result<Vec<Datum<'a>>, Memory>
        ensures { IfOk result (λ read. read.items ≡ each self.now) }
    {
        split(alloc, self.nodes.as_slice())
    }
}
