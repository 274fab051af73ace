ghost use Rattle.std.specs.Prelude.{◌≡◌, IfOk, OnOk};
ghost use Rattle.std.specs.List.{list_any};
ghost use Rattle.lisp_forms.specs.inside.Made.{bottom_of, has_from, is_in_block, nothing_seen, seen_as, seen_node, seen_of};

use form_shapes::expanded::{Expanded, ExpandedNode};
use lisp_base::memory::Memory;
use lisp_program::form::CoreKind;
use std::alloc::Global;

/// Whether a form has an implicit block.
fn is_in_block(kind: &Expanded) -> bool
    ensures { result ≡ is_in_block kind.now }
{
    match kind {
        Expanded::InBlock(_, _) => true,
        _ => false,
    }
}

/// Whether some form among these nodes has an implicit block.
pub fn has_block(nodes: &[ExpandedNode]) -> bool
    ensures { result ≡ list_any (λ n. is_in_block n.kind) nodes.now }
{
    nodes.iter().any(|node| is_in_block(&node.kind))
}

/// What was seen of nodes, from the last one on.
#[derive(Drop)]
pub struct Seen {
    /// For each form that is seen and belongs to none that is seen, how many numbers `returns` had before it.
    pub ends: Vec<usize>,
    /// The numbers of the blocks to which some form in these returns.
    pub returns: Vec<u32>,
    /// For each form with an implicit block, whether something in it returns to it.
    pub made: Vec<bool>,
}

/// Nothing was seen. It takes no memory.
fn nothing_seen(alloc: Global) -> Seen
    ensures { seen_as result ≡ nothing_seen }
{
    Seen {
        ends: Vec::new(alloc),
        returns: Vec::new(alloc),
        made: Vec::new(alloc),
    }
}

/// Whether a number is among those after the first so many.
fn has_from(numbers: &[u32], start: usize, number: u32) -> bool
    ensures { result ≡ has_from numbers.now start number }
{
    numbers.iter().skip(start).any(|other| *other == number)
}

impl Seen {
    /// How many numbers `returns` had before what belongs to a form with so many under it.
    fn bottom_of(&self, parts: u32) -> usize
        ensures { result ≡ bottom_of parts (seen_as self.now) }
    {
        if parts == 0 {
            return self.returns.len();
        }
        let first = self.ends.len().saturating_sub(parts as usize);
        match self.ends.get(first) {
            Some(end) => *end,
            None => 0,
        }
    }

    /// Takes one more node, which stands before the others.
    fn take(&mut self, node: &ExpandedNode) -> Result<(), Memory>
        ensures { OnOk result (seen_as self.new ≡ seen_node node.now (seen_as self.old)) }
    {
        let bottom = self.bottom_of(node.parts);
        self.ends
            .truncate(self.ends.len().saturating_sub(node.parts as usize));
        self.ends.push(bottom)?;
        match node.kind {
            Expanded::Form(CoreKind::ReturnFrom(block)) => self.returns.push(block)?,
            Expanded::InBlock(block, _) => {
                let made = has_from(self.returns.as_slice(), bottom, block);
                self.made.push(made)?;
            }
            Expanded::Lambda(_) | Expanded::Defun(_, _) | Expanded::RefusedFunction(_) => {
                self.returns.truncate(bottom)
            }
            _ => (),
        }
        Ok(())
    }
}

/// For each form among these that has an implicit block, whether something in it returns to it, from the last on.
pub fn made_blocks(alloc: Global, nodes: &[ExpandedNode]) -> Result<Vec<bool>, Memory>
    ensures { IfOk result (λ made. made.items ≡ (seen_of nodes.now).made) }
{
    let mut seen = nothing_seen(alloc);
    for node in nodes.iter().rev().copied() {
        seen.take(&node)?;
    }
    Ok(seen.made)
}
