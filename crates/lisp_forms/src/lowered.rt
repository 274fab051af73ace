ghost use Rattle.std.specs.Prelude.{◌≡◌, ◌∷◌, ◌-◌, [], ◌++◌, reverse, IfOk, OnOk};
ghost use Rattle.lisp_base.specs.Forest.{count_of};
ghost use Rattle.lisp_forms.specs.Blocks;
ghost use Rattle.lisp_forms.specs.inside.Flat.{flat};
ghost use Rattle.lisp_forms.specs.inside.Lowering.{closed, entered, frames_of, made_at, made_behind};
ghost use Rattle.lisp_forms.specs.Trees.{Expansion};

use crate::made::made_blocks;
use form_shapes::expanded::{Expanded, ExpandedNode, Turning};
use lisp_base::memory::Memory;
use lisp_program::form::CoreKind;
use std::alloc::Global;

/// Which blocks are not made round the form that goes on where another is done.
#[derive(Drop)]
pub enum Kept {
    /// Those of the other, without the innermost.
    AllButLast,
    /// These, the innermost last.
    These(Vec<u32>),
}

/// A form that goes on where another is done.
#[derive(Drop)]
pub struct Outer {
    /// How many of the forms under it are left.
    pub left: u32,
    pub kept: Kept,
}

/// Where a pass over nodes is.
#[derive(Drop)]
pub struct Pass {
    /// How many forms are left under the present one.
    pub left: u32,
    /// The numbers of the blocks round them that are not made, the innermost last.
    pub gone: Vec<u32>,
    /// The forms round it in which other blocks are not made, the innermost last.
    pub outer: Vec<Outer>,
}

/// How many of these blocks, the innermost last, stand round the level with this number.
fn not_made_round(gone: &[u32], number: u32) -> usize
    ensures { result ≡ Blocks.not_made_round (reverse gone.now) number }
{
    let mut count = gone.len();
    while count > 0 {
        if gone[count - 1] < number {
            return count;
        }
        count -= 1;
    }
    0
}

/// A number where these blocks are not made.
fn less(gone: &[u32], number: u32) -> u32
    ensures { result ≡ Blocks.less (reverse gone.now) number }
{
    (number as usize).saturating_sub(not_made_round(gone, number)) as u32
}

/// A kind of form where these blocks round it are not made.
fn lowered_core(gone: &[u32], kind: CoreKind) -> CoreKind
    ensures { result ≡ Blocks.lowered_core (reverse gone.now) kind }
{
    match kind {
        CoreKind::Local(x) => CoreKind::Local(less(gone, x)),
        CoreKind::SetLocal(x) => CoreKind::SetLocal(less(gone, x)),
        CoreKind::BindLocal(x, above) => CoreKind::BindLocal(less(gone, x), above),
        CoreKind::Block(x) => CoreKind::Block(less(gone, x)),
        CoreKind::ReturnFrom(x) => CoreKind::ReturnFrom(less(gone, x)),
        CoreKind::WithoutInterrupts(x) => CoreKind::WithoutInterrupts(less(gone, x)),
        CoreKind::AllowWithInterrupts(x) => CoreKind::AllowWithInterrupts(less(gone, x)),
        CoreKind::ClauseWith(class, x) => CoreKind::ClauseWith(class, less(gone, x)),
        other => other,
    }
}

/// The kind of a form round which an implicit block may stand.
pub fn turning_kind(turning: Turning) -> CoreKind
    ensures { result ≡ Blocks.turning_kind turning }
{
    match turning {
        Turning::While => CoreKind::While,
        Turning::Let => CoreKind::Let,
    }
}

/// What stands for a form where these blocks round it are not made; its own block is made or not.
fn lowered_kind(gone: &[u32], kind: Expanded, made: bool) -> Expanded
    ensures { result ≡ Blocks.lowered_kind (reverse gone.now) kind made }
{
    match kind {
        Expanded::Form(kind) => Expanded::Form(lowered_core(gone, kind)),
        Expanded::InBlock(number, turning) if made => {
            Expanded::InBlock(less(gone, number), turning)
        }
        Expanded::InBlock(_, turning) => Expanded::Form(turning_kind(turning)),
        other => other,
    }
}

impl Pass {
    /// Goes on in the innermost form of which something is left.
    fn close(&mut self)
        ensures { frames_of self.new ≡ closed (frames_of self.old) }
    {
        while self.left == 0 {
            let Some(outer) = self.outer.pop() else {
                return;
            };
            self.left = outer.left;
            match outer.kept {
                Kept::AllButLast => {
                    self.gone.pop();
                }
                Kept::These(gone) => self.gone = gone,
            }
        }
    }

    /// Enters a form with so many under it. After it the form round it goes on, where these blocks are not made.
    fn enter(&mut self, parts: u32, kept: Kept) -> Result<(), Memory>
        ensures { OnOk result ((self.new.left ≡ parts) × (self.new.gone ≡ self.old.gone) × (self.new.outer.items ≡ self.old.outer.items ++ (record { left = self.old.left - 1; kept = kept }) ∷ [])) }
    {
        let left = self.left.saturating_sub(1);
        self.outer.push(Outer { left, kept })?;
        self.left = parts;
        Ok(())
    }

    /// Begins a form: what is under it comes next.
    fn begin(&mut self, alloc: Global, node: &ExpandedNode, made: bool) -> Result<(), Memory>
        ensures { OnOk result (frames_of self.new ≡ entered (frames_of self.old) node.now made) }
    {
        match node.kind {
            Expanded::InBlock(number, _) if !made => {
                self.gone.push(number)?;
                self.enter(node.parts, Kept::AllButLast)
            }
            Expanded::Lambda(_) | Expanded::Defun(_, _) | Expanded::RefusedFunction(_) => {
                let gone = std::mem::replace(&mut self.gone, Vec::new(alloc));
                self.enter(node.parts, Kept::These(gone))
            }
            _ => {
                let left = self.left.saturating_sub(1);
                self.left = match node.parts.checked_add(left) {
                    Some(left) => left,
                    None => return Err(Memory),
                };
                Ok(())
            }
        }
    }
}

/// Whether the block of a node is made, where this is told of the blocks from it on, of the next one last.
fn take_made(node: &ExpandedNode, made: &mut Vec<bool>) -> bool
    ensures said { result ≡ made_at node.now.kind (reverse made.old.items) }
    ensures left { reverse made.new.items ≡ made_behind node.now.kind (reverse made.old.items) }
{
    match node.kind {
        Expanded::InBlock(_, _) => made.pop().unwrap_or(false),
        _ => false,
    }
}

/// These, of so many forms, without the implicit blocks to which nothing returns, where the given ones round them are not made either,
/// the innermost last. Each node is changed where it stands.
pub fn lowered(
    alloc: Global,
    gone: Vec<u32>,
    count: u32,
    nodes: Vec<ExpandedNode>,
) -> Result<Vec<ExpandedNode>, Memory>
    ensures { IfOk result (λ all. (e : Expansion) → nodes.items ≡ flat e → count ≡ count_of e → all.items ≡ flat (Blocks.lowered (reverse gone.items) e)) }
{
    let mut made = made_blocks(alloc, nodes.as_slice())?;
    let mut all = nodes;
    let mut pass = Pass {
        left: count,
        gone,
        outer: Vec::new(alloc),
    };
    let mut index = 0;
    while index < all.len() {
        pass.close();
        let node = all[index];
        let made = take_made(&node, &mut made);
        all[index] = ExpandedNode {
            kind: lowered_kind(pass.gone.as_slice(), node.kind, made),
            place: node.place,
            parts: node.parts,
        };
        pass.begin(alloc, &node, made)?;
        index += 1;
    }
    Ok(all)
}
