ghost use Rattle.std.specs.Prelude.{◌≡◌, ◌∷◌, [], ◌+◌, ◌^◌, ◌<◌, ℕ, IfOk};
ghost use Rattle.lisp_base.specs.Forest.{count_of};
ghost use Rattle.lisp_base.specs.Writing.{Wrote};
ghost use Rattle.lisp_forms.specs.inside.Flat.{flat};
ghost use Rattle.lisp_forms.specs.Blocks;
ghost use Rattle.lisp_forms.specs.Trees.{Expansion};
ghost use Rattle.lisp_forms.specs.inside.Written.{leaves_here, skipped_behind as behind_node};

use crate::lowered::lowered;
use crate::nodes::push_form;
use form_shapes::expanded::{Expanded, ExpandedNode};
use lisp_base::id::Place;
use lisp_base::memory::Memory;
use lisp_base::writer::Writer;
use lisp_program::form::CoreKind;
use std::alloc::Global;

/// Whether what stands for a form is a function: what is in it is another call.
pub fn is_function(kind: &Expanded) -> bool
    ensures { result ≡ Blocks.is_function kind.now }
{
    match kind {
        Expanded::Form(_) | Expanded::InBlock(_, _) | Expanded::Refused(_) => false,
        Expanded::Lambda(_) | Expanded::Defun(_, _) | Expanded::RefusedFunction(_) => true,
    }
}

/// Whether what stands for a form leaves to the block with this number.
fn is_return_to(number: u32, kind: &Expanded) -> bool
    ensures { result ≡ Blocks.is_return_to number kind.now }
{
    match kind {
        Expanded::Form(CoreKind::ReturnFrom(block)) => *block == number,
        _ => false,
    }
}

/// Whether some form of these leaves to the block with this number.
pub fn returns_to(number: u32, nodes: &[ExpandedNode]) -> bool
    ensures { (e : Expansion) → nodes.now ≡ flat e → result ≡ Blocks.returns_to number e }
{
    // How many of the next forms belong to functions.
    let mut skipped: u128 = 0;
    for node in nodes {
        if leaves_here(number, skipped, node) {
            return true;
        }
        skipped = skipped_behind(skipped, node);
    }
    false
}

/// Whether a node leaves to the block with this number, where so many of the forms from it on belong to a function.
fn leaves_here(number: u32, skipped: u128, node: &ExpandedNode) -> bool
    ensures { result ≡ leaves_here number skipped node.now }
{
    skipped == 0 && is_return_to(number, &node.kind)
}

/// How many of the forms after a node belong to a function, where so many of those from this node on do.
pub fn skipped_behind(skipped: u128, node: &ExpandedNode) -> u128
    requires { skipped < 2 ^ 127 }
    ensures is { result ≡ behind_node skipped node.now }
    ensures few { result < skipped + 2 ^ 32 }
{
    if skipped > 0 {
        return skipped - 1 + node.parts as u128;
    }
    if is_function(&node.kind) {
        node.parts as u128
    } else {
        0
    }
}

/// Writes the body of a `defun`, of so many forms, in its implicit block, which is only made where some form in it returns to it.
pub fn push_blocked(
    alloc: Global,
    number: u32,
    place: Place,
    count: u32,
    body: Vec<ExpandedNode>,
    nodes: &mut Writer<ExpandedNode>,
)
    ensures { (e : Expansion) → body.items ≡ flat e → count ≡ count_of e → Wrote nodes.old nodes.new (flat (Blocks.blocked number place e)) }
{
    if returns_to(number, body.as_slice()) {
        push_form(CoreKind::Block(number), place, count, nodes);
        return nodes.extend(body.as_slice());
    }
    match without_block(alloc, number, count, body) {
        Ok(lowered) => nodes.extend(lowered.as_slice()),
        Err(_) => nodes.fill(),
    }
}

/// These, of so many forms, where the block with this number round them is not made.
fn without_block(
    alloc: Global,
    number: u32,
    count: u32,
    body: Vec<ExpandedNode>,
) -> Result<Vec<ExpandedNode>, Memory>
    ensures { IfOk result (λ nodes. (e : Expansion) → body.items ≡ flat e → count ≡ count_of e → nodes.items ≡ flat (Blocks.lowered (number ∷ []) e)) }
{
    let mut gone = Vec::new(alloc);
    gone.push(number)?;
    lowered(alloc, gone, count, body)
}

/// How many forms a body of so many is in its implicit block.
pub fn blocked_parts(number: u32, count: u32, body: &[ExpandedNode]) -> u32
    ensures { (place : ℕ) (e : Expansion) → body.now ≡ flat e → count ≡ count_of e → result ≡ count_of (Blocks.blocked number place e) }
{
    if returns_to(number, body) { 1 } else { count }
}
