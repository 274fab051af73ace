ghost use Rattle.std.specs.Prelude.{ℕ, ◌≡◌, ◌≤◌, ◌+◌, ◌-◌, ◌∷◌, drop, length, min, IfOk};
ghost use Rattle.lisp_program.specs.Forms.{forms_of};
ghost use Rattle.form_points.specs.Points.{body_of};
ghost use Rattle.form_points.specs.Table.{points_of};
ghost use Rattle.lisp_code.specs.Lines.{size};
ghost use Rattle.form_compiler.specs.inside.Extents;
ghost use Rattle.form_compiler.specs.inside.Extents.{MOST, added, extents_of, under_of};

use crate::extent::Extent;
use crate::row::{Others, Row, row_of};
use lisp_base::memory::Memory;
use lisp_program::form::FormNode;
use std::alloc::Global;

/// No number of lines is counted further.
const MOST_LINES: u32 = 65_537;

/// How many of the forms under a form are used at most, where there are so many.
fn used(row: &Row, parts: usize) -> usize
    ensures { result ≡ Extents.used row.now parts }
{
    match row.others {
        Others::PassedOver => row.operands,
        Others::Body | Others::InTurn => parts,
    }
}

/// The lines of a body besides those of its forms.
fn gaps(forms: usize) -> u128
    ensures { result ≡ Extents.gaps forms }
{
    match forms {
        0 => 1,
        _ => (forms - 1) as u128,
    }
}

/// The lines of the forms after the operands, besides their own.
fn between(others: &Others, forms: usize) -> u128
    ensures { result ≡ Extents.between others.now forms }
{
    match others {
        Others::Body => gaps(forms),
        Others::PassedOver | Others::InTurn => 0,
    }
}

/// How many of so many operands are missing.
fn missing(operands: usize, forms: usize) -> u128
    ensures { result ≡ operands - forms }
{
    operands.saturating_sub(forms) as u128
}

/// The lines of a form with so many forms under it, of which those that are used have so many lines.
fn row_lines(row: &Row, forms: usize, lines: u32) -> u128
    ensures { result ≡ Extents.row_lines row.now forms lines }
{
    let others = forms.saturating_sub(row.operands);
    lines as u128 + missing(row.operands, forms) + between(&row.others, others) + row.lines as u128
}

/// A number of lines, as far as it is counted.
fn capped(lines: u128) -> u32
    ensures { result ≡ min lines MOST }
{
    lines.min(MOST_LINES as u128) as u32
}

/// The lines so far, with those of one form where as many more are used.
fn counted(lines: u32, more: u32, wanted: usize) -> u32
    ensures { result ≡ min (lines + added wanted more) MOST }
{
    match wanted {
        0 => capped(lines as u128),
        _ => capped(lines as u128 + more as u128),
    }
}

/// The extent of the first so many forms from this node on, and the lines of as many of them as are used.
pub(crate) fn under(
    nodes: &[FormNode],
    extents: &[Extent],
    from: usize,
    parts: usize,
    used: usize,
) -> Extent
    requires inside { from ≤ length nodes.now }
    requires whole { length extents.now ≡ length nodes.now }
    requires known { drop from extents.now ≡ extents_of (drop from nodes.now) }
    ensures { result ≡ under_of used parts (forms_of (drop from nodes.now)) }
{
    let mut lines: u32 = 0;
    let mut at = from;
    let mut forms = 0;
    while forms < parts && at < nodes.len() {
        let extent = extents[at];
        lines = counted(lines, extent.lines, used.saturating_sub(forms));
        at += extent.nodes;
        forms += 1;
    }
    Extent {
        lines,
        nodes: at - from,
        forms,
    }
}

/// The extent of the form at a node, where those of later nodes are known.
fn extent_at(nodes: &[FormNode], extents: &[Extent], at: usize) -> Extent
    requires inside { at + 1 ≤ length nodes.now }
    requires whole { length extents.now ≡ length nodes.now }
    requires known { drop (at + 1) extents.now ≡ extents_of (drop (at + 1) nodes.now) }
    ensures { result ∷ extents_of (drop (at + 1) nodes.now) ≡ extents_of (drop at nodes.now) }
{
    let node = &nodes[at];
    let parts = node.parts as usize;
    let row = row_of(&node.kind);
    let under = under(nodes, extents, at + 1, parts, used(&row, parts));
    let lines = capped(row_lines(&row, under.forms, under.lines));
    Extent {
        lines,
        nodes: under.nodes + 1,
        forms: under.forms,
    }
}

/// The extent of the form at each node. Each form is visited once.
pub(crate) fn extents(alloc: Global, nodes: &[FormNode]) -> Result<Vec<Extent>, Memory>
    ensures { IfOk result (λ extents. extents.items ≡ extents_of nodes.now) }
{
    let nothing = Extent {
        lines: 0,
        nodes: 0,
        forms: 0,
    };
    let mut extents = vec![in alloc; nothing; nodes.len()]?;
    let mut at = nodes.len();
    while at > 0 {
        at -= 1;
        extents[at] = extent_at(nodes, &extents, at);
    }
    Ok(extents)
}

/// How many lines these forms have as a body, as far as they are counted.
pub(crate) fn body_size(nodes: &[FormNode], extents: &[Extent]) -> u32
    requires { extents.now ≡ extents_of nodes.now }
    ensures { (place : ℕ) → result ≡ min (size (body_of place (points_of (forms_of nodes.now)))) MOST }
{
    let forms = under(nodes, extents, 0, nodes.len(), nodes.len());
    capped(forms.lines as u128 + gaps(forms.forms))
}
