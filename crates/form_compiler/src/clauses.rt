//! Where the clauses of a `handler-case` begin.
ghost use Rattle.std.specs.Prelude.{ℕ, suc, ◌≡◌, ◌≤◌, ◌+◌, ◌++◌, drop, length, IfOk, OnOk};
ghost use Rattle.lisp_base.specs.Forest.{Tree};
ghost use Rattle.lisp_program.specs.Forms.{Forms, forms_of};
ghost use Rattle.form_points.specs.Table.{points_of, table};
ghost use Rattle.lisp_code.specs.Lines.{past};
ghost use Rattle.form_compiler.specs.inside.Extents.{extents_of, lines_in};
ghost use Rattle.form_compiler.specs.inside.Steps.{most_lines};
ghost use Rattle.form_compiler.specs.inside.Tasks.{starts};

use crate::extent::Extent;
use lisp_base::memory::Memory;
use lisp_code::instr::Clause;
use lisp_program::form::{CoreKind, FormNode};
use std::alloc::Global;

/// Writes down where a form begins if it is a clause.
fn note_clause(kind: &CoreKind, at: u32, row: &mut Vec<Clause>) -> Result<(), Memory>
    ensures { (n p : ℕ) → (under beside : Forms) → OnOk result (row.new.items ++ starts n (past at (table kind.now p (points_of under))) beside ≡ row.old.items ++ starts (suc n) at (Tree kind.now p under beside)) }
{
    match *kind {
        CoreKind::Clause(class) => row.push(Clause {
            class,
            is_given: false,
            start: at,
        })?,
        CoreKind::ClauseWith(class, _) => row.push(Clause {
            class,
            is_given: true,
            start: at,
        })?,
        _ => (),
    }
    Ok(())
}

/// Where the clauses begin among so many forms, of which the first begins at a node, and its lines at a position.
pub(crate) fn clauses_from(
    alloc: Global,
    nodes: &[FormNode],
    extents: &[Extent],
    from: usize,
    start: u32,
    forms: usize,
) -> Result<Vec<Clause>, Memory>
    requires known { extents.now ≡ extents_of nodes.now }
    requires inside { from ≤ length nodes.now }
    requires room { start + lines_in forms (forms_of (drop from nodes.now)) ≤ most_lines }
    ensures { IfOk result (λ row. row.items ≡ starts forms start (forms_of (drop from nodes.now))) }
{
    let mut row = Vec::new(alloc);
    let mut node = from;
    let mut at = start;
    let mut left = forms;
    while left > 0 && node < nodes.len() {
        note_clause(&nodes[node].kind, at, &mut row)?;
        at += extents[node].lines;
        node += extents[node].nodes;
        left -= 1;
    }
    Ok(row)
}
