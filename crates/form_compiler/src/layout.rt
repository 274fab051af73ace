//! Forms laid out as lines, task by task.
ghost use Rattle.std.specs.Prelude.{ℕ, List, ◌≡◌, ◌≤◌, ◌<◌, ◌+◌, ◌^◌, ◌∷◌, drop, get_or, length, min, OnOk};
ghost use Rattle.lisp_base.specs.declared.id.FunctionName.{FunctionName as NameOf};
ghost use Rattle.lisp_program.specs.Forms.{forms_of};
ghost use Rattle.lisp_program.specs.declared.form.FormNode.{FormNode as Node};
ghost use Rattle.lisp_code.specs.Lines.{Placed, size};
ghost use Rattle.form_compiler.specs.inside.Extents.{MOST, extents_of};
ghost use Rattle.form_compiler.specs.inside.Steps.{AreReady, Stepped, most_lines};
ghost use Rattle.form_compiler.specs.inside.Seconds.{BeginsAt, branch_lines, clause_of, protected_lines, site};
ghost use Rattle.form_compiler.specs.inside.Tasks as plan;
ghost use Rattle.form_compiler.specs.declared.task.Task.{Task as TaskOf};

use crate::extent::Extent;
use crate::hold::Hold;
use crate::names::Names;
use crate::schedule::push_schedule;
use crate::site::Site;
use crate::sizes::under;
use crate::task::Task;
use crate::tasks::Tasks;
use crate::unfold::{less, push_all, push_body, push_clauses, push_operands, push_part};
use lisp_base::id::Place;
use lisp_base::memory::Memory;
use lisp_program::form::{CoreKind, FormNode};

/// Where a clause goes on, and the place of its `handler-case`.
#[derive(Clone, Copy)]
pub(crate) struct Onward {
    pub(crate) to: u32,
    pub(crate) place: Place,
}

impl Onward {
    /// None: the way of a form that is no clause.
    pub(crate) fn none() -> Self
        ensures { result ≡ record { to = 0; place = 0 } }
    {
        Onward {
            to: 0,
            place: Place(0),
        }
    }
}

/// How many lines the next form has, as far as they are counted.
pub(crate) fn lines_of(nodes: &[FormNode], extents: &[Extent], at: usize) -> u32
    requires { extents.now ≡ extents_of nodes.now }
    ensures lines { result ≡ min (size (plan.first (forms_of (drop at nodes.now)))) MOST }
    ensures few { result ≤ MOST }
{
    if at < nodes.len() {
        extents[at].lines
    } else {
        0
    }
}

/// How many lines the next form has where some are there, else those of NIL.
fn part_lines(nodes: &[FormNode], extents: &[Extent], at: usize, there: usize) -> u32
    requires { extents.now ≡ extents_of nodes.now }
    ensures lines { (place : ℕ) → result ≡ min (size (plan.part there place (forms_of (drop at nodes.now)))) MOST }
    ensures few { result ≤ MOST }
{
    match there {
        0 => 1,
        _ => lines_of(nodes, extents, at),
    }
}

/// The node after the next form.
pub(crate) fn next_of(nodes: &[FormNode], extents: &[Extent], at: usize) -> usize
    requires known { extents.now ≡ extents_of nodes.now }
    requires inside { at ≤ length nodes.now }
    ensures forms { forms_of (drop result nodes.now) ≡ plan.others (forms_of (drop at nodes.now)) }
    ensures within { result ≤ length nodes.now }
{
    if at < nodes.len() {
        at + extents[at].nodes
    } else {
        at
    }
}

/// The node after the next form where some are there.
fn part_end(nodes: &[FormNode], extents: &[Extent], at: usize, there: usize) -> usize
    requires known { extents.now ≡ extents_of nodes.now }
    requires inside { at ≤ length nodes.now }
    ensures forms { forms_of (drop result nodes.now) ≡ plan.part_left there (forms_of (drop at nodes.now)) }
    ensures within { result ≤ length nodes.now }
{
    match there {
        0 => at,
        _ => next_of(nodes, extents, at),
    }
}

/// Where the second branch of an `if` begins, whose lines begin at `start`, and whose parts begin at the node `at`.
fn second_branch(nodes: &[FormNode], extents: &[Extent], at: usize, start: u32, forms: usize) -> u32
    requires known { extents.now ≡ extents_of nodes.now }
    requires inside { at ≤ length nodes.now }
    requires room { start ≤ most_lines }
    ensures { result ≡ start + branch_lines forms (forms_of (drop at nodes.now)) }
{
    let test = part_lines(nodes, extents, at, forms);
    let after = part_end(nodes, extents, at, forms);
    let branch = part_lines(nodes, extents, after, less(forms));
    start + test + branch + 2
}

/// Where the cleanup of an `unwind-protect` begins, whose lines begin at `start`, and whose parts begin at the node `at`.
fn cleanup_start(nodes: &[FormNode], extents: &[Extent], at: usize, start: u32, forms: usize) -> u32
    requires known { extents.now ≡ extents_of nodes.now }
    requires room { start ≤ most_lines }
    ensures { result ≡ start + protected_lines forms (forms_of (drop at nodes.now)) }
{
    start + part_lines(nodes, extents, at, forms) + 2
}

/// Where the second part of a form begins, if it has one.
fn second_of(
    kind: &CoreKind,
    nodes: &[FormNode],
    extents: &[Extent],
    at: usize,
    start: u32,
    forms: usize,
) -> u32
    requires known { extents.now ≡ extents_of nodes.now }
    requires inside { at ≤ length nodes.now }
    requires room { start ≤ most_lines }
    ensures { BeginsAt kind.now start result forms (forms_of (drop at nodes.now)) }
{
    match kind {
        CoreKind::If => second_branch(nodes, extents, at, start, forms),
        CoreKind::UnwindProtect => cleanup_start(nodes, extents, at, start, forms),
        _ => 0,
    }
}

/// Passes over so many forms, and says at which node those that are left begin.
pub(crate) fn skip(nodes: &[FormNode], extents: &[Extent], at: usize, forms: usize) -> usize
    requires known { extents.now ≡ extents_of nodes.now }
    requires inside { at ≤ length nodes.now }
    ensures { (names : List NameOf) → (tasks : List TaskOf) → (lines : List Placed) → Stepped names nodes.now (TaskOf.Skip forms) tasks at lines tasks lines result }
{
    let passed = under(nodes, extents, at, forms, 0);
    at + passed.nodes
}

/// Takes up a part.
pub(crate) fn take_part(
    names: &Names,
    there: usize,
    place: Place,
    hold: Hold,
    tasks: &mut Tasks,
) -> Result<(), Memory>
    ensures { (nodes : List Node) → (at : ℕ) → (lines : List Placed) → at ≤ length nodes → OnOk result (Stepped names.now nodes (TaskOf.Part there place hold) tasks.old at lines tasks.new lines at) }
{
    push_part(names, there, place, hold, tasks)?;
    Ok(())
}

/// Takes up a body.
pub(crate) fn take_body(
    names: &Names,
    forms: usize,
    place: Place,
    hold: Hold,
    tasks: &mut Tasks,
) -> Result<(), Memory>
    ensures { (nodes : List Node) → (at : ℕ) → (lines : List Placed) → at ≤ length nodes → OnOk result (Stepped names.now nodes (TaskOf.Body forms place hold) tasks.old at lines tasks.new lines at) }
{
    push_body(names, forms, place, hold, tasks)?;
    Ok(())
}

/// Takes up forms in turn.
pub(crate) fn take_all(
    names: &Names,
    forms: usize,
    hold: Hold,
    tasks: &mut Tasks,
) -> Result<(), Memory>
    ensures { (nodes : List Node) → (at : ℕ) → (lines : List Placed) → at ≤ length nodes → OnOk result (Stepped names.now nodes (TaskOf.All forms hold) tasks.old at lines tasks.new lines at) }
{
    push_all(forms, hold, tasks)?;
    Ok(())
}

/// Takes up operands.
pub(crate) fn take_operands(
    names: &Names,
    wanted: usize,
    there: usize,
    place: Place,
    hold: Hold,
    tasks: &mut Tasks,
) -> Result<(), Memory>
    ensures { (nodes : List Node) → (at : ℕ) → (lines : List Placed) → at ≤ length nodes → OnOk result (Stepped names.now nodes (TaskOf.Operands wanted there place hold) tasks.old at lines tasks.new lines at) }
{
    push_operands(wanted, there, place, hold, tasks)?;
    Ok(())
}

/// Takes up clauses.
pub(crate) fn take_clauses(
    names: &Names,
    forms: usize,
    to: u32,
    place: Place,
    hold: Hold,
    tasks: &mut Tasks,
) -> Result<(), Memory>
    ensures { (nodes : List Node) → (at : ℕ) → (lines : List Placed) → at ≤ length nodes → OnOk result (Stepped names.now nodes (TaskOf.Clauses forms to place hold) tasks.old at lines tasks.new lines at) }
{
    push_clauses(forms, to, place, hold, tasks)?;
    Ok(())
}

/// Whether a form of this kind is a clause of a `handler-case`.
fn is_clause(kind: &CoreKind) -> bool
    ensures { result ≡ clause_of kind.now }
{
    matches!(kind, CoreKind::Clause(_) | CoreKind::ClauseWith(_, _))
}

/// The site of a node with this extent. It begins at `start`, and goes along this way if it is a clause.
pub(crate) fn site_of(
    node: &FormNode,
    extent: Extent,
    start: u32,
    second: u32,
    hold: Hold,
    way: Onward,
) -> Site
    requires room { start + extent.lines < 2 ^ 32 }
    requires few { extent.forms ≤ node.now.parts }
    ensures site { result ≡ site node.now extent start second hold (record { to = way.to; place = way.place }) }
    ensures few { result.forms < 2 ^ 32 }
{
    let on_way = is_clause(&node.kind);
    Site {
        place: node.place,
        hold,
        at: start,
        end: start + extent.lines,
        second,
        forms: extent.forms.min(node.parts as usize),
        to: if on_way { way.to } else { 0 },
        way_place: if on_way { way.place } else { Place(0) },
    }
}

/// Takes up the next form, which has no line with clauses. It goes along this way if it is a clause.
pub(crate) fn take_light(
    names: &Names,
    nodes: &[FormNode],
    extents: &[Extent],
    at: usize,
    start: u32,
    hold: Hold,
    way: Onward,
    tasks: &mut Tasks,
) -> Result<(), Memory>
    requires known { extents.now ≡ extents_of nodes.now }
    requires inside { at < length nodes.now }
    requires ready { AreReady (forms_of (drop at nodes.now)) }
    requires light { (d : Node) → plan.IsLight (get_or nodes.now at d).kind }
    requires room { start + size (plan.first (forms_of (drop at nodes.now))) ≤ most_lines }
    ensures { (lines : List Placed) → length lines ≡ start → OnOk result (Stepped names.now nodes.now (TaskOf.Clause hold way.to way.place) tasks.old at lines tasks.new lines (at + 1)) }
{
    let node = &nodes[at];
    let extent = extents[at];
    let second = second_of(&node.kind, nodes, extents, at + 1, start, extent.forms);
    let site = site_of(node, extent, start, second, hold, way);
    push_schedule(names, &node.kind, &site, tasks)?;
    Ok(())
}
