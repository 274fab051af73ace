//! Tasks taken up one after the other, until the lines of a body are written.
ghost use Rattle.std.specs.Prelude.{ℕ, List, [], ◌≡◌, ◌≤◌, ◌<◌, ◌+◌, ◌∷◌, ◌++◌, drop, get_or, length, IfOk, OnOk};
ghost use Rattle.lisp_base.specs.declared.id.FunctionName.{FunctionName as NameOf};
ghost use Rattle.lisp_program.specs.Forms.{forms_of};
ghost use Rattle.lisp_program.specs.WellMade.{Each};
ghost use Rattle.lisp_program.specs.declared.form.FormNode.{FormNode as Node};
ghost use Rattle.form_points.specs.Points.{body_of};
ghost use Rattle.form_points.specs.Table.{points_of};
ghost use Rattle.lisp_code.specs.Lines.{laid, no_way, size};
ghost use Rattle.form_compiler.specs.declared.task.Task.{Task as TaskOf};
ghost use Rattle.form_compiler.specs.inside.Extents.{extents_of};
ghost use Rattle.form_compiler.specs.inside.Gives.{AreGiving};
ghost use Rattle.form_compiler.specs.inside.Marks.{placed_of};
ghost use Rattle.form_compiler.specs.inside.Steps.{AreReady, Stepped, most_lines, to_come};
ghost use Rattle.form_compiler.specs.inside.Tasks as plan;

use crate::clauses::clauses_from;
use crate::control::push_handling;
use crate::extent::Extent;
use crate::hold::Hold;
use crate::layout::{
    Onward, lines_of, next_of, site_of, skip, take_all, take_body, take_clauses, take_light,
    take_operands, take_part,
};
use crate::mark::Light;
use crate::names::Names;
use crate::sheet::Sheet;
use crate::sizes::{extents, under};
use crate::task::Task;
use crate::tasks::Tasks;
use crate::unfold::less;
use lisp_base::id::Place;
use lisp_base::memory::Memory;
use lisp_program::form::{CoreKind, FormNode};
use std::alloc::Global;

/// Takes up the next form, a `handler-case`: writes the line that opens its frame.
fn take_handler(
    alloc: Global,
    nodes: &[FormNode],
    extents: &[Extent],
    at: usize,
    hold: Hold,
    sheet: &mut Sheet,
    tasks: &mut Tasks,
) -> Result<(), Memory>
    requires known { extents.now ≡ extents_of nodes.now }
    requires inside { at < length nodes.now }
    requires ready { AreReady (forms_of (drop at nodes.now)) }
    requires handler { (d : Node) → (get_or nodes.now at d).kind ≡ CoreKind.HandlerCase }
    requires room { length sheet.now + size (plan.first (forms_of (drop at nodes.now))) ≤ most_lines }
    ensures { (names : List NameOf) → (to place : ℕ) → OnOk result (Stepped names nodes.now (TaskOf.Clause hold to place) tasks.old at sheet.old tasks.new sheet.new (at + 1)) }
{
    let node = &nodes[at];
    let extent = extents[at];
    let start = sheet.len() as u32;
    let site = site_of(node, extent, start, 0, hold, Onward::none());
    let clauses = next_of(nodes, extents, at + 1);
    let first = start + lines_of(nodes, extents, at + 1) + 2;
    let row = clauses_from(alloc, nodes, extents, clauses, first, less(extent.forms))?;
    sheet.open_handler(row, node.place, hold.height(), hold.total()?)?;
    push_handling(&site, tasks)?;
    Ok(())
}

/// Takes up the next form, whose node is there. It goes along this way if it is a clause.
fn take_node(
    alloc: Global,
    names: &Names,
    nodes: &[FormNode],
    extents: &[Extent],
    at: usize,
    hold: Hold,
    way: Onward,
    sheet: &mut Sheet,
    tasks: &mut Tasks,
) -> Result<(), Memory>
    requires known { extents.now ≡ extents_of nodes.now }
    requires inside { at < length nodes.now }
    requires ready { AreReady (forms_of (drop at nodes.now)) }
    requires room { length sheet.now + size (plan.first (forms_of (drop at nodes.now))) ≤ most_lines }
    ensures { OnOk result (Stepped names.now nodes.now (TaskOf.Clause hold way.to way.place) tasks.old at sheet.old tasks.new sheet.new (at + 1)) }
{
    match nodes[at].kind {
        CoreKind::HandlerCase => take_handler(alloc, nodes, extents, at, hold, sheet, tasks),
        _ => {
            let start = sheet.len() as u32;
            take_light(names, nodes, extents, at, start, hold, way, tasks)
        },
    }
}

/// Takes up the next form, if there is one, and says at which node the forms that are left begin.
fn take_next(
    alloc: Global,
    names: &Names,
    nodes: &[FormNode],
    extents: &[Extent],
    at: usize,
    hold: Hold,
    way: Onward,
    sheet: &mut Sheet,
    tasks: &mut Tasks,
) -> Result<usize, Memory>
    requires known { extents.now ≡ extents_of nodes.now }
    requires inside { at ≤ length nodes.now }
    requires ready { AreReady (forms_of (drop at nodes.now)) }
    requires room { length sheet.now + size (plan.first (forms_of (drop at nodes.now))) ≤ most_lines }
    ensures { IfOk result (Stepped names.now nodes.now (TaskOf.Clause hold way.to way.place) tasks.old at sheet.old tasks.new sheet.new) }
{
    if at < nodes.len() {
        take_node(alloc, names, nodes, extents, at, hold, way, sheet, tasks)?;
        Ok(at + 1)
    } else {
        Ok(at)
    }
}

/// Takes up a task, and says at which node the forms that are left begin.
fn step(
    alloc: Global,
    task: Task,
    names: &Names,
    nodes: &[FormNode],
    extents: &[Extent],
    at: usize,
    sheet: &mut Sheet,
    tasks: &mut Tasks,
) -> Result<usize, Memory>
    requires known { extents.now ≡ extents_of nodes.now }
    requires inside { at ≤ length nodes.now }
    requires ready { AreReady (forms_of (drop at nodes.now)) }
    requires room { length (to_come names.now nodes.now at (task ∷ tasks.now) sheet.now) ≤ most_lines }
    ensures { IfOk result (Stepped names.now nodes.now task tasks.old at sheet.old tasks.new sheet.new) }
{
    match task {
        Task::Form(hold) => {
            return take_next(
                alloc,
                names,
                nodes,
                extents,
                at,
                hold,
                Onward::none(),
                sheet,
                tasks,
            );
        },
        Task::Clause(hold, to, place) => {
            let way = Onward { to, place };
            return take_next(alloc, names, nodes, extents, at, hold, way, sheet, tasks);
        },
        Task::Skip(forms) => return Ok(skip(nodes, extents, at, forms)),
        Task::Part(there, place, hold) => take_part(names, there, place, hold, tasks)?,
        Task::Body(forms, place, hold) => take_body(names, forms, place, hold, tasks)?,
        Task::All(forms, hold) => take_all(names, forms, hold, tasks)?,
        Task::Operands(wanted, there, place, hold) => {
            take_operands(names, wanted, there, place, hold, tasks)?
        },
        Task::Clauses(forms, to, place, hold) => {
            take_clauses(names, forms, to, place, hold, tasks)?
        },
        Task::Write(light) => sheet.write(light)?,
    }
    Ok(at)
}

/// Lays out forms as a body at a place, before which this is held, and a line after it.
pub(crate) fn lay_out(
    alloc: Global,
    names: &Names,
    nodes: &[FormNode],
    place: Place,
    hold: Hold,
    last: Light,
    sheet: &mut Sheet,
) -> Result<(), Memory>
    requires giving { AreGiving Each (forms_of nodes.now) }
    requires ready { AreReady (forms_of nodes.now) }
    requires room { length sheet.now + size (body_of place (points_of (forms_of nodes.now))) < most_lines }
    ensures { OnOk result (sheet.new ≡ sheet.old ++ laid names.now no_way hold (length sheet.old) (body_of place (points_of (forms_of nodes.now))) (placed_of [] last ∷ [])) }
{
    let extents = extents(alloc, nodes)?;
    let forms = under(nodes, &extents, 0, nodes.len(), 0).forms;
    let mut tasks = Tasks::new(alloc);
    tasks.put(&[Task::Body(forms, place, hold), Task::Write(last)])?;
    let mut at = 0;
    while let Some(task) = tasks.take() {
        at = step(alloc, task, names, nodes, &extents, at, sheet, &mut tasks)?;
    }
    Ok(())
}
