//! Tasks in place of a task of several forms.
ghost use Rattle.std.specs.Prelude.{◌≡◌, OnOk};
ghost use Rattle.form_compiler.specs.inside.Tasks.{all_tasks, body_tasks, clause_tasks, less as less_of, operand_tasks, part_tasks};

use crate::hold::Hold;
use crate::light::act_light;
use crate::names::Names;
use crate::task::Task;
use crate::tasks::Tasks;
use form_points::act::Act;
use lisp_base::id::Place;
use lisp_base::memory::Memory;
use lisp_base::value::Value;

/// One less, or 0.
pub(crate) fn less(count: usize) -> usize
    ensures { result ≡ less_of count }
{
    count.saturating_sub(1)
}

/// The tasks of the next form where some are there, else of NIL, at a place.
pub(crate) fn push_part(
    names: &Names,
    there: usize,
    place: Place,
    hold: Hold,
    tasks: &mut Tasks,
) -> Result<(), Memory>
    ensures { OnOk result (tasks.new ≡ part_tasks names.now there place hold tasks.old) }
{
    match there {
        0 => tasks.push(Task::Write(act_light(names, Act::Push(Value::nil()), place, hold)?)),
        _ => tasks.push(Task::Form(hold)),
    }
}

/// The tasks of so many forms as a body, at a place.
pub(crate) fn push_body(
    names: &Names,
    forms: usize,
    place: Place,
    hold: Hold,
    tasks: &mut Tasks,
) -> Result<(), Memory>
    ensures { OnOk result (tasks.new ≡ body_tasks names.now forms place hold tasks.old) }
{
    match forms {
        0 | 1 => push_part(names, forms, place, hold, tasks),
        _ => {
            let discard = act_light(names, Act::Discard, place, hold.one_more()?)?;
            tasks.put(&[
                Task::Form(hold),
                Task::Write(discard),
                Task::Body(forms - 1, place, hold),
            ])
        },
    }
}

/// The tasks of so many forms in turn.
pub(crate) fn push_all(forms: usize, hold: Hold, tasks: &mut Tasks) -> Result<(), Memory>
    ensures { OnOk result (tasks.new ≡ all_tasks forms hold tasks.old) }
{
    match forms {
        0 => Ok(()),
        _ => tasks.put(&[Task::Form(hold), Task::All(forms - 1, hold.one_more()?)]),
    }
}

/// The tasks of so many operands, where so many forms are there, at a place.
pub(crate) fn push_operands(
    wanted: usize,
    there: usize,
    place: Place,
    hold: Hold,
    tasks: &mut Tasks,
) -> Result<(), Memory>
    ensures { OnOk result (tasks.new ≡ operand_tasks wanted there place hold tasks.old) }
{
    match wanted {
        0 => tasks.push(Task::Skip(there)),
        _ => tasks.put(&[
            Task::Part(there, place, hold),
            Task::Operands(wanted - 1, less(there), place, hold.one_more()?),
        ]),
    }
}

/// The tasks of so many forms as clauses, which go on at a position, and the place of their `handler-case`.
pub(crate) fn push_clauses(
    forms: usize,
    to: u32,
    place: Place,
    hold: Hold,
    tasks: &mut Tasks,
) -> Result<(), Memory>
    ensures { OnOk result (tasks.new ≡ clause_tasks forms to place hold tasks.old) }
{
    match forms {
        0 => Ok(()),
        _ => tasks.put(&[
            Task::Clause(hold, to, place),
            Task::Clauses(forms - 1, to, place, hold),
        ]),
    }
}
