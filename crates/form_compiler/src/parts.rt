//! The tasks that the forms of several kinds are made of.
ghost use Rattle.std.specs.Prelude.{◌≡◌, IfOk, OnOk};
ghost use Rattle.lisp_code.specs.Held.{total as total_of};
ghost use Rattle.form_compiler.specs.inside.Marks.{HasNoClauses, mark};
ghost use Rattle.form_compiler.specs.inside.Tasks.{act_task, acting, alone_tasks, ask_task, asking, binding, framed, onward as onward_of, enter as enter_of, leave as leave_of};

use crate::hold::Hold;
use crate::light::{act_light, ask_light, enter_light, leave_light, plain_light};
use crate::names::Names;
use crate::site::Site;
use crate::task::Task;
use crate::tasks::Tasks;
use form_points::act::{Act, Opening, Question};
use lisp_base::memory::Memory;
use lisp_code::instr::Instr;

/// The task to write an act of a form, before which this is held.
pub(crate) fn act(names: &Names, act: Act, site: &Site, hold: Hold) -> Result<Task, Memory>
    ensures { IfOk result (λ t. t ≡ act_task names.now act site.now hold) }
{
    Ok(Task::Write(act_light(names, act, site.place, hold)?))
}

/// The task to write a question of a form, before which this is held.
pub(crate) fn ask(question: Question, site: &Site, hold: Hold) -> Result<Task, Memory>
    ensures { IfOk result (λ t. t ≡ ask_task question site.now hold) }
{
    Ok(Task::Write(ask_light(question, site.place, hold)?))
}

/// The task to write an instruction of a form, by which as many values are held as are there in another holding.
pub(crate) fn plain(instr: Instr, site: &Site, hold: Hold, held_of: Hold) -> Result<Task, Memory>
    requires { HasNoClauses instr }
    ensures { IfOk result (λ t. t ≡ Task.Write (mark instr site.now.place hold (total_of held_of))) }
{
    Ok(Task::Write(plain_light(instr, site.place, hold, held_of)?))
}

/// The tasks of an act alone.
pub(crate) fn push_alone(
    names: &Names,
    alone: Act,
    site: &Site,
    tasks: &mut Tasks,
) -> Result<(), Memory>
    ensures { OnOk result (tasks.new ≡ alone_tasks names.now alone site.now tasks.old) }
{
    tasks.put(&[act(names, alone, site, site.hold)?, Task::Skip(site.forms)])
}

/// The tasks of so many operands, and an act.
pub(crate) fn push_acting(
    names: &Names,
    operands: usize,
    last: Act,
    site: &Site,
    tasks: &mut Tasks,
) -> Result<(), Memory>
    ensures { OnOk result (tasks.new ≡ acting names.now operands last site.now tasks.old) }
{
    let last = act(names, last, site, site.hold.with_more(operands)?)?;
    tasks.put(&[
        Task::Operands(operands, site.forms, site.place, site.hold),
        last,
    ])
}

/// The tasks of so many operands, and a question.
pub(crate) fn push_asking(
    operands: usize,
    last: Question,
    site: &Site,
    tasks: &mut Tasks,
) -> Result<(), Memory>
    ensures { OnOk result (tasks.new ≡ asking operands last site.now tasks.old) }
{
    let last = ask(last, site, site.hold.with_more(operands)?)?;
    tasks.put(&[
        Task::Operands(operands, site.forms, site.place, site.hold),
        last,
    ])
}

/// The task to open the frame of a form.
fn enter(opening: Opening, site: &Site, hold: Hold) -> Result<Task, Memory>
    ensures { IfOk result (λ t. t ≡ enter_of opening site.now hold) }
{
    Ok(Task::Write(enter_light(opening, site.end, site.place, hold)?))
}

/// The task to leave it.
fn leave(opening: Opening, site: &Site, hold: Hold) -> Result<Task, Memory>
    ensures { IfOk result (λ t. t ≡ leave_of opening site.now hold) }
{
    Ok(Task::Write(leave_light(opening, site.place, hold)?))
}

/// The tasks of so many forms as a body in a frame, before which this is held.
pub(crate) fn push_framed(
    opening: Opening,
    forms: usize,
    site: &Site,
    hold: Hold,
    tasks: &mut Tasks,
) -> Result<(), Memory>
    ensures { OnOk result (tasks.new ≡ framed opening forms site.now hold tasks.old) }
{
    tasks.put(&[
        enter(opening, site, hold)?,
        Task::Body(forms, site.place, hold.inside(&opening)?),
        leave(opening, site, hold)?,
    ])
}

/// The tasks of a body in which a variable is bound, before which this is held. It takes away the values of so many variables more.
pub(crate) fn push_binding(
    names: &Names,
    variable: u32,
    above: u32,
    site: &Site,
    hold: Hold,
    tasks: &mut Tasks,
) -> Result<(), Memory>
    ensures { OnOk result (tasks.new ≡ binding names.now variable above site.now hold tasks.old) }
{
    let bound = hold.bound()?;
    tasks.put(&[
        act(names, Act::BindLocal(variable, above), site, hold)?,
        Task::Body(site.forms, site.place, bound),
        act(
            names,
            Act::ForgetLocal,
            site,
            bound.without(above).one_more()?,
        )?,
    ])
}

/// The task of the jump with which a clause goes on.
pub(crate) fn onward(site: &Site) -> Result<Task, Memory>
    ensures { IfOk result (λ t. t ≡ onward_of site.now) }
{
    let jump = plain_light(
        Instr::Jump(site.to),
        site.way_place,
        site.hold.one_more()?,
        site.hold,
    )?;
    Ok(Task::Write(jump))
}
