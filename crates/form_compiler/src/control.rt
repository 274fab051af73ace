//! The tasks of the forms that choose, repeat, protect and handle.
ghost use Rattle.std.specs.Prelude.{◌≡◌, OnOk};
ghost use Rattle.form_compiler.specs.inside.Tasks.{choosing, deadline_tasks, handling, looping, protecting};

use crate::parts::{plain, push_framed};
use crate::site::Site;
use crate::task::Task;
use crate::tasks::Tasks;
use crate::unfold::less;
use form_points::act::{Act, Opening};
use lisp_base::memory::Memory;
use lisp_code::instr::Instr;

/// The tasks of an `if`.
pub(crate) fn push_choosing(site: &Site, tasks: &mut Tasks) -> Result<(), Memory>
    ensures { OnOk result (tasks.new ≡ choosing site.now tasks.old) }
{
    let Site {
        place,
        hold,
        forms,
        ..
    } = *site;
    let full = hold.one_more()?;
    tasks.put(&[
        Task::Part(forms, place, hold),
        plain(Instr::Branch(site.second), site, full, hold)?,
        Task::Part(less(forms), place, hold),
        plain(Instr::Jump(site.end), site, full, hold)?,
        Task::Part(less(less(forms)), place, hold),
        Task::Skip(less(less(less(forms)))),
    ])
}

/// The tasks of a loop.
pub(crate) fn push_looping(site: &Site, tasks: &mut Tasks) -> Result<(), Memory>
    ensures { OnOk result (tasks.new ≡ looping site.now tasks.old) }
{
    let Site {
        place,
        hold,
        forms,
        ..
    } = *site;
    let full = hold.one_more()?;
    tasks.put(&[
        Task::Part(forms, place, hold),
        plain(Instr::LoopTest(site.end), site, full, full)?,
        Task::Body(less(forms), place, hold),
        plain(Instr::Do(Act::Discard), site, full, hold)?,
        plain(Instr::Jump(site.at), site, hold, hold)?,
    ])
}

/// The tasks of an `unwind-protect`.
pub(crate) fn push_protecting(site: &Site, tasks: &mut Tasks) -> Result<(), Memory>
    ensures { OnOk result (tasks.new ≡ protecting site.now tasks.old) }
{
    let Site {
        place,
        hold,
        forms,
        ..
    } = *site;
    let full = hold.one_more()?;
    tasks.put(&[
        plain(Instr::EnterProtect(site.second), site, hold, hold)?,
        Task::Part(forms, place, hold),
        plain(Instr::LeaveProtect, site, full, hold)?,
        Task::Body(less(forms), place, hold),
        plain(Instr::LeaveCleanup, site, full, hold)?,
    ])
}

/// The tasks of a `handler-case` after the line that opens its frame.
pub(crate) fn push_handling(site: &Site, tasks: &mut Tasks) -> Result<(), Memory>
    ensures { OnOk result (tasks.new ≡ handling site.now tasks.old) }
{
    let Site {
        place,
        hold,
        forms,
        ..
    } = *site;
    let full = hold.one_more()?;
    tasks.put(&[
        Task::Part(forms, place, hold),
        plain(Instr::LeaveHandler(site.end), site, full, hold)?,
        Task::Clauses(less(forms), site.end, place, hold),
    ])
}

/// The tasks of a `with-deadline`.
pub(crate) fn push_deadline(
    seconds: bool,
    replaces: bool,
    site: &Site,
    tasks: &mut Tasks,
) -> Result<(), Memory>
    ensures { OnOk result (tasks.new ≡ deadline_tasks seconds replaces site.now tasks.old) }
{
    let Site {
        place,
        hold,
        forms,
        ..
    } = *site;
    let opening = Opening::Deadline { seconds, replaces };
    match (seconds, replaces) {
        (true, true) => {
            let full = hold.with_more(2)?;
            push_framed(opening, less(less(forms)), site, full, tasks)?;
            tasks.put(&[
                Task::Part(forms, place, hold),
                Task::Part(less(forms), place, hold.one_more()?),
            ])
        },
        (false, false) => push_framed(opening, forms, site, hold, tasks),
        (true, false) | (false, true) => {
            let full = hold.with_more(1)?;
            push_framed(opening, less(forms), site, full, tasks)?;
            tasks.push(Task::Part(forms, place, hold))
        },
    }
}
