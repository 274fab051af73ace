//! The tasks of services.
ghost use Rattle.std.specs.Prelude.{◌≡◌, IfOk, OnOk};
ghost use Rattle.form_compiler.specs.inside.Tasks.{asked as asked_of, less as less_of, service_tasks, timed_tasks, tried as tried_of, tried_tasks, woken_tasks};

use crate::hold::Hold;
use crate::light::{ask_light, test_light};
use crate::task::Task;
use crate::tasks::Tasks;
use form_points::act::{Question, Step};
use lisp_base::id::Place;
use lisp_base::memory::Memory;
use lisp_program::function::Service;

/// The position before this one, or 0.
fn before(position: u32) -> u32
    ensures { result ≡ less_of position }
{
    position.saturating_sub(1)
}

/// One operation of a service.
fn asked(service: Service, step: Step, place: Place, hold: Hold) -> Result<Task, Memory>
    ensures { IfOk result (λ t. t ≡ asked_of service step place hold) }
{
    Ok(Task::Write(ask_light(Question::Serve(service, step), place, hold)?))
}

/// One operation of a service, which goes on at a position where it settles the matter.
fn tried(service: Service, step: Step, to: u32, place: Place, hold: Hold) -> Result<Task, Memory>
    ensures { IfOk result (λ t. t ≡ tried_of service step to place hold) }
{
    Ok(Task::Write(test_light(Question::Serve(service, step), to, place, hold)?))
}

/// The tasks of a service that first tries, and then waits for a time.
fn push_tried(
    service: Service,
    place: Place,
    end: u32,
    hold: Hold,
    tasks: &mut Tasks,
) -> Result<(), Memory>
    ensures { OnOk result (tasks.new ≡ tried_tasks service place end hold tasks.old) }
{
    push_timed(service, place, hold, tasks)?;
    tasks.push(tried(service, Step::Try, end, place, hold)?)
}

/// The tasks of a service that reads the clock first.
fn push_timed(service: Service, place: Place, hold: Hold, tasks: &mut Tasks) -> Result<(), Memory>
    ensures { OnOk result (tasks.new ≡ timed_tasks service place hold tasks.old) }
{
    tasks.put(&[
        asked(service, Step::Clock, place, hold)?,
        asked(service, Step::Main, place, hold)?,
    ])
}

/// The tasks of a wait after its beginning.
fn push_woken(
    service: Service,
    place: Place,
    end: u32,
    hold: Hold,
    tasks: &mut Tasks,
) -> Result<(), Memory>
    ensures { OnOk result (tasks.new ≡ woken_tasks service place end hold tasks.old) }
{
    tasks.put(&[
        tried(service, Step::Wake, end, place, hold)?,
        asked(service, Step::Regrab, place, hold)?,
    ])
}

/// The tasks of a `condition-wait`.
fn push_wait(
    timeout: bool,
    place: Place,
    end: u32,
    hold: Hold,
    tasks: &mut Tasks,
) -> Result<(), Memory>
    ensures { OnOk result (tasks.new ≡ service_tasks (Service.ConditionWait timeout) place end hold tasks.old) }
{
    let service = Service::ConditionWait { timeout };
    push_woken(service, place, end, hold, tasks)?;
    tasks.push(asked(service, Step::Begin, place, hold)?)?;
    match timeout {
        true => tasks.push(tried(service, Step::Clock, before(before(end)), place, hold)?),
        false => Ok(()),
    }
}

/// The tasks of a `grab-mutex`.
fn push_grab(
    waitp: bool,
    timeout: bool,
    place: Place,
    end: u32,
    hold: Hold,
    tasks: &mut Tasks,
) -> Result<(), Memory>
    ensures { OnOk result (tasks.new ≡ service_tasks (Service.GrabMutex waitp timeout) place end hold tasks.old) }
{
    let service = Service::GrabMutex { waitp, timeout };
    match (waitp, timeout) {
        (_, true) => push_tried(service, place, end, hold, tasks),
        (true, false) => tasks.put(&[
            tried(service, Step::Try, end, place, hold)?,
            asked(service, Step::Main, place, hold)?,
        ]),
        (false, false) => tasks.push(asked(service, Step::Main, place, hold)?),
    }
}

/// The tasks of a `join-thread`.
fn push_join(
    default: bool,
    timeout: bool,
    place: Place,
    end: u32,
    hold: Hold,
    tasks: &mut Tasks,
) -> Result<(), Memory>
    ensures { OnOk result (tasks.new ≡ service_tasks (Service.JoinThread default timeout) place end hold tasks.old) }
{
    let service = Service::JoinThread { default, timeout };
    match timeout {
        true => push_tried(service, place, end, hold, tasks),
        false => tasks.push(asked(service, Step::Main, place, hold)?),
    }
}

/// The tasks of a service after its operands, which ends at this position.
pub(crate) fn push_service(
    service: &Service,
    place: Place,
    end: u32,
    hold: Hold,
    tasks: &mut Tasks,
) -> Result<(), Memory>
    ensures { OnOk result (tasks.new ≡ service_tasks service.now place end hold tasks.old) }
{
    match service {
        Service::JoinThread { default, timeout } => {
            push_join(*default, *timeout, place, end, hold, tasks)
        },
        Service::GrabMutex { waitp, timeout } => {
            push_grab(*waitp, *timeout, place, end, hold, tasks)
        },
        Service::ConditionWait { timeout } => push_wait(*timeout, place, end, hold, tasks),
        Service::Sleep | Service::ScheduleTimer { .. } => {
            push_timed(*service, place, hold, tasks)
        },
        Service::MakeThread { .. }
        | Service::InterruptThread
        | Service::ThreadAlive
        | Service::MakeMutex { .. }
        | Service::MakeWaitqueue { .. }
        | Service::ReleaseMutex { .. }
        | Service::MutexOwner
        | Service::HoldingMutex
        | Service::ConditionNotify { .. }
        | Service::ConditionBroadcast
        | Service::MakeTimer { .. }
        | Service::UnscheduleTimer => { tasks.push(asked(*service, Step::Main, place, hold)?) },
    }
}
