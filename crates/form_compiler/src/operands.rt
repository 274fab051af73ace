//! Numbers of operands and lines, as the compiler counts them.
ghost use Rattle.std.specs.Prelude.{◌≡◌, ◌≤◌};
ghost use Rattle.form_points.specs.Operands;
ghost use Rattle.form_compiler.specs.inside.Extents;

use lisp_code::operands;
use lisp_program::function::{Primitive, Printing, Service};

/// How many of two are written.
pub(crate) fn written(first: bool, second: bool) -> usize
    ensures value { result ≡ Operands.written first second }
    ensures few { result ≤ 2 }
{
    operands::written(first, second) as usize
}

/// How many arguments a function with local points has.
pub(crate) fn operands_of(function: &Primitive) -> usize
    ensures { result ≡ Operands.operands_of function.now }
{
    operands::operands_of(*function) as usize
}

/// How many arguments a function that prints has.
pub(crate) fn printed_of(printing: &Printing) -> usize
    ensures { result ≡ Operands.printed_of printing.now }
{
    operands::printed_of(printing) as usize
}

/// How many arguments a service has: those that it must have, and those of the keywords that are written.
pub(crate) fn served_of(service: &Service) -> usize
    ensures { result ≡ Operands.served_of service.now }
{
    operands::served_of(*service) as usize
}

/// How many lines of a service come after its operands: 1 to 4.
pub(crate) fn service_lines(service: &Service) -> u32
    ensures { result ≡ Extents.service_lines service.now }
{
    match service {
        Service::JoinThread { timeout, .. } => { if *timeout { 3 } else { 1 } }
        Service::GrabMutex { waitp, timeout } => match (*waitp, *timeout) {
            (_, true) => 3,
            (true, false) => 2,
            (false, false) => 1,
        },
        Service::ConditionWait { timeout } => { if *timeout { 4 } else { 3 } }
        Service::Sleep | Service::ScheduleTimer { .. } => 2,
        Service::MakeThread { .. }
        | Service::InterruptThread
        | Service::ThreadAlive
        | Service::MakeMutex { .. }
        | Service::MakeWaitqueue { .. }
        | Service::ReleaseMutex { .. }
        | Service::MutexOwner
        | Service::HoldingMutex
        | Service::ConditionNotify { .. }
        | Service::ConditionBroadcast
        | Service::MakeTimer { .. }
        | Service::UnscheduleTimer => 1,
    }
}
