ghost use Rattle.std.specs.Prelude.{◌≡◌, IfOk};
ghost use Rattle.lisp_base.specs.Writing.{Wrote};
ghost use Rattle.form_shapes.specs.inside.Contexts.{scope_of};
ghost use Rattle.lisp_forms.specs.Expansion.{forms_in, parts_in};
ghost use Rattle.lisp_forms.specs.inside.Flat.{flat_one};
ghost use Rattle.lisp_forms.specs.Rows;
ghost use Rattle.lisp_forms.specs.inside.Written.{either_nodes, grab_nodes, lock_of, locked_nodes, region_nodes};

use crate::expand::{push_all, push_by_roles, push_head};
use crate::nodes::{push_form, push_local, push_nil, push_node};
use crate::rows::push_progn;
use form_shapes::bindings::{after_declarations, items_first};
use form_shapes::expanded::{Expanded, ExpandedNode};
use form_shapes::keywords::{Roles, part_count};
use form_shapes::levels::next;
use form_shapes::scope::Within;
use form_shapes::single::rest;
use lisp_base::condition::{Class, Condition};
use lisp_base::id::{Place, SymbolId};
use lisp_base::memory::Memory;
use lisp_base::value::Value;
use lisp_base::writer::Writer;
use lisp_data::items::Items;
use lisp_program::form::CoreKind;
use lisp_program::function::Service;

/// The numbers of the hidden variables of a lock, and of what its region remembers.
#[derive(Clone, Copy)]
struct Lock {
    mutex: u32,
    grabbed: u32,
    region: u32,
    inside: u32,
}

/// Those of a lock where so many are open.
fn lock_at(depth: u32) -> Result<Lock, Memory>
    ensures { IfOk result (λ lock. lock ≡ lock_of depth) }
{
    let grabbed = next(depth)?;
    let region = next(grabbed)?;
    let inside = next(region)?;
    Ok(Lock {
        mutex: depth,
        grabbed,
        region,
        inside,
    })
}

/// Writes what binds the hidden variables of a lock and begins its region, after the mutex.
fn push_region(lock: &Lock, place: Place, nodes: &mut Writer<ExpandedNode>)
    ensures { Wrote nodes.old nodes.new (region_nodes lock.now place) }
{
    push_nil(place, nodes);
    push_form(CoreKind::BindLocal(lock.mutex, 1), place, 1, nodes);
    push_form(CoreKind::BindLocal(lock.grabbed, 0), place, 1, nodes);
    push_form(CoreKind::WithoutInterrupts(lock.region), place, 1, nodes);
    push_form(CoreKind::UnwindProtect, place, 2, nodes);
    push_form(CoreKind::If, place, 3, nodes)
}

/// Writes what grabs the mutex of a lock, before its operands, of which there are so many after the mutex.
fn push_grab(
    lock: &Lock,
    waitp: bool,
    timeout: bool,
    operands: u32,
    place: Place,
    nodes: &mut Writer<ExpandedNode>,
)
    ensures { Wrote nodes.old nodes.new (grab_nodes lock.now waitp timeout operands place) }
{
    let service = Service::GrabMutex { waitp, timeout };
    push_form(CoreKind::SetLocal(lock.grabbed), place, 1, nodes);
    push_form(CoreKind::AllowWithInterrupts(lock.region), place, 1, nodes);
    push_form(CoreKind::Serve(service), place, operands, nodes);
    push_local(lock.mutex, place, nodes)
}

/// Writes what a lock does where it has the mutex: this body, with interruptions where they were allowed; and after that its cleanup.
#[cycle(forms)]
fn push_locked_body(
    within: Within,
    lock: &Lock,
    place: Place,
    body: Items,
    nodes: &mut Writer<ExpandedNode>,
)
    ensures { Wrote nodes.old nodes.new (locked_nodes lock.now place (forms_in (scope_of within.entry) body.entry)) }
{
    push_form(CoreKind::Progn, place, 1, nodes);
    push_form(CoreKind::AllowWithInterrupts(lock.region), place, 1, nodes);
    push_form(CoreKind::WithInterrupts, place, body.count(), nodes);
    push_all(within, body, nodes);
    push_nil(place, nodes);
    push_release(lock, place, nodes)
}

/// Writes the cleanup of a lock: the mutex is released where it was grabbed.
fn push_release(lock: &Lock, place: Place, nodes: &mut Writer<ExpandedNode>)
    ensures { Wrote nodes.old nodes.new (flat_one (Rows.release_form lock.now.mutex lock.now.grabbed place)) }
{
    let service = Service::ReleaseMutex { if_not_owner: true };
    push_form(CoreKind::If, place, 3, nodes);
    push_local(lock.grabbed, place, nodes);
    push_form(CoreKind::Progn, place, 1, nodes);
    push_form(CoreKind::Serve(service), place, 2, nodes);
    push_local(lock.mutex, place, nodes);
    push_form(
        CoreKind::Constant(Value::symbol(SymbolId(3))),
        place,
        0,
        nodes,
    );
    push_nil(place, nodes)
}

/// Writes a `with-mutex` with these arguments, of which these are written.
#[cycle(forms)]
pub fn push_mutex(
    within: Within,
    waitp: bool,
    timeout: bool,
    place: Place,
    arguments: Items,
    nodes: &mut Writer<ExpandedNode>,
)
    ensures { Wrote nodes.old nodes.new (flat_one (Rows.mutex_form (scope_of within.entry) place waitp timeout (parts_in (scope_of within.entry) place arguments.entry))) }
{
    let Ok(lock) = lock_at(within.depth) else {
        return nodes.fill();
    };
    let items = items_first(&arguments);
    let operands = items_first(&arguments);
    let count = part_count(Roles::Values(1), operands.count()) + 1;
    push_form(CoreKind::Let, place, 3, nodes);
    push_head(within, place, items, nodes);
    push_region(&lock, place, nodes);
    push_grab(&lock, waitp, timeout, count, place, nodes);
    let inner = Within {
        depth: lock.inside,
        ..within
    };
    push_by_roles(inner, Roles::Values(1), operands, nodes);
    let body = after_declarations(within.base.symbols, rest(&arguments, 1));
    push_locked_body(inner, &lock, place, body, nodes)
}

/// Writes a `with-recursive-lock` with these arguments.
#[cycle(forms)]
pub fn push_lock(within: Within, place: Place, arguments: Items, nodes: &mut Writer<ExpandedNode>)
    ensures { Wrote nodes.old nodes.new (flat_one (Rows.lock_form (scope_of within.entry) place (parts_in (scope_of within.entry) place arguments.entry))) }
{
    let Ok(lock) = lock_at(within.depth) else {
        return nodes.fill();
    };
    push_form(CoreKind::Let, place, 3, nodes);
    push_head(within, place, items_first(&arguments), nodes);
    push_region(&lock, place, nodes);
    push_held(&lock, place, nodes);
    push_grab(&lock, false, false, 1, place, nodes);
    let body = after_declarations(within.base.symbols, rest(&arguments, 1));
    let inner = Within {
        depth: lock.inside,
        ..within
    };
    push_locked_body(inner, &lock, place, body, nodes)
}

/// Writes whether the thread has the mutex already, before what grabs it where it has not.
fn push_held(lock: &Lock, place: Place, nodes: &mut Writer<ExpandedNode>)
    ensures { Wrote nodes.old nodes.new (either_nodes lock.now.inside place (Rows.held_form lock.now.mutex place)) }
{
    push_form(CoreKind::Let, place, 2, nodes);
    push_form(CoreKind::Serve(Service::HoldingMutex), place, 1, nodes);
    push_local(lock.mutex, place, nodes);
    push_form(CoreKind::BindLocal(lock.inside, 0), place, 1, nodes);
    push_form(CoreKind::If, place, 3, nodes);
    push_local(lock.inside, place, nodes);
    push_local(lock.inside, place, nodes)
}

/// Writes the timer of a `with-timeout`, whose function signals `timeout`.
fn push_timer(place: Place, nodes: &mut Writer<ExpandedNode>)
    ensures { Wrote nodes.old nodes.new (flat_one (Rows.timer_form place)) }
{
    let service = Service::MakeTimer {
        name: false,
        thread: false,
    };
    let condition = Condition {
        class: Class::Timeout,
        text: None,
    };
    push_form(CoreKind::Serve(service), place, 1, nodes);
    push_node(Expanded::Lambda(0), place, 1, nodes);
    push_form(CoreKind::Signal(condition), place, 0, nodes)
}

/// Writes a `with-timeout` with these arguments.
#[cycle(forms)]
pub fn push_timeout(
    within: Within,
    place: Place,
    arguments: Items,
    nodes: &mut Writer<ExpandedNode>,
)
    ensures { Wrote nodes.old nodes.new (flat_one (Rows.timeout_form (scope_of within.entry) place (parts_in (scope_of within.entry) place arguments.entry))) }
{
    let timer = within.depth;
    let Ok(inner) = next(timer) else {
        return nodes.fill();
    };
    let body = rest(&arguments, 1);
    let service = Service::ScheduleTimer {
        repeat_interval: false,
        catch_up: false,
    };
    push_form(CoreKind::Let, place, 2, nodes);
    push_timer(place, nodes);
    push_form(CoreKind::BindLocal(timer, 0), place, 2, nodes);
    push_form(CoreKind::Serve(service), place, 2, nodes);
    push_local(timer, place, nodes);
    let deeper = Within {
        depth: inner,
        ..within
    };
    push_head(deeper, place, arguments, nodes);
    push_form(CoreKind::UnwindProtect, place, 2, nodes);
    push_progn(deeper, place, body, nodes);
    push_form(CoreKind::Serve(Service::UnscheduleTimer), place, 1, nodes);
    push_local(timer, place, nodes)
}
