//! The tasks of a form by its kind. Where they do not depend on the names of functions, contracts give no names.
ghost use Rattle.std.specs.Prelude.{◌≡◌, [], ◌≤◌, ◌<◌, ◌+◌, ◌^◌, ◌∷◌, OnOk};
ghost use Rattle.lisp_code.specs.Held.{one_more as one_more_of};
ghost use Rattle.form_compiler.specs.inside.Tasks.{binding, framed, onward as onward_of, schedule as schedule_of, weight};

use crate::control::{push_choosing, push_deadline, push_handling, push_looping, push_protecting};
use crate::light::test_light;
use crate::names::Names;
use crate::operands::{operands_of, printed_of, served_of};
use crate::parts::{
    act, ask, onward, push_acting, push_alone, push_asking, push_binding, push_framed,
};
use crate::service::push_service;
use crate::site::Site;
use crate::task::Task;
use crate::tasks::Tasks;
use crate::unfold::less;
use form_points::act::{Act, Opening, Question};
use lisp_base::id::SymbolId;
use lisp_base::memory::Memory;
use lisp_base::value::Value;
use lisp_program::form::CoreKind;
use lisp_program::function::Service;

/// The tasks of a special variable.
fn push_special(variable: SymbolId, site: &Site, tasks: &mut Tasks) -> Result<(), Memory>
    ensures { OnOk result (tasks.new ≡ schedule_of [] (CoreKind.Special variable) site.now tasks.old) }
{
    tasks.put(&[
        ask(Question::Read(variable), site, site.hold)?,
        Task::Skip(site.forms),
    ])
}

/// The tasks of a `defvar`.
fn push_defvar(variable: SymbolId, site: &Site, tasks: &mut Tasks) -> Result<(), Memory>
    ensures { OnOk result (tasks.new ≡ schedule_of [] (CoreKind.Defvar variable) site.now tasks.old) }
{
    let test = test_light(Question::IsBound(variable), site.end, site.place, site.hold)?;
    push_asking(1, Question::Define(variable), site, tasks)?;
    tasks.push(Task::Write(test))
}

/// The tasks of a call of a function of the program.
fn push_call(
    names: &Names,
    function: SymbolId,
    site: &Site,
    tasks: &mut Tasks,
) -> Result<(), Memory>
    requires { site.now.forms < 2 ^ 32 }
    ensures { OnOk result (tasks.new ≡ schedule_of names.now (CoreKind.Call function) site.now tasks.old) }
{
    let full = site.hold.with_more(site.forms)?;
    let call = act(names, Act::Call(function, site.forms as u32), site, full)?;
    tasks.put(&[Task::All(site.forms, site.hold), call])
}

/// The tasks of a service.
fn push_served(service: &Service, site: &Site, tasks: &mut Tasks) -> Result<(), Memory>
    ensures { OnOk result (tasks.new ≡ schedule_of [] (CoreKind.Serve service.now) site.now tasks.old) }
{
    let operands = served_of(service);
    let full = site.hold.with_more(operands)?;
    push_service(service, site.place, site.end, full, tasks)?;
    tasks.push(Task::Operands(operands, site.forms, site.place, site.hold))
}

/// The tasks of a `catch`.
fn push_catch(site: &Site, tasks: &mut Tasks) -> Result<(), Memory>
    ensures { OnOk result (tasks.new ≡ schedule_of [] CoreKind.Catch site.now tasks.old) }
{
    let full = site.hold.with_more(1)?;
    push_framed(Opening::Catch, less(site.forms), site, full, tasks)?;
    tasks.push(Task::Part(site.forms, site.place, site.hold))
}

/// The tasks of a body in a frame.
fn push_block(opening: Opening, site: &Site, tasks: &mut Tasks) -> Result<(), Memory>
    ensures { OnOk result (tasks.new ≡ framed opening site.now.forms site.now site.now.holding tasks.old) }
{
    push_framed(opening, site.forms, site, site.hold, tasks)
}

/// The tasks of a clause without a variable.
fn push_clause(site: &Site, tasks: &mut Tasks) -> Result<(), Memory>
    ensures { OnOk result (tasks.new ≡ Task.Body site.now.forms site.now.place site.now.holding ∷ (onward_of site.now ∷ tasks.old)) }
{
    tasks.put(&[Task::Body(site.forms, site.place, site.hold), onward(site)?])
}

/// The tasks of a clause with this variable.
fn push_clause_with(
    names: &Names,
    variable: u32,
    site: &Site,
    tasks: &mut Tasks,
) -> Result<(), Memory>
    ensures { OnOk result (tasks.new ≡ binding names.now variable 0 site.now (one_more_of site.now.holding) (onward_of site.now ∷ tasks.old)) }
{
    tasks.push(onward(site)?)?;
    push_binding(names, variable, 0, site, site.hold.one_more()?, tasks)
}

/// The tasks of a form of this kind: its lines, and the forms under it.
pub(crate) fn push_schedule(
    names: &Names,
    kind: &CoreKind,
    site: &Site,
    tasks: &mut Tasks,
) -> Result<(), Memory>
    requires { site.now.forms < 2 ^ 32 }
    ensures tasks { OnOk result (tasks.new ≡ schedule_of names.now kind.now site.now tasks.old) }
    ensures light { OnOk result (weight tasks.new ≤ weight tasks.old + 2 ^ 79) }
{
    match *kind {
        CoreKind::Constant(value) => push_alone(names, Act::Push(value), site, tasks),
        CoreKind::CurrentThread => push_alone(names, Act::PushThread, site, tasks),
        CoreKind::Function(name) => push_alone(names, Act::PushFunction(name), site, tasks),
        CoreKind::Local(variable) => push_alone(names, Act::ReadLocal(variable), site, tasks),
        CoreKind::Special(variable) => push_special(variable, site, tasks),
        CoreKind::SetLocal(variable) => {
            push_acting(names, 1, Act::WriteLocal(variable), site, tasks)
        },
        CoreKind::SetSpecial(variable) => {
            push_asking(1, Question::Write(variable), site, tasks)
        },
        CoreKind::Defvar(variable) => push_defvar(variable, site, tasks),
        CoreKind::Defparameter(variable) => {
            push_asking(1, Question::Define(variable), site, tasks)
        },
        CoreKind::Defun(name) => { push_alone(names, Act::Push(Value::symbol(name)), site, tasks) },
        CoreKind::CompareAndSwap(variable) => {
            push_asking(2, Question::CompareAndSwap(variable), site, tasks)
        },
        CoreKind::Progn => tasks.push(Task::Body(site.forms, site.place, site.hold)),
        CoreKind::If => push_choosing(site, tasks),
        CoreKind::While => push_looping(site, tasks),
        CoreKind::Let => tasks.push(Task::All(site.forms, site.hold)),
        CoreKind::BindLocal(variable, above) => {
            push_binding(names, variable, above, site, site.hold, tasks)
        },
        CoreKind::BindSpecial(variable, above) => {
            push_block(Opening::Bind(variable, above), site, tasks)
        },
        CoreKind::Call(function) => push_call(names, function, site, tasks),
        CoreKind::Apply(function) => {
            push_acting(
                names,
                operands_of(&function),
                Act::Apply(function),
                site,
                tasks,
            )
        },
        CoreKind::Print(printing) => {
            push_asking(
                printed_of(&printing),
                Question::Print(printing),
                site,
                tasks,
            )
        },
        CoreKind::Serve(service) => push_served(&service, site, tasks),
        CoreKind::Block(entry) => push_block(Opening::Block(entry), site, tasks),
        CoreKind::ReturnFrom(entry) => {
            push_acting(names, 1, Act::ReturnFrom(entry), site, tasks)
        },
        CoreKind::Catch => push_catch(site, tasks),
        CoreKind::Throw => push_acting(names, 2, Act::Throw, site, tasks),
        CoreKind::UnwindProtect => push_protecting(site, tasks),
        CoreKind::WithoutInterrupts(number) => {
            push_block(Opening::WithoutInterrupts(number), site, tasks)
        },
        CoreKind::AllowWithInterrupts(number) => {
            push_block(Opening::AllowWithInterrupts(number), site, tasks)
        },
        CoreKind::WithInterrupts => push_block(Opening::WithInterrupts, site, tasks),
        CoreKind::HandlerCase => push_handling(site, tasks),
        CoreKind::Clause(_) => push_clause(site, tasks),
        CoreKind::ClauseWith(_, variable) => push_clause_with(names, variable, site, tasks),
        CoreKind::Signal(condition) => push_alone(names, Act::Signal(condition), site, tasks),
        CoreKind::WithDeadline { seconds, replaces } => {
            push_deadline(seconds, replaces, site, tasks)
        },
        CoreKind::AbortThread => push_alone(names, Act::AbortThread, site, tasks),
        CoreKind::ReturnFromThread => { push_acting(names, 1, Act::ReturnFromThread, site, tasks) },
    }
}
