ghost use Rattle.std.specs.Prelude.{◌≡◌, ℕ, suc, ◌+◌, ◌<◌, ◌^◌, [], ◌∷◌, length, IfOk, OnOk};
ghost use Rattle.plain_program.specs.Program.{PlainProgram as Whole};
ghost use Rattle.plain_program.specs.Forms.{forms_of};
ghost use Rattle.plain_runs.specs.Run.{RunsAs};
ghost use Rattle.plain_runs.specs.Report.{unless_out, status_of, phase_shown};
ghost use Rattle.world_semantics.specs.World.{unbound_all};
ghost use Rattle.plain_threads.specs.State.{ThreadState};
ghost use Rattle.form_evaluator.specs.inside.Evaluator.{Stands};
ghost use Rattle.form_evaluator.specs.inside.Running.{Ran, Stops, Goes, AsksFor, phase_by, globals_by, reply_by, shown_forms};

use crate::evaluator::{Doing, Evaluator, OpenFrame};
use crate::globals;
use crate::stack::Stack;
use lisp_base::id::{Actor, SymbolId, ThreadId};
use lisp_base::memory::Memory;
use lisp_base::sequence::Sequence;
use lisp_base::value::Value;
use plain_program::flatten::main_steps;
use plain_program::form::PlainNode;
use plain_runs::report::{FrameWord, OpenForm, PhaseReport, Report, ThreadLine, ThreadReport};
use plain_threads::next::Next;
use std::alloc::Global;
use world_semantics::entry::Entry;
use world_semantics::global::Global as SpecialVariable;
use world_semantics::op::{Op, Reply};
use world_semantics::phase::Phase;

/// A run of main alone: its evaluator, the special variables with their global values, its phase, and the entries so far.
#[derive(Drop)]
pub(crate) struct Run {
    pub(crate) evaluator: Evaluator,
    pub(crate) globals: Sequence<SpecialVariable>,
    pub(crate) phase: Phase,
    pub(crate) entries: Sequence<Entry>,
}

/// The phase of main after its operation: only a thread that is alive ends.
fn phase_after(phase: &Phase, op: &Op) -> Phase
    ensures { result ≡ phase_by op.now phase.now }
{
    match (op, phase) {
        (Op::Finish(ending), Phase::Alive) => Phase::Ended(*ending),
        _ => *phase,
    }
}

/// The reply to an operation.
fn reply_to(globals: &Sequence<SpecialVariable>, op: &Op) -> Reply
    ensures { result ≡ reply_by op.now globals.now }
{
    match op {
        Op::Get(symbol) => match globals::value_of(globals, *symbol) {
            Some(value) => Reply::Value(value),
            None => Reply::Unbound,
        },
        Op::Boundp(symbol) => Reply::Truth(globals::value_of(globals, *symbol).is_some()),
        _ => Reply::Okay,
    }
}

/// Does what an operation does to the global values.
fn change(globals: &mut Sequence<SpecialVariable>, op: &Op)
    ensures { globals.new ≡ globals_by op.now globals.old }
{
    match op {
        Op::Set(symbol, value) => globals::write(globals, *symbol, *value),
        _ => {}
    }
}

/// The special variables before the first point: none has a value.
fn unbound_globals(
    alloc: Global,
    specials: &[SymbolId],
) -> Result<Sequence<SpecialVariable>, Memory>
    ensures { IfOk result (λ globals. globals ≡ unbound_all specials.now) }
{
    let mut globals = Sequence::new(alloc);
    for at in 0..specials.len() {
        globals.push(SpecialVariable {
            symbol: specials[at],
            value: None,
        })?;
    }
    Ok(globals)
}

/// The open forms, innermost first. The frames are taken away.
fn open_forms(alloc: Global, frames: &mut Stack<OpenFrame>) -> Result<Sequence<OpenForm>, Memory>
    ensures { IfOk result (λ forms. forms ≡ shown_forms frames.old) }
{
    let mut forms = Sequence::new(alloc);
    for _frame in 0..frames.len() {
        if let Some(frame) = frames.take() {
            forms.push(OpenForm {
                kind: FrameWord::Bind,
                place: frame.place,
            })?;
        }
    }
    Ok(forms)
}

impl Run {
    /// Takes a point, and says whether there was one to take.
    #[tactic(auto, using(crate::proofs::Turned::local_ran, crate::proofs::Turned::nothing_left))]
    fn turn(&mut self, alloc: Global) -> Result<bool, Memory>
        requires points { self.old.evaluator.points < 2 ^ 32 }
        requires entries { length self.old.entries < 2 ^ 32 }
        ensures { (limit : ℕ) (p : Whole) (taken : ℕ) → Ran limit p taken self.old → taken < limit → IfOk result (λ goes. Goes limit p taken goes self.new) }
    {
        match self.evaluator.next() {
            Next::Local => {
                self.evaluator.local_step(alloc)?;
                Ok(true)
            }
            Next::Operation(op) => {
                self.perform(op)?;
                Ok(true)
            }
            Next::Nothing => Ok(false),
        }
    }

    /// Does main's next operation, and enters it.
    #[tactic(auto, using(crate::proofs::Turned::operation_ran))]
    fn perform(&mut self, op: Op) -> Result<(), Memory>
        requires points { self.old.evaluator.points < 2 ^ 32 }
        requires entries { length self.old.entries < 2 ^ 32 }
        requires next { AsksFor op self.old.evaluator }
        ensures { (limit : ℕ) (p : Whole) (taken : ℕ) → Ran limit p taken self.old → taken < limit → OnOk result (Ran limit p (suc taken) self.new) }
    {
        let reply = reply_to(&self.globals, &op);
        let phase = phase_after(&self.phase, &op);
        let entry = Entry {
            ticket: self.entries.len() as u64 + 1,
            actor: Actor::Thread(ThreadId::main()),
            point: self.evaluator.points + 1,
            op,
            reply,
        };
        self.entries.push(entry)?;
        self.evaluator.accept(&reply)?;
        change(&mut self.globals, &op);
        self.phase = phase;
        Ok(())
    }

    /// A run of main before its first point.
    fn new(alloc: Global, forms: &[PlainNode], specials: &[SymbolId]) -> Result<Self, Memory>
        ensures { (limit : ℕ) → IfOk result (Ran limit (record { forms = forms_of forms.now; specials = specials.now }) 0) }
    {
        let steps = main_steps(alloc, forms)?;
        Ok(Run {
            evaluator: Evaluator::new(alloc, steps)?,
            globals: unbound_globals(alloc, specials)?,
            phase: Phase::Alive,
            entries: Sequence::new(alloc),
        })
    }

    /// Takes points as long as there are any to take.
    fn go(&mut self, alloc: Global, limit: u32) -> Result<(), Memory>
        requires { (p : Whole) × Ran limit p 0 self.old }
        ensures { (p : Whole) → Ran limit p 0 self.old → OnOk result (Stops limit p self.new) }
    {
        for _turn in 0..limit {
            if !self.turn(alloc)? {
                return Ok(());
            }
        }
        Ok(())
    }

    /// Where main stands, as it shows by itself.
    fn phase_report(&self, limit: u32) -> PhaseReport
        ensures { (s : ThreadState) → Stands s self.now.evaluator → result ≡ phase_shown s.control limit s.points }
    {
        match self.evaluator.doing {
            Doing::Over => PhaseReport::Ended,
            _ => unless_out(u64::from(limit), self.evaluator.points),
        }
    }

    /// What a run that is over leaves.
    fn finish(self, alloc: Global, limit: u32) -> Result<Finished, Memory>
        ensures { (p : Whole) → Stops limit p self → IfOk result (λ finished. RunsAs limit p finished.entries finished.report) }
    {
        let status = self.status();
        let reported = self.phase_report(limit);
        let Run {
            evaluator,
            globals,
            phase,
            entries,
        } = self;
        let Evaluator {
            mut frames,
            points,
            ..
        } = evaluator;
        let machine = ThreadReport {
            phase: reported,
            points,
            frames: open_forms(alloc, &mut frames)?,
        };
        let line = ThreadLine {
            name: Value::nil(),
            phase,
            machine,
        };
        let report = Report {
            threads: Sequence::of(vec![in alloc; line]?),
            globals,
            status,
        };
        Ok(Finished { entries, report })
    }

    /// 0 where main has ended, else 3.
    fn status(&self) -> u8
        ensures { (s : ThreadState) → Stands s self.now.evaluator → result ≡ status_of (s ∷ []) }
    {
        match self.evaluator.doing {
            Doing::Over => 0,
            _ => 3,
        }
    }
}

/// A thread that has not ended can go on, or is out of points.
fn unless_out(limit: u64, points: u64) -> PhaseReport
    ensures { result ≡ unless_out limit points }
{
    if points < limit {
        PhaseReport::Runnable
    } else {
        PhaseReport::OutOfPoints
    }
}

/// What a run leaves: its journal and its report.
#[derive(Drop)]
pub struct Finished {
    pub entries: Sequence<Entry>,
    pub report: Report,
}

/// Runs a program with these forms, in preorder, and these special variables, in order of definition, with at most `limit`
/// points for main, and gives its journal and its report.
pub fn run_program(
    alloc: Global,
    forms: &[PlainNode],
    specials: &[SymbolId],
    limit: u32,
) -> Result<Finished, Memory>
    ensures { IfOk result (λ finished. RunsAs limit (record { forms = forms_of forms.now; specials = specials.now }) finished.entries finished.report) }
{
    let mut run = Run::new(alloc, forms, specials)?;
    run.go(alloc, limit)?;
    run.finish(alloc, limit)
}
