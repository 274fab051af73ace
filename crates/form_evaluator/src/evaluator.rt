ghost use Rattle.std.specs.Prelude.{◌≡◌, ◌+◌, ◌^◌, ◌<◌, [], ◌∷◌, ◌++◌, ◌&&◌, nat_lt, length, unwrap_or, slice_get, OnOk, IfOk};
ghost use Rattle.binding_stack.specs.Stack.{word_of};
ghost use Rattle.form_evaluator.specs.inside.Evaluator.{Stands};
ghost use Rattle.form_evaluator.specs.inside.Moves.{shown_after, signalled, ended_now, asked_after, read_at, written_at, bound_at, opened_in, left_frame, popped_frame, unbound_to, room_in, next_shown, asked_of, local_after, counted, question_reply_after, test_reply_after, reply_after};
ghost use Rattle.lisp_base.specs.Value.{nil};
ghost use Rattle.lisp_base.specs.declared.condition.Class.{Class};
ghost use Rattle.plain_threads.specs.State.{ThreadState};
ghost use Rattle.plain_threads.specs.Acts.{top, sum_of, result_of};
ghost use Rattle.plain_threads.specs.Step.{next_of, local_step_of, after_reply};

use crate::ahead::Ahead;
use crate::stack::Stack;
use binding_stack::bindings::{BINDINGS, BindingStack};
use lisp_base::condition::{Class, Condition};
use lisp_base::id::{Place, SymbolId};
use lisp_base::memory::Memory;
use lisp_base::sequence::Sequence;
use lisp_base::value::{Node, Value};
use plain_program::act::{Act, Opening, Question};
use plain_program::steps::Step;
use plain_threads::next::Next;
use std::alloc::Global;
use std::mem;
use world_semantics::op::{Op, Printed, Reply};
use world_semantics::phase::Ending;

/// How many frames there may be.
const FRAMES: usize = 4096;

/// What a thread is about.
#[derive(Clone, Copy)]
pub(crate) enum Doing {
    /// It takes the steps that are ahead.
    Running,
    /// It leaves to its base, to end so.
    Leaving(Ending),
    /// It has ended.
    Over,
}

/// An open form: its place, and the values that wait for it.
#[derive(Drop)]
pub(crate) struct OpenFrame {
    pub(crate) place: Place,
    pub(crate) values: Stack<Value>,
}

/// The evaluator of one thread: what it is about, the steps ahead, the values that wait for them, front first, the open
/// forms, innermost first, the places of the special variables that they bind, the values at all places, and how many
/// points it took.
#[derive(Drop)]
pub(crate) struct Evaluator {
    pub(crate) doing: Doing,
    pub(crate) ahead: Ahead,
    pub(crate) values: Stack<Value>,
    pub(crate) frames: Stack<OpenFrame>,
    pub(crate) bindings: BindingStack,
    pub(crate) store: Sequence<Value>,
    pub(crate) points: u64,
}

/// The value at a place, or NIL where there is none.
fn value_at(store: &Sequence<Value>, place: u64) -> Value
    ensures { result ≡ unwrap_or (slice_get store.now place) nil }
{
    match store.as_slice().get(place as usize) {
        Some(value) => *value,
        None => Value::nil(),
    }
}

/// The sum of two integers in range, or the class that is signalled in its place.
fn sum(a: Value, b: Value) -> Result<Value, Class>
    ensures { result ≡ sum_of a b }
{
    match (a.node(), b.node()) {
        (Node::Int(x), Node::Int(y)) => match Value::of(Node::Int(x + y)) {
            Some(value) => Ok(value),
            None => Err(Class::IntegerRange),
        },
        _ => Err(Class::TypeError),
    }
}

impl Evaluator {
    /// The evaluator of main, before its first point.
    pub(crate) fn new(alloc: Global, steps: Vec<Step>) -> Result<Self, Memory>
        ensures { IfOk result (λ e. e ≡ record { doing = Doing.Running; ahead = steps.items; values = []; frames = []; bindings = []; store = []; points = 0 }) }
    {
        let bindings = BindingStack::new(alloc)?;
        Ok(Evaluator {
            doing: Doing::Running,
            ahead: Ahead::of(steps),
            values: Stack::new(alloc),
            frames: Stack::new(alloc),
            bindings,
            store: Sequence::new(alloc),
            points: 0,
        })
    }

    /// The front value, or NIL where there is none.
    pub(crate) fn front_value(&self) -> Value
        ensures { result ≡ top self.now.values }
    {
        match self.values.front() {
            Some(value) => value,
            None => Value::nil(),
        }
    }

    /// Does an act, which is the next step.
    pub(crate) fn act(&mut self, act: Act) -> Result<(), Memory>
        ensures { OnOk result (self.new ≡ shown_after (result_of act self.old.values) self.old) }
    {
        match act {
            Act::Push(value) => {
                self.values.push(value)?;
                self.ahead.advance();
                Ok(())
            }
            Act::Discard => {
                self.values.pop();
                self.ahead.advance();
                Ok(())
            }
            Act::Add => self.add(),
        }
    }

    /// Puts the sum in place of the two front values, or signals.
    fn add(&mut self) -> Result<(), Memory>
        ensures { OnOk result (self.new ≡ shown_after (result_of Act.Add self.old.values) self.old) }
    {
        let second = self.front_value();
        self.values.pop();
        let first = self.front_value();
        self.values.pop();
        match sum(first, second) {
            Ok(value) => {
                self.values.push(value)?;
                self.ahead.advance();
                Ok(())
            }
            Err(class) => {
                self.signal(class);
                Ok(())
            }
        }
    }

    /// Signals a class: the thread leaves to its base, to be aborted.
    pub(crate) fn signal(&mut self, class: Class)
        ensures { self.new ≡ signalled class self.old }
    {
        self.doing = Doing::Leaving(Ending::Aborted(Some(Condition { class, text: None })));
        self.ahead.stop();
        self.values.clear();
    }

    /// The thread ends.
    pub(crate) fn end(&mut self)
        ensures { self.new ≡ ended_now self.old }
    {
        self.doing = Doing::Over;
        self.ahead.stop();
        self.values.clear();
    }

    /// Reads or writes a variable that is bound here.
    pub(crate) fn ask(&mut self, question: &Question) -> Result<(), Memory>
        ensures { OnOk result (self.new ≡ asked_after question.now self.old) }
    {
        match question {
            Question::Read(symbol) => self.read(*symbol),
            Question::Write(symbol) => {
                self.write(*symbol);
                Ok(())
            }
            _ => Ok(()),
        }
    }

    /// Reads a variable that is bound here.
    fn read(&mut self, symbol: SymbolId) -> Result<(), Memory>
        ensures { OnOk result (self.new ≡ read_at (word_of symbol self.old.bindings) self.old) }
    {
        let value = match self.bindings.get(symbol) {
            Some(place) => value_at(&self.store, place),
            None => Value::nil(),
        };
        self.values.push(value)?;
        self.ahead.advance();
        Ok(())
    }

    /// Writes the front value to a variable that is bound here.
    fn write(&mut self, symbol: SymbolId)
        ensures { self.new ≡ written_at (word_of symbol self.old.bindings) self.old }
    {
        let value = self.front_value();
        match self.bindings.get(symbol) {
            Some(place) => self.store.set(place as usize, value),
            None => {}
        }
        self.ahead.advance();
    }

    /// Whether there is room for a frame and a binding.
    fn has_room(&self) -> bool
        ensures { result ≡ room_in self.now }
    {
        self.frames.len() < FRAMES && self.bindings.height() < BINDINGS
    }

    /// Opens a form, where there is room.
    pub(crate) fn enter(
        &mut self,
        alloc: Global,
        opening: &Opening,
        place: Place,
    ) -> Result<(), Memory>
        ensures { OnOk result (self.new ≡ opened_in (room_in self.old) opening.now place self.old) }
    {
        if !self.has_room() {
            self.signal(Class::StorageCondition);
            return Ok(());
        }
        match opening {
            Opening::Bind(symbol, above) => self.bind(alloc, *symbol, *above as usize, place),
        }
    }

    /// Binds a variable to the value with so many others before it.
    #[tactic(auto, using(crate::proofs::Bound::front_behind, crate::proofs::Bound::rest_behind))]
    fn bind(
        &mut self,
        alloc: Global,
        symbol: SymbolId,
        above: usize,
        place: Place,
    ) -> Result<(), Memory>
        requires { length self.old.bindings < 4096 }
        ensures { OnOk result (self.new ≡ bound_at symbol above place self.old) }
    {
        let front = self.values.take_front(alloc, above)?;
        let value = self.front_value();
        self.values.pop();
        let others = mem::replace(&mut self.values, front);
        let new_place = self.store.len() as u64;
        self.store.push(value)?;
        self.frames.push(OpenFrame {
            place,
            values: others,
        })?;
        let _ = self.bindings.bind(symbol, new_place);
        self.ahead.advance();
        Ok(())
    }

    /// Takes away the bindings of the forms that were left.
    #[tactic(auto, using(crate::proofs::Bound::kept_min))]
    fn unbind(&mut self)
        ensures { self.new ≡ unbound_to (length self.old.frames) self.old }
    {
        let height = self.frames.len().min(self.bindings.height() as usize) as u32;
        self.bindings.unbind_to(height);
    }

    /// Leaves the innermost form with the front value.
    pub(crate) fn leave_frame(&mut self) -> Result<(), Memory>
        ensures { OnOk result (self.new ≡ left_frame self.old.frames self.old) }
    {
        let value = self.front_value();
        match self.frames.take() {
            Some(frame) => {
                let OpenFrame { place: _, values } = frame;
                self.values = values;
                self.values.push(value)?;
                self.ahead.advance();
                self.unbind();
                Ok(())
            }
            None => Ok(()),
        }
    }

    /// Pops the innermost form in an exit.
    pub(crate) fn pop_frame(&mut self)
        ensures { self.new ≡ popped_frame self.old.frames self.old }
    {
        match self.frames.take() {
            Some(frame) => {
                drop(frame);
                self.unbind();
            }
            None => {}
        }
    }
}
