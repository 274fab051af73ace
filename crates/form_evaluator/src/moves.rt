ghost use Rattle.std.specs.Prelude.{◌≡◌, ◌+◌, ◌^◌, ◌<◌, drop, OnOk};
ghost use Rattle.form_evaluator.specs.inside.Evaluator.{Stands};
ghost use Rattle.form_evaluator.specs.inside.Moves.{asked_of, next_shown, counted, local_after, question_reply_after, read_reply_after, test_reply_after, reply_after};
ghost use Rattle.plain_threads.specs.State.{ThreadState};
ghost use Rattle.plain_threads.specs.Step.{next_of, local_step_of, after_reply};

use crate::evaluator::{Doing, Evaluator};
use lisp_base::condition::Class;
use lisp_base::id::SymbolId;
use lisp_base::memory::Memory;
use lisp_base::value::{Node, Value};
use plain_program::act::Question;
use plain_program::steps::Step;
use plain_threads::next::Next;
use std::alloc::Global;
use world_semantics::op::{Op, Printed, Reply};
use world_semantics::phase::Ending;

impl Evaluator {
    /// What comes next.
    #[tactic(auto, using(crate::proofs::Shown::next_is_shown))]
    pub(crate) fn next(&self) -> Next
        ensures { (s : ThreadState) → Stands s self.now → result ≡ next_of s }
    {
        self.next_here()
    }

    /// Takes a local point.
    pub(crate) fn local_step(&mut self, alloc: Global) -> Result<(), Memory>
        requires { self.old.points + 1 < 2 ^ 64 }
        ensures { (s : ThreadState) → Stands s self.old → OnOk result (Stands (local_step_of s) self.new) }
    {
        Ok(self.take_local(alloc)?)
    }

    /// Goes on with the reply to the operation that came next.
    pub(crate) fn accept(&mut self, reply: &Reply) -> Result<(), Memory>
        requires { self.old.points + 1 < 2 ^ 64 }
        ensures { (s : ThreadState) → Stands s self.old → OnOk result (Stands (after_reply reply.now s) self.new) }
    {
        Ok(self.take_reply(reply)?)
    }

    /// What comes next, by what it is about.
    fn next_here(&self) -> Next
        ensures { result ≡ next_shown self.now }
    {
        let front = self.ahead.front();
        match self.doing {
            Doing::Running => match &front {
                Some(Step::Ask(question)) => self.asked(question),
                Some(Step::Test(symbol, _)) => Next::Operation(Op::Boundp(*symbol)),
                Some(_) => Next::Local,
                None => Next::Nothing,
            },
            Doing::Leaving(ending) => {
                if self.frames.len() == 0 {
                    Next::Operation(Op::Finish(ending))
                } else {
                    Next::Local
                }
            }
            Doing::Over => Next::Nothing,
        }
    }

    /// What a question is: an operation, or for a variable that is bound here a local point.
    fn asked(&self, question: &Question) -> Next
        ensures { result ≡ asked_of question.now self.now }
    {
        match question {
            Question::Print => Next::Operation(Op::Out(Printed::Print(self.front_value()))),
            Question::Read(symbol) => match self.bindings.get(*symbol) {
                Some(_) => Next::Local,
                None => Next::Operation(Op::Get(*symbol)),
            },
            Question::Write(symbol) => match self.bindings.get(*symbol) {
                Some(_) => Next::Local,
                None => Next::Operation(Op::Set(*symbol, self.front_value())),
            },
            Question::Define(symbol) => Next::Operation(Op::Set(*symbol, self.front_value())),
            Question::EndThread => Next::Operation(Op::Finish(Ending::Returned(
                self.front_value(),
            ))),
        }
    }

    /// Counts a point.
    fn count(&mut self)
        requires { self.old.points + 1 < 2 ^ 64 }
        ensures { self.new ≡ counted self.old }
    {
        self.points += 1;
    }

    /// Takes a local point, by what it is about.
    fn take_local(&mut self, alloc: Global) -> Result<(), Memory>
        requires { self.old.points + 1 < 2 ^ 64 }
        ensures { OnOk result (self.new ≡ local_after self.old) }
    {
        self.count();
        let front = self.ahead.front();
        match self.doing {
            Doing::Running => match &front {
                Some(Step::Act(act)) => self.act(*act),
                Some(Step::Ask(question)) => self.ask(question),
                Some(Step::Enter(opening, place)) => self.enter(alloc, opening, *place),
                Some(Step::Leave) => self.leave_frame(),
                _ => Ok(()),
            },
            Doing::Leaving(_) => {
                self.pop_frame();
                Ok(())
            }
            Doing::Over => Ok(()),
        }
    }

    /// Goes on with a reply, by what it is about.
    fn take_reply(&mut self, reply: &Reply) -> Result<(), Memory>
        requires { self.old.points + 1 < 2 ^ 64 }
        ensures { OnOk result (self.new ≡ reply_after reply.now self.old) }
    {
        self.count();
        let front = self.ahead.front();
        match self.doing {
            Doing::Running => match &front {
                Some(Step::Ask(question)) => self.answer(question, reply),
                Some(Step::Test(symbol, skipped)) => self.test(reply, *symbol, *skipped),
                _ => Ok(()),
            },
            Doing::Leaving(_) => {
                self.end();
                Ok(())
            }
            Doing::Over => Ok(()),
        }
    }

    /// Goes on with the reply to a question.
    fn answer(&mut self, question: &Question, reply: &Reply) -> Result<(), Memory>
        ensures { OnOk result (self.new ≡ question_reply_after question.now reply.now self.old) }
    {
        match question {
            Question::Print | Question::Write(_) => {
                self.ahead.advance();
                Ok(())
            }
            Question::Read(_) => self.take_value(reply),
            Question::Define(symbol) => {
                self.values.pop();
                self.values.push(Value::symbol(*symbol))?;
                self.ahead.advance();
                Ok(())
            }
            Question::EndThread => {
                self.end();
                Ok(())
            }
        }
    }

    /// Takes the global value that was asked for, or signals that there is none.
    fn take_value(&mut self, reply: &Reply) -> Result<(), Memory>
        ensures { OnOk result (self.new ≡ read_reply_after reply.now self.old) }
    {
        match reply {
            Reply::Value(value) => {
                self.values.push(*value)?;
                self.ahead.advance();
                Ok(())
            }
            Reply::Unbound => {
                self.signal(Class::UnboundVariable);
                Ok(())
            }
            _ => Ok(()),
        }
    }

    /// Passes over the definition of a variable that has a global value, else goes on with its value.
    fn test(&mut self, reply: &Reply, symbol: SymbolId, skipped: usize) -> Result<(), Memory>
        ensures { OnOk result (self.new ≡ test_reply_after reply.now symbol skipped self.old) }
    {
        match reply {
            Reply::Truth(true) => {
                self.values.push(Value::symbol(symbol))?;
                self.ahead.advance();
                self.ahead.skip(skipped);
                Ok(())
            }
            Reply::Truth(false) => {
                self.ahead.advance();
                Ok(())
            }
            _ => Ok(()),
        }
    }
}
