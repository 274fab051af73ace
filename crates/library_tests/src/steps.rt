use lisp_base::id::{Place, SymbolId};
use lisp_base::value::{Node, Value};
use plain_program::act::{Act, Opening, Question};
use plain_program::flatten::main_steps;
use plain_program::form::{PlainKind, PlainNode};
use plain_program::steps::Step;
use std::test::Fail;

fn int(number: i64) -> Result<Value, &'static str> {
    Value::of(Node::Int(number)).ok_or("the number is out of range")
}

fn node(kind: PlainKind, place: u32, parts: u32) -> PlainNode {
    PlainNode {
        kind,
        place: Place(place),
        parts,
    }
}

// (defvar *x* 1) (let ((*x* 2)) (setq *x* 3))
#[test]
fn a_special_variable_is_defined_and_bound(rt: HostRuntime) -> Result<(), Fail> {
    let x = SymbolId(40);
    let nodes = [
        node(PlainKind::Defvar(x), 0, 1),
        node(PlainKind::Constant(int(1)?), 12, 0),
        node(PlainKind::Let, 15, 2),
        node(PlainKind::Constant(int(2)?), 25, 0),
        node(PlainKind::Bind(x, 0), 15, 1),
        node(PlainKind::Setq(x), 29, 1),
        node(PlainKind::Constant(int(3)?), 39, 0),
    ];
    let steps = [
        Step::Test(x, 2),
        Step::Act(Act::Push(int(1)?)),
        Step::Ask(Question::Define(x)),
        Step::Act(Act::Discard),
        Step::Act(Act::Push(int(2)?)),
        Step::Enter(Opening::Bind(x, 0), Place(15)),
        Step::Act(Act::Push(int(3)?)),
        Step::Ask(Question::Write(x)),
        Step::Leave,
        Step::Ask(Question::EndThread),
    ];
    assert!(rt; main_steps(rt.alloc(), &nodes)?.as_slice() == steps.as_slice());
    Ok(())
}

// (print (+ *x* 1)) (progn *x* (progn))
#[test]
fn a_variable_in_a_sum_and_in_a_body(rt: HostRuntime) -> Result<(), Fail> {
    let x = SymbolId(40);
    let nodes = [
        node(PlainKind::Print, 0, 1),
        node(PlainKind::Plus, 7, 2),
        node(PlainKind::Special(x), 10, 0),
        node(PlainKind::Constant(int(1)?), 14, 0),
        node(PlainKind::Progn, 18, 2),
        node(PlainKind::Special(x), 25, 0),
        node(PlainKind::Progn, 29, 0),
    ];
    let steps = [
        Step::Ask(Question::Read(x)),
        Step::Act(Act::Push(int(1)?)),
        Step::Act(Act::Add),
        Step::Ask(Question::Print),
        Step::Act(Act::Discard),
        Step::Ask(Question::Read(x)),
        Step::Act(Act::Discard),
        Step::Act(Act::Push(Value::nil())),
        Step::Ask(Question::EndThread),
    ];
    assert!(rt; main_steps(rt.alloc(), &nodes)?.as_slice() == steps.as_slice());
    Ok(())
}
