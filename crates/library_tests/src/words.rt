use lisp_base::condition::{Class, Condition};
use lisp_base::id::{
    FunctionName, Micros, MutexId, Place, QueueId, StringId, SymbolId, ThreadId, TimerId,
};
use lisp_base::value::{Node, Value};
use lisp_base::word::Word;
use std::alloc::AllocError;
use std::process::Abort;

/// The least and the greatest of each kind of values.
fn nodes(rt: &impl Abort) -> [Node; 20] {
    let thread = ThreadId::new(31).expect(rt, "thread 31");
    [
        Node::Int(-(1 << 62)),
        Node::Int(-1),
        Node::Int(0),
        Node::Int((1 << 62) - 1),
        Node::Time(Micros(0)),
        Node::Time(Micros((1 << 62) + (1 << 52) - 1)),
        Node::Symbol(SymbolId(0)),
        Node::Symbol(SymbolId((1 << 31) - 1)),
        Node::Text(StringId(0)),
        Node::Text(StringId(u32::MAX)),
        Node::Thread(ThreadId::main()),
        Node::Thread(thread),
        Node::Mutex(MutexId::new(255).expect(rt, "mutex 255")),
        Node::Queue(QueueId::new(0).expect(rt, "queue 0")),
        Node::Timer(TimerId::new(0, thread).expect(rt, "timer 0")),
        Node::Timer(TimerId::new(4095, ThreadId::main()).expect(rt, "timer 4095")),
        condition(Class::Condition, None),
        condition(Class::Condition, Some(StringId(u32::MAX))),
        condition(Class::SeriousCondition, None),
        condition(Class::DeadlineTimeout, Some(StringId(u32::MAX))),
    ]
}

fn condition(class: Class, text: Option<StringId>) -> Node {
    Node::Cond(Condition { class, text })
}

/// The least and the greatest of each kind of functions.
const NAMES: [FunctionName; 5] = [
    FunctionName::Named(SymbolId(0)),
    FunctionName::Named(SymbolId((1 << 31) - 1)),
    FunctionName::At(Place(0)),
    FunctionName::At(Place(u32::MAX)),
    FunctionName::AbortThread,
];

#[test]
fn a_word_gives_its_value(rt: HostRuntime) {
    let nodes = nodes(&rt);
    for node in nodes {
        let value = Value::of(node).expect(&rt, "in range");
        let word = Word::of_value(value);
        assert_eq!(rt; word.value(), Some(value));
        assert_eq!(rt; word.function(), None);
    }
}

#[test]
fn a_word_gives_its_function(rt: HostRuntime) {
    for name in NAMES.iter() {
        let word = Word::of_function(*name);
        assert_eq!(rt; word.function(), Some(*name));
        assert_eq!(rt; word.value(), None);
    }
}

#[test]
fn words_are_the_same_where_they_hold_the_same(rt: HostRuntime) -> Result<(), AllocError> {
    let mut words = Vec::new(rt.alloc());
    let nodes = nodes(&rt);
    for node in nodes {
        words.push(Word::of_value(Value::of(node).expect(&rt, "in range")))?;
    }
    for name in NAMES {
        words.push(Word::of_function(name))?;
    }
    for (i, a) in words.iter().enumerate() {
        for (j, b) in words.iter().enumerate() {
            assert_eq!(rt; a.is(*b), i == j, "{i} {j}");
            assert_eq!(rt; *a == *b, i == j, "{i} {j}");
        }
    }
    Ok(())
}
