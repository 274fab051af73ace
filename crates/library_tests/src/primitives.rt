//! What each function with a local point gives, beside what SBCL gives.
use lisp_base::condition::{Class, Condition};
use lisp_base::id::{
    FunctionName, Micros, MutexId, QueueId, StringId, SymbolId, ThreadId, TimerId,
};
use lisp_base::value::{Node, Value};
use lisp_base::word::Word;
use lisp_prims::apply::apply_prim;
use lisp_program::function::Primitive;
use std::alloc::Global;
use std::test::Fail;

/// Each line is a function, its arguments, and the value or the class of the condition. An integer is written in decimal
/// digits, and `word_named` says what the other words are.
const CASES: &str = "\
+ 1 2 => 3
+ -5 3 => -2
+ 4611686018427387903 0 => 4611686018427387903
+ 4611686018427387903 1 => integer-range
+ -4611686018427387904 -1 => integer-range
+ -4611686018427387904 -4611686018427387904 => integer-range
+ 4611686018427387903 -4611686018427387904 => -1
+ nil 1 => type-error
+ 1 t => type-error
+ a a => type-error
- 1 2 => -1
- 0 -4611686018427387904 => integer-range
- -1 -4611686018427387904 => 4611686018427387903
- -4611686018427387904 1 => integer-range
- 4611686018427387903 -1 => integer-range
- time 1 => type-error
- 1 c => type-error
* 6 -7 => -42
* -6 -7 => 42
* 0 -4611686018427387904 => 0
* 2147483648 2147483648 => integer-range
* 2147483648 -2147483648 => -4611686018427387904
* 3037000499 3037000500 => integer-range
* 2147483647 2147483649 => 4611686018427387903
* -4611686018427387904 -1 => integer-range
* -4611686018427387904 4611686018427387903 => integer-range
* a 2 => type-error
* 2 thread => type-error
max 3 -4 => 3
max -4 3 => 3
max 5 5 => 5
max 4611686018427387903 -4611686018427387904 => 4611686018427387903
max 1 nil => type-error
max mutex 1 => type-error
min 3 -4 => -4
min -4 3 => -4
min -4611686018427387904 4611686018427387903 => -4611686018427387904
min 1 nil => type-error
min queue 1 => type-error
1+ 41 => 42
1+ -1 => 0
1+ 4611686018427387903 => integer-range
1+ timer => type-error
1- 0 => -1
1- -4611686018427387904 => integer-range
1- t => type-error
abs 5 => 5
abs -5 => 5
abs 0 => 0
abs -4611686018427387903 => 4611686018427387903
abs -4611686018427387904 => integer-range
abs a => type-error
floor 7 2 => 3
floor -7 2 => -4
floor 7 -2 => -4
floor -7 -2 => 3
floor 6 2 => 3
floor -6 2 => -3
floor 6 -2 => -3
floor 0 -5 => 0
floor 1 4611686018427387903 => 0
floor -1 4611686018427387903 => -1
floor -4611686018427387904 -1 => integer-range
floor -4611686018427387904 1 => -4611686018427387904
floor 4611686018427387903 -4611686018427387904 => -1
floor 1 0 => division-by-zero
floor 0 0 => division-by-zero
floor nil 0 => type-error
floor 0 nil => type-error
truncate 7 2 => 3
truncate -7 2 => -3
truncate 7 -2 => -3
truncate -7 -2 => 3
truncate -6 2 => -3
truncate -1 4611686018427387903 => 0
truncate -4611686018427387904 -1 => integer-range
truncate 4611686018427387903 -1 => -4611686018427387903
truncate -1 0 => division-by-zero
truncate a 0 => type-error
truncate 1 t => type-error
mod 7 2 => 1
mod -7 2 => 1
mod 7 -2 => -1
mod -7 -2 => -1
mod 6 -2 => 0
mod 0 -5 => 0
mod 1 -4611686018427387904 => -4611686018427387903
mod -1 4611686018427387903 => 4611686018427387902
mod -4611686018427387904 -1 => 0
mod 5 0 => division-by-zero
mod thread 5 => type-error
mod 5 thread => type-error
rem 7 2 => 1
rem -7 2 => -1
rem 7 -2 => 1
rem -7 -2 => -1
rem -6 2 => 0
rem 1 -4611686018427387904 => 1
rem -4611686018427387904 -1 => 0
rem -4611686018427387904 4611686018427387903 => -1
rem 5 0 => division-by-zero
rem c 5 => type-error
rem 5 d => type-error
= 2 2 => t
= 2 -2 => nil
= -4611686018427387904 -4611686018427387904 => t
= nil nil => type-error
= 1 time => type-error
/= 2 2 => nil
/= 2 -2 => t
/= a 1 => type-error
/= 1 a => type-error
< 1 2 => t
< 2 2 => nil
< -1 0 => t
< 4611686018427387903 -4611686018427387904 => nil
< time time => type-error
> 2 1 => t
> 2 2 => nil
> -2 -1 => nil
> 1 nil => type-error
<= 2 2 => t
<= 3 2 => nil
<= -4611686018427387904 4611686018427387903 => t
<= nil 1 => type-error
>= 2 2 => t
>= -3 -2 => nil
>= 1 b => type-error
zerop 0 => t
zerop -1 => nil
zerop nil => type-error
eq 5 5 => t
eq 5 -5 => nil
eq nil nil => t
eq t nil => nil
eq a a => type-error
eq a b => type-error
eq c c => type-error
eq c d => type-error
eq a c => nil
eq c 1 => nil
eq nil a => nil
eq time time => t
eq time 7 => nil
eq thread thread => t
eq thread main => nil
eq mutex mutex => t
eq mutex queue => nil
eq queue queue => t
eq timer timer => t
eq timer thread => nil
eql 4611686018427387903 4611686018427387903 => t
eql 0 nil => nil
eql a b => type-error
eql d c => type-error
eql d nil => nil
eql mutex 3 => nil
equal a a => t
equal a b => nil
equal c c => t
equal c d => nil
equal c e => nil
equal e e => t
equal a c => nil
equal 1 1 => t
equal 1 2 => nil
equal nil nil => t
equal time time => t
equal timer timer => t
equal thread mutex => nil
equal main thread => nil
not nil => t
not t => nil
not 0 => nil
not a => nil
null nil => t
null thread => nil
symbolp nil => t
symbolp t => t
symbolp 1 => nil
symbolp a => nil
integerp -1 => t
integerp time => nil
integerp nil => nil
stringp a => t
stringp nil => nil
stringp c => nil
main-thread => main
thread-yield => nil
not function => t
symbolp function => t
eq function nil => t
+ function 1 => type-error
not => t
eq 5 => nil
eq nil => t
eq => t
+ 1 => type-error
1+ 1 2 3 => 2
main-thread 1 => main
+ 1 2 3 => 3
eq 1 1 2 => t";

#[test]
fn functions_have_their_values(rt: HostRuntime) -> Result<(), Fail> {
    assert_eq!(rt; CASES.lines().count(), 202);
    for line in CASES.lines() {
        let (call, outcome) = line.split_once(" => ").unwrap_or((line, ""));
        let came = applied(rt.alloc(), call)?;
        let wanted = outcome_of(outcome)?;
        assert!(rt; came == wanted, "{line}");
    }
    Ok(())
}

/// What a call gives.
fn applied(alloc: Global, call: &str) -> Result<Result<Word, Class>, Fail> {
    let (name, written) = call.split_once(' ').unwrap_or((call, ""));
    let mut words = Vec::new(alloc);
    for word in written.split_whitespace() {
        words.push(word_of(word)?)?;
    }
    Ok(apply_prim(function_named(name)?, words.as_slice()))
}

/// The outcome that is written.
fn outcome_of(written: &str) -> Result<Result<Word, Class>, Fail> {
    match written {
        "type-error" => Ok(Err(Class::TypeError)),
        "integer-range" => Ok(Err(Class::IntegerRange)),
        "division-by-zero" => Ok(Err(Class::DivisionByZero)),
        _ => Ok(Ok(word_of(written)?)),
    }
}

/// The word that is written.
fn word_of(written: &str) -> Result<Word, Fail> {
    if written == "function" {
        return Ok(Word::of_function(FunctionName::AbortThread));
    }
    let node = match node_named(written) {
        Some(node) => node,
        None => Node::Int(written.parse()?),
    };
    match Value::of(node) {
        Some(value) => Ok(Word::of_value(value)),
        None => Err(Fail::new(format_args!("out of range: {written}"))),
    }
}

/// The value of a word that is no integer: `a` and `b` are strings, `c`, `d` and `e` conditions.
fn node_named(name: &str) -> Option<Node> {
    let thread = ThreadId::new(3)?;
    match name {
        "nil" => Some(Node::Symbol(SymbolId(0))),
        "t" => Some(Node::Symbol(SymbolId(1))),
        "a" => Some(Node::Text(StringId(0))),
        "b" => Some(Node::Text(StringId(1))),
        "c" => Some(condition(Class::SimpleError, Some(StringId(0)))),
        "d" => Some(condition(Class::SimpleError, None)),
        "e" => Some(condition(Class::TypeError, Some(StringId(0)))),
        "time" => Some(Node::Time(Micros(7))),
        "main" => Some(Node::Thread(ThreadId::main())),
        "thread" => Some(Node::Thread(thread)),
        "mutex" => Some(Node::Mutex(MutexId::new(3)?)),
        "queue" => Some(Node::Queue(QueueId::new(3)?)),
        "timer" => Some(Node::Timer(TimerId::new(3, thread)?)),
        _ => None,
    }
}

fn condition(class: Class, text: Option<StringId>) -> Node {
    Node::Cond(Condition { class, text })
}

/// The function with a name.
fn function_named(name: &str) -> Result<Primitive, Fail> {
    match name {
        "+" => Ok(Primitive::Add),
        "-" => Ok(Primitive::Subtract),
        "*" => Ok(Primitive::Multiply),
        "max" => Ok(Primitive::Max),
        "min" => Ok(Primitive::Min),
        "1+" => Ok(Primitive::Increment),
        "1-" => Ok(Primitive::Decrement),
        "abs" => Ok(Primitive::Abs),
        "floor" => Ok(Primitive::Floor),
        "truncate" => Ok(Primitive::Truncate),
        "mod" => Ok(Primitive::Mod),
        "rem" => Ok(Primitive::Rem),
        "=" => Ok(Primitive::Equals),
        "/=" => Ok(Primitive::Differs),
        "<" => Ok(Primitive::Less),
        ">" => Ok(Primitive::Greater),
        "<=" => Ok(Primitive::AtMost),
        ">=" => Ok(Primitive::AtLeast),
        "zerop" => Ok(Primitive::Zerop),
        "eq" => Ok(Primitive::Eq),
        "eql" => Ok(Primitive::Eql),
        "equal" => Ok(Primitive::Equal),
        "not" => Ok(Primitive::Not),
        "null" => Ok(Primitive::Null),
        "symbolp" => Ok(Primitive::Symbolp),
        "integerp" => Ok(Primitive::Integerp),
        "stringp" => Ok(Primitive::Stringp),
        "main-thread" => Ok(Primitive::MainThread),
        "thread-yield" => Ok(Primitive::ThreadYield),
        _ => Err(Fail::new(format_args!("no function: {name}"))),
    }
}
