//! How values are printed, escaped and plain.
use lisp_base::condition::{Class, Condition};
use lisp_base::id::{Micros, MutexId, QueueId, StringId, SymbolId, ThreadId, TimerId};
use lisp_base::value::{Node, Value};
use lisp_reader::print::{print_string, print_value};
use std::alloc::Global;
use std::process::Abort;
use symbol_table::error::InternError;
use symbol_table::symbols::Symbols;
use symbol_table::texts::Texts;

/// Prints a value one way.
fn check_way(
    rt: &impl Abort,
    alloc: Global,
    (value, escape): (&Value, bool),
    wanted: &str,
    (symbols, texts): (&Symbols, &Texts),
) -> Result<(), InternError> {
    let printed = print_value(alloc, value, escape, symbols, texts)?;
    assert!(rt; printed.as_str() == wanted);
    Ok(())
}

/// Prints a node that is in range both ways.
fn check_both(
    rt: &impl Abort,
    alloc: Global,
    node: Node,
    (escaped, plain): (&str, &str),
    tables: (&Symbols, &Texts),
) -> Result<(), InternError> {
    let value = Value::of(node).expect(rt, "the node is in range");
    check_way(rt, alloc, (&value, true), escaped, tables)?;
    check_way(rt, alloc, (&value, false), plain, tables)
}

/// Prints a node over the first five symbols and one string.
fn check(
    rt: &impl Abort,
    alloc: Global,
    node: Node,
    escaped: &str,
    plain: &str,
) -> Result<(), InternError> {
    let symbols = Symbols::new(alloc)?;
    let mut texts = Texts::new(alloc)?;
    texts.intern("the only one")?;
    check_both(rt, alloc, node, (escaped, plain), (&symbols, &texts))
}

/// Prints a symbol, which prints as its name both ways.
fn check_symbol(rt: &impl Abort, alloc: Global, name: &str) -> Result<(), InternError> {
    let mut symbols = Symbols::new(alloc)?;
    let texts = Texts::new(alloc)?;
    let node = Node::Symbol(symbols.intern(name)?);
    check_both(rt, alloc, node, (name, name), (&symbols, &texts))
}

/// Prints a string, or a condition with this text.
fn check_text(
    rt: &impl Abort,
    alloc: Global,
    class: Option<Class>,
    characters: &str,
    escaped: &str,
) -> Result<(), InternError> {
    let symbols = Symbols::new(alloc)?;
    let mut texts = Texts::new(alloc)?;
    let node = node_of(class, texts.intern(characters)?);
    check_both(rt, alloc, node, (escaped, characters), (&symbols, &texts))
}

/// A string, or a condition with this text.
fn node_of(class: Option<Class>, string: StringId) -> Node {
    match class {
        Some(class) => Node::Cond(Condition {
            class,
            text: Some(string),
        }),
        None => Node::Text(string),
    }
}

/// Prints a string as a value and by itself.
fn check_string(
    rt: &impl Abort,
    alloc: Global,
    characters: &str,
    escaped: &str,
) -> Result<(), InternError> {
    let string = print_string(alloc, characters)?;
    assert!(rt; string.as_str() == escaped);
    check_text(rt, alloc, None, characters, escaped)
}

/// Prints a condition with a text.
fn check_condition(
    rt: &impl Abort,
    alloc: Global,
    class: Class,
    text: &str,
    escaped: &str,
) -> Result<(), InternError> {
    check_text(rt, alloc, Some(class), text, escaped)
}

#[test]
fn integers_and_times(rt: HostRuntime) -> Result<(), InternError> {
    let integers = "0 7 -1 -1000000 4611686018427387903 -4611686018427387904";
    for text in integers.split(' ') {
        check(
            &rt,
            rt.alloc(),
            Node::Int(text.parse().expect(&rt, "an integer")),
            text,
            text,
        )?;
    }
    let times = "0 0.000000
1 0.000001
70 0.000070
999 0.000999
1000 0.001000
25000 0.025000
999999 0.999999
1000000 1.000000
90100000 90.100000
4616189618054758399 4616189618054.758399";
    for line in times.lines() {
        let (micros, text) = line.split_once(' ').unwrap_or(("", ""));
        check(
            &rt,
            rt.alloc(),
            Node::Time(Micros(micros.parse().expect(&rt, "a time"))),
            text,
            text,
        )?;
    }
    Ok(())
}

#[test]
fn symbols_and_keywords(rt: HostRuntime) -> Result<(), InternError> {
    for name in "NIL T :WARN :FORCE CAR *X* 1+ λ".split(' ') {
        check_symbol(&rt, rt.alloc(), name)?;
    }
    Ok(())
}

#[test]
fn strings(rt: HostRuntime) -> Result<(), InternError> {
    let alloc = rt.alloc();
    check_string(&rt, alloc, "", r#""""#)?;
    check_string(&rt, alloc, " a  b ", r#"" a  b ""#)?;
    check_string(&rt, alloc, "?", r#""?""#)?;
    check_string(&rt, alloc, "two\nlines\n", "\"two\nlines\n\"")?;
    check_string(&rt, alloc, "\t\r", "\"\t\r\"")?;
    check_string(&rt, alloc, "a\"b", r#""a\"b""#)?;
    check_string(&rt, alloc, "\\\"\\", r#""\\\"\\""#)?;
    check_string(&rt, alloc, "\\n", r#""\\n""#)?;
    check_string(&rt, alloc, "λ\"𝄞\\é", r#""λ\"𝄞\\é""#)
}

#[test]
fn objects(rt: HostRuntime) -> Result<(), InternError> {
    let (main, timer) = (ThreadId::main(), TimerId::new(4095, ThreadId::main()));
    check_object(&rt, rt.alloc(), Some(Node::Thread(main)), "#<THREAD 0>")?;
    check_object(
        &rt,
        rt.alloc(),
        ThreadId::new(31).map(Node::Thread),
        "#<THREAD 31>",
    )?;
    check_object(
        &rt,
        rt.alloc(),
        MutexId::new(0).map(Node::Mutex),
        "#<MUTEX 0>",
    )?;
    check_object(
        &rt,
        rt.alloc(),
        MutexId::new(255).map(Node::Mutex),
        "#<MUTEX 255>",
    )?;
    check_object(
        &rt,
        rt.alloc(),
        QueueId::new(10).map(Node::Queue),
        "#<WAITQUEUE 10>",
    )?;
    check_object(&rt, rt.alloc(), timer.map(Node::Timer), "#<TIMER 4095>")
}

/// Prints an object whose number is in range, which prints the same both ways.
fn check_object(
    rt: &impl Abort,
    alloc: Global,
    node: Option<Node>,
    text: &str,
) -> Result<(), InternError> {
    let node = node.expect(rt, "an object has the number");
    check(rt, alloc, node, text, text)
}

#[test]
fn conditions_without_a_text(rt: HostRuntime) -> Result<(), InternError> {
    let classes = [
        Class::Condition,
        Class::SeriousCondition,
        Class::SimpleError,
        Class::UnboundVariable,
        Class::IntegerRange,
        Class::JoinThreadError,
        Class::NotOwner,
        Class::DeadlineTimeout,
    ];
    let texts =
        "#<CONDITION> #<SERIOUS-CONDITION> #<SIMPLE-ERROR> #<UNBOUND-VARIABLE> #<INTEGER-RANGE> #<JOIN-THREAD-ERROR> #<NOT-OWNER> #<DEADLINE-TIMEOUT>";
    for (class, text) in classes.into_iter().zip(texts.split(' ')) {
        let node = Node::Cond(Condition { class, text: None });
        check(&rt, rt.alloc(), node, text, text)?;
    }
    Ok(())
}

#[test]
fn conditions_with_a_text(rt: HostRuntime) -> Result<(), InternError> {
    let alloc = rt.alloc();
    check_condition(
        &rt,
        alloc,
        Class::SimpleError,
        "no",
        r#"#<SIMPLE-ERROR "no">"#,
    )?;
    check_condition(&rt, alloc, Class::Error, "", r#"#<ERROR "">"#)?;
    check_condition(
        &rt,
        alloc,
        Class::TypeError,
        r#""a" \"#,
        r#"#<TYPE-ERROR "\"a\" \\">"#,
    )?;
    check_condition(&rt, alloc, Class::Timeout, "λ\n", "#<TIMEOUT \"λ\n\">")
}

#[test]
fn what_is_not_in_the_tables(rt: HostRuntime) -> Result<(), InternError> {
    let condition = Condition {
        class: Class::NotOwner,
        text: Some(StringId(1)),
    };
    check(&rt, rt.alloc(), Node::Symbol(SymbolId(5)), "?", "?")?;
    check(
        &rt,
        rt.alloc(),
        Node::Symbol(SymbolId(2_147_483_647)),
        "?",
        "?",
    )?;
    check(&rt, rt.alloc(), Node::Text(StringId(1)), "?", "?")?;
    check(
        &rt,
        rt.alloc(),
        Node::Text(StringId(4_294_967_295)),
        "?",
        "?",
    )?;
    check(
        &rt,
        rt.alloc(),
        Node::Cond(condition),
        "#<NOT-OWNER ?>",
        "?",
    )
}
