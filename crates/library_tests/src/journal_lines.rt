//! How values are written on the lines of a journal.
use lisp_base::id::{Actor, ThreadId};
use lisp_base::value::{Node, Value};
use lisp_journal::journal::write_journal;
use lisp_journal::names::Names;
use symbol_table::error::InternError;
use symbol_table::symbols::Symbols;
use symbol_table::texts::Texts;
use world_semantics::entry::Entry;
use world_semantics::op::{Op, Reply};
use world_semantics::phase::Ending;

#[test]
fn strings_stand_on_one_line(rt: HostRuntime) -> Result<(), InternError> {
    let symbols = Symbols::new(rt.alloc())?;
    let mut texts = Texts::new(rt.alloc())?;
    let string = Value::of(Node::Text(texts.intern("two\nlines \"ä\\n\"")?));
    let entry = Entry {
        ticket: 1,
        actor: Actor::Thread(ThreadId::main()),
        point: 1,
        op: Op::Finish(Ending::Returned(string.unwrap_or(Value::nil()))),
        reply: Reply::Okay,
    };
    let names = Names {
        symbols: &symbols,
        texts: &texts,
    };
    let journal = write_journal(rt.alloc(), &names, &[entry])?;
    let lines = r#"sbcl-journal 1
1 t0 1 finish returned "two\nlines \"ä\\n\"" -> ok
"#;
    assert!(rt; journal.as_str() == lines);
    Ok(())
}
