//! Code that is valid, and code that is not.
use form_points::act::{Act, Question};
use lisp_base::id::{FunctionName, Place, SymbolId};
use lisp_code::code::{Code, CodeParts, FunctionCode};
use lisp_code::instr::Instr;
use std::alloc::{AllocError, Global};

/// Code of these instructions with these heights, and with a function that begins at the entry. There is one
/// special variable, the symbol 5.
fn code(
    alloc: Global,
    instrs: &[Instr],
    heights: &[u32],
    entry: u32,
) -> Result<Option<Code>, AllocError> {
    let mut places = Vec::new(alloc);
    for _ in 0..instrs.len() {
        places.push(Place(0))?;
    }
    let mut functions = Vec::new(alloc);
    functions.push(FunctionCode {
        name: FunctionName::AbortThread,
        place: Place(0),
        entry,
        params: 0,
        height: 1,
    })?;
    let mut specials = Vec::new(alloc);
    specials.push(SymbolId(5))?;
    Ok(Code::new(CodeParts {
        instrs: Vec::from_slice(alloc, instrs)?,
        places,
        heights: Vec::from_slice(alloc, heights)?,
        functions,
        specials,
        handlers: Vec::new(alloc),
    }))
}

#[test]
fn a_jump_is_followed(rt: HostRuntime) -> Result<(), AllocError> {
    let instrs = [Instr::Do(Act::PushThread), Instr::Jump(2), Instr::Leave];
    let code = code(rt.alloc(), &instrs, &[0, 1, 1], 0)?.expect(&rt, "this code is valid");
    assert_eq!(rt; code.instrs(), instrs.as_slice());
    assert_eq!(rt; code.places().len(), 3);
    assert_eq!(rt; code.heights(), [0, 1, 1].as_slice());
    assert_eq!(rt; code.functions().len(), 1);
    assert_eq!(rt; code.specials().len(), 1);
    assert_eq!(rt; code.handlers().len(), 0);
    assert_eq!(rt; code.clauses(0).len(), 0);
    assert_eq!(rt; code.instr(1), Instr::Jump(2));
    assert_eq!(rt; code.resting(1), 2);
    Ok(())
}

#[test]
fn what_is_not_valid_is_refused(rt: HostRuntime) -> Result<(), AllocError> {
    let refused = [
        [Instr::Do(Act::PushThread), Instr::Jump(1)],
        [Instr::Do(Act::PushThread), Instr::Jump(2)],
        [Instr::Do(Act::PushThread), Instr::Do(Act::PushThread)],
        [Instr::Leave, Instr::Leave],
        [Instr::Ask(Question::Read(SymbolId(6))), Instr::Leave],
    ];
    for instrs in &refused {
        let found = code(rt.alloc(), instrs, &[0, 1], 0)?;
        assert_eq!(rt; found.is_some(), false);
    }
    Ok(())
}

#[test]
fn heights_and_entries_are_compared(rt: HostRuntime) -> Result<(), AllocError> {
    let instrs = [Instr::Ask(Question::Read(SymbolId(5))), Instr::Leave];
    for (height, entry, is_valid) in [(1, 0, true), (0, 0, false), (1, 1, false), (1, 2, false)] {
        let found = code(rt.alloc(), &instrs, &[0, height], entry)?;
        assert_eq!(rt; found.is_some(), is_valid);
    }
    Ok(())
}
