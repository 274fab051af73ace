use crate::calls::{made, run};
use crate::examples::EXAMPLES;
use crate::runs::{REFUSED, RUNS};
use lisp_base::memory::Memory;
use std::process::Abort;
use std::test::Fail;

/// Runs the programs of a table, which are parted by lines of five dashes. After each comes a line with `=> ` and the status of
/// its run, and then all that is written. It returns how many there are.
fn try_all<R: Abort + AllocGlobal>(rt: &R, table: &str) -> Result<usize, Memory> {
    let mut tried = 0usize;
    for case in table.split("-----\n") {
        let (program, rest) = case.split_once("=> ").unwrap_or((case, ""));
        let (wanted, written) = rest.split_once('\n').unwrap_or((rest, ""));
        let (status, held) = run(rt.alloc(), program.as_bytes())?;
        assert!(rt;
            [b'0' + status % 10].as_slice() == wanted.as_bytes(),
            "{program}"
        );
        assert!(rt; held.as_slice() == written.as_bytes(), "{program}");
        tried = tried.saturating_add(1);
    }
    Ok(tried)
}

#[test]
fn programs_run(rt: HostRuntime) -> Result<(), Fail> {
    assert_eq!(rt; made(try_all(&rt, RUNS))?, 11);
    Ok(())
}

#[test]
fn examples_run(rt: HostRuntime) -> Result<(), Fail> {
    assert_eq!(rt; made(try_all(&rt, EXAMPLES))?, 14);
    Ok(())
}

#[test]
fn programs_are_refused(rt: HostRuntime) -> Result<(), Fail> {
    let alloc = rt.alloc();
    assert_eq!(rt; REFUSED.lines().count(), 13);
    for case in REFUSED.lines() {
        let (text, wanted) = case.split_once(" => ").unwrap_or((case, ""));
        let (status, held) = made(run(alloc, text.as_bytes()))?;
        assert_eq!(rt; status, 4);
        assert!(rt;
            held.as_slice().strip_suffix(b"\n") == Some(wanted.as_bytes()),
            "{text}"
        );
    }
    Ok(())
}
