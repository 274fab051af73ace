use crate::calls::made;
use crate::sure::run_surely;
use lisp_base::memory::Memory;
use lisp_edge::clock::VirtualClock;
use lisp_edge::gate::OpenGate;
use lisp_edge::memory::{MemorySink, MemorySource};
use lisp_edge::sure::{SureSink, SureSource};
use lisp_session::top::{run_one, run_top};
use std::alloc::Global;
use std::test::Fail;

const PRINTED_SUM: &[u8] = b"sbcl-journal 1
1 t0 4 out \"\\n3 \" -> ok
2 t0 5 finish returned 3 -> ok
report 1
thread 0 \"main thread\" returned 3 points 5
status 0
end
";

/// A call of `run_top` over a text that comes in pieces, to a sink that takes pieces: how large they are, and which calls fail.
#[derive(Clone, Copy)]
struct Case {
    read: usize,
    reads: &'static [u32],
    write: usize,
    writes: &'static [u32],
}

/// Runs `(print (+ 1 2))` so: the status, and what the sink holds then; or nothing where the pieces have no bytes.
fn run(alloc: Global, case: &Case) -> Result<Option<(u8, Vec<u8>)>, Memory> {
    let text = Vec::from_slice(alloc, b"(print (+ 1 2))")?;
    let reads = Vec::from_slice(alloc, case.reads)?;
    let Some(mut source) = MemorySource::in_pieces(text, case.read, reads) else {
        return Ok(None);
    };
    let writes = Vec::from_slice(alloc, case.writes)?;
    let Some(mut sink) = MemorySink::in_pieces(alloc, case.write, writes) else {
        return Ok(None);
    };
    let status = run_top(
        alloc,
        &[],
        &mut source,
        &mut sink,
        &VirtualClock::new(),
        &OpenGate,
    );
    Ok(Some((status, Vec::from_slice(alloc, sink.held())?)))
}

#[test]
fn ends_take_pieces_and_fail(rt: HostRuntime) -> Result<(), Fail> {
    for (case, wanted, count) in [
        (
            Case {
                read: 100,
                reads: &[],
                write: 1000,
                writes: &[],
            },
            0,
            PRINTED_SUM.len(),
        ),
        (
            Case {
                read: 1,
                reads: &[],
                write: 1,
                writes: &[],
            },
            0,
            PRINTED_SUM.len(),
        ),
        (
            Case {
                read: 4,
                reads: &[],
                write: 7,
                writes: &[40],
            },
            0,
            PRINTED_SUM.len(),
        ),
        (
            Case {
                read: 100,
                reads: &[0],
                write: 1000,
                writes: &[],
            },
            5,
            0,
        ),
        (
            Case {
                read: 4,
                reads: &[4],
                write: 7,
                writes: &[0],
            },
            5,
            0,
        ),
        (
            Case {
                read: 100,
                reads: &[],
                write: 1000,
                writes: &[0],
            },
            6,
            0,
        ),
        (
            Case {
                read: 100,
                reads: &[],
                write: 7,
                writes: &[3],
            },
            6,
            21,
        ),
    ] {
        let (status, held) = made(run(rt.alloc(), &case))?.ok_or("no bytes in a piece")?;
        assert_eq!(rt; status, wanted);
        assert!(rt; held.as_slice() == &PRINTED_SUM[..count]);
    }
    Ok(())
}

#[test]
fn words_are_refused(rt: HostRuntime) -> Result<(), Fail> {
    let alloc = rt.alloc();
    let words = vec![in alloc; String::from_str(alloc, "--look")?]?;
    let mut source = MemorySource::new(
        Vec::from_slice(alloc, b"1")?,
        Vec::from_slice(alloc, &[0])?,
    );
    let mut sink = MemorySink::new(alloc, Vec::new(alloc));
    let status = run_one(
        alloc,
        words.as_slice(),
        &mut source,
        &mut sink,
        &VirtualClock::new(),
    );
    assert_eq!(rt; status, 2);
    assert_eq!(rt; sink.held(), b"refused words\n".as_slice());
    Ok(())
}

#[test]
fn sure_ends_have_five_statuses(rt: HostRuntime) -> Result<(), Fail> {
    let alloc = rt.alloc();
    for (text, wanted) in [(b"(print 1)".as_slice(), 0), (b"(print", 4)] {
        let mut source = SureSource::new(Vec::from_slice(alloc, text)?);
        let status = run_surely(alloc, &[], &mut source, &mut SureSink);
        assert_eq!(rt; status, wanted);
    }
    Ok(())
}
