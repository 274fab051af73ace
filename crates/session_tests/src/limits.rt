use crate::calls::{made, run};
use lisp_base::memory::Memory;
use std::alloc::Global;
use std::test::Fail;

const EMPTY_PROGRAM: &[u8] = b"sbcl-journal 1
1 t0 2 finish returned NIL -> ok
report 1
thread 0 \"main thread\" returned NIL points 2
status 0
end
";

const OUT_OF_POINTS: &[u8] = b"sbcl-journal 1
1 t0 2 out \"\\n1 \" -> ok
report 1
thread 0 \"main thread\" out-of-points points 100000
status 3
end
";

/// The points end in a body, with the `let` open.
const OUT_OF_POINTS_IN_A_LET: &[u8] = b"sbcl-journal 1
1 t0 1 boundp *X* -> NIL
2 t0 3 set *X* 0 -> ok
report 1
thread 0 \"main thread\" out-of-points points 100000
  open bind 15
global *X* 0
status 3
end
";

/// The points end between the two frames that an exit leaves, with the outer `let` open.
const OUT_OF_POINTS_IN_AN_EXIT: &[u8] = b"sbcl-journal 1
1 t0 1 boundp *X* -> NIL
2 t0 3 set *X* 999999999999999999 -> ok
3 t0 99989 get *X* -> 999999999999999999
4 t0 99990 get *X* -> 999999999999999999
report 1
thread 0 \"main thread\" out-of-points points 100000
  open bind 100016
global *X* 999999999999999999
status 3
end
";

/// The exit with two points more: it ends the thread.
const ENDS_AT_THE_LAST_POINT: &[u8] = b"sbcl-journal 1
1 t0 1 boundp *X* -> NIL
2 t0 3 set *X* 999999999999999999 -> ok
3 t0 99987 get *X* -> 999999999999999999
4 t0 99988 get *X* -> 999999999999999999
5 t0 100000 finish aborted #<INTEGER-RANGE> -> ok
report 1
thread 0 \"main thread\" aborted #<INTEGER-RANGE> points 100000
global *X* 999999999999999999
status 0
end
";

/// So many `(print `, a 1, and as many `)`.
fn nested(alloc: Global, depth: usize) -> Result<Vec<u8>, Memory> {
    let mut text = Vec::new(alloc);
    push_repeated(b"(print ", depth, &mut text)?;
    push_repeated(b"1", 1, &mut text)?;
    push_repeated(b")", depth, &mut text)?;
    Ok(text)
}

/// Puts bytes so many times after others.
fn push_repeated(bytes: &[u8], count: usize, text: &mut Vec<u8>) -> Result<(), Memory> {
    for _ in 0..count {
        text.extend_from_slice(bytes)?;
    }
    Ok(())
}

/// So many different names of three letters between these bytes, blanks or quotes, and a blank after each: six bytes.
fn names(alloc: Global, count: usize, quote: u8) -> Result<Vec<u8>, Memory> {
    let mut text = Vec::new(alloc);
    for number in 0..count {
        let name = [
            quote,
            b'a' + (number / 676 % 26) as u8,
            b'a' + (number / 26 % 26) as u8,
            b'a' + (number % 26) as u8,
            quote,
            b' ',
        ];
        text.extend_from_slice(&name)?;
    }
    Ok(text)
}

#[test]
fn long_texts_are_refused(rt: HostRuntime) -> Result<(), Fail> {
    let alloc = rt.alloc();
    for (text, line) in [
        (Vec::from_slice(alloc, b"\xff")?, "refused 1 NotUtf8 at 0\n"),
        (made(nested(alloc, 257))?, "refused 6 TooDeep at 1792\n"),
        (
            made(names(alloc, 4_092, b' '))?,
            "refused 8 TooManySymbols at 24547\n",
        ),
        (
            made(names(alloc, 4_097, b'"'))?,
            "refused 9 TooManyTexts at 24576\n",
        ),
        (made(sum(alloc, 65))?, "refused 17 TooMany at 0\n"),
    ] {
        let (status, held) = made(run(alloc, text.as_slice()))?;
        assert_eq!(rt; status, 4);
        assert_eq!(rt; held.as_slice(), line.as_bytes());
    }
    Ok(())
}

/// A sum of so many numbers.
fn sum(alloc: Global, count: usize) -> Result<Vec<u8>, Memory> {
    let mut text = numbers(alloc, b"(+", count)?;
    text.push(b')')?;
    Ok(text)
}

#[test]
fn limits_of_texts(rt: HostRuntime) -> Result<(), Fail> {
    let alloc = rt.alloc();
    for (depth, expected) in [(256, 0), (257, 4)] {
        let (status, _) = made(run(alloc, made(nested(alloc, depth))?.as_slice()))?;
        assert_eq!(rt; status, expected);
    }
    for (length, expected, written) in [
        (1_048_576, 0, EMPTY_PROGRAM),
        (1_048_577, 4, b"refused 7 TooLong at 1048576\n".as_slice()),
    ] {
        let (status, held) = made(run(alloc, vec![in alloc; b' '; length]?.as_slice()))?;
        assert_eq!(rt; status, expected);
        assert_eq!(rt; held.as_slice(), written);
    }
    Ok(())
}

/// A form and so many numbers after it.
fn numbers(alloc: Global, first: &[u8], count: usize) -> Result<Vec<u8>, Memory> {
    let mut text = Vec::from_slice(alloc, first)?;
    push_repeated(b" 1", count, &mut text)?;
    Ok(text)
}

#[test]
fn limits_of_points(rt: HostRuntime) -> Result<(), Fail> {
    let alloc = rt.alloc();
    let (status, _) = made(run(alloc, made(numbers(alloc, b"1", 49_999))?.as_slice()))?;
    assert_eq!(rt; status, 0);
    let (status, held) = made(run(
        alloc,
        made(numbers(alloc, b"(print 1)", 49_999))?.as_slice(),
    ))?;
    assert_eq!(rt; status, 3);
    assert_eq!(rt; held.as_slice(), OUT_OF_POINTS);
    Ok(())
}

#[test]
fn points_end_in_a_let(rt: HostRuntime) -> Result<(), Fail> {
    let alloc = rt.alloc();
    let mut text = made(numbers(alloc, b"(defvar *x* 0) (let ((*x* 1))", 49_998))?;
    text.push(b')')?;
    let (status, held) = made(run(alloc, text.as_slice()))?;
    assert_eq!(rt; status, 3);
    assert_eq!(rt; held.as_slice(), OUT_OF_POINTS_IN_A_LET);
    Ok(())
}

#[test]
fn points_end_in_an_exit(rt: HostRuntime) -> Result<(), Fail> {
    let alloc = rt.alloc();
    for (count, expected, written) in [
        (49_992, 3, OUT_OF_POINTS_IN_AN_EXIT),
        (49_991, 0, ENDS_AT_THE_LAST_POINT),
    ] {
        let mut text = made(numbers(alloc, b"(defvar *x* 999999999999999999)", count))?;
        text.extend_from_slice(
            b" (let ((*x* (+ *x* *x*))) (let ((*x* (+ *x* *x*))) (+ *x* *x*)))",
        )?;
        let (status, held) = made(run(alloc, text.as_slice()))?;
        assert_eq!(rt; status, expected);
        assert_eq!(rt; held.as_slice(), written);
    }
    Ok(())
}

/// The last lines of a run that binds one variable more than there is room for.
const NO_ROOM: &[u8] = b"thread 0 \"main thread\" aborted #<STORAGE-CONDITION> points 12610
";

/// So many definitions of special variables, and so many `let`s in one another that bind all of them.
fn bindings(alloc: Global, variables: usize, lets: usize) -> Result<Vec<u8>, Memory> {
    let mut text = Vec::new(alloc);
    for number in 0..variables {
        text.extend_from_slice(b"(defvar ")?;
        text.extend_from_slice(&name(number))?;
        text.extend_from_slice(b" 0)")?;
    }
    for _ in 0..lets {
        text.extend_from_slice(b"(let (")?;
        for number in 0..variables {
            text.extend_from_slice(b"(")?;
            text.extend_from_slice(&name(number))?;
            text.extend_from_slice(b" 1)")?;
        }
        text.extend_from_slice(b") ")?;
    }
    push_repeated(b")", lets, &mut text)?;
    Ok(text)
}

/// The name of a variable.
fn name(number: usize) -> [u8; 4] {
    [
        b'*',
        b'a' + (number / 26 % 26) as u8,
        b'a' + (number % 26) as u8,
        b'*',
    ]
}

/// Whether some bytes stand in others.
fn stands_in(part: &[u8], bytes: &[u8]) -> bool {
    bytes
        .windows(part.len().max(1))
        .any(|window| window == part)
}

#[test]
fn room_for_bindings(rt: HostRuntime) -> Result<(), Fail> {
    let alloc = rt.alloc();
    let (status, held) = made(run(alloc, made(bindings(alloc, 64, 65))?.as_slice()))?;
    assert_eq!(rt; status, 0);
    assert!(rt; stands_in(NO_ROOM, held.as_slice()));
    let (status, held) = made(run(alloc, made(bindings(alloc, 64, 64))?.as_slice()))?;
    assert_eq!(rt; status, 0);
    assert!(rt; stands_in(b"returned NIL points", held.as_slice()));
    Ok(())
}
