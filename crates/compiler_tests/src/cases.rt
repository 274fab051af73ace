//! Tables of cases: one string each, since the elements of an array would each cost the prover time.
//!
//! The first line says how many cases there are, so that none is lost unseen. Each case is a line, `program => outcome`. A line with no ` => ` is a comment and begins with `--`.
//!
//! Between ‹ and › stands what is repeated: `‹3×(›` for `(((`, and with numbers `‹7..9×x№ ›` for `x7 x8 `. Nothing at all is `‹›`.
use crate::compiled::{Told, outcome};
use std::alloc::{AllocError, Global};
use std::io::Write;
use std::process::Abort;
use std::test::Fail;

/// Compiles each program of a table, and compares the outcome.
pub fn check(rt: &impl Abort, alloc: Global, table: &str, told: Told) -> Result<(), Fail> {
    let mut lines = table.lines();
    let count = count_of(lines.next().unwrap_or(""))?;
    let mut cases: usize = 0;
    for line in lines {
        if let Some((program, wanted)) = line.split_once(" => ") {
            check_case(rt, alloc, program, wanted, told)?;
            cases = cases.saturating_add(1);
        } else {
            assert!(rt; line.starts_with("--"), "this is no case: {line}");
        }
    }
    assert_eq!(rt; cases, count);
    Ok(())
}

/// The number of cases that the first line of a table says.
fn count_of(line: &str) -> Result<usize, Fail> {
    let number = line.strip_prefix("cases: ").unwrap_or(line);
    Ok(number.parse()?)
}

/// Compiles a program, and compares the outcome.
pub fn check_case(
    rt: &impl Abort,
    alloc: Global,
    program: &str,
    wanted: &str,
    told: Told,
) -> Result<(), Fail> {
    let text = text_of(alloc, program)?;
    let came = outcome(alloc, text.as_bytes(), told)?;
    assert!(rt; came.as_str() == wanted, "{program}: {came}, not {wanted}");
    Ok(())
}

/// The text that something written in a table stands for.
fn text_of(alloc: Global, written: &str) -> Result<String, Fail> {
    let mut text = String::new(alloc);
    for part in written.split('‹') {
        let (marked, plain) = part.split_once('›').unwrap_or(("", part));
        if let Some((numbers, repeated)) = marked.split_once('×') {
            push_repeated(&mut text, numbers, repeated)?;
        }
        text.push_str(plain)?;
    }
    Ok(text)
}

/// Adds something once for each number of a range, which begins at 0 if only its end is written.
fn push_repeated(text: &mut String, numbers: &str, repeated: &str) -> Result<(), Fail> {
    let (first, end) = numbers.split_once("..").unwrap_or(("0", numbers));
    let (first, end): (u32, u32) = (first.parse()?, end.parse()?);
    for number in first..end {
        push_numbered(text, repeated, number)?;
    }
    Ok(())
}

/// Adds something, with a number in place of each `№`.
fn push_numbered(text: &mut String, written: &str, number: u32) -> Result<(), AllocError> {
    for character in written.chars() {
        match character {
            '№' => write!(text, "{number}")?,
            _ => text.push(character)?,
        }
    }
    Ok(())
}
