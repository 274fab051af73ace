//! Tables of cases: one string each, since the elements of an array would each cost the prover time.
//!
//! The first line says how many cases there are, so that none is lost unseen. Each case is a line, `text => outcome`. A line with no ` => ` is a comment and begins with `--`.
//!
//! In texts and outcomes a picture stands for a character that cannot be seen, as ␊ for a newline. Between ‹ and › are bytes in hexadecimal, as `‹c3 28›`, or what is repeated: `‹256×(›`, and with numbers `‹1000..1003×:№ ›` for `:1000 :1001 :1002 `. Nothing at all is `‹›`.
use crate::tables::{Tables, Told};
use std::alloc::Global;
use std::io::Write;
use std::process::Abort;
use std::test::Fail;

/// A text and its outcome, both as they are written in the table.
#[derive(Clone, Copy)]
struct Case<'t> {
    text: &'t str,
    outcome: &'t str,
}

impl Case<'_> {
    /// Reads the text over tables and compares the outcome.
    fn check(
        self,
        rt: &impl Abort,
        alloc: Global,
        tables: &mut Tables,
        told: Told,
    ) -> Result<(), Fail> {
        let Case { text, outcome } = self;
        let bytes = bytes_of(alloc, text)?;
        let wanted = bytes_of(alloc, outcome)?;
        let came = tables.outcome(alloc, bytes.as_slice(), told)?;
        assert!(rt;
            came.as_bytes() == wanted.as_slice(),
            "{text}: {came}, not {outcome}"
        );
        Ok(())
    }
}

/// Reads each text of a table by itself.
pub fn check(rt: &impl Abort, alloc: Global, table: &str, told: Told) -> Result<(), Fail> {
    for case in cases_of(alloc, table)?.as_slice() {
        let mut tables = Tables::new(alloc)?;
        case.check(rt, alloc, &mut tables, told)?;
    }
    Ok(())
}

/// Reads each text of a table over what the texts before it in the table left.
pub fn check_kept(rt: &impl Abort, alloc: Global, table: &str, told: Told) -> Result<(), Fail> {
    let cases = cases_of(alloc, table)?;
    let mut tables = Tables::new(alloc)?;
    check_over(rt, alloc, cases.as_slice(), &mut tables, told)
}

/// Reads the text of each case over the same tables.
fn check_over(
    rt: &impl Abort,
    alloc: Global,
    cases: &[Case],
    tables: &mut Tables,
    told: Told,
) -> Result<(), Fail> {
    for case in cases {
        case.check(rt, alloc, tables, told)?;
    }
    Ok(())
}

/// The cases of a table, as many as its first line says.
fn cases_of(alloc: Global, table: &str) -> Result<Vec<Case<'_>>, Fail> {
    let mut lines = table.lines();
    let count = count_of(lines.next().unwrap_or(""))?;
    let mut cases = Vec::new(alloc);
    for line in lines {
        push_case(&mut cases, line)?;
    }
    if cases.len() == count {
        Ok(cases)
    } else {
        Err("the table has not as many cases as it says".into())
    }
}

/// The number of cases that the first line of a table says.
fn count_of(line: &str) -> Result<usize, Fail> {
    let number = line.strip_prefix("cases: ").unwrap_or(line);
    Ok(number.parse()?)
}

/// Adds the case of a line to the others, if it has one.
fn push_case<'t>(cases: &mut Vec<Case<'t>>, line: &'t str) -> Result<(), Fail> {
    match line.split_once(" => ") {
        Some((text, outcome)) => Ok(cases.push(Case { text, outcome })?),
        None if line.starts_with("--") => Ok(()),
        None => Err(Fail::new(format_args!("this is no case: {line}"))),
    }
}

/// The bytes that something written in a table stands for.
fn bytes_of(alloc: Global, written: &str) -> Result<Vec<u8>, Fail> {
    let mut bytes = Vec::new(alloc);
    for part in written.split('‹') {
        let (marked, plain) = part.split_once('›').unwrap_or(("", part));
        match marked.split_once('×') {
            Some((numbers, repeated)) => push_repeated(&mut bytes, numbers, repeated)?,
            None => push_codes(&mut bytes, marked)?,
        }
        push_plain(&mut bytes, plain, 0)?;
    }
    Ok(bytes)
}

/// Adds bytes that are written in hexadecimal.
fn push_codes(bytes: &mut Vec<u8>, codes: &str) -> Result<(), Fail> {
    for code in codes.split_whitespace() {
        bytes.push(u8::from_str_radix(code, 16)?)?;
    }
    Ok(())
}

/// Adds characters once for each number of a range, which begins at 0 if only its end is written.
fn push_repeated(bytes: &mut Vec<u8>, numbers: &str, repeated: &str) -> Result<(), Fail> {
    let (first, end) = numbers.split_once("..").unwrap_or(("0", numbers));
    let (first, end): (u32, u32) = (first.parse()?, end.parse()?);
    for number in first..end {
        push_plain(bytes, repeated, number)?;
    }
    Ok(())
}

/// Adds characters, each picture as what it stands for.
fn push_plain(bytes: &mut Vec<u8>, plain: &str, number: u32) -> Result<(), Fail> {
    for character in plain.chars() {
        if character == '№' {
            write!(bytes, "{number}")?;
        } else {
            bytes.extend_from_slice(meant_by(character).encode_utf8(&mut [0; 4]).as_bytes())?;
        }
    }
    Ok(())
}

/// The character that a picture stands for: those from U+2400 on show the characters from 0 to the blank. Any other stands for itself.
fn meant_by(character: char) -> char {
    match u32::from(character).checked_sub(0x2400) {
        Some(code) if code <= 0x20 => char::from_u32(code).unwrap_or(character),
        _ => character,
    }
}
