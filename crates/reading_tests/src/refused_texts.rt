//! Which texts are refused, and where.
use crate::cases::check;
use crate::tables::{Tables, Told};
use std::alloc::Global;
use std::process::Abort;
use std::test::Fail;

#[test]
fn bytes_of_no_character_are_refused(rt: HostRuntime) -> Result<(), Fail> {
    check(
        &rt,
        rt.alloc(),
        r#"cases: 36
-- a byte that only continues a character
‹80› => refusal NotUtf8 at 0
a‹bf› => refusal NotUtf8 at 1
‹c3 a9 80› => refusal NotUtf8 at 2
‹e2 82 ac 82› => refusal NotUtf8 at 3
-- forms that are longer than need be
‹c0 80› => refusal NotUtf8 at 0
a ‹c1 bf› => refusal NotUtf8 at 2
‹e0 80 80› => refusal NotUtf8 at 0
a ‹e0 9f bf› => refusal NotUtf8 at 2
‹f0 80 80 80› => refusal NotUtf8 at 0
a ‹f0 8f bf bf› => refusal NotUtf8 at 2
-- surrogates, and numbers above the last character's
‹ed a0 80› => refusal NotUtf8 at 0
a ‹ed bf bf› => refusal NotUtf8 at 2
‹f4 90 80 80› => refusal NotUtf8 at 0
a ‹f5 80 80 80› => refusal NotUtf8 at 2
‹f7 bf bf bf› => refusal NotUtf8 at 0
‹f8 88 80 80 80› => refusal NotUtf8 at 0
-- the end comes within a character
a‹c3› => refusal NotUtf8 at 1
a‹e2› => refusal NotUtf8 at 1
a‹e2 82› => refusal NotUtf8 at 1
a‹f0› => refusal NotUtf8 at 1
a‹f0 9f› => refusal NotUtf8 at 1
a‹f0 9f 98› => refusal NotUtf8 at 1
-- something else comes within a character
‹c3›( => refusal NotUtf8 at 0
‹c3 c3 a9› => refusal NotUtf8 at 0
‹e2› ‹82› => refusal NotUtf8 at 0
a‹e2 82›) => refusal NotUtf8 at 1
‹e2 82 e2 82 ac› => refusal NotUtf8 at 0
‹f0›a => refusal NotUtf8 at 0
‹f0 9f›" => refusal NotUtf8 at 0
a ‹f0 9f 98 c3 a9› => refusal NotUtf8 at 2
-- bytes of no character at all
‹fe› => refusal NotUtf8 at 0
(‹ff›) => refusal NotUtf8 at 1
-- in strings and comments
"a‹ff›" => refusal NotUtf8 at 2
"\‹c3›" => refusal NotUtf8 at 2
; ‹e2 82›␊a => refusal NotUtf8 at 2
;‹fe› => refusal NotUtf8 at 1
"#,
        Told::Count,
    )
}

// The first and the last character of each length in bytes, and those next to the surrogates.
#[test]
fn characters_of_each_length_are_read(rt: HostRuntime) -> Result<(), Fail> {
    check(
        &rt,
        rt.alloc(),
        r#"cases: 5
"‹00 7f›" => 1
"‹c2 80 df bf›" => 1
"‹e0 a0 80 ed 9f bf ee 80 80 ef bf bf›" => 1
"‹f0 90 80 80 f4 8f bf bf›" => 1
1 ;‹00 7f c2 80 df bf e0 a0 80 ef bf bf f0 90 80 80 f4 8f bf bf› => 1
"#,
        Told::Count,
    )
}

#[test]
fn the_first_fault_is_named(rt: HostRuntime) -> Result<(), Fail> {
    check(
        &rt,
        rt.alloc(),
        r#"cases: 14
-- in the order of reading, whatever the numbers are
#b ) => refusal BadToken at 0
) #b => refusal UnmatchedClose at 0
4611686018427387904 #b ) => refusal NumberTooLarge at 0
#b 4611686018427387904 => refusal BadToken at 0
(a)) ( => refusal UnmatchedClose at 3
a 4000000000.1 " => refusal NumberTooLarge at 2
-- the end comes last
(#b => refusal BadToken at 1
'(4611686018427387904 => refusal NumberTooLarge at 2
(()') ( => refusal UnmatchedClose at 4
#b "c => refusal BadToken at 0
-- bytes of no character come first
#b ‹ff› => refusal NotUtf8 at 3
) 4611686018427387904 ‹c3› => refusal NotUtf8 at 22
(‹ff› => refusal NotUtf8 at 1
"a‹ff› => refusal NotUtf8 at 2
"#,
        Told::Count,
    )
}

#[test]
fn texts_nest_256_deep_at_most(rt: HostRuntime) -> Result<(), Fail> {
    check(
        &rt,
        rt.alloc(),
        r#"cases: 22
-- lists
‹256×(›‹256×)› => 256
‹256×(›)(‹256×)› => 257
‹255×(›'a #'b () c‹255×)› => 263
‹256×(› => refusal EndInside at 255
‹256×(›‹256×))› => refusal UnmatchedClose at 512
‹257×(›‹257×)› => refusal TooDeep at 256
‹256×(› 'a‹256×)› => refusal TooDeep at 257
‹256×(› #'a‹256×)› => refusal TooDeep at 257
-- quotes
‹256×'›a => 513
‹256×'›"a" 'b => 516
‹257×'›a => refusal TooDeep at 256
‹256×'›() => refusal TooDeep at 256
‹256×#'›a => 513
‹257×#'›a => refusal TooDeep at 512
-- lists and quotes
‹128×('›a‹128×)› => 385
‹128×('›a => refusal EndInside at 254
‹128×('›()‹128×)› => refusal TooDeep at 256
‹85×('#'›'a‹85×)› => 428
‹85×('#'›'#'a‹85×)› => refusal TooDeep at 341
-- other faults
‹256×(›#b( => refusal BadToken at 256
‹257×(›#b => refusal TooDeep at 256
‹257×(›‹ff› => refusal NotUtf8 at 257
"#,
        Told::Count,
    )
}

/// Reads a text by itself. Its outcome is the number of its nodes and the names, or its refusal.
fn check_text(rt: &impl Abort, alloc: Global, text: &[u8], outcome: &str) -> Result<(), Fail> {
    let mut tables = Tables::new(alloc)?;
    let came = tables.outcome(alloc, text, Told::Kept)?;
    assert_eq!(rt; came.as_str(), outcome);
    Ok(())
}

#[test]
fn texts_have_1048576_bytes_at_most(rt: HostRuntime) -> Result<(), Fail> {
    let alloc = rt.alloc();
    let mut text = vec![in alloc; b' '; 1_048_575]?;
    text.push(b'a')?;
    check_text(&rt, alloc, text.as_slice(), "1 A")?;
    text.push(b'\n')?;
    check_text(&rt, alloc, text.as_slice(), "refusal TooLong at 1048576")?;
    // the length is judged before the bytes of no character
    let bytes = vec![in alloc; 0xff; 1_048_577]?;
    check_text(&rt, alloc, bytes.as_slice(), "refusal TooLong at 1048576")
}
