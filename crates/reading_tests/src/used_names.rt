//! The numbers of the names and the string literals that texts use.
use crate::cases::{check, check_kept};
use crate::tables::Told;
use std::test::Fail;

#[test]
fn a_program_has_4096_symbols_at_most(rt: HostRuntime) -> Result<(), Fail> {
    check_kept(
        &rt,
        rt.alloc(),
        r#"cases: 7
-- 4,090 keywords after the five first symbols, and QUOTE
‹1000..5090×:№ ›'nil => 4093
'T nil :warn :punt :Force :1000 :5089 "a" 1 => 11
x => refusal TooManySymbols at 0
(t :5090) => refusal TooManySymbols at 3
(''#'t) => refusal TooManySymbols at 3
x #b => refusal TooManySymbols at 0
#b x => refusal BadToken at 0
"#,
        Told::Count,
    )?;
    // 4,092 keywords of six bytes each
    check(
        &rt,
        rt.alloc(),
        r#"cases: 1
‹1000..5092×:№ › => refusal TooManySymbols at 24546
"#,
        Told::Count,
    )
}

#[test]
fn a_program_has_4096_literals_at_most(rt: HostRuntime) -> Result<(), Fail> {
    check_kept(
        &rt,
        rt.alloc(),
        r#"cases: 6
‹1000..5096×"№"› => 4096
("1000" "5095" x) => 4
(a "5096") => refusal TooManyTexts at 3
'"" => refusal TooManyTexts at 1
"x" #b => refusal TooManyTexts at 0
#b "x" => refusal BadToken at 0
"#,
        Told::Count,
    )?;
    // 4,097 literals of six bytes each
    check(
        &rt,
        rt.alloc(),
        r#"cases: 1
‹1000..5097×"№"› => refusal TooManyTexts at 24576
"#,
        Told::Count,
    )
}

#[test]
fn nodes_have_the_numbers_of_the_first_use(rt: HostRuntime) -> Result<(), Fail> {
    check(
        &rt,
        rt.alloc(),
        r#"cases: 2
(foo 'bar :k t #'Foo) => List { items: 5, nodes: 9 }@0 Symbol(SymbolId(5))@1 List { items: 2, nodes: 2 }@5 Symbol(SymbolId(6))@5 Symbol(SymbolId(7))@6 Symbol(SymbolId(8))@10 Symbol(SymbolId(1))@13 List { items: 2, nodes: 2 }@15 Symbol(SymbolId(9))@15 Symbol(SymbolId(5))@17 FOO QUOTE BAR :K FUNCTION
"s" "t" "s" => Text(StringId(0))@0 Text(StringId(1))@4 Text(StringId(0))@8 "s" "t"
"#,
        Told::Kinds,
    )
}

#[test]
fn what_is_known_keeps_its_number(rt: HostRuntime) -> Result<(), Fail> {
    check_kept(
        &rt,
        rt.alloc(),
        r#"cases: 6
‹› => 0
; a "b" => 0
nil t :warn :punt :force 7 0.5 => 7
(foo 'bar "s" :k t "t" #'Foo "s" cl:BAR) => 14 FOO QUOTE BAR :K FUNCTION "s" "t"
'baz foo k ("foo" "s") #'1 => 11 FOO QUOTE BAR :K FUNCTION BAZ K "s" "t" "foo"
:k #'foo quote "" "foo" => 7 FOO QUOTE BAR :K FUNCTION BAZ K "s" "t" "foo" ""
"#,
        Told::Kept,
    )
}

#[test]
fn after_a_refusal_the_tables_keep_what_came_before(rt: HostRuntime) -> Result<(), Fail> {
    check(
        &rt,
        rt.alloc(),
        r#"cases: 8
foo "a" ‹ff› => refusal NotUtf8 at 8
(foo 'bar "a => refusal EndInside at 10 FOO QUOTE BAR
("a" foo #' => refusal EndInside at 9 FOO FUNCTION "a"
foo "a" ) bar => refusal UnmatchedClose at 8 FOO "a"
foo "a" bar #b baz "b" => refusal BadToken at 12 FOO BAR "a"
'a:b => refusal BadToken at 1 QUOTE
foo 4611686018427387904 bar => refusal NumberTooLarge at 4 FOO
-- a quote that is nested too deep uses no symbol
‹256×(›'a => refusal TooDeep at 256
"#,
        Told::Kept,
    )
}
