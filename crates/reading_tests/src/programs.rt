//! What texts read as, each node with its place.
use crate::cases::check;
use crate::tables::Told;
use std::test::Fail;

#[test]
fn blanks_and_comments_separate(rt: HostRuntime) -> Result<(), Fail> {
    check(
        &rt,
        rt.alloc(),
        r#"cases: 23
-- no data at all
‹› => ‹›
␠ => ‹›
␊ => ‹›
␠␉␊␍␌ => ‹›
; => ‹›
; (a => ‹›
; a)␊ => ‹›
; a " '␊ ; \ => ‹›
; ü => ‹›
; 😀␊;; => ‹›
-- only a newline ends a comment
; a␍b => ‹›
; a␌b‹c2 85›c‹e2 80 a8›d => ‹›
-- what comes before and after
␠a => A@1
a␠ => A@0
a;b => A@0
a;b␊c => A@0 C@4
a ; (b␊'c => A@0 (@7 QUOTE@7 C@8)
; (a)␊b => B@6
; a␊; b␊c => C@8
; ü␊b => B@5
;"␊"a" => "a"@3
(a ; b)␊) => (@0 A@1)
a␉b␊c␍d␌e => A@0 B@2 C@4 D@6 E@8
"#,
        Told::Data,
    )
}

#[test]
fn lists_are_read(rt: HostRuntime) -> Result<(), Fail> {
    check(
        &rt,
        rt.alloc(),
        r#"cases: 19
a => A@0
foo-1 b => FOO-1@0 B@6
1 2 => 1@0 2@2
-5 0.25 4611686018427387903 => -5@0 250000u@3 4611686018427387903@8
nil t :warn NIL => NIL@0 T@4 :WARN@6 NIL@12
car cl:car CAR => CAR@0 CAR@4 CAR@11
Common-Lisp:List :Key => LIST@0 :KEY@17
cl:car (sb-thread::join-thread x) => CAR@0 (@7 JOIN-THREAD@8 X@31)
() => (@0)
( ) => (@0)
(a) => (@0 A@1)
(()) => (@0 (@1))
()() => (@0) (@2)
a()b => A@0 (@1) B@3
(a)(b) => (@0 A@1) (@3 B@4)
(a b) c => (@0 A@1 B@3) C@6
(a(b)c) => (@0 A@1 (@2 B@3) C@5)
(a (b c) ((d)) e) => (@0 A@1 (@3 B@4 C@6) (@9 (@10 D@11)) E@15)
(print '(a "b" 1.5)) ; the end => (@0 PRINT@1 (@7 QUOTE@7 (@8 A@9 "b"@11 1500000u@15)))
"#,
        Told::Data,
    )
}

#[test]
fn quotes_are_read(rt: HostRuntime) -> Result<(), Fail> {
    check(
        &rt,
        rt.alloc(),
        r#"cases: 26
'a => (@0 QUOTE@0 A@1)
#'f => (@0 FUNCTION@0 F@2)
'() => (@0 QUOTE@0 (@1))
''a => (@0 QUOTE@0 (@1 QUOTE@1 A@2))
'''a => (@0 QUOTE@0 (@1 QUOTE@1 (@2 QUOTE@2 A@3)))
'#'f => (@0 QUOTE@0 (@1 FUNCTION@1 F@3))
#''f => (@0 FUNCTION@0 (@2 QUOTE@2 F@3))
#'#'f => (@0 FUNCTION@0 (@2 FUNCTION@2 F@4))
''a #'f => (@0 QUOTE@0 (@1 QUOTE@1 A@2)) (@4 FUNCTION@4 F@6)
'1 '"s" ':k '0.5 => (@0 QUOTE@0 1@1) (@3 QUOTE@3 "s"@4) (@8 QUOTE@8 :K@9) (@12 QUOTE@12 500000u@13)
'(a 'b) => (@0 QUOTE@0 (@1 A@2 (@4 QUOTE@4 B@5)))
#'(lambda (x) x) => (@0 FUNCTION@0 (@2 LAMBDA@3 (@10 X@11) X@14))
-- a quote takes one datum
'a b => (@0 QUOTE@0 A@1) B@3
'a'b => (@0 QUOTE@0 A@1) (@2 QUOTE@2 B@3)
''() b => (@0 QUOTE@0 (@1 QUOTE@1 (@2))) B@5
('a) => (@0 (@1 QUOTE@1 A@2))
(a'b c) => (@0 A@1 (@2 QUOTE@2 B@3) C@5)
(''a b)c => (@0 (@1 QUOTE@1 (@2 QUOTE@2 A@3)) B@5) C@7
-- something between the quote and the datum
' a => (@0 QUOTE@0 A@2)
'; c␊a => (@0 QUOTE@0 A@5)
'␊;␊ 'a => (@0 QUOTE@0 (@5 QUOTE@5 A@6))
#' ; c␊ f => (@0 FUNCTION@0 F@8)
-- a token in front
a'b => A@0 (@1 QUOTE@1 B@2)
1'2 => 1@0 (@1 QUOTE@1 2@2)
-- the same symbols, written out
'quote #'function => (@0 QUOTE@0 QUOTE@1) (@7 FUNCTION@7 FUNCTION@9)
(cl:quote a) => (@0 QUOTE@1 A@10)
"#,
        Told::Data,
    )
}

#[test]
fn strings_are_read(rt: HostRuntime) -> Result<(), Fail> {
    check(
        &rt,
        rt.alloc(),
        r##"cases: 25
"" => ""@0
"a" => "a"@0
"a;(" b => "a;("@0 B@6
"a␊b" => "a␊b"@0
" 'a) #b " => " 'a) #b "@0
"Case" Case => "Case"@0 CASE@7
-- a backslash takes the next character as it is
"a\"b\\c" => "a"b\c"@0
"a\nb" => "anb"@0
"\"" => """@0
"\\" => "\"@0
"\\\"\\" => "\"\"@0
"\␊" => "␊"@0
"\ü" => "ü"@0
"\😀\a" b => "😀a"@0 B@10
-- characters beyond ASCII
"é € 😀" a => "é € 😀"@0 A@14
-- what stands beside
"a"b => "a"@0 B@3
a"b" => A@0 "b"@1
1.5"b"2 => 1500000u@0 "b"@3 2@6
"a""b" => "a"@0 "b"@3
"a"'b => "a"@0 (@3 QUOTE@3 B@4)
"a"#'b => "a"@0 (@3 FUNCTION@3 B@5)
"a";b => "a"@0
'"a" => (@0 QUOTE@0 "a"@1)
("a" "b") => (@0 "a"@1 "b"@5)
("a") => (@0 "a"@1)
"##,
        Told::Data,
    )
}

#[test]
fn what_does_not_end_is_refused(rt: HostRuntime) -> Result<(), Fail> {
    check(
        &rt,
        rt.alloc(),
        r#"cases: 25
-- in a list or a quote
( => refusal EndInside at 0
(( => refusal EndInside at 1
(() => refusal EndInside at 0
(() ( => refusal EndInside at 4
a (b) (c (d)␠ => refusal EndInside at 6
(a ; ) => refusal EndInside at 0
' => refusal EndInside at 0
#' => refusal EndInside at 0
'' => refusal EndInside at 1
'#' => refusal EndInside at 1
' ; c => refusal EndInside at 0
'( => refusal EndInside at 1
(a ' => refusal EndInside at 3
(a 'b => refusal EndInside at 0
('(a)␠ => refusal EndInside at 0
(''(a) ' => refusal EndInside at 7
-- in a string
" => refusal EndInside at 0
"a\" => refusal EndInside at 0
"a\ => refusal EndInside at 0
"a" "b => refusal EndInside at 4
"a\\" "\" => refusal EndInside at 6
(a "b => refusal EndInside at 3
'"a => refusal EndInside at 1
(a "b) => refusal EndInside at 3
"é" " => refusal EndInside at 5
"#,
        Told::Data,
    )
}

#[test]
fn what_closes_nothing_is_refused(rt: HostRuntime) -> Result<(), Fail> {
    check(
        &rt,
        rt.alloc(),
        r#"cases: 10
) => refusal UnmatchedClose at 0
a) => refusal UnmatchedClose at 1
()) => refusal UnmatchedClose at 2
(a) ) => refusal UnmatchedClose at 4
; )␊) => refusal UnmatchedClose at 4
")") => refusal UnmatchedClose at 3
-- a quote waits for its datum
') => refusal UnmatchedClose at 1
(') => refusal UnmatchedClose at 2
(#') => refusal UnmatchedClose at 3
('a') => refusal UnmatchedClose at 4
"#,
        Told::Data,
    )
}

#[test]
fn bad_tokens_are_refused(rt: HostRuntime) -> Result<(), Fail> {
    check(
        &rt,
        rt.alloc(),
        r#"cases: 26
# => refusal BadToken at 0
#(a) => refusal BadToken at 0
#a'b => refusal BadToken at 0
a#'b => refusal BadToken at 0
##'a => refusal BadToken at 0
# 'a => refusal BadToken at 0
'#f => refusal BadToken at 1
(a #f) => refusal BadToken at 3
(a) sb-foo:x => refusal BadToken at 4
(a . b) => refusal BadToken at 3
(a 1. b) => refusal BadToken at 3
"a".5 => refusal BadToken at 3
-- a backslash that is in no string
\ => refusal BadToken at 0
\a => refusal BadToken at 0
\"a" => refusal BadToken at 0
(a \(b) => refusal BadToken at 3
-- characters beyond ASCII and other blanks
ü( => refusal BadToken at 0
(λ (x) x) => refusal BadToken at 1
"é" aé => refusal BadToken at 5
a‹c2 a0›b => refusal BadToken at 0
a ␋b => refusal BadToken at 2
‹ef bb bf›(a) => refusal BadToken at 0
-- numbers that are too large
4611686018427387904 => refusal NumberTooLarge at 0
(4000000000.000001) => refusal NumberTooLarge at 1
'-4611686018427387905 => refusal NumberTooLarge at 1
(a 99999999999999999999) => refusal NumberTooLarge at 3
"#,
        Told::Data,
    )
}
