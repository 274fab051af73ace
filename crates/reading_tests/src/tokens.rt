//! What each token means.
use crate::cases::check;
use crate::tables::Told;
use std::test::Fail;

#[test]
fn integers_are_read(rt: HostRuntime) -> Result<(), Fail> {
    check(
        &rt,
        rt.alloc(),
        r#"cases: 15
0 => Int(0)@0
7 => Int(7)@0
+7 => Int(7)@0
-7 => Int(-7)@0
-0 => Int(0)@0
+0 => Int(0)@0
007 => Int(7)@0
-0010 => Int(-10)@0
1234567890 => Int(1234567890)@0
0000000000000000000000000000007 => Int(7)@0
4611686018427387903 => Int(4611686018427387903)@0
+4611686018427387903 => Int(4611686018427387903)@0
-4611686018427387903 => Int(-4611686018427387903)@0
-4611686018427387904 => Int(-4611686018427387904)@0
-04611686018427387904 => Int(-4611686018427387904)@0
"#,
        Told::Kinds,
    )
}

#[test]
fn times_are_read(rt: HostRuntime) -> Result<(), Fail> {
    check(
        &rt,
        rt.alloc(),
        r#"cases: 11
1.5 => Time(Micros(1500000))@0
0.0 => Time(Micros(0))@0
0.000001 => Time(Micros(1))@0
000.5 => Time(Micros(500000))@0
1.123456 => Time(Micros(1123456))@0
1.00001 => Time(Micros(1000010))@0
12.05 => Time(Micros(12050000))@0
3999999999.999999 => Time(Micros(3999999999999999))@0
4000000000.0 => Time(Micros(4000000000000000))@0
4000000000.000000 => Time(Micros(4000000000000000))@0
00000000000000000000004000000000.0 => Time(Micros(4000000000000000))@0
"#,
        Told::Kinds,
    )
}

#[test]
fn numbers_out_of_range_are_too_large(rt: HostRuntime) -> Result<(), Fail> {
    check(
        &rt,
        rt.alloc(),
        r#"cases: 13
4611686018427387904 => refusal NumberTooLarge at 0
+4611686018427387904 => refusal NumberTooLarge at 0
-4611686018427387905 => refusal NumberTooLarge at 0
-- sizes that would wrap
9223372036854775808 => refusal NumberTooLarge at 0
-9223372036854775808 => refusal NumberTooLarge at 0
18446744073709551616 => refusal NumberTooLarge at 0
-18446744073709551617 => refusal NumberTooLarge at 0
99999999999999999999999999999999999999999999999999 => refusal NumberTooLarge at 0
4000000000.000001 => refusal NumberTooLarge at 0
4000000000.1 => refusal NumberTooLarge at 0
4000000001.0 => refusal NumberTooLarge at 0
18446744073709551616.5 => refusal NumberTooLarge at 0
99999999999999999999999999999999999999999999999999.5 => refusal NumberTooLarge at 0
"#,
        Told::Kinds,
    )
}

#[test]
fn what_begins_as_a_number_and_is_none_is_bad(rt: HostRuntime) -> Result<(), Fail> {
    check(
        &rt,
        rt.alloc(),
        r#"cases: 24
1. => refusal BadToken at 0
-1. => refusal BadToken at 0
4611686018427387904. => refusal BadToken at 0
.5 => refusal BadToken at 0
. => refusal BadToken at 0
... => refusal BadToken at 0
.a => refusal BadToken at 0
1.1234567 => refusal BadToken at 0
4000000001.0000000 => refusal BadToken at 0
1.5.5 => refusal BadToken at 0
1.+5 => refusal BadToken at 0
1.5+ => refusal BadToken at 0
-1.5 => refusal BadToken at 0
+1.5 => refusal BadToken at 0
1a => refusal BadToken at 0
+1a => refusal BadToken at 0
1+2 => refusal BadToken at 0
1-2 => refusal BadToken at 0
+1+ => refusal BadToken at 0
-1- => refusal BadToken at 0
1++ => refusal BadToken at 0
1e5 => refusal BadToken at 0
1/2 => refusal BadToken at 0
1:a => refusal BadToken at 0
"#,
        Told::Kinds,
    )
}

#[test]
fn names_with_other_letters_are_bad(rt: HostRuntime) -> Result<(), Fail> {
    check(
        &rt,
        rt.alloc(),
        r#"cases: 25
# => refusal BadToken at 0
#f => refusal BadToken at 0
#x => refusal BadToken at 0
a# => refusal BadToken at 0
\ => refusal BadToken at 0
a\b => refusal BadToken at 0
|a| => refusal BadToken at 0
[x] => refusal BadToken at 0
{x} => refusal BadToken at 0
a,b => refusal BadToken at 0
`a => refusal BadToken at 0
é => refusal BadToken at 0
aé => refusal BadToken at 0
‹00› => refusal BadToken at 0
␋ => refusal BadToken at 0
‹7f› => refusal BadToken at 0
‹c2 a0› => refusal BadToken at 0
‹ef bb bf›a => refusal BadToken at 0
: => refusal BadToken at 0
::k => refusal BadToken at 0
:a:b => refusal BadToken at 0
:# => refusal BadToken at 0
:é => refusal BadToken at 0
-- bytes of no character
a‹ff› => refusal NotUtf8 at 1
:‹ff› => refusal NotUtf8 at 1
"#,
        Told::Kinds,
    )
}

#[test]
fn prefixes_of_no_package_are_bad(rt: HostRuntime) -> Result<(), Fail> {
    check(
        &rt,
        rt.alloc(),
        r#"cases: 14
a:b => refusal BadToken at 0
sb-foo:x => refusal BadToken at 0
c:x => refusal BadToken at 0
cll:x => refusal BadToken at 0
cl-user:x => refusal BadToken at 0
keyword:x => refusal BadToken at 0
sb_ext:x => refusal BadToken at 0
cl: => refusal BadToken at 0
cl:: => refusal BadToken at 0
cl:::x => refusal BadToken at 0
cl:a:b => refusal BadToken at 0
cl:cl:x => refusal BadToken at 0
cl:# => refusal BadToken at 0
cl:é => refusal BadToken at 0
"#,
        Told::Kinds,
    )
}

#[test]
fn symbols_are_read(rt: HostRuntime) -> Result<(), Fail> {
    check(
        &rt,
        rt.alloc(),
        r#"cases: 44
1+ => Symbol(SymbolId(5))@0 1+
1- => Symbol(SymbolId(5))@0 1-
+ => Symbol(SymbolId(5))@0 +
- => Symbol(SymbolId(5))@0 -
+.5 => Symbol(SymbolId(5))@0 +.5
-a => Symbol(SymbolId(5))@0 -A
-- => Symbol(SymbolId(5))@0 --
++1 => Symbol(SymbolId(5))@0 ++1
car => Symbol(SymbolId(5))@0 CAR
Car => Symbol(SymbolId(5))@0 CAR
a1 => Symbol(SymbolId(5))@0 A1
a.b => Symbol(SymbolId(5))@0 A.B
a. => Symbol(SymbolId(5))@0 A.
<= => Symbol(SymbolId(5))@0 <=
/= => Symbol(SymbolId(5))@0 /=
*x* => Symbol(SymbolId(5))@0 *X*
&rest => Symbol(SymbolId(5))@0 &REST
!?$%_^~@ => Symbol(SymbolId(5))@0 !?$%_^~@
azAZ09+-*/<>=!?$%&_^~@. => Symbol(SymbolId(5))@0 AZAZ09+-*/<>=!?$%&_^~@.
-- after the prefix of a package
cl:car => Symbol(SymbolId(5))@0 CAR
cl::car => Symbol(SymbolId(5))@0 CAR
CL:CAR => Symbol(SymbolId(5))@0 CAR
Cl::Car => Symbol(SymbolId(5))@0 CAR
cl:5 => Symbol(SymbolId(5))@0 5
cl:1+ => Symbol(SymbolId(5))@0 1+
cl:+5 => Symbol(SymbolId(5))@0 +5
cl:1.5 => Symbol(SymbolId(5))@0 1.5
cl::. => Symbol(SymbolId(5))@0 .
common-lisp:x => Symbol(SymbolId(5))@0 X
Common-Lisp::x => Symbol(SymbolId(5))@0 X
sb-thread:x => Symbol(SymbolId(5))@0 X
sb-thread::mutex => Symbol(SymbolId(5))@0 MUTEX
sb-sys:x => Symbol(SymbolId(5))@0 X
SB-EXT::x => Symbol(SymbolId(5))@0 X
sb-concurrency:x => Symbol(SymbolId(5))@0 X
-- keywords keep their colon
:k => Symbol(SymbolId(5))@0 :K
:KEY => Symbol(SymbolId(5))@0 :KEY
:5 => Symbol(SymbolId(5))@0 :5
:1.5 => Symbol(SymbolId(5))@0 :1.5
:1+ => Symbol(SymbolId(5))@0 :1+
:. => Symbol(SymbolId(5))@0 :.
:<= => Symbol(SymbolId(5))@0 :<=
:a.b => Symbol(SymbolId(5))@0 :A.B
:nil => Symbol(SymbolId(5))@0 :NIL
"#,
        Told::Kinds,
    )
}

#[test]
fn the_first_five_symbols_keep_their_numbers(rt: HostRuntime) -> Result<(), Fail> {
    check(
        &rt,
        rt.alloc(),
        r#"cases: 8
NIL => Symbol(SymbolId(0))@0
nil => Symbol(SymbolId(0))@0
cl:nil => Symbol(SymbolId(0))@0
t => Symbol(SymbolId(1))@0
common-lisp::T => Symbol(SymbolId(1))@0
:warn => Symbol(SymbolId(2))@0
:Punt => Symbol(SymbolId(3))@0
:FORCE => Symbol(SymbolId(4))@0
"#,
        Told::Kinds,
    )
}

#[test]
fn a_quote_is_no_token(rt: HostRuntime) -> Result<(), Fail> {
    check(
        &rt,
        rt.alloc(),
        r#"cases: 4
' => refusal EndInside at 0
#' => refusal EndInside at 0
#'f => (@0 FUNCTION@0 F@2)
'1+ => (@0 QUOTE@0 1+@1)
"#,
        Told::Data,
    )
}
