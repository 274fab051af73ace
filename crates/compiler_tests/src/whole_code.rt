//! The whole code of some programs. Each line has the position of an instruction, its place, how many operands there are before it, and the instruction. After them stand the rows of clauses, the functions, and the special variables.
use crate::cases::check_case;
use crate::compiled::Told;
use std::test::Fail;

#[test]
fn a_let_prints(rt: HostRuntime) -> Result<(), Fail> {
    check_case(
        &rt,
        rt.alloc(),
        "(let ((x 1)) (print (+ x 2)))",
        r#"0 9 0 Do(Push(Value { node: Int(1) }))
1 0 1 Do(BindLocal(0, 0))
2 23 0 Do(ReadLocal(0))
3 25 1 Do(Push(Value { node: Int(2) }))
4 20 2 Do(Apply(Add))
5 13 1 Ask(Print(Print))
6 0 1 Do(ForgetLocal)
7 0 1 Ask(EndThread)
8 0 0 Do(AbortThread)
9 0 1 Leave
AbortThread 0 8 0 0
"#,
        Told::All,
    )
}

#[test]
fn special_variables_are_bound_and_an_if_chooses(rt: HostRuntime) -> Result<(), Fail> {
    check_case(
        &rt,
        rt.alloc(),
        "(defvar s 1) (let ((s 2)) (if s 3 4))",
        r#"0 0 0 Test(IsBound(SymbolId(6)), 3)
1 10 0 Do(Push(Value { node: Int(1) }))
2 0 1 Ask(Define(SymbolId(6)))
3 0 1 Do(Discard)
4 22 0 Do(Push(Value { node: Int(2) }))
5 13 1 Enter(Bind(SymbolId(6), 0), 12)
6 30 0 Ask(Read(SymbolId(6)))
7 26 1 Branch(10)
8 32 0 Do(Push(Value { node: Int(3) }))
9 26 1 Jump(11)
10 34 0 Do(Push(Value { node: Int(4) }))
11 13 1 Leave
12 0 1 Ask(EndThread)
13 0 0 Do(AbortThread)
14 0 1 Leave
AbortThread 0 13 0 0
SymbolId(6)
"#,
        Told::All,
    )
}

#[test]
fn a_function_is_called(rt: HostRuntime) -> Result<(), Fail> {
    check_case(
        &rt,
        rt.alloc(),
        "(defun f (x) x) (f 1)",
        r#"0 0 0 Do(Push(Value { node: Symbol(SymbolId(6)) }))
1 0 1 Do(Discard)
2 19 0 Do(Push(Value { node: Int(1) }))
3 16 1 Call(0, 1)
4 0 1 Ask(EndThread)
5 13 0 Do(ReadLocal(0))
6 0 1 Leave
7 0 0 Do(AbortThread)
8 0 1 Leave
Named(SymbolId(6)) 0 5 1 2
AbortThread 0 7 0 0
"#,
        Told::All,
    )
}

#[test]
fn a_loop_goes_back_to_its_test(rt: HostRuntime) -> Result<(), Fail> {
    check_case(
        &rt,
        rt.alloc(),
        "(loop (print 1))",
        r#"0 0 0 Do(Push(Value { node: Symbol(SymbolId(1)) }))
1 0 1 LoopTest(6)
2 13 0 Do(Push(Value { node: Int(1) }))
3 6 1 Ask(Print(Print))
4 0 1 Do(Discard)
5 0 0 Jump(0)
6 0 1 Ask(EndThread)
7 0 0 Do(AbortThread)
8 0 1 Leave
AbortThread 0 7 0 0
"#,
        Told::All,
    )
}

#[test]
fn clauses_go_on_after_their_form(rt: HostRuntime) -> Result<(), Fail> {
    check_case(
        &rt,
        rt.alloc(),
        "(handler-case 1 (error () 2) (timeout (e) e))",
        r#"0 0 0 EnterHandler(0)
1 14 0 Do(Push(Value { node: Int(1) }))
2 0 1 LeaveHandler(9)
3 26 0 Do(Push(Value { node: Int(2) }))
4 0 1 Jump(9)
5 0 1 Do(BindLocal(0, 0))
6 42 0 Do(ReadLocal(0))
7 0 1 Do(ForgetLocal)
8 0 1 Jump(9)
9 0 1 Ask(EndThread)
10 0 0 Do(AbortThread)
11 0 1 Leave
clauses Error false 3 Timeout true 5
AbortThread 0 10 0 0
"#,
        Told::All,
    )?;
    check_case(
        &rt,
        rt.alloc(),
        "(handler-case (handler-case 1 (error () 2)) (error () 3))",
        r#"0 0 0 EnterHandler(0)
1 14 0 EnterHandler(1)
2 28 0 Do(Push(Value { node: Int(1) }))
3 14 1 LeaveHandler(6)
4 40 0 Do(Push(Value { node: Int(2) }))
5 14 1 Jump(6)
6 0 1 LeaveHandler(9)
7 54 0 Do(Push(Value { node: Int(3) }))
8 0 1 Jump(9)
9 0 1 Ask(EndThread)
10 0 0 Do(AbortThread)
11 0 1 Leave
clauses Error false 7
clauses Error false 4
AbortThread 0 10 0 0
"#,
        Told::All,
    )
}

#[test]
fn frames_are_opened_and_left(rt: HostRuntime) -> Result<(), Fail> {
    check_case(
        &rt,
        rt.alloc(),
        "(unwind-protect 1 2 3)",
        r#"0 0 0 EnterProtect(3)
1 16 0 Do(Push(Value { node: Int(1) }))
2 0 1 LeaveProtect
3 18 0 Do(Push(Value { node: Int(2) }))
4 0 1 Do(Discard)
5 20 0 Do(Push(Value { node: Int(3) }))
6 0 1 LeaveCleanup
7 0 1 Ask(EndThread)
8 0 0 Do(AbortThread)
9 0 1 Leave
AbortThread 0 8 0 0
"#,
        Told::All,
    )?;
    check_case(
        &rt,
        rt.alloc(),
        "(block b (return-from b 1))",
        r#"0 0 0 Enter(Block(0), 4)
1 24 0 Do(Push(Value { node: Int(1) }))
2 9 1 Do(ReturnFrom(0))
3 0 1 Leave
4 0 1 Ask(EndThread)
5 0 0 Do(AbortThread)
6 0 1 Leave
AbortThread 0 5 0 0
"#,
        Told::All,
    )?;
    check_case(
        &rt,
        rt.alloc(),
        "(catch 'a (throw 'a 1))",
        r#"0 7 0 Do(Push(Value { node: Symbol(SymbolId(7)) }))
1 0 1 Enter(Catch, 6)
2 17 0 Do(Push(Value { node: Symbol(SymbolId(7)) }))
3 20 1 Do(Push(Value { node: Int(1) }))
4 10 2 Do(Throw)
5 0 1 Leave
6 0 1 Ask(EndThread)
7 0 0 Do(AbortThread)
8 0 1 Leave
AbortThread 0 7 0 0
"#,
        Told::All,
    )?;
    check_case(
        &rt,
        rt.alloc(),
        "(without-interrupts (allow-with-interrupts 1))",
        r#"0 0 0 Enter(WithoutInterrupts(0), 5)
1 20 0 Enter(AllowWithInterrupts(0), 4)
2 43 0 Do(Push(Value { node: Int(1) }))
3 20 1 Leave
4 0 1 Leave
5 0 1 Ask(EndThread)
6 0 0 Do(AbortThread)
7 0 1 Leave
AbortThread 0 6 0 0
"#,
        Told::All,
    )
}

#[test]
fn a_timed_wait_asks_the_clock(rt: HostRuntime) -> Result<(), Fail> {
    check_case(
        &rt,
        rt.alloc(),
        "(condition-wait 1 2 :timeout 3)",
        r#"0 16 0 Do(Push(Value { node: Int(1) }))
1 18 1 Do(Push(Value { node: Int(2) }))
2 29 2 Do(Push(Value { node: Int(3) }))
3 0 3 Test(Serve(ConditionWait { timeout: true }, Clock), 5)
4 0 3 Ask(Serve(ConditionWait { timeout: true }, Begin))
5 0 3 Test(Serve(ConditionWait { timeout: true }, Wake), 7)
6 0 3 Ask(Serve(ConditionWait { timeout: true }, Regrab))
7 0 1 Ask(EndThread)
8 0 0 Do(AbortThread)
9 0 1 Leave
AbortThread 0 8 0 0
"#,
        Told::All,
    )
}
