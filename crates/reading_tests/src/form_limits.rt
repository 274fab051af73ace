//! How many arguments, variables, clauses and definitions there may be: the last number that is allowed, and the first that is not.
use crate::cases::check;
use crate::tables::Told;
use std::test::Fail;

#[test]
fn forms_have_64_arguments_at_most(rt: HostRuntime) -> Result<(), Fail> {
    check(
        &rt,
        rt.alloc(),
        r#"cases: 24
(+ ‹64×1 ›) => accepted
(+ ‹65×1 ›) => refusal TooMany at 0
(* ‹65×1 ›) => refusal TooMany at 0
(- ‹65×(foo) ›) => refusal TooMany at 0
(print (max ‹65×1 ›)) => refusal TooMany at 7
(min ‹65×1 ›) => refusal TooMany at 0
(f ‹64×1 ›) (defun f ()) => accepted
(f ‹65×1 ›) (defun f ()) => refusal TooMany at 0
(f ‹65×(foo) ›) (defun f ()) => refusal TooMany at 0
(format t "a" ‹64×1 ›) => accepted
(format t "a" ‹65×1 ›) => refusal TooMany at 0
(format t "‹64×~a›" ‹64×1 ›) => accepted
(format t "‹66×~a›" ‹65×1 ›) => refusal BadForm at 0
(print ‹65×1 ›) => refusal BadForm at 0
(make-mutex ‹65×1 ›) => refusal BadForm at 0
-- what is no argument
(progn ‹65×1 ›) => accepted
(and ‹65×1 ›) => accepted
(or ‹65×1 ›) => accepted
(cond ‹65×(1) ›) => accepted
(let ((x 1)) (setq ‹65×x 1 ›)) => accepted
(block b ‹65×1 ›) => accepted
(unwind-protect ‹65×1 ›) => accepted
(dotimes (i 1) ‹65×i ›) => accepted
‹65×1 › => accepted
"#,
        Told::Verdict,
    )
}

#[test]
fn forms_have_64_variables_at_most(rt: HostRuntime) -> Result<(), Fail> {
    check(
        &rt,
        rt.alloc(),
        r#"cases: 21
(let (‹64×x№ ›) 1) => accepted
(let (‹65×x№ ›) 1) => refusal TooMany at 0
(let (‹65×(x№ (foo))›) 1) => refusal TooMany at 0
(let (‹65×x№ ›x0) 1) => refusal TooMany at 0
(let (‹65×x ›) 1) => refusal TooMany at 0
(let (‹65×x№ ›nil) 1) => refusal BadForm at 0
(let* (‹64×x№ ›) x63) => accepted
(let* (‹65×x№ ›) 1) => refusal TooMany at 0
(let* (‹65×x ›) 1) => refusal TooMany at 0
(let* (‹64×x№ ›) (let* (‹64×x№ ›) x63)) => accepted
(let (‹64×x№ ›) (let (‹64×x№ ›) 1)) => accepted
(defun f (‹64×x№ ›) x63) => accepted
(defun f (‹65×x№ ›) 1) => refusal TooMany at 0
(defun f (‹65×x ›) 1) => refusal TooMany at 0
(f) (defun f (‹65×x№ ›) 1) => refusal TooMany at 4
(defun print (‹65×x№ ›) 1) => refusal TooMany at 0
(defun f ()) (defun f (‹65×x№ ›)) => refusal TooMany at 13
(make-thread (lambda (‹64×x№ ›) x63)) => accepted
(make-thread (lambda (‹65×x№ ›) 1)) => refusal TooMany at 13
(make-thread #'(lambda (‹65×x№ ›) (foo))) => refusal TooMany at 15
(lambda (‹65×x№ ›) 1) => refusal FunctionPlace at 0
"#,
        Told::Verdict,
    )
}

#[test]
fn handlers_have_16_clauses_at_most(rt: HostRuntime) -> Result<(), Fail> {
    check(
        &rt,
        rt.alloc(),
        r#"cases: 5
(handler-case 1 ‹16×(error ())›) => accepted
(handler-case 1 ‹17×(error ())›) => refusal TooMany at 0
(handler-case (foo) ‹17×(error () (bar))›) => refusal TooMany at 0
(handler-case 1 ‹17×(error ())›(foo ())) => refusal BadForm at 0
(print (handler-case 1 ‹17×(error (e) e)›)) => refusal TooMany at 7
"#,
        Told::Verdict,
    )
}

#[test]
fn programs_have_256_special_variables_at_most(rt: HostRuntime) -> Result<(), Fail> {
    check(
        &rt,
        rt.alloc(),
        r#"cases: 9
‹256×(defvar x№)› => accepted
‹256×(defvar x№)›(defvar y) => refusal TooMany at 3218
‹256×(defvar x№)›(defparameter y (foo)) => refusal TooMany at 3218
x256 ‹256×(defvar x№)›(defvar x256) => refusal TooMany at 3223
‹128×(defvar x№)›‹128..256×(defparameter x№ 1)›(defvar y) (defvar z) => refusal TooMany at 4242
‹256×(defvar x№)›(defvar x0) => refusal DefinedTwice at 3218
‹255×(defvar x№)›(defvar x0)(defvar y) => refusal DefinedTwice at 3205
‹256×(defvar x№)›(defvar y 1 2) => refusal BadForm at 3218
‹256×(defvar x№)›(progn (defvar y)) => refusal BadForm at 3225
"#,
        Told::Verdict,
    )
}

#[test]
fn programs_have_1024_functions_at_most(rt: HostRuntime) -> Result<(), Fail> {
    check(
        &rt,
        rt.alloc(),
        r#"cases: 10
‹1024×(defun f№ ())› => accepted
‹1024×(defun f№ ())›(defun g ()) => refusal TooMany at 15274
(g)‹1024×(defun f№ ())›(defun g ()) => refusal TooMany at 15277
‹1024×(defun f№ ())›(defun f0 ()) => refusal DefinedTwice at 15274
‹1024×(defun f№ ())›(defun print ()) => refusal DefinedTwice at 15274
‹1024×(defun f№ ())›(defun print (x x)) => refusal DefinedTwice at 15274
‹1023×(defun f№ ())›(make-thread (lambda ())) (defun progn ()) => refusal DefinedTwice at 15284
‹1024×(defun f№ ())›(defun g (x x)) => refusal TooMany at 15274
‹1024×(defun f№ ())›(defun f0 (x x)) => refusal DefinedTwice at 15274
‹1024×(defun f№ ())›(defun g nil) => refusal BadForm at 15274
"#,
        Told::Verdict,
    )
}

#[test]
fn each_lambda_and_each_with_timeout_is_a_function(rt: HostRuntime) -> Result<(), Fail> {
    check(
        &rt,
        rt.alloc(),
        r#"cases: 12
‹1024×(make-thread (lambda ()))› => accepted
‹1024×(make-thread (lambda ()))›(make-thread (lambda ())) => refusal TooMany at 25613
‹1024×(make-thread (lambda ()))›(make-thread (lambda (x x))) => refusal TooMany at 25613
‹1024×(make-thread #'(lambda ()))›(make-thread #'(lambda ())) => refusal TooMany at 27663
‹1024×(with-timeout 1)›(with-timeout (foo)) => refusal TooMany at 16384
‹1024×(make-thread (lambda ()))›(lambda ()) => refusal FunctionPlace at 25600
-- a function comes before those in it
‹1023×(defun f№ ())›(defun g () (make-thread (lambda ()))) => refusal TooMany at 15283
‹1023×(make-thread (lambda ()))›(make-thread (lambda () (make-thread (lambda ())))) => refusal TooMany at 25612
‹1023×(make-thread (lambda ()))›(with-timeout 1 (make-thread (lambda ()))) => refusal TooMany at 25604
‹1023×(make-thread (lambda ()))›(with-timeout 1 (with-timeout 1)) => refusal TooMany at 25591
-- what makes none
‹1024×(make-thread (lambda ()))›(terminate-thread 1) => accepted
‹1024×(defun f№ ())›(make-thread #'f0) => accepted
"#,
        Told::Verdict,
    )
}
