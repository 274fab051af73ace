//! Which programs are refused for their names and for what stands round their forms, and which of two refusals is given.
use crate::cases::check;
use crate::tables::Told;
use std::test::Fail;

#[test]
fn symbols_that_are_no_variables_are_refused(rt: HostRuntime) -> Result<(), Fail> {
    check(
        &rt,
        rt.alloc(),
        r#"cases: 83
x => refusal UnknownVariable at 0
(print x) => refusal UnknownVariable at 7
(+ 1 x) => refusal UnknownVariable at 5
(+ x y) => refusal UnknownVariable at 3
(if x 1 2) => refusal UnknownVariable at 4
(if 1 2 x) => refusal UnknownVariable at 8
(progn 1 x) => refusal UnknownVariable at 9
(setq x 1) => refusal UnknownVariable at 6
(setf x 1) => refusal UnknownVariable at 6
(setq *x* 1 y 2) (defvar *x*) => refusal UnknownVariable at 12
(setq *x* y) (defvar *x*) => refusal UnknownVariable at 10
(incf x) => refusal UnknownVariable at 6
(decf x 1) => refusal UnknownVariable at 6
(let ((x 1)) (incf x d)) => refusal UnknownVariable at 21
(let ((y x)) y) => refusal UnknownVariable at 9
(let ((x 1) (y x)) y) => refusal UnknownVariable at 15
(let ((x x)) x) => refusal UnknownVariable at 9
(let ((x 1)) x) x => refusal UnknownVariable at 16
(let* ((x x)) x) => refusal UnknownVariable at 10
(let* ((x y) (y 1)) x) => refusal UnknownVariable at 10
(let* ((x 1)) x) x => refusal UnknownVariable at 17
(block b b) => refusal UnknownVariable at 9
(block b (return-from b x)) => refusal UnknownVariable at 24
(loop (return x)) => refusal UnknownVariable at 14
(catch x 1) => refusal UnknownVariable at 7
(throw x 1) => refusal UnknownVariable at 7
(throw 1 x) => refusal UnknownVariable at 9
(unwind-protect x 1) => refusal UnknownVariable at 16
(unwind-protect 1 x) => refusal UnknownVariable at 18
(without-interrupts x) => refusal UnknownVariable at 20
(handler-case e (error (e) e)) => refusal UnknownVariable at 14
(handler-case 1 (error (e) e) (timeout () e)) => refusal UnknownVariable at 42
(handler-case 1 (error (e) e)) e => refusal UnknownVariable at 31
(with-deadline (:seconds x) 1) => refusal UnknownVariable at 25
(with-deadline (:override x) 1) => refusal UnknownVariable at 26
(with-deadline () x) => refusal UnknownVariable at 18
(return-from-thread x) => refusal UnknownVariable at 20
(when x 1) => refusal UnknownVariable at 6
(unless 1 x) => refusal UnknownVariable at 10
(cond (x)) => refusal UnknownVariable at 7
(cond (1 2) (3 x)) => refusal UnknownVariable at 15
(and 1 x) => refusal UnknownVariable at 7
(or x 1) => refusal UnknownVariable at 4
(or 1 2 x) => refusal UnknownVariable at 8
(prog1 x) => refusal UnknownVariable at 7
(prog1 1 x) => refusal UnknownVariable at 9
(loop x) => refusal UnknownVariable at 6
(dotimes (i i) 1) => refusal UnknownVariable at 12
(dotimes (i 1) j) => refusal UnknownVariable at 15
(dotimes (i 1 j) i) => refusal UnknownVariable at 14
(dotimes (i 1) i) i => refusal UnknownVariable at 18
(ignore-errors x) => refusal UnknownVariable at 15
(with-mutex (m) 1) => refusal UnknownVariable at 13
(with-mutex (1 :timeout s) 1) => refusal UnknownVariable at 24
(with-recursive-lock (1) x) => refusal UnknownVariable at 25
(with-timeout s 1) => refusal UnknownVariable at 14
(with-timeout 1 x) => refusal UnknownVariable at 16
(terminate-thread x) => refusal UnknownVariable at 18
(join-thread 1 :default d) => refusal UnknownVariable at 24
(format t "~a" x) => refusal UnknownVariable at 15
(max x) => refusal UnknownVariable at 5
(defun f (x) x) x => refusal UnknownVariable at 16
(defun f (x) y) => refusal UnknownVariable at 13
(f x) (defun f (x) x) => refusal UnknownVariable at 3
(let ((x 1)) (f)) (defun f () x) => refusal UnknownVariable at 30
(let ((x 1)) (make-thread (lambda () x))) => refusal UnknownVariable at 37
(make-thread (lambda (x) x)) x => refusal UnknownVariable at 29
(make-thread (lambda (x) (make-thread (lambda () x)))) => refusal UnknownVariable at 49
(make-thread (lambda (x) x) :arguments x) => refusal UnknownVariable at 39
(defvar *x* y) => refusal UnknownVariable at 12
(defparameter *x* y) => refusal UnknownVariable at 18
(defun f () 1) (print f) => refusal UnknownVariable at 22
-- a definition that is none
*x* (progn (defvar *x* 1)) => refusal UnknownVariable at 0
(print *x*) (defvar *x* 1 2) => refusal UnknownVariable at 7
*x* (defparameter *x*) => refusal UnknownVariable at 0
-- special variables that are compared and swapped
(compare-and-swap (symbol-value 'x) 1 2) => refusal UnknownVariable at 33
(compare-and-swap (symbol-value 'nil) 1 2) => refusal UnknownVariable at 33
(compare-and-swap (symbol-value 't) 1 2) => refusal UnknownVariable at 33
(compare-and-swap (symbol-value ':k) 1 2) => refusal UnknownVariable at 33
(compare-and-swap (symbol-value '*current-thread*) 1 2) => refusal UnknownVariable at 33
(compare-and-swap (symbol-value (quote x)) 1 2) => refusal UnknownVariable at 39
(let ((x 1)) (compare-and-swap (symbol-value 'x) 1 2)) => refusal UnknownVariable at 46
(defvar *x*) (compare-and-swap (symbol-value '*x*) y 2) => refusal UnknownVariable at 51
"#,
        Told::Verdict,
    )
}

#[test]
fn functions_stand_in_their_places(rt: HostRuntime) -> Result<(), Fail> {
    check(
        &rt,
        rt.alloc(),
        r#"cases: 58
(lambda () 1) => refusal FunctionPlace at 0
#'f (defun f () 1) => refusal FunctionPlace at 0
(function f) (defun f () 1) => refusal FunctionPlace at 0
#'(lambda () 1) => refusal FunctionPlace at 2
(print (lambda (x) x)) => refusal FunctionPlace at 7
(print #'(lambda (x) x)) => refusal FunctionPlace at 9
(print #'f) (defun f () 1) => refusal FunctionPlace at 7
(lambda () (foo)) => refusal FunctionPlace at 0
(lambda (x x) 1) => refusal FunctionPlace at 0
(let ((f (lambda () 1))) f) => refusal FunctionPlace at 9
(setq *x* #'f) (defvar *x*) (defun f () 1) => refusal FunctionPlace at 10
(f #'f) (defun f (x) x) => refusal FunctionPlace at 3
(make-thread (lambda () (lambda () 1))) => refusal FunctionPlace at 24
(make-thread (lambda () 1) :name (lambda () 1)) => refusal FunctionPlace at 33
(interrupt-thread (lambda () 1) (lambda () 1)) => refusal FunctionPlace at 18
(schedule-timer (lambda () 1) 1) => refusal FunctionPlace at 16
(if 1 (lambda () 1)) => refusal FunctionPlace at 6
(defun f () #'f) => refusal FunctionPlace at 12
-- what is none
(make-thread 5) => refusal FunctionPlace at 13
(make-thread "a") => refusal FunctionPlace at 13
(make-thread nil) => refusal FunctionPlace at 13
(make-thread 'a) => refusal FunctionPlace at 13
(make-thread *current-thread*) => refusal FunctionPlace at 13
(make-thread *x*) (defvar *x*) => refusal FunctionPlace at 13
(make-thread (progn)) => refusal FunctionPlace at 13
(make-thread (progn (foo))) => refusal FunctionPlace at 13
(make-thread (print x)) => refusal FunctionPlace at 13
(make-thread (f)) (defun f () 1) => refusal FunctionPlace at 13
(make-thread (make-thread (lambda () 1))) => refusal FunctionPlace at 13
(interrupt-thread 1 2) => refusal FunctionPlace at 20
(interrupt-thread x 2) => refusal UnknownVariable at 18
(interrupt-thread (foo) 2) => refusal UnknownOperator at 18
(make-timer :k) => refusal FunctionPlace at 12
(make-timer (if 1 (lambda () 1))) => refusal FunctionPlace at 12
-- what is refused there for something else at the same place
(make-thread (foo)) => refusal UnknownOperator at 13
(make-thread ()) => refusal UnknownOperator at 13
(make-thread ((lambda () 1))) => refusal UnknownOperator at 13
(make-thread (print)) => refusal BadForm at 13
(make-thread (defun f () 1)) => refusal BadForm at 13
(make-thread (declare)) => refusal BadForm at 13
(make-thread (quote)) => refusal BadForm at 13
(make-thread '(a)) => refusal BadForm at 13
(make-thread #'5) => refusal BadForm at 13
(make-thread #'(foo)) => refusal BadForm at 13
(make-thread (function)) => refusal BadForm at 13
(make-thread (function f g)) (defun f () 1) => refusal BadForm at 13
(make-thread (lambda)) => refusal BadForm at 13
(make-thread (lambda nil 1)) => refusal BadForm at 13
(make-thread #'(lambda x 1)) => refusal BadForm at 15
(make-thread x) => refusal UnknownVariable at 13
(make-thread (lambda (x x) 1)) => refusal DefinedTwice at 13
(make-thread #'(lambda (x y x) 1)) => refusal DefinedTwice at 15
-- what would be refused with a greater number, or inside
(make-thread (return)) => refusal FunctionPlace at 13
(make-thread (allow-with-interrupts 1)) => refusal FunctionPlace at 13
(make-thread (setq x 1)) => refusal FunctionPlace at 13
(make-thread (compare-and-swap (symbol-value 'x) 1 2)) => refusal FunctionPlace at 13
(make-thread (let ((x 1) (x 2)) 1)) => refusal FunctionPlace at 13
(make-thread (+ ‹65×1 ›)) => refusal FunctionPlace at 13
"#,
        Told::Verdict,
    )
}

#[test]
fn regions_and_exits_have_what_they_need_round_them(rt: HostRuntime) -> Result<(), Fail> {
    check(
        &rt,
        rt.alloc(),
        r#"cases: 35
(allow-with-interrupts 1) => refusal RegionOutside at 0
(with-local-interrupts) => refusal RegionOutside at 0
(allow-with-interrupts (foo)) => refusal RegionOutside at 0
(with-interrupts (allow-with-interrupts 1)) => refusal RegionOutside at 17
(with-interrupts (with-local-interrupts 1)) => refusal RegionOutside at 17
(without-interrupts 1) (allow-with-interrupts 1) => refusal RegionOutside at 23
(without-interrupts (make-thread (lambda () (allow-with-interrupts 1)))) => refusal RegionOutside at 44
(without-interrupts (f)) (defun f () (with-local-interrupts 1)) => refusal RegionOutside at 37
(with-mutex (1) (allow-with-interrupts 2)) => refusal RegionOutside at 16
(with-recursive-lock (1) (with-local-interrupts 2)) => refusal RegionOutside at 25
(with-mutex (1 :timeout (allow-with-interrupts 2)) 3) => refusal RegionOutside at 24
(return) => refusal NoSuchBlock at 0
(return 1) => refusal NoSuchBlock at 0
(return (foo)) => refusal NoSuchBlock at 0
(return-from a) => refusal NoSuchBlock at 0
(return-from a (foo)) => refusal NoSuchBlock at 0
(block a (return)) => refusal NoSuchBlock at 9
(block a (return-from b 1)) => refusal NoSuchBlock at 9
(progn (block a 1) (return-from a 1)) => refusal NoSuchBlock at 19
(let ((a 1)) (return-from a)) => refusal NoSuchBlock at 13
(catch 'a (return-from a)) => refusal NoSuchBlock at 10
(ignore-errors (return)) => refusal NoSuchBlock at 15
(loop 1) (return) => refusal NoSuchBlock at 9
(dotimes (i 2) i) (return) => refusal NoSuchBlock at 18
(block t (return)) => refusal NoSuchBlock at 9
(loop (return-from loop)) => refusal NoSuchBlock at 6
(defun f () 1) (return-from f) => refusal NoSuchBlock at 15
(defun f () 1) (defun g () (return-from f)) => refusal NoSuchBlock at 27
(defun f () (return)) => refusal NoSuchBlock at 12
(block b (f)) (defun f () (return-from b)) => refusal NoSuchBlock at 26
-- what a `lambda` takes away
(block a (make-thread (lambda () (return-from a)))) => refusal NoSuchBlock at 33
(loop (make-thread (lambda () (return)))) => refusal NoSuchBlock at 30
(dotimes (i 2) (make-thread (lambda () (return i)))) => refusal NoSuchBlock at 39
(defun f () (make-thread (lambda () (return-from f)))) => refusal NoSuchBlock at 36
(block a (make-timer #'(lambda () (return-from a 1)))) => refusal NoSuchBlock at 34
"#,
        Told::Verdict,
    )
}

#[test]
fn definitions_and_variables_that_stand_twice_are_refused(rt: HostRuntime) -> Result<(), Fail> {
    check(
        &rt,
        rt.alloc(),
        r#"cases: 38
(defvar *x* 1) (defvar *x* 2) => refusal DefinedTwice at 15
(defvar *x*) (defvar *x*) => refusal DefinedTwice at 13
(defvar *x* 1) (defparameter *x* 2) => refusal DefinedTwice at 15
(defparameter *x* 1) (defvar *x*) => refusal DefinedTwice at 21
(defparameter *x* 1) (defparameter *x* (foo)) => refusal DefinedTwice at 21
(defvar *x*) (defvar *x* y) => refusal DefinedTwice at 13
(defun f () 1) (defun f () 1) => refusal DefinedTwice at 15
(defun f () 1) (defun f (x) (foo)) => refusal DefinedTwice at 15
(defun f () 1) (defun f (x x) 1) => refusal DefinedTwice at 15
(f 1) (defun f (x) x) (defun f () 1) => refusal DefinedTwice at 22
(let ((x 1) (x 2)) x) => refusal DefinedTwice at 0
(let (x y x) 1) => refusal DefinedTwice at 0
(let ((x 1) (x (foo))) 1) => refusal DefinedTwice at 0
(defvar a) (let (a (a 1)) 1) => refusal DefinedTwice at 11
(let* ((x 1) (x 2)) x) => refusal DefinedTwice at 0
(let* (x (y x) (x y)) x) => refusal DefinedTwice at 0
(defun f (x x) 1) => refusal DefinedTwice at 0
(defun f (&optional x &optional) 1) => refusal DefinedTwice at 0
(f) (defun f (x x) 1) => refusal DefinedTwice at 4
-- built-in names
(defun print (x) x) => refusal DefinedTwice at 0
(defun progn () 1) => refusal DefinedTwice at 0
(defun lambda () 1) => refusal DefinedTwice at 0
(defun quote () 1) => refusal DefinedTwice at 0
(defun function () 1) => refusal DefinedTwice at 0
(defun declare () 1) => refusal DefinedTwice at 0
(defun defvar () 1) => refusal DefinedTwice at 0
(defun in-package () 1) => refusal DefinedTwice at 0
(defun use-package () 1) => refusal DefinedTwice at 0
(defun setf () 1) => refusal DefinedTwice at 0
(defun error () 1) => refusal DefinedTwice at 0
(defun + (x y) x) => refusal DefinedTwice at 0
(defun 1+ (x) x) => refusal DefinedTwice at 0
(defun format () 1) => refusal DefinedTwice at 0
(defun terminate-thread () 1) => refusal DefinedTwice at 0
(defun with-timeout () 1) => refusal DefinedTwice at 0
(defun condition-broadcast () 1) => refusal DefinedTwice at 0
(defun make-mutex () (foo)) => refusal DefinedTwice at 0
(make-mutex) (defun make-mutex (x x) 1) => refusal DefinedTwice at 13
"#,
        Told::Verdict,
    )
}

#[test]
fn of_all_refusals_that_with_the_least_place_is_given(rt: HostRuntime) -> Result<(), Fail> {
    check(
        &rt,
        rt.alloc(),
        r#"cases: 26
(return) (foo) => refusal NoSuchBlock at 0
(defvar *x*) (defvar *x*) (print) => refusal DefinedTwice at 13
(lambda () 1) y (print) => refusal FunctionPlace at 0
(print x) (foo) => refusal UnknownVariable at 7
(setq x (foo)) => refusal UnknownVariable at 6
(incf x (foo)) => refusal UnknownVariable at 6
(+ x (print) y) => refusal UnknownVariable at 3
(print (foo) (bar)) (baz) => refusal BadForm at 0
(let ((x 1) (nil (foo))) y) => refusal BadForm at 0
(handler-case (foo) (bar () 1)) => refusal BadForm at 0
(defun f (5) (foo)) => refusal BadForm at 0
(format t "~q" (foo)) => refusal BadForm at 0
(with-mutex ((foo) 1) (bar)) => refusal BadForm at 0
(cond ((foo)) 2) => refusal BadForm at 0
(dotimes (i (foo) x) y) => refusal UnknownOperator at 12
(cond ((foo)) (x)) => refusal UnknownOperator at 7
(with-timeout (foo) x) => refusal UnknownOperator at 14
(make-thread (lambda () (foo))) x => refusal UnknownOperator at 24
(defun f () (foo)) x => refusal UnknownOperator at 12
(or 1 (allow-with-interrupts (foo)) (bar)) => refusal RegionOutside at 6
(print 1) (if 1)  (if) => refusal BadForm at 10
(make-thread (lambda (x) (setq nil 1)) :name y) => refusal BadForm at 25
(handler-case x (error (e) (foo))) => refusal UnknownVariable at 14
(prog1 1 (setq) (foo)) => refusal BadForm at 9
(let ((a x) (b (foo))) 1) => refusal UnknownVariable at 9
(compare-and-swap (symbol-value 'x) (foo) 1) => refusal UnknownVariable at 33
"#,
        Told::Verdict,
    )
}
