//! Which programs are refused for the shapes of their forms: the name and the place of the refusal.
use crate::cases::check;
use crate::tables::Told;
use std::test::Fail;

#[test]
fn forms_without_an_operator_are_refused(rt: HostRuntime) -> Result<(), Fail> {
    check(
        &rt,
        rt.alloc(),
        r#"cases: 44
-- heads that are no symbols
() => refusal UnknownOperator at 0
(1 2) => refusal UnknownOperator at 0
(1.5) => refusal UnknownOperator at 0
("print" 1) => refusal UnknownOperator at 0
((progn) 1) => refusal UnknownOperator at 0
((lambda () 1)) => refusal UnknownOperator at 0
('print 1) => refusal UnknownOperator at 0
(print ()) => refusal UnknownOperator at 7
(if 1 () 2) => refusal UnknownOperator at 6
(let ((x ())) x) => refusal UnknownOperator at 9
(setq *x* ()) (defvar *x*) => refusal UnknownOperator at 10
-- symbols that are no operators
(foo) => refusal UnknownOperator at 0
(nil) => refusal UnknownOperator at 0
(t 1) => refusal UnknownOperator at 0
(:k) => refusal UnknownOperator at 0
(*current-thread*) => refusal UnknownOperator at 0
(while t 1) => refusal UnknownOperator at 0
(signal-timeout) => refusal UnknownOperator at 0
(symbol-value 'x) => refusal UnknownOperator at 0
(special x) => refusal UnknownOperator at 0
(foo (bar)) => refusal UnknownOperator at 0
(print (foo 1)) => refusal UnknownOperator at 7
(+ 1 (foo) (bar)) => refusal UnknownOperator at 5
(block b (b)) => refusal UnknownOperator at 9
(let ((f 1)) (f)) => refusal UnknownOperator at 13
(defvar f 1) (f) => refusal UnknownOperator at 13
(defun f (g) (g)) => refusal UnknownOperator at 13
-- a definition without its shape defines no function
(f) (defun f nil 1) => refusal UnknownOperator at 0
(f) (progn (defun f () 1)) => refusal UnknownOperator at 0
(f) (defun f (5) 1) => refusal UnknownOperator at 0
(f) (defun f (t) 1) => refusal UnknownOperator at 0
(f) (defun f) => refusal UnknownOperator at 0
-- functions that are none of the program's
#'foo => refusal UnknownOperator at 0
#'print => refusal UnknownOperator at 0
(function progn) => refusal UnknownOperator at 0
#'nil => refusal UnknownOperator at 0
(make-thread #'foo) => refusal UnknownOperator at 13
(make-thread #'print) => refusal UnknownOperator at 13
(make-thread #'print) (defun print () 1) => refusal UnknownOperator at 13
(make-thread (function +)) (defun + (x x) 1) => refusal UnknownOperator at 13
#'progn (defun progn () 1) => refusal UnknownOperator at 0
(make-thread (function foo)) => refusal UnknownOperator at 13
(interrupt-thread *current-thread* #'foo) => refusal UnknownOperator at 35
(defvar f 1) (make-thread #'f) => refusal UnknownOperator at 26
"#,
        Told::Verdict,
    )
}

#[test]
fn core_forms_without_their_shape_are_refused(rt: HostRuntime) -> Result<(), Fail> {
    check(
        &rt,
        rt.alloc(),
        r#"cases: 79
(quote) => refusal BadForm at 0
(quote a b) => refusal BadForm at 0
'(a) => refusal BadForm at 0
'(() a) => refusal BadForm at 0
''a => refusal BadForm at 0
(quote () ()) => refusal BadForm at 0
(if) => refusal BadForm at 0
(if 1) => refusal BadForm at 0
(if 1 2 3 4) => refusal BadForm at 0
(let) => refusal BadForm at 0
(let x) => refusal BadForm at 0
(let x 1) => refusal BadForm at 0
(let nil 1) => refusal BadForm at 0
(let 5 1) => refusal BadForm at 0
(let (5) 1) => refusal BadForm at 0
(let (x 1) x) => refusal BadForm at 0
(let ("x") 1) => refusal BadForm at 0
(let (()) 1) => refusal BadForm at 0
(let ((x 1 2)) 1) => refusal BadForm at 0
(let ((5 1)) 1) => refusal BadForm at 0
(let (((x) 1)) 1) => refusal BadForm at 0
(let* x 1) => refusal BadForm at 0
(let* nil 1) => refusal BadForm at 0
(let* ((x 1 2)) 1) => refusal BadForm at 0
(setq) => refusal BadForm at 0
(setf) => refusal BadForm at 0
(setq x) => refusal BadForm at 0
(setq a 1 b) => refusal BadForm at 0
(setq 5 1) => refusal BadForm at 0
(setq (x) 1) => refusal BadForm at 0
(setf (symbol-value 'x) 1) => refusal BadForm at 0
(compare-and-swap) => refusal BadForm at 0
(compare-and-swap (symbol-value 'x) 1) => refusal BadForm at 0
(compare-and-swap (symbol-value 'x) 1 2 3) => refusal BadForm at 0
(compare-and-swap x 1 2) => refusal BadForm at 0
(compare-and-swap 'x 1 2) => refusal BadForm at 0
(compare-and-swap (symbol-value x) 1 2) => refusal BadForm at 0
(compare-and-swap (symbol-value '5) 1 2) => refusal BadForm at 0
(compare-and-swap (symbol-value '(x)) 1 2) => refusal BadForm at 0
(compare-and-swap (symbol-value 'x 1) 1 2) => refusal BadForm at 0
(compare-and-swap (symbol-name 'x) 1 2) => refusal BadForm at 0
(compare-and-swap () 1 2) => refusal BadForm at 0
(block) => refusal BadForm at 0
(block 5 1) => refusal BadForm at 0
(block (b) 1) => refusal BadForm at 0
(block "b" 1) => refusal BadForm at 0
(block b (return-from)) => refusal BadForm at 9
(block b (return-from b 1 2)) => refusal BadForm at 9
(block b (return-from (b) 1)) => refusal BadForm at 9
(return-from 5) => refusal BadForm at 0
(block nil (return 1 2)) => refusal BadForm at 11
(catch) => refusal BadForm at 0
(throw) => refusal BadForm at 0
(throw 1) => refusal BadForm at 0
(throw 1 2 3) => refusal BadForm at 0
(unwind-protect) => refusal BadForm at 0
(error) => refusal BadForm at 0
(error 5) => refusal BadForm at 0
(error 'a) => refusal BadForm at 0
(error x) => refusal BadForm at 0
(error "a" 1) => refusal BadForm at 0
(error "a~%") => refusal BadForm at 0
(error "~~") => refusal BadForm at 0
(abort-thread 1) => refusal BadForm at 0
(return-from-thread) => refusal BadForm at 0
(return-from-thread 1 2) => refusal BadForm at 0
(lambda) => refusal BadForm at 0
(lambda x 1) => refusal BadForm at 0
(lambda nil 1) => refusal BadForm at 0
(lambda (5) 1) => refusal BadForm at 0
(lambda ((x 1)) 1) => refusal BadForm at 0
(function) => refusal BadForm at 0
(function a b) => refusal BadForm at 0
#'5 => refusal BadForm at 0
#'"a" => refusal BadForm at 0
#'() => refusal BadForm at 0
#'(foo) => refusal BadForm at 0
#''a => refusal BadForm at 0
#'(lambda x 1) => refusal BadForm at 2
"#,
        Told::Verdict,
    )
}

#[test]
fn handlers_and_deadlines_without_their_shape_are_refused(rt: HostRuntime) -> Result<(), Fail> {
    check(
        &rt,
        rt.alloc(),
        r#"cases: 24
(handler-case) => refusal BadForm at 0
(handler-case 1 error) => refusal BadForm at 0
(handler-case 1 ()) => refusal BadForm at 0
(handler-case 1 (error)) => refusal BadForm at 0
(handler-case 1 (error x 1)) => refusal BadForm at 0
(handler-case 1 (error nil 1)) => refusal BadForm at 0
(handler-case 1 (error (x y) 1)) => refusal BadForm at 0
(handler-case 1 (error (5) 1)) => refusal BadForm at 0
(handler-case 1 (error ((x)) 1)) => refusal BadForm at 0
(handler-case 1 (foo () 1)) => refusal BadForm at 0
(handler-case 1 (nil () 1)) => refusal BadForm at 0
(handler-case 1 ((error) () 1)) => refusal BadForm at 0
(handler-case 1 ("error" () 1)) => refusal BadForm at 0
(handler-case 1 (:no-error () 1)) => refusal BadForm at 0
(handler-case 1 (error () 1) (foo () 2)) => refusal BadForm at 0
(with-deadline) => refusal BadForm at 0
(with-deadline 5 1) => refusal BadForm at 0
(with-deadline nil 1) => refusal BadForm at 0
(with-deadline (5) 1) => refusal BadForm at 0
(with-deadline (:seconds) 1) => refusal BadForm at 0
(with-deadline (:timeout 1) 1) => refusal BadForm at 0
(with-deadline (:seconds 1 :seconds 2) 1) => refusal BadForm at 0
(with-deadline (:override t :seconds 1) 1) => refusal BadForm at 0
(with-deadline (:seconds 1 2) 1) => refusal BadForm at 0
"#,
        Told::Verdict,
    )
}

#[test]
fn derived_forms_without_their_shape_are_refused(rt: HostRuntime) -> Result<(), Fail> {
    check(
        &rt,
        rt.alloc(),
        r#"cases: 40
(when) => refusal BadForm at 0
(unless) => refusal BadForm at 0
(cond 1) => refusal BadForm at 0
(cond ()) => refusal BadForm at 0
(cond (1) 2) => refusal BadForm at 0
(cond nil) => refusal BadForm at 0
(prog1) => refusal BadForm at 0
(incf) => refusal BadForm at 0
(incf 5) => refusal BadForm at 0
(incf (x)) => refusal BadForm at 0
(incf x 1 2) => refusal BadForm at 0
(decf) => refusal BadForm at 0
(decf "x" 1) => refusal BadForm at 0
(dotimes) => refusal BadForm at 0
(dotimes i 1) => refusal BadForm at 0
(dotimes nil) => refusal BadForm at 0
(dotimes () 1) => refusal BadForm at 0
(dotimes (i) 1) => refusal BadForm at 0
(dotimes (i 1 2 3) 1) => refusal BadForm at 0
(dotimes (5 1) 1) => refusal BadForm at 0
(dotimes ((i) 1) 1) => refusal BadForm at 0
(with-mutex) => refusal BadForm at 0
(with-mutex 1 2) => refusal BadForm at 0
(with-mutex nil 1) => refusal BadForm at 0
(with-mutex () 1) => refusal BadForm at 0
(with-mutex (1 2) 3) => refusal BadForm at 0
(with-mutex (1 :wait-p) 2) => refusal BadForm at 0
(with-mutex (1 :waitp 2) 3) => refusal BadForm at 0
(with-mutex (1 :timeout 2 :wait-p 3) 4) => refusal BadForm at 0
(with-mutex (1 :wait-p 2 :wait-p 3) 4) => refusal BadForm at 0
(with-recursive-lock) => refusal BadForm at 0
(with-recursive-lock 1 2) => refusal BadForm at 0
(with-recursive-lock () 1) => refusal BadForm at 0
(with-recursive-lock (1 2) 3) => refusal BadForm at 0
(with-recursive-lock (1 :timeout 2) 3) => refusal BadForm at 0
(terminate-thread) => refusal BadForm at 0
(terminate-thread 1 2) => refusal BadForm at 0
(with-timeout) => refusal BadForm at 0
(condition-broadcast) => refusal BadForm at 0
(condition-broadcast 1 2) => refusal BadForm at 0
"#,
        Told::Verdict,
    )
}

#[test]
fn functions_with_a_wrong_number_of_arguments_are_refused(rt: HostRuntime) -> Result<(), Fail> {
    check(
        &rt,
        rt.alloc(),
        r#"cases: 82
(print) => refusal BadForm at 0
(print 1 2) => refusal BadForm at 0
(prin1) => refusal BadForm at 0
(princ 1 2) => refusal BadForm at 0
(terpri 1) => refusal BadForm at 0
(-) => refusal BadForm at 0
(max) => refusal BadForm at 0
(min) => refusal BadForm at 0
(1+) => refusal BadForm at 0
(1- 1 2) => refusal BadForm at 0
(abs) => refusal BadForm at 0
(floor 1) => refusal BadForm at 0
(truncate 1 2 3) => refusal BadForm at 0
(mod) => refusal BadForm at 0
(rem 1) => refusal BadForm at 0
(=) => refusal BadForm at 0
(= 1) => refusal BadForm at 0
(/= 1 2 3) => refusal BadForm at 0
(< 1 2 3) => refusal BadForm at 0
(>= 1) => refusal BadForm at 0
(zerop) => refusal BadForm at 0
(eq 1) => refusal BadForm at 0
(eql 1 2 3) => refusal BadForm at 0
(equal) => refusal BadForm at 0
(not) => refusal BadForm at 0
(null 1 2) => refusal BadForm at 0
(symbolp) => refusal BadForm at 0
(integerp) => refusal BadForm at 0
(stringp 1 2) => refusal BadForm at 0
(main-thread 1) => refusal BadForm at 0
(thread-yield 1) => refusal BadForm at 0
(make-thread) => refusal BadForm at 0
(join-thread) => refusal BadForm at 0
(join-thread 1 2) => refusal BadForm at 0
(interrupt-thread 1) => refusal BadForm at 0
(interrupt-thread 1 #'f 2) (defun f () 1) => refusal BadForm at 0
(thread-alive-p) => refusal BadForm at 0
(grab-mutex) => refusal BadForm at 0
(release-mutex) => refusal BadForm at 0
(mutex-owner) => refusal BadForm at 0
(holding-mutex-p 1 2) => refusal BadForm at 0
(condition-wait 1) => refusal BadForm at 0
(condition-notify) => refusal BadForm at 0
(condition-notify 1 2 3) => refusal BadForm at 0
(sleep) => refusal BadForm at 0
(sleep 1 2) => refusal BadForm at 0
(make-timer) => refusal BadForm at 0
(schedule-timer 1) => refusal BadForm at 0
(unschedule-timer) => refusal BadForm at 0
(unschedule-timer 1 2) => refusal BadForm at 0
-- keywords
(make-mutex "a") => refusal BadForm at 0
(make-mutex :name) => refusal BadForm at 0
(make-mutex :name 1 :name 2) => refusal BadForm at 0
(make-waitqueue :named 1) => refusal BadForm at 0
(make-thread (lambda () 1) 2) => refusal BadForm at 0
(make-thread (lambda () 1) :arguments 1 :name 2) => refusal BadForm at 0
(make-thread (lambda () 1) :name 1 2) => refusal BadForm at 0
(make-thread (lambda () 1) name 2) => refusal BadForm at 0
(make-thread :name 1 (lambda () 1)) => refusal BadForm at 0
(join-thread 1 :timeout 2 :default 3) => refusal BadForm at 0
(grab-mutex 1 :timeout 2 :waitp 3) => refusal BadForm at 0
(grab-mutex 1 :wait-p 2) => refusal BadForm at 0
(release-mutex 1 :warn) => refusal BadForm at 0
(condition-wait 1 2 3) => refusal BadForm at 0
(condition-wait 1 2 :timeout) => refusal BadForm at 0
(make-timer (lambda () 1) :thread 1 :name 2) => refusal BadForm at 0
(schedule-timer 1 2 3) => refusal BadForm at 0
(schedule-timer 1 2 :catch-up t :repeat-interval 1) => refusal BadForm at 0
(condition-notify 1 :n 2) => refusal BadForm at 0
-- controls of `format`
(format) => refusal BadForm at 0
(format t) => refusal BadForm at 0
(format nil "a") => refusal BadForm at 0
(format 1 "a") => refusal BadForm at 0
(format t 5) => refusal BadForm at 0
(format t x) => refusal BadForm at 0
(format t "~b" 1) => refusal BadForm at 0
(format t "~") => refusal BadForm at 0
(format t "a~") => refusal BadForm at 0
(format t "~5d" 1) => refusal BadForm at 0
(format t "~a") => refusal BadForm at 0
(format t "~a~%~s~~~D" 1 2) => refusal BadForm at 0
(format "a" t) => refusal BadForm at 0
"#,
        Told::Verdict,
    )
}

#[test]
fn what_may_not_be_a_variable_is_refused(rt: HostRuntime) -> Result<(), Fail> {
    check(
        &rt,
        rt.alloc(),
        r#"cases: 45
(let ((nil 1)) 1) => refusal BadForm at 0
(let ((t 1)) 1) => refusal BadForm at 0
(let (:k) 1) => refusal BadForm at 0
(let (x nil) 1) => refusal BadForm at 0
(let (*current-thread*) 1) => refusal BadForm at 0
(let* ((x 1) (nil x)) 1) => refusal BadForm at 0
(let* ((t)) 1) => refusal BadForm at 0
(let* (*current-thread*) 1) => refusal BadForm at 0
(setq nil 1) => refusal BadForm at 0
(setq t 1) => refusal BadForm at 0
(setq :k 1) => refusal BadForm at 0
(setq *current-thread* 1) => refusal BadForm at 0
(setf nil 1) => refusal BadForm at 0
(setf *current-thread* 1) => refusal BadForm at 0
(setq x 1 t 2) => refusal BadForm at 0
(incf nil) => refusal BadForm at 0
(incf t 1) => refusal BadForm at 0
(decf :k) => refusal BadForm at 0
(decf *current-thread* 2) => refusal BadForm at 0
(dotimes (nil 1) 1) => refusal BadForm at 0
(dotimes (t 1) 1) => refusal BadForm at 0
(dotimes (:k 1) 1) => refusal BadForm at 0
(dotimes (*current-thread* 1) 1) => refusal BadForm at 0
(handler-case 1 (error (nil) 1)) => refusal BadForm at 0
(handler-case 1 (error (t) 1)) => refusal BadForm at 0
(handler-case 1 (error (:k) 1)) => refusal BadForm at 0
(handler-case 1 (error (*current-thread*) 1)) => refusal BadForm at 0
(defun f (nil) 1) => refusal BadForm at 0
(defun f (x t) 1) => refusal BadForm at 0
(defun f (:k) 1) => refusal BadForm at 0
(defun f (*current-thread*) 1) => refusal BadForm at 0
(make-thread (lambda (nil) 1)) => refusal BadForm at 13
(make-thread (lambda (t) 1)) => refusal BadForm at 13
(make-thread (lambda (:k) 1)) => refusal BadForm at 13
(make-thread (lambda (*current-thread*) 1)) => refusal BadForm at 13
(defvar nil) => refusal BadForm at 0
(defvar t 1) => refusal BadForm at 0
(defvar :k) => refusal BadForm at 0
(defvar *current-thread* 1) => refusal BadForm at 0
(defparameter nil 1) => refusal BadForm at 0
(defparameter *current-thread* 1) => refusal BadForm at 0
(defun nil () 1) => refusal BadForm at 0
(defun t () 1) => refusal BadForm at 0
(defun :k () 1) => refusal BadForm at 0
(defun *current-thread* () 1) => refusal BadForm at 0
"#,
        Told::Verdict,
    )
}

#[test]
fn forms_of_the_top_level_are_refused(rt: HostRuntime) -> Result<(), Fail> {
    check(
        &rt,
        rt.alloc(),
        r#"cases: 71
(defvar) => refusal BadForm at 0
(defvar 5) => refusal BadForm at 0
(defvar "x" 1) => refusal BadForm at 0
(defvar (x) 1) => refusal BadForm at 0
(defvar *x* 1 2) => refusal BadForm at 0
(defvar *x* 1 'a) => refusal BadForm at 0
(defvar *x* 1 "a" 2) => refusal BadForm at 0
(defparameter) => refusal BadForm at 0
(defparameter *x*) => refusal BadForm at 0
(defparameter *x* 1 2) => refusal BadForm at 0
(defparameter *x* 1 "a" "b") => refusal BadForm at 0
(defparameter 5 1) => refusal BadForm at 0
(defun) => refusal BadForm at 0
(defun f) => refusal BadForm at 0
(defun f x 1) => refusal BadForm at 0
(defun f nil 1) => refusal BadForm at 0
(defun f (5) 1) => refusal BadForm at 0
(defun f ((x 1)) 1) => refusal BadForm at 0
(defun 5 () 1) => refusal BadForm at 0
(defun "f" () 1) => refusal BadForm at 0
(defun (f) () 1) => refusal BadForm at 0
-- elsewhere
(progn (defvar *x* 1)) => refusal BadForm at 7
(print (defun f () 1)) => refusal BadForm at 7
(let () (defparameter *x* 1)) => refusal BadForm at 8
(when 1 (in-package :cl-user)) => refusal BadForm at 8
(progn (declaim (speed 3))) => refusal BadForm at 7
(block b (use-package :a)) => refusal BadForm at 9
(defun f () (defun g () 1)) => refusal BadForm at 12
(defun f () (defvar)) => refusal BadForm at 12
(defvar *x* (defvar *y*)) => refusal BadForm at 12
(make-thread (lambda () (defun f () 1))) => refusal BadForm at 24
(dotimes (i 2) (defvar *x* i)) => refusal BadForm at 15
-- where `declare` may not stand
(declare) => refusal BadForm at 0
(declare (ignore x)) => refusal BadForm at 0
(print (declare)) => refusal BadForm at 7
(progn (declare)) => refusal BadForm at 7
(let () 1 (declare)) => refusal BadForm at 10
(let ((x (declare))) 1) => refusal BadForm at 9
(let () (declare (special x)) 1) => refusal BadForm at 8
(let () (declare) (declare (a (b special))) 1) => refusal BadForm at 18
(let () (declare special)) => refusal BadForm at 8
(let* () "a" (declare) 1) => refusal BadForm at 13
(defun f () 1 (declare)) => refusal BadForm at 14
(defun f () "a" "b" (declare) 1) => refusal BadForm at 20
(defun f () (declare) "a" (declare) 1) => refusal BadForm at 26
(defun f (x) (declare (special x)) 1) => refusal BadForm at 13
(make-thread (lambda () 1 (declare))) => refusal BadForm at 26
(block b 1 (declare)) => refusal BadForm at 11
(catch (declare) 1) => refusal BadForm at 7
(catch 1 2 (declare)) => refusal BadForm at 11
(without-interrupts 1 (declare)) => refusal BadForm at 22
(handler-case (declare) (error () 1)) => refusal BadForm at 14
(handler-case 1 (error () 1 (declare))) => refusal BadForm at 28
(with-deadline () 1 (declare)) => refusal BadForm at 20
(prog1 (declare) 1) => refusal BadForm at 7
(loop 1 (declare)) => refusal BadForm at 8
(dotimes (i (declare)) 1) => refusal BadForm at 12
(with-mutex ((declare)) 1) => refusal BadForm at 13
(if (declare) 1) => refusal BadForm at 4
(when 1 (declare) 2) => refusal BadForm at 8
(unless 1 (declare) 2) => refusal BadForm at 10
(cond (1 (declare) 2)) => refusal BadForm at 9
(cond ((declare) 2)) => refusal BadForm at 7
(and (declare)) => refusal BadForm at 5
(or 1 (declare)) => refusal BadForm at 6
(unwind-protect (declare)) => refusal BadForm at 16
(unwind-protect 1 (declare)) => refusal BadForm at 18
(ignore-errors (declare) 1) => refusal BadForm at 15
(with-timeout 1 (declare) 2) => refusal BadForm at 16
(throw 1 (declare)) => refusal BadForm at 9
(return-from-thread (declare)) => refusal BadForm at 20
"#,
        Told::Verdict,
    )
}
