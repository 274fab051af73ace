//! Programs of forms that are run, each with the number of its instructions: those of main, one that ends main, those of each function with one that leaves it, and two of the function of `terminate-thread`.
use crate::cases::check;
use crate::compiled::Told;
use std::test::Fail;

#[test]
fn constants_and_variables(rt: HostRuntime) -> Result<(), Fail> {
    check(
        &rt,
        rt.alloc(),
        r#"cases: 33
‹› => 4
1 => 4
"a" => 4
1.5 => 4
'x => 4
:k => 4
*current-thread* => 4
1 2 => 6
1 2 3 => 8
(in-package :cl-user) => 4
(progn) => 4
(progn 1) => 4
(progn 1 2 3) => 8
-- special variables
(defvar s) => 4
(defvar s 1) => 6
(defvar s 1) s => 8
(defparameter s 1) => 5
(defvar s) (setq s 1) => 7
(defvar s) (setf s 1 s 2) => 10
(defvar s 1) (incf s) => 11
(defvar s 1) (decf s 5) => 11
(defvar s) (let ((s 1)) s) => 9
(defvar s) (let ((s 1) (x 2)) (setq s x)) => 13
-- lexical variables
(let ((x 1)) x) => 7
(let ((x 1))) => 7
(let ((x 1) (y 2)) x y) => 12
(let () 1 2) => 6
(let (x (y)) x) => 10
(let* ((x 1) (y x)) y) => 10
(let ((x 1)) (setq x 2)) => 8
(let ((x 1)) (incf x)) => 10
(let ((x 1)) (print (+ x 2))) => 10
(prog1 1 2) => 9
"#,
        Told::Compiled,
    )
}

#[test]
fn choices_and_loops(rt: HostRuntime) -> Result<(), Fail> {
    check(
        &rt,
        rt.alloc(),
        r#"cases: 25
(if 1 2 3) => 8
(if 1 2) => 8
(if (if 1 2 3) 4 5) => 12
(when 1) => 8
(when 1 2 3) => 10
(unless 1 2 3) => 10
(and) => 4
(and 1) => 4
(and 1 2) => 8
(and 1 2 3) => 12
(or) => 4
(or 1) => 4
(or 1 2) => 11
(or 1 2 3) => 18
(cond) => 4
(cond (1 2)) => 8
(cond (1 2) (3 4)) => 12
(cond (1)) => 11
(cond (1) (2 3)) => 15
-- loops
(loop) => 8
(loop (print 1)) => 9
(loop 1 2) => 10
(loop (loop)) => 12
(dotimes (i 3)) => 26
(dotimes (i 3 i) (print i)) => 30
"#,
        Told::Compiled,
    )
}

#[test]
fn functions_and_exits(rt: HostRuntime) -> Result<(), Fail> {
    check(
        &rt,
        rt.alloc(),
        r#"cases: 33
(defun f ()) => 6
(defun f (x) x) (f 1) => 9
(f 1 2) (defun f (x) x) => 10
(defun f (n) (if (zerop n) 0 (+ n (f (1- n))))) (f 3) => 18
(defun f (x y) (g y x)) (defun g (x y) (f y x)) (f 1 2) => 18
(defun f (x) (let ((y x)) (print y) (+ x y))) (f 1) => 17
(defvar s) (defun f (s) s) (f 1) => 14
(defun f (x) (print x) (f (f x))) => 11
-- functions of the language
(print 1) => 5
(prin1 1) => 5
(princ 1) => 5
(terpri) => 4
(format t "a") => 4
(format t "~a ~s" 1 2) => 6
(format t "~a" 1 2 3) => 7
(+) => 4
(+ 4) => 6
(+ 1 2 3) => 8
(- 1 2 3 4) => 10
(max 4) => 9
(min 1 2) => 6
(* (- 1 2) 3) => 8
(1+ 1) => 5
(abs 1) => 5
(floor 7 2) => 6
(<= 1 2) => 6
(zerop 1) => 5
(equal 1 2) => 6
(not 1) => 5
(integerp 1) => 5
-- what never gives a value
(abort-thread) => 4
(return-from-thread 1) => 5
(print (abort-thread)) => 5
"#,
        Told::Compiled,
    )
}

#[test]
fn forms_that_are_not_run_are_refused(rt: HostRuntime) -> Result<(), Fail> {
    check(
        &rt,
        rt.alloc(),
        r#"cases: 52
(main-thread) => NotBuilt at 0
(thread-yield) => NotBuilt at 0
(print (main-thread)) => NotBuilt at 7
(defvar s) (compare-and-swap (symbol-value 's) nil 1) => NotBuilt at 11
(block b 1) => NotBuilt at 0
(print (block b (return-from b 1))) => NotBuilt at 7
(let ((x 1)) (block b x)) => NotBuilt at 13
(loop (return 1)) => NotBuilt at 0
(defun f () (return-from f 1)) => NotBuilt at 0
(catch 'a 1) => NotBuilt at 0
(progn (throw 'a 1)) => NotBuilt at 7
(unwind-protect 1 2) => NotBuilt at 0
(without-interrupts 1) => NotBuilt at 0
1 (without-interrupts (allow-with-interrupts 1)) => NotBuilt at 2
(with-interrupts 1) => NotBuilt at 0
(handler-case 1 (error () 2)) => NotBuilt at 0
(handler-case 1) => NotBuilt at 0
(ignore-errors 1) => NotBuilt at 0
(if 1 (error "a") 2) => NotBuilt at 6
(with-deadline (:seconds 1) 2) => NotBuilt at 0
-- threads and what they share
(make-thread (lambda () 1)) => NotBuilt at 0
(join-thread 1) => NotBuilt at 0
(interrupt-thread 1 (lambda () 1)) => NotBuilt at 0
(terminate-thread 1) => NotBuilt at 0
(thread-alive-p 1) => NotBuilt at 0
(make-mutex) => NotBuilt at 0
(make-waitqueue) => NotBuilt at 0
(grab-mutex 1) => NotBuilt at 0
(release-mutex 1) => NotBuilt at 0
(mutex-owner 1) => NotBuilt at 0
(holding-mutex-p 1) => NotBuilt at 0
(condition-wait 1 2) => NotBuilt at 0
(condition-notify 1) => NotBuilt at 0
(condition-broadcast 1) => NotBuilt at 0
(sleep 1) => NotBuilt at 0
(make-timer (lambda () 1)) => NotBuilt at 0
(schedule-timer 1 2) => NotBuilt at 0
(unschedule-timer 1) => NotBuilt at 0
(print 1) (with-mutex (1) 2) => NotBuilt at 10
(print 1) (with-recursive-lock (1) 2) => NotBuilt at 10
(print 1) (with-timeout 1 2) => NotBuilt at 10
-- the least place, wherever it stands
(+ (main-thread) (thread-yield)) => NotBuilt at 3
(dotimes (i 1 (main-thread)) (thread-yield)) => NotBuilt at 14
(defun f () (main-thread)) 1 => NotBuilt at 12
(print (main-thread)) (defun f () (thread-yield)) => NotBuilt at 7
(defun f () (thread-yield)) (print (main-thread)) => NotBuilt at 12
(f) (defun f () (print (catch 'a 1))) => NotBuilt at 23
(defun f () 1) (defun g () (main-thread)) => NotBuilt at 27
(make-thread (lambda () (main-thread))) => NotBuilt at 0
-- before the sizes are judged
‹33000×1 ›(main-thread) => NotBuilt at 66000
(defun f () (main-thread)) (defun g () ‹33000×1 ›) => NotBuilt at 12
‹128×(+ 1 ›(main-thread)‹128×)› => NotBuilt at 640
"#,
        Told::Compiled,
    )
}
