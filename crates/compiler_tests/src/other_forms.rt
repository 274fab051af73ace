//! Programs of forms that are not run yet, each with the number of its instructions.
use crate::cases::check;
use crate::compiled::Told;
use std::test::Fail;

#[test]
fn exits_and_handlers(rt: HostRuntime) -> Result<(), Fail> {
    check(
        &rt,
        rt.alloc(),
        r#"cases: 35
(main-thread) => 4
(thread-yield) => 4
(defvar s) (compare-and-swap (symbol-value 's) nil 1) => 8
(block b 1) => 6
(block b) => 6
(block b (return-from b 1)) => 7
(block b (return-from b)) => 7
(loop (return 1)) => 11
(dotimes (i 1) (return)) => 29
(defun f (x) (return-from f x)) => 9
(catch 'a 1 2) => 9
(catch 'a) => 7
(throw 'a 1) => 6
(error "a") => 4
-- protected forms and regions
(unwind-protect 1) => 8
(unwind-protect 1 2) => 8
(unwind-protect 1 2 3) => 10
(without-interrupts 1) => 6
(without-interrupts (allow-with-interrupts 1)) => 8
(with-interrupts) => 6
(without-interrupts (with-local-interrupts 1)) => 10
-- handlers and deadlines
(handler-case 1) => 6
(handler-case 1 (error () 2)) => 8
(handler-case 1 (error (e) e)) => 10
(handler-case 1 (error ()) (timeout (e) e 2)) => 14
(handler-case (handler-case 1 (error () 2)) (error () 3)) => 12
(ignore-errors 1 2) => 10
(defvar s) (handler-case 1 (error (s) s)) => 15
(with-deadline () 1) => 6
(with-deadline (:seconds 1) 2) => 7
(with-deadline (:override t)) => 7
(with-deadline (:seconds 1 :override t) 2) => 8
-- locks and timeouts
(with-timeout 1 2) => 20
(with-mutex (1) 2) => 34
(with-recursive-lock (1) 2) => 42
"#,
        Told::Laid,
    )
}

#[test]
fn services(rt: HostRuntime) -> Result<(), Fail> {
    check(
        &rt,
        rt.alloc(),
        r#"cases: 39
(make-thread (lambda () 1)) => 7
(make-thread (lambda (x) x) :name "a" :arguments 1) => 9
(make-thread #'f) (defun f ()) => 9
(join-thread 1) => 5
(join-thread 1 :default 2) => 6
(join-thread 1 :timeout 2) => 8
(join-thread 1 :default 2 :timeout 3) => 9
(interrupt-thread 1 (lambda () 1)) => 8
(terminate-thread 1) => 6
(thread-alive-p 1) => 5
(make-mutex) => 4
(make-mutex :name 1) => 5
(make-waitqueue) => 4
(make-waitqueue :name 1) => 5
(grab-mutex 1) => 5
(grab-mutex 1 :waitp 2) => 7
(grab-mutex 1 :timeout 2) => 8
(grab-mutex 1 :waitp 2 :timeout 3) => 9
(release-mutex 1) => 5
(release-mutex 1 :if-not-owner 2) => 6
(mutex-owner 1) => 5
(holding-mutex-p 1) => 5
(condition-wait 1 2) => 8
(condition-wait 1 2 :timeout 3) => 10
(condition-notify 1) => 5
(condition-notify 1 2) => 6
(condition-broadcast 1) => 5
(sleep 1) => 6
(make-timer (lambda () 1)) => 7
(make-timer (lambda () 1) :name 1 :thread 2) => 9
(schedule-timer 1 2) => 7
(schedule-timer 1 2 :repeat-interval 3) => 8
(schedule-timer 1 2 :catch-up 3) => 8
(schedule-timer 1 2 :repeat-interval 3 :catch-up 4) => 9
(unschedule-timer 1) => 5
-- in other forms
(print (sleep (sleep 1))) => 9
(loop (sleep 1)) => 10
(condition-wait (make-waitqueue) (make-mutex) :timeout 1.5) => 10
(if (grab-mutex 1 :waitp nil) (release-mutex 1)) => 12
"#,
        Told::Laid,
    )
}
