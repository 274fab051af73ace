//! How long code may be, and how many values a call may hold at once: the last program that is compiled, and the first that is not.
use crate::cases::check;
use crate::compiled::Told;
use std::test::Fail;

#[test]
fn code_has_65536_instructions_at_most(rt: HostRuntime) -> Result<(), Fail> {
    check(
        &rt,
        rt.alloc(),
        r#"cases: 12
-- in main
‹32767×1 › => 65536
‹32766×1 ›(print 1) => CodeTooLong at 0
(progn ‹32767×1 ›) => 65536
‹100000×1 › => CodeTooLong at 0
-- in functions
(defun f () ‹32766×1 ›) => 65536
(defun f () ‹32765×1 ›(print 1)) => CodeTooLong at 0
‹16000×1 ›(defun f () ‹16766×1 ›) => 65536
1 (defun f () ‹16000×1 ›) (defun g () ‹16000×1 ›) (defun h () ‹16000×1 ›) => CodeTooLong at 0
‹1024×(defun f№ ())› => 4098
-- before the values are counted
(or ‹9000×1 ›) => HeightTooLarge at 0
‹33000×1 ›‹128×(+ 1 ›1‹128×)› => CodeTooLong at 0
1 (defun f () ‹128×(+ 1 ›1‹128×)› ‹33000×1 ›) => CodeTooLong at 0
"#,
        Told::Compiled,
    )
}

#[test]
fn forms_have_many_parts(rt: HostRuntime) -> Result<(), Fail> {
    check(
        &rt,
        rt.alloc(),
        r#"cases: 7
(and ‹16000×1 ›) => 64000
(and ‹16384×1 ›) => 65536
(and ‹16385×1 ›) => CodeTooLong at 0
(and ‹20000×1 ›) => CodeTooLong at 0
(cond ‹10000×(1 2) ›) => 40004
(cond ‹20000×(1 2) ›) => CodeTooLong at 0
(or ‹20000×1 ›) => CodeTooLong at 0
"#,
        Told::Compiled,
    )
}

#[test]
fn main_holds_128_values_at_most(rt: HostRuntime) -> Result<(), Fail> {
    check(
        &rt,
        rt.alloc(),
        r#"cases: 31
-- operands
‹127×(+ 1 ›1‹127×)› => 258
‹128×(+ 1 ›1‹128×)› => HeightTooLarge at 0
(f ‹63×1 ›(f ‹63×1 ›(f 1 1))) (defun f ()) => 138
(f ‹63×1 ›(f ‹63×1 ›(f 1 1 1))) (defun f ()) => HeightTooLarge at 0
‹127×(+ 1 ›(if 1 2 3)‹127×)› => 262
‹127×(+ 1 ›(loop 1)‹127×)› => 262
‹126×(+ 1 ›(format t "" 1 2)‹126×)› => 258
‹126×(+ 1 ›(format t "" 1 2 3)‹126×)› => HeightTooLarge at 0
-- variables
‹64×(let ((x№ 1)) ›x63‹64×)› => 196
‹127×(let ((x 1)) ›1‹127×)› => 385
‹128×(let ((x 1)) ›1‹128×)› => HeightTooLarge at 0
(let (‹64×x№ ›) (let (‹63×y№ ›) y0)) => 385
(let (‹64×x№ ›) (let (‹64×y№ ›) y0)) => HeightTooLarge at 0
(let (‹64×x№ ›) (let (‹62×y№ ›) (+ y0 1))) => 384
(let (‹64×x№ ›) (let (‹63×y№ ›) (+ y0 1))) => HeightTooLarge at 0
(let* (‹64×x№ ›) (let* (‹63×y№ ›) 1)) => 385
(let* (‹64×x№ ›) (let* (‹64×y№ ›) 1)) => HeightTooLarge at 0
-- special variables
(defvar s) ‹127×(let ((s 1)) ›s‹127×)› => 387
(defvar s) ‹128×(let ((s 1)) ›s‹128×)› => HeightTooLarge at 0
-- hidden variables
(or ‹128×1 ›) => 893
(or ‹129×1 ›) => HeightTooLarge at 0
(cond ‹127×(1) ›) => 893
(cond ‹128×(1) ›) => HeightTooLarge at 0
(prog1 1 (or ‹127×1 ›)) => 891
(prog1 1 (or ‹128×1 ›)) => HeightTooLarge at 0
-- what never gives a value
‹128×(+ 1 ›(abort-thread)‹128×)› => 260
‹129×(+ 1 ›(abort-thread)‹129×)› => HeightTooLarge at 0
‹128×(let ((x 1)) ›(abort-thread)‹128×)› => 388
‹129×(let ((x 1)) ›(abort-thread)‹129×)› => HeightTooLarge at 0
‹127×(+ 1 ›(return-from-thread 1)‹127×)› => 259
‹128×(+ 1 ›(return-from-thread 1)‹128×)› => HeightTooLarge at 0
"#,
        Told::Compiled,
    )
}

#[test]
fn calls_hold_128_values_at_most(rt: HostRuntime) -> Result<(), Fail> {
    check(
        &rt,
        rt.alloc(),
        r#"cases: 12
1 (defun f (‹64×x№ ›) (let (‹63×y№ ›) 1)) => 197
1 (defun f (‹64×x№ ›) (let (‹64×y№ ›) 1)) => HeightTooLarge at 2
(defun f () ‹127×(+ 1 ›1‹127×)›) (f) => 262
(f) (defun f () ‹128×(+ 1 ›1‹128×)›) => HeightTooLarge at 4
(defun f (x) (or ‹127×1 ›)) => 888
1 (defun f (x) (or ‹128×1 ›)) => HeightTooLarge at 2
(defun f (‹64×x№ ›) (f ‹64×x№ ›)) => 70
1 (defun f (‹64×x№ ›) (f ‹63×x№ ›(+ x0 1))) => HeightTooLarge at 2
(defun f (x) ‹127×(+ 1 ›(abort-thread)‹127×)›) => 260
1 (defun f (x) ‹128×(+ 1 ›(abort-thread)‹128×)›) => HeightTooLarge at 2
-- the first of several
1 (defun f () 1) (defun g () ‹128×(+ 1 ›1‹128×)›) (defun h () ‹128×(+ 1 ›1‹128×)›) => HeightTooLarge at 17
1 (defun f () ‹128×(+ 1 ›1‹128×)›) ‹128×(+ 1 ›1‹128×)› => HeightTooLarge at 0
"#,
        Told::Compiled,
    )
}

#[test]
fn other_forms_hold_values(rt: HostRuntime) -> Result<(), Fail> {
    check(
        &rt,
        rt.alloc(),
        r#"cases: 21
(block b ‹126×(+ 1 ›(return-from b 1)‹126×)›) => 259
(block b ‹127×(+ 1 ›(return-from b 1)‹127×)›) => HeightTooLarge at 0
(block b ‹127×(+ 1 ›(error "a")‹127×)›) => 260
(block b ‹128×(+ 1 ›(error "a")‹128×)›) => HeightTooLarge at 0
‹126×(+ 1 ›(throw 1 2)‹126×)› => 258
‹127×(+ 1 ›(throw 1 2)‹127×)› => HeightTooLarge at 0
‹127×(+ 1 ›(catch 1 2)‹127×)› => 261
‹127×(without-interrupts ›1‹127×)› => 258
‹128×(without-interrupts ›1‹128×)› => HeightTooLarge at 0
‹200×(with-interrupts ›1‹200×)› => 404
‹200×(unwind-protect ›1‹200×)› => 804
‹126×(+ 1 ›(with-deadline (:seconds 1 :override 2) 3)‹126×)› => 260
‹127×(+ 1 ›(with-deadline (:seconds 1 :override 2) 3)‹127×)› => HeightTooLarge at 0
(handler-case 1 (error (e) ‹126×(+ 1 ›e‹126×)›)) => 262
(handler-case 1 (error (e) ‹127×(+ 1 ›e‹127×)›)) => HeightTooLarge at 0
‹127×(handler-case 1 (error (e) ›e‹127×))› => 766
‹126×(+ 1 ›(join-thread 1 :timeout nil)‹126×)› => 260
‹127×(+ 1 ›(join-thread 1 :timeout nil)‹127×)› => HeightTooLarge at 0
(make-thread (lambda (x) ‹128×(+ 1 ›1‹128×)›)) => HeightTooLarge at 13
‹32767×1 › => 65536
‹32766×1 ›(not (main-thread)) => CodeTooLong at 0
"#,
        Told::Laid,
    )
}

#[test]
fn functions_have_sizes(rt: HostRuntime) -> Result<(), Fail> {
    check(
        &rt,
        rt.alloc(),
        r#"cases: 11
1 => 2 0 0
(defun f (x) x) (f 1) => 5 1 2, 7 0 0
(defun f ()) (defun g (x y) (+ x y)) => 4 0 1, 6 2 4, 10 0 0
(defun f (x) (abort-thread)) => 2 1 1, 4 0 0
(defun f (x) (let ((y x)) (setq y 2))) => 2 1 3, 8 0 0
(defun f (x) (print x) 1) => 2 1 2, 7 0 0
(loop (or 1 2)) (defun f (x y) (f y x)) => 15 2 4, 19 0 0
(defvar s) (defun f (x) (let ((s x)) s)) => 4 1 3, 9 0 0
-- with forms that are not run yet
(defun f () (return-from f 1)) => 2 0 2, 7 0 0
(make-thread (lambda (x) x)) => 3 1 2, 5 0 0
(with-timeout 1 2) => 16 0 0, 18 0 0
"#,
        Told::Functions,
    )
}
