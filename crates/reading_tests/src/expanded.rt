//! What programs are expanded to: core forms, with one number in each call for each variable, block and region that is open.
use crate::cases::check;
use crate::tables::Told;
use std::test::Fail;

#[test]
fn core_forms_stand_for_themselves(rt: HostRuntime) -> Result<(), Fail> {
    check(
        &rt,
        rt.alloc(),
        r#"cases: 31
1 "a" 1.5 nil t :k => 1 "a" 1.500000 NIL T :K
'a '() (quote 5) => A NIL 5
*current-thread* => (current)
(progn) => (progn)
(progn 1 (progn 2)) => (progn 1 (progn 2))
(if 1 2 3) => (if 1 2 3)
(let ((x 1)) x) => (let 1 (bind 0 0 (local 0)))
(let ((x 1) (y 2)) x y) => (let 1 2 (bind 0 1 (bind 1 0 (local 0) (local 1))))
(let ((x 1) (y (let ((z 2)) z))) y) => (let 1 (let 2 (bind 0 0 (local 0))) (bind 0 1 (bind 1 0 (local 1))))
(let ((x 1)) (let ((x 2)) x) x) => (let 1 (bind 0 0 (let 2 (bind 1 0 (local 1))) (local 0)))
(let ((x 1))) => (let 1 (bind 0 0))
(let ((x 1)) (setq x 2)) => (let 1 (bind 0 0 (set 0 2)))
(defvar s 1) (let ((s 2) (x 3)) (setq s x)) => (defvar S 1) (let 2 3 (bind S 1 (bind 0 0 (set S (local 0)))))
s (defvar s) (setq s 1) => (special S) S (set S 1)
(defvar s) (compare-and-swap (symbol-value 's) nil 1) => S (swap S NIL 1)
(block b 1) (block b) => (block 0 1) (block 0)
(block a (block b (return-from a 1))) => (block 0 (block 1 (return 0 1)))
(let ((x 1)) (block x (return-from x x))) => (let 1 (bind 0 0 (block 1 (return 1 (local 0)))))
(block nil (return-from nil 1)) => (block 0 (return 0 1))
(catch 'a 1 2) (throw 'a 3) => (catch A 1 2) (throw A 3)
(catch 'a (let ((x 1)) x)) => (catch A (let 1 (bind 0 0 (local 0))))
(unwind-protect 1 2 3) (unwind-protect 1) => (protect 1 2 3) (protect 1)
(without-interrupts 1 (allow-with-interrupts 2)) => (without 0 1 (allow 0 2))
(with-interrupts 1 2) (with-interrupts) => (with 1 2) (with)
(without-interrupts (let ((x 1)) (without-interrupts (allow-with-interrupts x)))) => (without 0 (let 1 (bind 1 0 (without 2 (allow 2 (local 1))))))
(handler-case 1 (error () 2) (timeout (e) e 3)) => (handle 1 (clause #<ERROR> 2) (clause #<TIMEOUT> 0 (local 0) 3))
(handler-case 1) => (handle 1)
(error "no \"way\"") => (signal #<SIMPLE-ERROR "no \"way\"">)
(with-deadline (:seconds 1 :override t) 2) => (deadline :seconds :override 1 T 2)
(with-deadline () 1) (with-deadline (:override t)) => (deadline 1) (deadline :override T)
(abort-thread) (return-from-thread 1) => (abort) (end 1)
"#,
        Told::Forms,
    )
}

#[test]
fn functions_stand_behind_main(rt: HostRuntime) -> Result<(), Fail> {
    check(
        &rt,
        rt.alloc(),
        r#"cases: 12
(defun f ()) => (defun F) (function F 0)
(f 1) (defun f (x) x) => (call F 1) (defun F) (function F 1 (local 0))
(defun f (x y) (let ((z x)) (g y z))) (defun g (&key b) b 1) => (defun F) (defun G) (function F 2 (let (local 0) (bind 2 0 (call G (local 1) (local 2))))) (function G 2 (local 1) 1)
(let ((x 1)) (make-thread (lambda (y) y 2) :arguments x)) => (let 1 (bind 0 0 (make-thread :arguments (function 26) (local 0)))) (function 26 1 (local 0) 2)
(make-thread #'f :name "a") (defun f ()) => (make-thread :name (function F) "a") (defun F) (function F 0)
(make-thread (function (lambda (x) x))) => (make-thread (function 23)) (function 23 1 (local 0))
(make-timer #'(lambda () 1) :name "a" :thread *current-thread*) => (make-timer :name :thread (function 14) "a" (current)) (function 14 0 1)
(interrupt-thread (main-thread) (lambda () (make-thread (lambda () 1)))) => (interrupt-thread (main-thread) (function 32)) (function 32 0 (make-thread (function 56))) (function 56 0 1)
(defun f () (make-thread (lambda () 1))) (make-thread #'f) => (defun F) (make-thread (function F)) (function F 0 (make-thread (function 25))) (function 25 0 1)
(defvar s) (let ((s 1)) (make-thread (lambda () s))) => S (let 1 (bind S 0 (make-thread (function 37)))) (function 37 0 (special S))
(defun while (x) x) (while 1) (defun symbol-value ()) => (defun WHILE) (call WHILE 1) (defun SYMBOL-VALUE) (function WHILE 1 (local 0)) (function SYMBOL-VALUE 0)
(defvar f 1) (defun f () f) (f) => (defvar F 1) (defun F) (call F) (function F 0 (special F))
"#,
        Told::Forms,
    )
}

#[test]
fn calls_of_functions_keep_what_is_written(rt: HostRuntime) -> Result<(), Fail> {
    check(
        &rt,
        rt.alloc(),
        r#"cases: 22
(+) (*) => 0 1
(+ 4) (* 4) (- 4) => (+ 0 4) (* 1 4) (- 0 4)
(max 4) (min (f)) (defun f ()) => (let 4 (bind 0 0 (max (local 0) (local 0)))) (let (call F) (bind 0 0 (min (local 0) (local 0)))) (defun F) (function F 0)
(let ((x 1)) (max x)) => (let 1 (bind 0 0 (let (local 0) (bind 1 0 (max (local 1) (local 1))))))
(+ 1 2) (* 1 2) (- 1 2) (max 1 2) (min 1 2) => (+ 1 2) (* 1 2) (- 1 2) (max 1 2) (min 1 2)
(+ 1 2 3) (- 1 2 3 4) => (+ (+ 1 2) 3) (- (- (- 1 2) 3) 4)
(max 1 (min 2 3 4) 5) => (max (max 1 (min (min 2 3) 4)) 5)
(1+ 1) (1- 2) (abs 3) (floor 1 2) (truncate 1 2) (mod 1 2) (rem 1 2) => (1+ 1) (1- 2) (abs 3) (floor 1 2) (truncate 1 2) (mod 1 2) (rem 1 2)
(= 1 2) (/= 1 2) (< 1 2) (> 1 2) (<= 1 2) (>= 1 2) (zerop 1) => (= 1 2) (/= 1 2) (< 1 2) (> 1 2) (<= 1 2) (>= 1 2) (zerop 1)
(eq 1 2) (eql 1 2) (equal 1 2) (not 1) (null 1) => (eq 1 2) (eql 1 2) (equal 1 2) (not 1) (null 1)
(symbolp 1) (integerp 1) (stringp 1) (main-thread) (thread-yield) => (symbolp 1) (integerp 1) (stringp 1) (main-thread) (thread-yield)
(print 1) (prin1 1) (princ 1) (terpri) => (print 1) (prin1 1) (princ 1) (terpri)
(format t "a") (format t "~A ~s~%~~" 1 2 3) => (format "a" 0) (format "~A ~s~%~~" 3 1 2 3)
(make-mutex) (make-mutex :name "m") (make-waitqueue) (make-waitqueue :name nil) => (make-mutex) (make-mutex :name "m") (make-waitqueue) (make-waitqueue :name NIL)
(join-thread 1) (join-thread 1 :default 2) (join-thread 1 :timeout 2) (join-thread 1 :default 2 :timeout 3) => (join-thread 1) (join-thread :default 1 2) (join-thread :timeout 1 2) (join-thread :default :timeout 1 2 3)
(thread-alive-p 1) (mutex-owner 1) (holding-mutex-p 1) => (thread-alive-p 1) (mutex-owner 1) (holding-mutex-p 1)
(grab-mutex 1) (grab-mutex 1 :waitp nil) (grab-mutex 1 :timeout 2) (grab-mutex 1 :waitp t :timeout 2) => (grab-mutex 1) (grab-mutex :waitp 1 NIL) (grab-mutex :timeout 1 2) (grab-mutex :waitp :timeout 1 T 2)
(release-mutex 1) (release-mutex 1 :if-not-owner :force) => (release-mutex 1) (release-mutex :if-not-owner 1 :FORCE)
(condition-wait 1 2) (condition-wait 1 2 :timeout 3) (condition-notify 1) (condition-notify 1 2) => (condition-wait 1 2) (condition-wait :timeout 1 2 3) (condition-notify 1) (condition-notify count 1 2)
(sleep 0.5) (unschedule-timer 1) (schedule-timer 1 2) => (sleep 0.500000) (unschedule-timer 1) (schedule-timer 1 2)
(schedule-timer 1 2 :repeat-interval 3) (schedule-timer 1 2 :repeat-interval 3 :catch-up t) => (schedule-timer :repeat-interval 1 2 3) (schedule-timer :repeat-interval :catch-up 1 2 3 T)
(schedule-timer 1 2 :catch-up t) (make-mutex :name :name) => (schedule-timer :catch-up 1 2 T) (make-mutex :name :NAME)
"#,
        Told::Forms,
    )
}

#[test]
fn definitions_and_variables_are_expanded(rt: HostRuntime) -> Result<(), Fail> {
    check(
        &rt,
        rt.alloc(),
        r#"cases: 20
-- definitions
(defvar s) (defvar u 1) (defvar v 1 "what it is") (defvar w "a") => S (defvar U 1) (defvar V 1) (defvar W "a")
(defparameter s 1) (defparameter u s "what it is") => (defparameter S 1) (defparameter U (special S))
(in-package :cl-user) (declaim (speed 3)) (use-package :foo (1)) (in-package) => NIL NIL NIL NIL
(in-package (foo) x) (declaim (lambda (x x)) 1.5 "a") (use-package () '(a)) => NIL NIL NIL
(defun f () "what it does" 1) (defun g () "a") (defun h () "what it does" (declare (x))) => (defun F) (defun G) (defun H) (function F 0 1) (function G 0 "a") (function H 0)
(make-thread (lambda () "a" 1)) (make-thread (lambda () "a")) => (make-thread (function 13)) (make-thread (function 45)) (function 13 0 1) (function 45 0 "a")
-- `let` and `let*`
(let (x (y)) x) => (let NIL NIL (bind 0 1 (bind 1 0 (local 0))))
(let () 1 2) (let ()) => (progn 1 2) (progn)
(let* ((x 1) (y x)) y) => (let 1 (bind 0 0 (let (local 0) (bind 1 0 (local 1)))))
(let* (x (y)) y) (let* () 1) => (let NIL (bind 0 0 (let NIL (bind 1 0 (local 1))))) (progn 1)
(defvar s) (let* ((x 1) (s x) (y s)) x y) => S (let 1 (bind 0 0 (let (local 0) (bind S 0 (let (special S) (bind 1 0 (local 0) (local 1)))))))
-- special parameters
(defvar s) (defun f (s) s) => S (defun F) (function F 1 (let (local 0) (bind S 0 (special S))))
(defvar s) (defvar u) (defun f (u x s) x) => S U (defun F) (function F 3 (let (local 0) (bind U 0 (let (local 2) (bind S 0 (local 1))))))
(defun f (s) (return-from f s)) (defvar s) => (defun F) S (function F 1 (let (local 0) (bind S 0 (block 1 (return 1 (special S))))))
(defvar s) (make-thread (lambda (s) (let ((x s)) x))) => S (make-thread (function 24)) (function 24 1 (let (local 0) (bind S 0 (let (special S) (bind 1 0 (local 1))))))
(defvar s) (handler-case 1 (error (s) s (let ((x 1)) x))) => S (handle 1 (clause #<ERROR> 0 (let (local 0) (bind S 0 (special S) (let 1 (bind 1 0 (local 1)))))))
-- `setq`, `incf` and `decf`
(let (x y) (setq x 1 y x)) => (let NIL NIL (bind 0 1 (bind 1 0 (progn (set 0 1) (set 1 (local 0))))))
(defvar s) (setf s 1) (setf s 1 s 2 s 3) => S (set S 1) (progn (set S 1) (set S 2) (set S 3))
(let ((x 1)) (incf x) (decf x 5)) => (let 1 (bind 0 0 (set 0 (+ (local 0) 1)) (set 0 (- (local 0) 5))))
(defvar s 1) (incf s s) (decf s) => (defvar S 1) (set S (+ (special S) (special S))) (set S (- (special S) 1))
"#,
        Told::Forms,
    )
}

#[test]
fn choices_are_expanded(rt: HostRuntime) -> Result<(), Fail> {
    check(
        &rt,
        rt.alloc(),
        r#"cases: 19
(if 1 2) => (if 1 2 NIL)
(if (if 1 2) (if 3 4)) => (if (if 1 2 NIL) (if 3 4 NIL) NIL)
(when 1) (when 1 2) (when 1 2 3) => (if 1 (progn) NIL) (if 1 (progn 2) NIL) (if 1 (progn 2 3) NIL)
(unless 1) (unless 1 2) (unless 1 2 3) => (if 1 NIL (progn)) (if 1 NIL (progn 2)) (if 1 NIL (progn 2 3))
(cond) (cond (1 2)) => NIL (if 1 (progn 2) NIL)
(cond (1 2 3) (4 5)) => (if 1 (progn 2 3) (if 4 (progn 5) NIL))
(cond (1)) => (let 1 (bind 0 0 (if (local 0) (local 0) NIL)))
(cond (1) (2 3)) => (let 1 (bind 0 0 (if (local 0) (local 0) (if 2 (progn 3) NIL))))
(cond (1 2) (3) (4)) => (if 1 (progn 2) (let 3 (bind 0 0 (if (local 0) (local 0) (let 4 (bind 1 0 (if (local 1) (local 1) NIL)))))))
(let ((x 1)) (cond (x) (t (let ((y 2)) y)))) => (let 1 (bind 0 0 (let (local 0) (bind 1 0 (if (local 1) (local 1) (if T (progn (let 2 (bind 2 0 (local 2)))) NIL))))))
(and) (and 1) => T 1
(and 1 2) (and 1 2 3) => (if 1 2 NIL) (if 1 (if 2 3 NIL) NIL)
(or) (or 1) => NIL 1
(or 1 2) => (let 1 (bind 0 0 (if (local 0) (local 0) 2)))
(or 1 2 3) => (let 1 (bind 0 0 (if (local 0) (local 0) (let 2 (bind 1 0 (if (local 1) (local 1) 3))))))
(let ((x 1)) (or (let ((y x)) y) (let ((z x)) z))) => (let 1 (bind 0 0 (let (let (local 0) (bind 1 0 (local 1))) (bind 1 0 (if (local 1) (local 1) (let (local 0) (bind 2 0 (local 2))))))))
(or (and 1 2) (and)) => (let (if 1 2 NIL) (bind 0 0 (if (local 0) (local 0) T)))
(prog1 1) (prog1 1 2 3) => (let 1 (bind 0 0 (local 0))) (let 1 (bind 0 0 2 3 (local 0)))
(let ((x 1)) (prog1 x (setq x 2) (let ((y x)) y))) => (let 1 (bind 0 0 (let (local 0) (bind 1 0 (set 0 2) (let (local 0) (bind 2 0 (local 2))) (local 1)))))
"#,
        Told::Forms,
    )
}

#[test]
fn loops_and_their_blocks_are_expanded(rt: HostRuntime) -> Result<(), Fail> {
    check(
        &rt,
        rt.alloc(),
        r#"cases: 36
(loop) (loop 1 2) => (while T) (while T 1 2)
(loop (return)) => (block 0 (while T (return 0 NIL)))
(loop (let ((x 1)) x)) => (while T (let 1 (bind 0 0 (local 0))))
(loop (let ((x 1)) (return x))) => (block 0 (while T (let 1 (bind 1 0 (return 0 (local 1))))))
(loop (return-from nil 1)) => (block 0 (while T (return 0 1)))
(block nil (return 1)) (block nil (return)) => (block 0 (return 0 1)) (block 0 (return 0 NIL))
(block nil (loop (return 1)) (return 2)) => (block 0 (block 1 (while T (return 1 1))) (return 0 2))
(block nil (loop (let ((x 1)) x)) (return 2)) => (block 0 (while T (let 1 (bind 1 0 (local 1)))) (return 0 2))
(block a (return-from a)) => (block 0 (return 0 NIL))
(loop (block nil (return))) => (while T (block 0 (return 0 NIL)))
(loop (loop (return))) => (while T (block 0 (while T (return 0 NIL))))
(let ((x 1)) (loop (make-thread (lambda (a b c) c)) (let ((y x)) y))) => (let 1 (bind 0 0 (while T (make-thread (function 32)) (let (local 0) (bind 1 0 (local 1)))))) (function 32 3 (local 2))
(loop (make-thread (lambda () (block b (return-from b 1))))) => (while T (make-thread (function 19))) (function 19 0 (block 0 (return 0 1)))
(loop (let ((x 1)) (loop (let ((y x)) (loop (return y)))))) => (while T (let 1 (bind 0 0 (while T (let (local 0) (bind 1 0 (block 2 (while T (return 2 (local 1))))))))))
(loop (make-thread (lambda (x) (loop (return x)))) (loop 1)) => (while T (make-thread (function 19)) (while T 1)) (function 19 1 (block 1 (while T (return 1 (local 0)))))
(loop (return (loop (return)))) => (block 0 (while T (return 0 (block 1 (while T (return 1 NIL))))))
(block a (loop (return-from a))) => (block 0 (while T (return 0 NIL)))
(block a (loop (return) (return-from a 1))) => (block 0 (block 1 (while T (return 1 NIL) (return 0 1))))
(loop (block a (return-from a))) => (while T (block 0 (return 0 NIL)))
-- `dotimes`
(dotimes (i 3)) => (let 3 0 (bind 0 1 (bind 1 0 (while (< (local 1) (local 0)) (let (local 1) (bind 2 0)) (set 1 (+ (local 1) 1))) NIL)))
(dotimes (i 3) i 1) => (let 3 0 (bind 0 1 (bind 1 0 (while (< (local 1) (local 0)) (let (local 1) (bind 2 0 (local 2) 1)) (set 1 (+ (local 1) 1))) NIL)))
(dotimes (i 3 i) 1) => (let 3 0 (bind 0 1 (bind 1 0 (while (< (local 1) (local 0)) (let (local 1) (bind 2 0 1)) (set 1 (+ (local 1) 1))) (let (local 1) (bind 2 0 (local 2))))))
(dotimes (i 3) (return i)) => (block 0 (let 3 0 (bind 1 1 (bind 2 0 (while (< (local 2) (local 1)) (let (local 2) (bind 3 0 (return 0 (local 3)))) (set 2 (+ (local 2) 1))) NIL))))
(dotimes (i 3 (return i))) => (block 0 (let 3 0 (bind 1 1 (bind 2 0 (while (< (local 2) (local 1)) (let (local 2) (bind 3 0)) (set 2 (+ (local 2) 1))) (let (local 2) (bind 3 0 (return 0 (local 3))))))))
(dotimes (i (return 1))) => (block 0 (let (return 0 1) 0 (bind 1 1 (bind 2 0 (while (< (local 2) (local 1)) (let (local 2) (bind 3 0)) (set 2 (+ (local 2) 1))) NIL))))
(let ((x 2)) (dotimes (i x x) (setq x i))) => (let 2 (bind 0 0 (let (local 0) 0 (bind 1 1 (bind 2 0 (while (< (local 2) (local 1)) (let (local 2) (bind 3 0 (set 0 (local 3)))) (set 2 (+ (local 2) 1))) (let (local 2) (bind 3 0 (local 0))))))))
(defvar i) (dotimes (i 3 i) (return)) => I (block 0 (let 3 0 (bind 1 1 (bind 2 0 (while (< (local 2) (local 1)) (let (local 2) (bind I 0 (return 0 NIL))) (set 2 (+ (local 2) 1))) (let (local 2) (bind I 0 (special I)))))))
(dotimes (i 2) (loop (return))) => (let 2 0 (bind 0 1 (bind 1 0 (while (< (local 1) (local 0)) (let (local 1) (bind 2 0 (block 3 (while T (return 3 NIL))))) (set 1 (+ (local 1) 1))) NIL)))
(loop (dotimes (i 2 (return)))) => (while T (block 0 (let 2 0 (bind 1 1 (bind 2 0 (while (< (local 2) (local 1)) (let (local 2) (bind 3 0)) (set 2 (+ (local 2) 1))) (let (local 2) (bind 3 0 (return 0 NIL))))))))
-- blocks of functions
(defun f () (return-from f 1)) => (defun F) (function F 0 (block 0 (return 0 1)))
(defun f (x) (when x (return-from f)) (let ((y x)) y)) => (defun F) (function F 1 (block 1 (if (local 0) (progn (return 1 NIL)) NIL) (let (local 0) (bind 2 0 (local 2)))))
(defun f (x) (let ((y x)) y)) => (defun F) (function F 1 (let (local 0) (bind 1 0 (local 1))))
(defun f () (block f (return-from f 1))) => (defun F) (function F 0 (block 0 (return 0 1)))
(defun f () (block g (return-from g 1) (return-from f))) => (defun F) (function F 0 (block 0 (block 1 (return 1 1) (return 0 NIL))))
(defun f () (make-thread (lambda () (block f (return-from f 1))))) => (defun F) (function F 0 (make-thread (function 25))) (function 25 0 (block 0 (return 0 1)))
(loop (make-thread (lambda () (loop (return))))) => (while T (make-thread (function 19))) (function 19 0 (block 0 (while T (return 0 NIL))))
"#,
        Told::Forms,
    )
}

#[test]
fn regions_and_locks_are_expanded(rt: HostRuntime) -> Result<(), Fail> {
    check(
        &rt,
        rt.alloc(),
        r#"cases: 17
(ignore-errors) (ignore-errors 1 2) => (handle (progn) (clause #<ERROR> NIL)) (handle (progn 1 2) (clause #<ERROR> NIL))
(loop (ignore-errors (return))) => (block 0 (while T (handle (progn (return 0 NIL)) (clause #<ERROR> NIL))))
(without-interrupts (with-local-interrupts 1 2)) => (without 0 (allow 0 (with 1 2)))
(let ((x 1)) (without-interrupts (with-interrupts (with-local-interrupts x)))) => (let 1 (bind 0 0 (without 1 (with (allow 1 (with (local 0)))))))
(with-mutex (1) 2 3) => (let 1 NIL (bind 0 1 (bind 1 0 (without 2 (protect (if (set 1 (allow 2 (grab-mutex (local 0)))) (progn (allow 2 (with 2 3))) NIL) (if (local 1) (progn (release-mutex :if-not-owner (local 0) :PUNT)) NIL))))))
(let ((m (make-mutex))) (with-mutex (m :wait-p nil :timeout 5) (let ((x m)) x))) => (let (make-mutex) (bind 0 0 (let (local 0) NIL (bind 1 1 (bind 2 0 (without 3 (protect (if (set 2 (allow 3 (grab-mutex :waitp :timeout (local 1) NIL 5))) (progn (allow 3 (with (let (local 0) (bind 4 0 (local 4)))))) NIL) (if (local 2) (progn (release-mutex :if-not-owner (local 1) :PUNT)) NIL))))))))
(with-mutex (1 :timeout (let ((s 2)) s))) => (let 1 NIL (bind 0 1 (bind 1 0 (without 2 (protect (if (set 1 (allow 2 (grab-mutex :timeout (local 0) (let 2 (bind 3 0 (local 3)))))) (progn (allow 2 (with))) NIL) (if (local 1) (progn (release-mutex :if-not-owner (local 0) :PUNT)) NIL))))))
(loop (with-mutex (1 :wait-p t) (return))) => (block 0 (while T (let 1 NIL (bind 1 1 (bind 2 0 (without 3 (protect (if (set 2 (allow 3 (grab-mutex :waitp (local 1) T))) (progn (allow 3 (with (return 0 NIL)))) NIL) (if (local 2) (progn (release-mutex :if-not-owner (local 1) :PUNT)) NIL))))))))
(without-interrupts (with-mutex (1) (allow-with-interrupts 2))) => (without 0 (let 1 NIL (bind 1 1 (bind 2 0 (without 3 (protect (if (set 2 (allow 3 (grab-mutex (local 1)))) (progn (allow 3 (with (allow 0 2)))) NIL) (if (local 2) (progn (release-mutex :if-not-owner (local 1) :PUNT)) NIL)))))))
(with-recursive-lock (1) 2) => (let 1 NIL (bind 0 1 (bind 1 0 (without 2 (protect (if (let (holding-mutex-p (local 0)) (bind 3 0 (if (local 3) (local 3) (set 1 (allow 2 (grab-mutex (local 0))))))) (progn (allow 2 (with 2))) NIL) (if (local 1) (progn (release-mutex :if-not-owner (local 0) :PUNT)) NIL))))))
(let ((m 1)) (with-recursive-lock (m) (let ((x m)) x) m)) => (let 1 (bind 0 0 (let (local 0) NIL (bind 1 1 (bind 2 0 (without 3 (protect (if (let (holding-mutex-p (local 1)) (bind 4 0 (if (local 4) (local 4) (set 2 (allow 3 (grab-mutex (local 1))))))) (progn (allow 3 (with (let (local 0) (bind 4 0 (local 4))) (local 0)))) NIL) (if (local 2) (progn (release-mutex :if-not-owner (local 1) :PUNT)) NIL))))))))
(terminate-thread *current-thread*) (terminate-thread (main-thread)) => (interrupt-thread (current) (abort-function)) (interrupt-thread (main-thread) (abort-function))
(with-timeout 1) => (let (make-timer (function 0)) (bind 0 0 (schedule-timer (local 0) 1) (protect (progn) (unschedule-timer (local 0))))) (function 0 0 (signal #<TIMEOUT>))
(with-timeout (let ((x 1)) x)) => (let (make-timer (function 0)) (bind 0 0 (schedule-timer (local 0) (let 1 (bind 1 0 (local 1)))) (protect (progn) (unschedule-timer (local 0))))) (function 0 0 (signal #<TIMEOUT>))
(let ((x 1)) (with-timeout x (let ((y x)) y) 2)) => (let 1 (bind 0 0 (let (make-timer (function 13)) (bind 1 0 (schedule-timer (local 1) (local 0)) (protect (progn (let (local 0) (bind 2 0 (local 2))) 2) (unschedule-timer (local 1))))))) (function 13 0 (signal #<TIMEOUT>))
(with-timeout 1 (make-thread (lambda () 2))) => (let (make-timer (function 0)) (bind 0 0 (schedule-timer (local 0) 1) (protect (progn (make-thread (function 29))) (unschedule-timer (local 0))))) (function 0 0 (signal #<TIMEOUT>)) (function 29 0 2)
(condition-broadcast 1) (condition-broadcast (make-waitqueue)) => (condition-broadcast 1) (condition-broadcast (make-waitqueue))
"#,
        Told::Forms,
    )
}

#[test]
fn declarations_begin_bodies_and_stand_for_nothing(rt: HostRuntime) -> Result<(), Fail> {
    check(
        &rt,
        rt.alloc(),
        r#"cases: 13
(let () (declare (ignore x))) (let* ((x 1)) (declare) (declare (type)) x) => (progn) (let 1 (bind 0 0 (local 0)))
(let () (declare) "a" 1) => (progn "a" 1)
(defun f (x) (declare (ignore x)) 1) (defun g () "what it does" (declare) (declare) "a" 1) => (defun F) (defun G) (function F 1 1) (function G 0 "a" 1)
(make-thread (lambda (x) (declare (ignore x)) 1)) => (make-thread (function 13)) (function 13 1 1)
(block b (declare) 1) (catch 1 (declare) 2) => (block 0 1) (catch 1 2)
(without-interrupts (declare) (allow-with-interrupts (declare) (with-interrupts (declare) 1))) => (without 0 (allow 0 (with 1)))
(without-interrupts (with-local-interrupts (declare) 1)) => (without 0 (allow 0 (with 1)))
(handler-case 1 (error () (declare) 2) (timeout (e) (declare (ignore e)) 3)) => (handle 1 (clause #<ERROR> 2) (clause #<TIMEOUT> 0 3))
(with-deadline () (declare) 1) (prog1 1 (declare) 2) => (deadline 1) (let 1 (bind 0 0 2 (local 0)))
(loop (declare) 1) => (while T 1)
(dotimes (i 3) (declare (ignore i)) 1) => (let 3 0 (bind 0 1 (bind 1 0 (while (< (local 1) (local 0)) (let (local 1) (bind 2 0 1)) (set 1 (+ (local 1) 1))) NIL)))
(with-mutex (1) (declare) 2) => (let 1 NIL (bind 0 1 (bind 1 0 (without 2 (protect (if (set 1 (allow 2 (grab-mutex (local 0)))) (progn (allow 2 (with 2))) NIL) (if (local 1) (progn (release-mutex :if-not-owner (local 0) :PUNT)) NIL))))))
(with-recursive-lock (1) (declare) 2) => (let 1 NIL (bind 0 1 (bind 1 0 (without 2 (protect (if (let (holding-mutex-p (local 0)) (bind 3 0 (if (local 3) (local 3) (set 1 (allow 2 (grab-mutex (local 0))))))) (progn (allow 2 (with 2))) NIL) (if (local 1) (progn (release-mutex :if-not-owner (local 0) :PUNT)) NIL))))))
"#,
        Told::Forms,
    )
}

#[test]
fn forms_inside_others_are_expanded(rt: HostRuntime) -> Result<(), Fail> {
    check(
        &rt,
        rt.alloc(),
        r#"cases: 7
(dotimes (i 9) (or (cond ((> i 5) (return i))) (print i))) => (block 0 (let 9 0 (bind 1 1 (bind 2 0 (while (< (local 2) (local 1)) (let (local 2) (bind 3 0 (let (if (> (local 3) 5) (progn (return 0 (local 3))) NIL) (bind 4 0 (if (local 4) (local 4) (print (local 3))))))) (set 2 (+ (local 2) 1))) NIL))))
(dotimes (i 9) (or (cond ((zerop i)) (t (let ((x i)) x))) 1)) => (let 9 0 (bind 0 1 (bind 1 0 (while (< (local 1) (local 0)) (let (local 1) (bind 2 0 (let (let (zerop (local 2)) (bind 3 0 (if (local 3) (local 3) (if T (progn (let (local 2) (bind 4 0 (local 4)))) NIL)))) (bind 3 0 (if (local 3) (local 3) 1))))) (set 1 (+ (local 1) 1))) NIL)))
(dotimes (i 2) (dotimes (j i) (return j)) (print i)) => (let 2 0 (bind 0 1 (bind 1 0 (while (< (local 1) (local 0)) (let (local 1) (bind 2 0 (block 3 (let (local 2) 0 (bind 4 1 (bind 5 0 (while (< (local 5) (local 4)) (let (local 5) (bind 6 0 (return 3 (local 6)))) (set 5 (+ (local 5) 1))) NIL)))) (print (local 2)))) (set 1 (+ (local 1) 1))) NIL)))
(defun f (x) (loop (when (prog1 x (incf x)) (return-from f x)))) => (defun F) (function F 1 (block 1 (while T (if (let (local 0) (bind 2 0 (set 0 (+ (local 0) 1)) (local 2))) (progn (return 1 (local 0))) NIL))))
(handler-case (with-timeout 1 (loop (sleep 1))) (timeout () (throw 'a 1))) => (handle (let (make-timer (function 14)) (bind 0 0 (schedule-timer (local 0) 1) (protect (progn (while T (sleep 1))) (unschedule-timer (local 0))))) (clause #<TIMEOUT> (throw A 1))) (function 14 0 (signal #<TIMEOUT>))
(handler-case (let ((x 1)) x) (error (e) (or e (let ((y e)) y)))) => (handle (let 1 (bind 0 0 (local 0))) (clause #<ERROR> 0 (let (local 0) (bind 1 0 (if (local 1) (local 1) (let (local 0) (bind 2 0 (local 2))))))))
(let ((x 1)) (unwind-protect (block b (catch x (return-from b x))) (setq x 2) x)) => (let 1 (bind 0 0 (protect (block 1 (catch (local 0) (return 1 (local 0)))) (set 0 2) (local 0))))
"#,
        Told::Forms,
    )
}

#[test]
fn parts_of_an_expansion_have_the_place_of_the_written_form(rt: HostRuntime) -> Result<(), Fail> {
    check(
        &rt,
        rt.alloc(),
        r#"cases: 35
‹› => ‹›
1 => 1@0
"a" 1.5 => "a"@0 1.500000@4
'a '() => A@0 NIL@3
'"a\"b" => "a\"b"@0
*current-thread* => (current@0)
(progn 1 2) => (progn@0 1@7 2@9)
(+) (+ 4) => 0@0 (+@4 0@4 4@7)
(+ 1 2 3) => (+@0 (+@0 1@3 2@5) 3@7)
(+ 1 (+ 2) 3) => (+@0 (+@0 1@3 (+@5 0@5 2@8)) 3@11)
(cl:+ 1 'a) => (+@0 1@6 A@8)
(max 4) => (let@0 4@5 (bind@0 0 0 (max@0 (local@0 0) (local@0 0))))
(defvar x 1) x => (defvar@0 X 1@10) (special@13 X)
(defvar a) (let (a (x) (y 1)) a) => A@0 (let@11 NIL@17 NIL@19 1@26 (bind@11 A 2 (bind@11 0 1 (bind@11 1 0 (special@30 A)))))
(let* (x (y)) y) => (let@0 NIL@7 (bind@0 0 0 (let@0 NIL@9 (bind@0 1 0 (local@14 1)))))
(let () 1) (let*) => refusal BadForm at 11
(in-package :cl-user) 1 => NIL@0 1@22
(if 1 2) (when 1 2) => (if@0 1@4 2@6 NIL@0) (if@9 1@15 (progn@9 2@17) NIL@9)
(cond (1) (2 3)) => (let@0 1@7 (bind@0 0 0 (if@0 (local@0 0) (local@0 0) (if@0 2@11 (progn@0 3@13) NIL@0))))
(and) (and 1 2) => T@0 (if@6 1@11 2@13 NIL@6)
(or) (or 1) (or 1 2) => NIL@0 1@9 (let@12 1@16 (bind@12 0 0 (if@12 (local@12 0) (local@12 0) 2@18)))
(prog1 1 2) => (let@0 1@7 (bind@0 0 0 2@9 (local@0 0)))
(let (x y) (setq x 1 y 2)) => (let@0 NIL@6 NIL@8 (bind@0 0 1 (bind@0 1 0 (progn@11 (set@11 0 1@19) (set@11 1 2@23)))))
(let (x) (incf x)) => (let@0 NIL@6 (bind@0 0 0 (set@9 0 (+@9 (local@15 0) 1@9))))
(incf x 2) (defvar x) => (set@0 X (+@0 (special@6 X) 2@8)) X@11
(defvar s 1) (incf s 2) (decf s s) => (defvar@0 S 1@10) (set@13 S (+@13 (special@19 S) 2@21)) (set@24 S (-@24 (special@30 S) (special@32 S)))
(block a (return-from a)) => (block@0 0 (return@9 0 NIL@9))
(loop (return)) => (block@0 0 (while@0 T@0 (return@6 0 NIL@6)))
(dotimes (i 3 i) 1) => (let@0 3@12 0@0 (bind@0 0 1 (bind@0 1 0 (while@0 (<@0 (local@0 1) (local@0 0)) (let@0 (local@0 1) (bind@0 2 0 1@17)) (set@0 1 (+@0 (local@0 1) 1@0))) (let@0 (local@0 1) (bind@0 2 0 (local@14 2))))))
(ignore-errors 1) => (handle@0 (progn@0 1@15) (clause@0 #<ERROR> NIL@0))
(handler-case 1 (error (e) e)) => (handle@0 1@14 (clause@0 #<ERROR> 0 (local@27 0)))
(print (terminate-thread 1)) => (print@0 (interrupt-thread@7 1@25 (abort-function@7)))
(with-timeout 1 2) => (let@0 (make-timer@0 (function@0 0)) (bind@0 0 0 (schedule-timer@0 (local@0 0) 1@14) (protect@0 (progn@0 2@16) (unschedule-timer@0 (local@0 0))))) (function@0 0 0 (signal@0 #<TIMEOUT>))
(make-thread #'(lambda (x) x)) => (make-thread@0 (function@15 15)) (function@15 15 1 (local@27 0))
(make-thread #'f) (defun f (s) s) (defvar s) => (make-thread@0 (function@13 F)) (defun@18 F) S@34 (function@18 F 1 (let@18 (local@18 0) (bind@18 S 0 (special@31 S))))
"#,
        Told::Places,
    )
}
