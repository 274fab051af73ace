/// The programs of `examples/`, each with the status of its run and all that is written.
pub const EXAMPLES: &str = r##"; a condition aborts the thread, and the status is 0 all the same
(print "before")
(print (+ 1 "two"))
(print "after")
=> 0
sbcl-journal 1
1 t0 2 out "\n\"before\" " -> ok
2 t0 7 finish aborted #<TYPE-ERROR> -> ok
report 1
thread 0 "main thread" aborted #<TYPE-ERROR> points 7
status 0
end
-----
; `progn` gives the value of its last form
(progn 1 (print 2))
=> 0
sbcl-journal 1
1 t0 4 out "\n2 " -> ok
2 t0 5 finish returned 2 -> ok
report 1
thread 0 "main thread" returned 2 points 5
status 0
end
-----
; inside a `let` a special variable is the thread's own
(defvar *x* 0)
(let ((*x* 1))
  (setq *x* 5)
  (print *x*))
*x*
=> 0
sbcl-journal 1
1 t0 1 boundp *X* -> NIL
2 t0 3 set *X* 0 -> ok
3 t0 11 out "\n5 " -> ok
4 t0 14 get *X* -> 0
5 t0 15 finish returned 0 -> ok
report 1
thread 0 "main thread" returned 0 points 15
global *X* 0
status 0
end
-----
; outside of every `let` a special variable is read and set globally
(defvar *count* 1)
(setq *count* (+ *count* 1))
(print *count*)
=> 0
sbcl-journal 1
1 t0 1 boundp *COUNT* -> NIL
2 t0 3 set *COUNT* 1 -> ok
3 t0 5 get *COUNT* -> 1
4 t0 8 set *COUNT* 2 -> ok
5 t0 10 get *COUNT* -> 2
6 t0 11 out "\n2 " -> ok
7 t0 12 finish returned 2 -> ok
report 1
thread 0 "main thread" returned 2 points 12
global *COUNT* 2
status 0
end
-----
; `let*` is a `let` in a `let`, and `incf` a `setq` of a sum
(defvar *x* 1)
(defvar *y* 2)
(let* ((*x* (+ *x* 10))
       (*y* (+ *x* *y*)))
  (incf *y* 5)
  (print *y*))
=> 0
sbcl-journal 1
1 t0 1 boundp *X* -> NIL
2 t0 3 set *X* 1 -> ok
3 t0 5 boundp *Y* -> NIL
4 t0 7 set *Y* 2 -> ok
5 t0 9 get *X* -> 1
6 t0 14 get *Y* -> 2
7 t0 23 out "\n18 " -> ok
8 t0 26 finish returned 18 -> ok
report 1
thread 0 "main thread" returned 18 points 26
global *X* 1
global *Y* 2
status 0
end
-----
; what `print` prints stands in the journal
(print "Hello, world!")
=> 0
sbcl-journal 1
1 t0 2 out "\n\"Hello, world!\" " -> ok
2 t0 3 finish returned "Hello, world!" -> ok
report 1
thread 0 "main thread" returned "Hello, world!" points 3
status 0
end
-----
; leaving the inner `let` undoes its own bindings, and not what it assigned to `*x*`
(defvar *x* 0)
(defvar *y* 0)
(let ((*x* 1))
  (let ((*y* 2))
    (setq *x* (+ *x* *y*)))
  (print *x*)
  (print *y*))
=> 0
sbcl-journal 1
1 t0 1 boundp *X* -> NIL
2 t0 3 set *X* 0 -> ok
3 t0 5 boundp *Y* -> NIL
4 t0 7 set *Y* 0 -> ok
5 t0 20 out "\n3 " -> ok
6 t0 22 get *Y* -> 0
7 t0 23 out "\n0 " -> ok
8 t0 25 finish returned 0 -> ok
report 1
thread 0 "main thread" returned 0 points 25
global *X* 0
global *Y* 0
status 0
end
-----
; a `lambda` sees no block round it: refused with the place of the `return-from`
(defun first-done ()
  (make-thread (lambda () (return-from first-done 1))))
=> 4
refused 16 NoSuchBlock at 128
-----
; an accepted program with forms that are not run yet: refused with the place of the first one
(defvar *n* 1)
(join-thread (make-thread (lambda () (print *n*))))
=> 4
refused 10 NotBuilt at 110
-----
; a symbol that is no variable: refused with its place
(print (+ 1 two))
=> 4
refused 13 UnknownVariable at 67
-----
; several forms at top level: main gives the value of the last one
(print 1)
(+ 2 (print 3))
=> 0
sbcl-journal 1
1 t0 2 out "\n1 " -> ok
2 t0 6 out "\n3 " -> ok
3 t0 8 finish returned 5 -> ok
report 1
thread 0 "main thread" returned 5 points 8
status 0
end
-----
; `print` writes a string in quotes, and the journal writes it on one line
(print "one \"two\"
three")
(print 'done)
=> 0
sbcl-journal 1
1 t0 2 out "\n\"one \\\"two\\\"\nthree\" " -> ok
2 t0 5 out "\nDONE " -> ok
3 t0 6 finish returned DONE -> ok
report 1
thread 0 "main thread" returned DONE points 6
status 0
end
-----
; a sum takes a point for each number and one for itself, and `print` one for its operation
(print (+ 1 2))
=> 0
sbcl-journal 1
1 t0 4 out "\n3 " -> ok
2 t0 5 finish returned 3 -> ok
report 1
thread 0 "main thread" returned 3 points 5
status 0
end
-----
; a variable has no value before its `defvar`: the thread is aborted
*late*
(defvar *late* 1)
=> 0
sbcl-journal 1
1 t0 1 get *LATE* -> unbound
2 t0 2 finish aborted #<UNBOUND-VARIABLE> -> ok
report 1
thread 0 "main thread" aborted #<UNBOUND-VARIABLE> points 2
global *LATE* unbound
status 0
end
"##;
