/// Programs, each with the status of its run and all that is written.
pub const RUNS: &str = r##"(print (+ 1 2))
=> 0
sbcl-journal 1
1 t0 4 out "\n3 " -> ok
2 t0 5 finish returned 3 -> ok
report 1
thread 0 "main thread" returned 3 points 5
status 0
end
-----
=> 0
sbcl-journal 1
1 t0 2 finish returned NIL -> ok
report 1
thread 0 "main thread" returned NIL points 2
status 0
end
-----
(defvar *x* 0) (defvar *y* 0) (let ((*x* 1)) (let ((*y* 2)) (setq *x* 5)) (print *x*)) *x*
=> 0
sbcl-journal 1
1 t0 1 boundp *X* -> NIL
2 t0 3 set *X* 0 -> ok
3 t0 5 boundp *Y* -> NIL
4 t0 7 set *Y* 0 -> ok
5 t0 18 out "\n5 " -> ok
6 t0 21 get *X* -> 0
7 t0 22 finish returned 0 -> ok
report 1
thread 0 "main thread" returned 0 points 22
global *X* 0
global *Y* 0
status 0
end
-----
(defvar *x* 999999999999999999) (let ((*x* (+ *x* *x*))) (+ *x* (+ *x* *x*)))
=> 0
sbcl-journal 1
1 t0 1 boundp *X* -> NIL
2 t0 3 set *X* 999999999999999999 -> ok
3 t0 5 get *X* -> 999999999999999999
4 t0 6 get *X* -> 999999999999999999
5 t0 15 finish aborted #<INTEGER-RANGE> -> ok
report 1
thread 0 "main thread" aborted #<INTEGER-RANGE> points 15
global *X* 999999999999999999
status 0
end
-----
(defvar *ab* 1) (setq *Ab* 2) (defvar *c* (print *AB*))
=> 0
sbcl-journal 1
1 t0 1 boundp *AB* -> NIL
2 t0 3 set *AB* 1 -> ok
3 t0 6 set *AB* 2 -> ok
4 t0 8 boundp *C* -> NIL
5 t0 9 get *AB* -> 2
6 t0 10 out "\n2 " -> ok
7 t0 11 set *C* 2 -> ok
8 t0 12 finish returned *C* -> ok
report 1
thread 0 "main thread" returned *C* points 12
global *AB* 2
global *C* 2
status 0
end
-----
(print "a\"b") ; the end
=> 0
sbcl-journal 1
1 t0 2 out "\n\"a\\\"b\" " -> ok
2 t0 3 finish returned "a\"b" -> ok
report 1
thread 0 "main thread" returned "a\"b" points 3
status 0
end
-----
*x* (DEFVAR *x* 'a)
=> 0
sbcl-journal 1
1 t0 1 get *X* -> unbound
2 t0 2 finish aborted #<UNBOUND-VARIABLE> -> ok
report 1
thread 0 "main thread" aborted #<UNBOUND-VARIABLE> points 2
global *X* unbound
status 0
end
-----
(print (+ 1 2 3)) (+) (+ 4) (let () :a) 1.5
=> 0
sbcl-journal 1
1 t0 6 out "\n6 " -> ok
2 t0 17 finish returned 1.500000 -> ok
report 1
thread 0 "main thread" returned 1.500000 points 17
status 0
end
-----
(defvar *x* 1) (let* ((*x* (+ *x* 10)) (*y* *x*)) (incf *x* *y*) *x*) (defvar *y*)
=> 0
sbcl-journal 1
1 t0 1 boundp *X* -> NIL
2 t0 3 set *X* 1 -> ok
3 t0 5 get *X* -> 1
4 t0 21 finish returned *Y* -> ok
report 1
thread 0 "main thread" returned *Y* points 21
global *X* 1
global *Y* unbound
status 0
end
-----
(+ 1 'a (print 2))
=> 0
sbcl-journal 1
1 t0 4 finish aborted #<TYPE-ERROR> -> ok
report 1
thread 0 "main thread" aborted #<TYPE-ERROR> points 4
status 0
end
-----
(defvar *s* "one
two \\ \"three\"") (print *s*)
=> 0
sbcl-journal 1
1 t0 1 boundp *S* -> NIL
2 t0 3 set *S* "one\ntwo \\ \"three\"" -> ok
3 t0 5 get *S* -> "one\ntwo \\ \"three\""
4 t0 6 out "\n\"one\ntwo \\\\ \\\"three\\\"\" " -> ok
5 t0 7 finish returned "one\ntwo \\ \"three\"" -> ok
report 1
thread 0 "main thread" returned "one\ntwo \\ \"three\"" points 7
global *S* "one\ntwo \\ \"three\""
status 0
end
"##;

/// Refused programs, each with its line.
pub const REFUSED: &str = r#"1 ) => refused 3 UnmatchedClose at 2
(print "ab => refused 2 EndInside at 7
(print 1.) => refused 4 BadToken at 7
4611686018427387904 => refused 5 NumberTooLarge at 0
(if 1 2 3) => refused 10 NotBuilt at 0
(print 1) (defun f (x) x) => refused 10 NotBuilt at 10
(if 1 2 3) (foo) => refused 11 UnknownOperator at 11
(print) => refused 12 BadForm at 0
(print x) => refused 13 UnknownVariable at 7
(let ((x 1)) (setq x 2) (lambda () x)) => refused 14 FunctionPlace at 24
(with-local-interrupts 1) => refused 15 RegionOutside at 0
(block a (return-from b 1)) => refused 16 NoSuchBlock at 9
(defvar *x* 1) (defvar *x* 2) => refused 18 DefinedTwice at 15"#;
