//! Rows of lines, worked out. There is nothing to run: the clauses are the rows.
ghost use Rattle.std.specs.Prelude.{◌≡◌, None, pos, [], ◌∷◌, true, false};
ghost use Rattle.lisp_base.specs.Forest.{NoTrees, Tree};
ghost use Rattle.lisp_base.specs.Value.{nil};
ghost use Rattle.lisp_base.specs.declared.condition.Class.TheVariants as class;
ghost use Rattle.lisp_base.specs.declared.id.FunctionName.TheVariants as name;
ghost use Rattle.lisp_base.specs.declared.value.Node.TheVariants.{Int, Symbol};
ghost use Rattle.lisp_program.specs.declared.form.CoreKind.TheVariants as k;
ghost use Rattle.lisp_program.specs.declared.function.Primitive.TheVariants as f;
ghost use Rattle.lisp_program.specs.declared.function.Printing.TheVariants as printing;
ghost use Rattle.form_points.specs.declared.act.Act.TheVariants as act;
ghost use Rattle.form_points.specs.declared.act.Opening.TheVariants as opening;
ghost use Rattle.form_points.specs.declared.act.Question.TheVariants as question;
ghost use Rattle.form_points.specs.Points.{body_of};
ghost use Rattle.form_points.specs.Table.{main_points, points_of};
ghost use Rattle.lisp_code.specs.CodeOf.{begun, functions_from, most_held, names_of, program_lines, stretches_of};
ghost use Rattle.lisp_code.specs.Lines.{Asks, Branches, Calls, Does, Enters, EntersHandler, JumpsTo, Leaves, LeavesHandler, LoopTests, laid, no_way};
ghost use Rattle.lisp_code.specs.Resting.{resting_of};
ghost use Rattle.lisp_code.specs.Rows.{only_open, row, sums};
ghost use Rattle.lisp_code.specs.declared.instr.Instr.TheVariants as instr;

/// `(let ((x 1)) (print (+ x 2)))` at 0: a line for each point. Beside each line stand the place of its form, how many operands there are
/// before it, and how many values are held by it.
pub fn a_let_prints()
    ensures lines { laid [] no_way (begun 0) 0 (main_points (Tree k.Let 0 (Tree (k.Constant (Int (pos 1))) 9 NoTrees (Tree (k.BindLocal 0 0) 0 (Tree (k.Print printing.Print) 13 (Tree (k.Apply f.Add) 20 (Tree (k.Local 0) 23 NoTrees (Tree (k.Constant (Int (pos 2))) 25 NoTrees NoTrees)) NoTrees) NoTrees) NoTrees)) NoTrees)) []
        ≡ row (Does (act.Push (Int (pos 1)))) 9 0 1
        ∷ (row (Does (act.BindLocal 0 0)) 0 1 1
        ∷ (row (Does (act.ReadLocal 0)) 23 0 2
        ∷ (row (Does (act.Push (Int (pos 2)))) 25 1 3
        ∷ (row (Does (act.Apply f.Add)) 20 2 2
        ∷ (row (Asks (question.Print printing.Print)) 13 1 2
        ∷ (row (Does act.ForgetLocal) 0 1 1
        ∷ (row (Asks question.EndThread) 0 1 1 ∷ []))))))) }
{}

/// An `if` branches over its first form and the jump after it. A loop jumps back to its test, and its test's line goes past that jump.
pub fn choices_jump()
    ensures branch { laid [] no_way (only_open 2) 0 (body_of 0 (points_of (Tree k.If 0 (Tree (k.Local 0) 4 NoTrees (Tree (k.Local 1) 6 NoTrees NoTrees)) NoTrees))) []
        ≡ row (Does (act.ReadLocal 0)) 4 0 3
        ∷ (row (Branches 4) 0 1 2
        ∷ (row (Does (act.ReadLocal 1)) 6 0 3
        ∷ (row (JumpsTo 5) 0 1 2
        ∷ (row (Does (act.Push nil)) 0 0 3 ∷ [])))) }
    ensures loops { laid [] no_way (only_open 1) 0 (body_of 0 (points_of (Tree k.While 0 (Tree (k.Local 0) 4 NoTrees NoTrees) NoTrees))) []
        ≡ row (Does (act.ReadLocal 0)) 4 0 2
        ∷ (row (LoopTests 5) 0 1 2
        ∷ (row (Does (act.Push nil)) 0 0 2
        ∷ (row (Does act.Discard) 0 1 1
        ∷ (row (JumpsTo 0) 0 0 1 ∷ [])))) }
{}

/// A frame is entered and left. A binding takes its value away from below the values of later variables, and its body takes those.
pub fn frames_are_left()
    ensures block { laid [] no_way (only_open 1) 0 (body_of 0 (points_of (Tree (k.Block 1) 0 (Tree (k.Local 0) 9 NoTrees NoTrees) NoTrees))) []
        ≡ row (Enters (opening.Block 1) 3) 0 0 2
        ∷ (row (Does (act.ReadLocal 0)) 9 0 3
        ∷ (row Leaves 0 1 1 ∷ [])) }
    ensures binding { laid [] no_way (only_open 0) 0 (body_of 0 (points_of (Tree k.Let 0 (Tree (k.Constant (Int (pos 1))) 7 NoTrees (Tree (k.Constant (Int (pos 2))) 9 NoTrees (Tree (k.BindSpecial 5 1) 0 (Tree (k.BindLocal 0 0) 0 (Tree (k.Local 0) 12 NoTrees NoTrees) NoTrees) NoTrees))) NoTrees))) []
        ≡ row (Does (act.Push (Int (pos 1)))) 7 0 1
        ∷ (row (Does (act.Push (Int (pos 2)))) 9 1 2
        ∷ (row (Enters (opening.Bind 5 1) 7) 0 2 2
        ∷ (row (Does (act.BindLocal 0 0)) 0 1 2
        ∷ (row (Does (act.ReadLocal 0)) 12 0 3
        ∷ (row (Does act.ForgetLocal) 0 1 2
        ∷ (row Leaves 0 1 0 ∷ [])))))) }
{}

/// `(handler-case x (error () x) (division-by-zero (c) c))`: each clause begins where its lines do, with the condition where it is given
/// it, and after each stands a jump past all of them.
pub fn clauses_jump_past_the_others()
    ensures { laid [] no_way (only_open 1) 0 (body_of 0 (points_of (Tree k.HandlerCase 0 (Tree (k.Local 0) 14 NoTrees (Tree (k.Clause class.Error) 16 (Tree (k.Local 0) 26 NoTrees NoTrees) (Tree (k.ClauseWith class.DivisionByZero 1) 29 (Tree (k.Local 1) 51 NoTrees NoTrees) NoTrees))) NoTrees))) []
        ≡ row (EntersHandler (record { class = class.Error; is_given = false; start = 3 } ∷ (record { class = class.DivisionByZero; is_given = true; start = 5 } ∷ []))) 0 0 1
        ∷ (row (Does (act.ReadLocal 0)) 14 0 2
        ∷ (row (LeavesHandler 9) 0 1 1
        ∷ (row (Does (act.ReadLocal 0)) 26 0 2
        ∷ (row (JumpsTo 9) 0 1 1
        ∷ (row (Does (act.BindLocal 1 0)) 29 1 2
        ∷ (row (Does (act.ReadLocal 1)) 51 0 3
        ∷ (row (Does act.ForgetLocal) 29 1 2
        ∷ (row (JumpsTo 9) 0 1 1 ∷ [])))))))) }
{}

/// `(f 1)`: a call of the first function with that name, and the signal where there is none.
pub fn calls_name_functions()
    ensures there { laid (name.AbortThread ∷ (name.Named 7 ∷ [])) no_way (begun 0) 0 (body_of 0 (points_of (Tree (k.Call 7) 0 (Tree (k.Constant (Int (pos 1))) 3 NoTrees NoTrees) NoTrees))) []
        ≡ row (Does (act.Push (Int (pos 1)))) 3 0 1
        ∷ (row (Calls 1 1) 0 1 1 ∷ []) }
    ensures nowhere { laid (name.Named 8 ∷ []) no_way (begun 0) 0 (body_of 0 (points_of (Tree (k.Call 7) 0 (Tree (k.Constant (Int (pos 1))) 3 NoTrees NoTrees) NoTrees))) []
        ≡ row (Does (act.Push (Int (pos 1)))) 3 0 1
        ∷ (row (Does (act.Signal (record { class = class.UndefinedFunction; text = None }))) 0 1 1 ∷ []) }
{}

/// `(defun f (x) x) (f 1)`: main, the function, and that of `terminate-thread`.
pub fn functions_come_after_main()
    ensures lines { program_lines (record {
      forms = Tree (k.Defun 7) 0 NoTrees (Tree (k.Call 7) 16 (Tree (k.Constant (Int (pos 1))) 19 NoTrees NoTrees) NoTrees);
      functions = record { name = name.Named 7; place = 0; params = 1; body = Tree (k.Local 0) 13 NoTrees NoTrees } ∷ [];
      specials = [];
    })
        ≡ row (Does (act.Push (Symbol 7))) 0 0 1
        ∷ (row (Does act.Discard) 0 1 0
        ∷ (row (Does (act.Push (Int (pos 1)))) 19 0 1
        ∷ (row (Calls 0 1) 16 1 1
        ∷ (row (Asks question.EndThread) 0 1 1
        ∷ (row (Does (act.ReadLocal 0)) 13 0 2
        ∷ (row Leaves 0 1 1
        ∷ (row (Does act.AbortThread) 0 0 0
        ∷ (row Leaves 0 1 0 ∷ [])))))))) }
    ensures entries { let functions = stretches_of (record {
      forms = NoTrees;
      functions = record { name = name.Named 7; place = 0; params = 1; body = Tree (k.Local 0) 13 NoTrees NoTrees } ∷ [];
      specials = [];
    }) in
        functions_from (names_of functions) 5 functions
        ≡ record { name = name.Named 7; place = 0; entry = 5; params = 1; height = 2 }
        ∷ (record { name = name.AbortThread; place = 0; entry = 7; params = 0; height = 0 } ∷ []) }
{}

/// Each sum in a sum holds one value more.
pub fn sums_hold_values()
    ensures few { most_held (laid [] no_way (begun 0) 0 (body_of 0 (points_of (sums 3))) []) ≡ 4 }
    ensures many { most_held (laid [] no_way (begun 0) 0 (body_of 0 (points_of (sums 127))) []) ≡ 128 }
    ensures too_many { most_held (laid [] no_way (begun 0) 0 (body_of 0 (points_of (sums 128))) []) ≡ 129 }
{}

/// From a jump that goes on one rests where its target does, and from one that goes back where it lands.
pub fn jumps_are_followed()
    ensures forward { resting_of (instr.Jump 2 ∷ (instr.Leave ∷ (instr.Jump 3 ∷ (instr.LeaveCleanup ∷ [])))) 0 ≡ 3 }
    ensures back { resting_of (instr.Leave ∷ (instr.Jump 2 ∷ (instr.Jump 0 ∷ []))) 1 ≡ 0 }
    ensures stays { resting_of (instr.Leave ∷ (instr.Jump 0 ∷ [])) 0 ≡ 0 }
{}
