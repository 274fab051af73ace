//! Rows of the table of points and of the functions, worked out. There is nothing to run: the clauses are the rows.
ghost use Rattle.std.specs.Prelude.{◌≡◌, pos, negsuc, [], ◌∷◌, Ok, Err, true, false, ◌^◌, ◌-◌};
ghost use Rattle.lisp_base.specs.Forest.{NoTrees, Tree};
ghost use Rattle.lisp_base.specs.Value.{nil};
ghost use Rattle.lisp_base.specs.declared.condition.Class.TheVariants.{TypeError, DivisionByZero, IntegerRange};
ghost use Rattle.lisp_base.specs.declared.value.Node.TheVariants.{Int, Symbol, Text};
ghost use Rattle.lisp_program.specs.declared.form.CoreKind.TheVariants as k;
ghost use Rattle.lisp_program.specs.declared.function.Primitive.TheVariants as f;
ghost use Rattle.lisp_program.specs.declared.function.Printing.TheVariants as printing;
ghost use Rattle.lisp_program.specs.declared.function.Service.TheVariants as service;
ghost use Rattle.form_points.specs.declared.act.Act.TheVariants as act;
ghost use Rattle.form_points.specs.declared.act.Question.TheVariants as question;
ghost use Rattle.form_points.specs.declared.act.Step.TheVariants as step;
ghost use Rattle.form_points.specs.Points.{Done, Do, Ask, Test, Choose, Loop, Turn, settled};
ghost use Rattle.form_points.specs.Primitives.{value_of};
ghost use Rattle.form_points.specs.Table.{main_points, points_of};

/// `(let ((x 1)) (print (+ x 2)))` at 0: its value, a point that binds the variable, the arguments, two points, one that forgets
/// the variable, and the end of the thread.
pub fn a_let_prints()
    ensures { main_points (Tree k.Let 0 (Tree (k.Constant (Int (pos 1))) 9 NoTrees (Tree (k.BindLocal 0 0) 0 (Tree (k.Print printing.Print) 13 (Tree (k.Apply f.Add) 20 (Tree (k.Local 0) 23 NoTrees (Tree (k.Constant (Int (pos 2))) 25 NoTrees NoTrees)) NoTrees) NoTrees) NoTrees)) NoTrees)
        ≡ Do (act.Push (Int (pos 1))) 9 (Do (act.BindLocal 0 0) 0 (Do (act.ReadLocal 0) 23 (Do (act.Push (Int (pos 2))) 25 (Do (act.Apply f.Add) 20 (Ask (question.Print printing.Print) 13 (Do act.ForgetLocal 0 (Ask question.EndThread 0 Done))))))) }
{}

/// An `if` without its other branch has the constant NIL there, and a loop without forms gives NIL in each turn.
pub fn what_is_missing_is_nil()
    ensures one_branch { points_of (Tree k.If 0 (Tree (k.Local 0) 4 NoTrees (Tree (k.Local 1) 6 NoTrees NoTrees)) NoTrees)
        ≡ Do (act.ReadLocal 0) 4 (Choose 0 (Do (act.ReadLocal 1) 6 Done) (Do (act.Push nil) 0 Done) Done) ∷ [] }
    ensures no_body { points_of (Tree k.While 0 (Tree (k.Local 0) 4 NoTrees NoTrees) NoTrees)
        ≡ Loop 0 (Do (act.ReadLocal 0) 4 Done) (Do (act.Push nil) 0 Done) Done ∷ [] }
    ensures begins_with_its_test { settled (Loop 0 (Do (act.ReadLocal 0) 4 Done) (Do (act.Push nil) 0 Done) Done)
        ≡ Do (act.ReadLocal 0) 4 (Turn 0 (Do (act.ReadLocal 0) 4 Done) (Do (act.Push nil) 0 Done) Done) }
{}

/// A `condition-wait` waits to be notified and then for the mutex; a timeout is read off the clock first. A `grab-mutex` with
/// `:waitp` and without a timeout tries, or grabs.
pub fn services_are_some_points()
    ensures wait { points_of (Tree (k.Serve (service.ConditionWait false)) 0 (Tree (k.Local 0) 1 NoTrees (Tree (k.Local 1) 2 NoTrees NoTrees)) NoTrees)
        ≡ Do (act.ReadLocal 0) 1 (Do (act.ReadLocal 1) 2 (Ask (question.Serve (service.ConditionWait false) step.Begin) 0
        (Test (question.Serve (service.ConditionWait false) step.Wake) 0 (Ask (question.Serve (service.ConditionWait false) step.Regrab) 0 Done) Done))) ∷ [] }
    ensures timed { points_of (Tree (k.Serve (service.ConditionWait true)) 0 (Tree (k.Local 0) 1 NoTrees (Tree (k.Local 1) 2 NoTrees (Tree (k.Local 2) 3 NoTrees NoTrees))) NoTrees)
        ≡ Do (act.ReadLocal 0) 1 (Do (act.ReadLocal 1) 2 (Do (act.ReadLocal 2) 3 (Test (question.Serve (service.ConditionWait true) step.Clock) 0 (Ask (question.Serve (service.ConditionWait true) step.Begin) 0 Done)
        (Test (question.Serve (service.ConditionWait true) step.Wake) 0 (Ask (question.Serve (service.ConditionWait true) step.Regrab) 0 Done) Done)))) ∷ [] }
    ensures tries { points_of (Tree (k.Serve (service.GrabMutex true false)) 0 (Tree (k.Local 0) 1 NoTrees (Tree (k.Local 1) 2 NoTrees NoTrees)) NoTrees)
        ≡ Do (act.ReadLocal 0) 1 (Do (act.ReadLocal 1) 2 (Test (question.Serve (service.GrabMutex true false) step.Try) 0 (Ask (question.Serve (service.GrabMutex true false) step.Main) 0 Done) Done)) ∷ [] }
{}

/// Quotients and what is left by them, for both signs; the greatest and the least integer; wrong kinds; and what cannot be told.
pub fn functions_have_values()
    ensures floor_down { value_of f.Floor (Int (negsuc 6) ∷ Int (pos 2) ∷ []) ≡ Ok (Int (negsuc 3)) }
    ensures floor_exact { value_of f.Floor (Int (negsuc 5) ∷ Int (pos 2) ∷ []) ≡ Ok (Int (negsuc 2)) }
    ensures truncate { value_of f.Truncate (Int (negsuc 6) ∷ Int (pos 2) ∷ []) ≡ Ok (Int (negsuc 2)) }
    ensures mod_of { value_of f.Mod (Int (negsuc 6) ∷ Int (pos 3) ∷ []) ≡ Ok (Int (pos 2)) }
    ensures mod_below { value_of f.Mod (Int (pos 7) ∷ Int (negsuc 2) ∷ []) ≡ Ok (Int (negsuc 1)) }
    ensures rem_of { value_of f.Rem (Int (negsuc 6) ∷ Int (pos 3) ∷ []) ≡ Ok (Int (negsuc 0)) }
    ensures by_zero { value_of f.Mod (Int (pos 7) ∷ Int (pos 0) ∷ []) ≡ Err DivisionByZero }
    ensures too_great { value_of f.Increment (Int (pos (2 ^ 62 - 1)) ∷ []) ≡ Err IntegerRange }
    ensures least { value_of f.Abs (Int (negsuc (2 ^ 62 - 1)) ∷ []) ≡ Err IntegerRange }
    ensures wrong { value_of f.Less (Int (pos 1) ∷ nil ∷ []) ≡ Err TypeError }
    ensures texts_are_untold { value_of f.Eq (Text 3 ∷ Text 3 ∷ []) ≡ Err TypeError }
    ensures texts_are_equal { value_of f.Equal (Text 3 ∷ Text 3 ∷ []) ≡ Ok (Symbol 1) }
{}
