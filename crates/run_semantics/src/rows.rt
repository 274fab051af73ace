//! Worked programs. There is nothing to run: the clauses are the rows.
ghost use Rattle.std.specs.Prelude.{pos, [], ◌∷◌, Some, None};
ghost use Rattle.lisp_base.specs.Forest.{NoTrees};
ghost use Rattle.lisp_base.specs.Value.{nil};
ghost use Rattle.lisp_base.specs.declared.condition.Class.TheVariants.{IntegerRange};
ghost use Rattle.lisp_base.specs.declared.value.Node.TheVariants.{Int};
ghost use Rattle.thread_semantics.specs.Rows.{main_of, recursive, square};
ghost use Rattle.world_semantics.specs.declared.op.Op.TheVariants.{Finish};
ghost use Rattle.world_semantics.specs.declared.op.Reply.TheVariants.{Okay};
ghost use Rattle.world_semantics.specs.declared.phase.Ending.TheVariants.{Returned, Aborted};
ghost use Rattle.run_semantics.specs.Run.{RunsAs};
ghost use Rattle.run_semantics.specs.Rows.{has_value, main_does, main_ended, main_out, open_call, open_let, outer_setq, outer_setq_journal, points_to, printed_sum, printed_sum_journal, sum_past_range, sum_past_range_journal, sum_past_range_start};

/// `(print (+ 1 2))` prints 3 at its fourth point and returns it at its fifth.
pub fn a_printed_sum()
    ensures { RunsAs (points_to 100000) printed_sum printed_sum_journal (main_ended 5 (Returned (Int (pos 3))) []) }
{}

/// A program without forms returns NIL at its second point.
pub fn empty_program()
    ensures { RunsAs (points_to 100000) (main_of NoTrees) (main_does 1 2 (Finish (Returned nil)) Okay ∷ []) (main_ended 2 (Returned nil) []) }
{}

/// Leaving an inner `let` does not undo an assignment to a variable that an outer one binds.
pub fn outer_setq_survives()
    ensures { RunsAs (points_to 100000) outer_setq outer_setq_journal (main_ended 22 (Returned (Int (pos 0))) (has_value 5 (Int (pos 0)) ∷ has_value 6 (Int (pos 0)) ∷ [])) }
{}

/// A sum out of range leaves its `let`, one frame at each point, and aborts the thread.
pub fn a_sum_past_the_range()
    ensures { RunsAs (points_to 100000) sum_past_range sum_past_range_journal (main_ended 11 (Aborted (Some (record { class = IntegerRange; text = None }))) (has_value 5 (Int (pos 4611686018427387903)) ∷ [])) }
{}

/// Where the points run out inside a `let`, the report has it open.
pub fn out_of_points_in_a_let()
    ensures { RunsAs (points_to 8) sum_past_range sum_past_range_start (main_out 8 (open_let ∷ []) (has_value 5 (Int (pos 4611686018427387903)) ∷ [])) }
{}

/// Where the points run out after the sum signalled and before the exit leaves the `let`, the report has it open too.
pub fn out_of_points_in_an_exit()
    ensures { RunsAs (points_to 9) sum_past_range sum_past_range_start (main_out 9 (open_let ∷ []) (has_value 5 (Int (pos 4611686018427387903)) ∷ [])) }
{}

/// A call of a function of the program.
pub fn a_square()
    ensures { RunsAs (points_to 100000) square (main_does 1 9 (Finish (Returned (Int (pos 49)))) Okay ∷ []) (main_ended 9 (Returned (Int (pos 49))) []) }
{}

/// Where the points run out in the third of three calls, the report has all three open.
pub fn out_of_points_in_three_calls()
    ensures { RunsAs (points_to 24) recursive [] (main_out 24 (open_call ∷ open_call ∷ open_call ∷ []) []) }
{}
