ghost use Rattle.std.specs.Prelude.{pos, [], ◌∷◌, Some, None};
ghost use Rattle.lisp_base.specs.Value.{nil};
ghost use Rattle.lisp_base.specs.declared.condition.Class.TheVariants.{IntegerRange};
ghost use Rattle.lisp_base.specs.declared.value.Node.TheVariants.{Int};
ghost use Rattle.world_semantics.specs.declared.phase.Ending.TheVariants.{Returned, Aborted};
ghost use Rattle.plain_runs.specs.Run.{RunsAs};
ghost use Rattle.plain_runs.specs.Rows.{main_ended, main_out, has_value, printed_sum, printed_sum_journal, no_forms, no_forms_journal, outer_setq, outer_setq_journal, sum_past_range, sum_past_range_journal, sum_past_range_start, open_let};

/// `(print (+ 1 2))` prints 3 at its fourth point and returns it at its fifth.
pub fn a_printed_sum()
    ensures { RunsAs 100000 printed_sum printed_sum_journal (main_ended 5 (Returned (Int (pos 3))) []) }
{}

/// A program without forms returns NIL at its second point.
pub fn empty_program()
    ensures { RunsAs 100000 no_forms no_forms_journal (main_ended 2 (Returned nil) []) }
{}

/// Leaving an inner `let` does not undo an assignment to a variable that an outer one binds.
pub fn outer_setq_survives()
    ensures { RunsAs 100000 outer_setq outer_setq_journal (main_ended 22 (Returned (Int (pos 0))) (has_value 5 (Int (pos 0)) ∷ has_value 6 (Int (pos 0)) ∷ [])) }
{}

/// A sum out of range leaves its `let`, one frame at each point, and aborts the thread.
pub fn a_sum_past_the_range()
    ensures { RunsAs 100000 sum_past_range sum_past_range_journal (main_ended 15 (Aborted (Some (record { class = IntegerRange; text = None }))) (has_value 5 (Int (pos 999999999999999999)) ∷ [])) }
{}

/// Where the points run out inside a `let`, the report has it open.
pub fn out_of_points_in_a_let()
    ensures { RunsAs 12 sum_past_range sum_past_range_start (main_out 12 (open_let ∷ []) (has_value 5 (Int (pos 999999999999999999)) ∷ [])) }
{}

/// Where the points run out after the sum signalled and before the exit leaves the `let`, the report has it open too.
pub fn out_of_points_in_an_exit()
    ensures { RunsAs 13 sum_past_range sum_past_range_start (main_out 13 (open_let ∷ []) (has_value 5 (Int (pos 999999999999999999)) ∷ [])) }
{}
