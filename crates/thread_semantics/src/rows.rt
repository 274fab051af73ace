//! Worked programs. There is nothing to run: the clauses are the rows.
ghost use Rattle.std.specs.Prelude.{pos, Some, None};
ghost use Rattle.lisp_base.specs.declared.condition.Class.TheVariants.{ControlError, ProgramError, TypeError};
ghost use Rattle.lisp_base.specs.declared.value.Node.TheVariants.{Int};
ghost use Rattle.world_semantics.specs.declared.op.Op.TheVariants.{Finish};
ghost use Rattle.world_semantics.specs.declared.phase.Ending.TheVariants.{Aborted, Returned};
ghost use Rattle.thread_semantics.specs.Next.{Operation, OutOfPoints};
ghost use Rattle.thread_semantics.specs.Rows.{ComesTo, absolute, endless, passed_over_block, passed_over_tag, recursive, square, two_cleanups, wrong_count};

/// A call of a function with one argument takes three points more than its body: the argument, the call, and the leaving.
pub fn a_call_gives_its_value()
    ensures { ComesTo 100000 square 8 (Operation (Finish (Returned (Int (pos 49))))) }
{}

/// A function that is given a value of a wrong kind signals at its point.
pub fn a_wrong_kind_is_signalled()
    ensures { ComesTo 100000 absolute 2 (Operation (Finish (Aborted (Some (record { class = TypeError; text = None }))))) }
{}

/// A call with a wrong number of arguments signals, and opens no frame.
pub fn a_wrong_number_of_arguments_is_signalled()
    ensures { ComesTo 100000 wrong_count 3 (Operation (Finish (Aborted (Some (record { class = ProgramError; text = None }))))) }
{}

/// A loop goes on until the points are used up.
pub fn a_loop_runs_out_of_points()
    ensures { ComesTo 11 endless 11 OutOfPoints }
{}

/// Three calls of a function one within the other: each has variables of its own.
pub fn a_function_calls_itself()
    ensures { ComesTo 100000 recursive 32 (Operation (Finish (Returned (Int (pos 2))))) }
{}

/// A block that the suspended exit passes over is not in force in the cleanup.
pub fn a_passed_over_block_is_not_in_force()
    ensures { ComesTo 100000 passed_over_block 13 (Operation (Finish (Aborted (Some (record { class = ControlError; text = None }))))) }
{}

/// Nor is a `catch`. The exit goes on after the cleanup.
pub fn a_passed_over_tag_is_not_in_force()
    ensures { ComesTo 100000 passed_over_tag 18 (Operation (Finish (Returned (Int (pos 1))))) }
{}

/// Two cleanups run in order, innermost first, each once.
pub fn cleanups_run_in_order()
    ensures { ComesTo 100000 two_cleanups 29 (Operation (Finish (Returned (Int (pos 12))))) }
{}
