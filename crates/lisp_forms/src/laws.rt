ghost use Rattle.lisp_forms.specs.Laws.{FirstIsTold, ProgramsAreWellMade};

/// Of all refusals of an expansion, that which comes first is told, and none is told where there is none. There is nothing to
/// run: the clause is the law.
pub fn first_is_told()
    ensures { FirstIsTold }
{}

/// In an accepted program each form stands in a seat for forms like it, and the special variables and functions that it names are the
/// program's. There is nothing to run: the clause is the law.
pub fn programs_are_well_made()
    ensures { ProgramsAreWellMade }
{}
