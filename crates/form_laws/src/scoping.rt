ghost use Rattle.form_laws.specs.Scoping.{ProgramsAreScoped};

/// In an accepted program every lexical variable, block and remembered flag that a form names has its opener round it in its own
/// function. There is nothing to run: the clause is the law.
pub fn programs_are_scoped()
    ensures { ProgramsAreScoped }
{}
