ghost use Rattle.form_laws.specs.Unused.{UnusedBlockChangesNothing};

/// What is read in an implicit block to which nothing returns stands for the same as without it. There is nothing to run: the clause is
/// the law.
pub fn unused_block_changes_nothing()
    ensures { UnusedBlockChangesNothing }
{}
