ghost use Rattle.plain_program.specs.Table.{OneMain, OneTable, SameForms};

/// The points of plain forms are those of the whole table, and where all forms are run the plain forms are those forms.
/// There is nothing to run: the clauses are the laws.
pub fn one_table()
    ensures points { OneTable }
    ensures main { OneMain }
    ensures forms { SameForms }
{}
