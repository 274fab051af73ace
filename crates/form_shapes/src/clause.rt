ghost use Rattle.std.specs.Prelude.{◌≡◌};
ghost use Rattle.form_shapes.specs.Clauses;
ghost use Rattle.form_shapes.specs.inside.One.{holds_clause, holds_test, holds_variable};

use crate::class_names::class_named;
use crate::scope::{as_variable, first_symbol, name_of};
use lisp_base::condition::Class;
use lisp_base::id::SymbolId;
use lisp_data::items::{First, Items};
use symbol_table::symbols::Symbols;

/// The most clauses of one `handler-case`.
pub const MOST_CLAUSES: u32 = 16;

/// The class that a symbol names.
pub fn class_of(symbols: &Symbols, symbol: Option<SymbolId>) -> Option<Class>
    ensures { result ≡ Clauses.class_of symbols.now symbol }
{
    class_named(name_of(symbols, symbol?))
}

/// Whether these data are no variable, or one.
fn is_variable_list(symbols: &Symbols, items: &Items) -> bool
    ensures { result ≡ Clauses.is_variable_list symbols.now items.now }
{
    match items.count() {
        0 => true,
        1 => as_variable(symbols, first_symbol(items)).is_some(),
        _ => false,
    }
}

/// Whether a datum is a list of no variable, or of one.
fn holds_variable(symbols: &Symbols, first: &First) -> bool
    ensures { result ≡ holds_variable symbols.now first.now }
{
    match first {
        First::Leaf(_, _) => false,
        First::List(_, under) => is_variable_list(symbols, under),
    }
}

/// Whether a list of these is a clause: a class, a list of no variable or of one, and a body.
fn is_clause(symbols: &Symbols, under: &Items) -> bool
    ensures { result ≡ Clauses.is_clause symbols.now under.now }
{
    if class_of(symbols, first_symbol(under)).is_none() {
        return false;
    }
    match under.skip(1).split_first() {
        None => false,
        Some((first, _)) => holds_variable(symbols, &first),
    }
}

/// Whether a datum is a clause of `handler-case`.
fn holds_clause(symbols: &Symbols, first: &First) -> bool
    ensures { result ≡ holds_clause symbols.now first.now }
{
    match first {
        First::Leaf(_, _) => false,
        First::List(_, under) => is_clause(symbols, under),
    }
}

/// Whether all these are clauses of `handler-case`.
pub fn are_clauses(symbols: &Symbols, items: Items) -> bool
    ensures { result ≡ Clauses.are_clauses symbols.now items.entry }
{
    let mut left = items;
    while let Some((first, others)) = left.split_first() {
        if !holds_clause(symbols, &first) {
            return false;
        }
        left = others;
    }
    true
}

/// Whether a datum is a clause of `cond`: a test, and a body.
fn holds_test(first: &First) -> bool
    ensures { result ≡ holds_test first.now }
{
    match first {
        First::Leaf(_, _) => false,
        First::List(_, under) => under.count() > 0,
    }
}

/// Whether all these are clauses of `cond`.
pub fn are_tests(items: Items) -> bool
    ensures { result ≡ Clauses.are_tests items.entry }
{
    let mut left = items;
    while let Some((first, others)) = left.split_first() {
        if !holds_test(&first) {
            return false;
        }
        left = others;
    }
    true
}

/// The variable of a clause, where it has one, of the data after its class.
pub fn clause_variable(items: &Items) -> Option<SymbolId>
    ensures { result ≡ Clauses.clause_variable items.now }
{
    let (first, _) = items.split_first()?;
    match first {
        First::Leaf(_, _) => None,
        First::List(_, under) => first_symbol(&under),
    }
}
