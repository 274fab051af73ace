ghost use Rattle.std.specs.Prelude.{◌≡◌, ◌≤◌};
ghost use Rattle.lisp_data.specs.Data.{behind};
ghost use Rattle.form_shapes.specs.inside.Contexts.{scope_in};
ghost use Rattle.form_shapes.specs.Scopes.{target_in};
ghost use Rattle.form_shapes.specs.inside.One;
ghost use Rattle.form_shapes.specs.inside.Sizes.{size_of};

use crate::scope::{Context, Target, leaf_symbol, target_of};
use lisp_base::id::{Place, SymbolId};
use lisp_data::items::{First, Items};

/// The data after the first so many.
#[tactic(auto, using(crate::proofs::Sized::size_of_behind))]
pub fn rest<'a>(items: &Items<'a>, number: u32) -> Items<'a>
    ensures is { result ≡ behind number items.now }
    ensures small { size_of result ≤ size_of items.now }
{
    items.skip(number)
}

/// Whether a datum is a list.
pub fn is_list(first: &First) -> bool
    ensures { result ≡ One.is_list first.now }
{
    match first {
        First::Leaf(_, _) => false,
        First::List(_, _) => true,
    }
}

/// The place of a datum.
pub fn place_by(first: &First) -> Place
    ensures { result ≡ One.place_by first.now }
{
    match first {
        First::Leaf(_, place) => *place,
        First::List(place, _) => *place,
    }
}

/// The symbol that a datum is.
pub fn symbol_by(first: &First) -> Option<SymbolId>
    ensures { result ≡ One.symbol_by first.now }
{
    match first {
        First::Leaf(leaf, _) => leaf_symbol(*leaf),
        First::List(_, _) => None,
    }
}

/// The variable that a datum is.
pub fn target_by(context: &Context, first: &First) -> Option<Target>
    ensures { result ≡ target_in (scope_in context.now) (One.symbol_by first.now) }
{
    target_of(context, symbol_by(first)?)
}
