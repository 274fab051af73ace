ghost use Rattle.std.specs.Prelude.{◌≡◌};
ghost use Rattle.form_shapes.specs.inside.Contexts.{scope_in};
ghost use Rattle.form_shapes.specs.Shapes;

use crate::expanded::Expanded;
use crate::keywords::Roles;
use crate::scope::{Context, has, is_named, is_variable_name, quoted_leaf, target_of};
use crate::shape::{Shape, bad, fixed, where_holds};
use lisp_base::id::{Place, SymbolId};
use lisp_base::refusal::Refusal;
use lisp_base::value::Value;
use lisp_data::datum::Leaf;
use lisp_data::items::{First, Items};
use lisp_program::form::CoreKind;
use lisp_program::function::Primitive;
use symbol_table::symbols::Symbols;

/// What is quoted: one leaf, or `()`, which is NIL.
pub fn quoted(arguments: &Items) -> Expanded
    ensures { result ≡ Shapes.quoted arguments.now }
{
    let Some((first, others)) = arguments.split_first() else {
        return Expanded::Refused(Refusal::BadForm);
    };
    match first {
        First::Leaf(leaf, _) if others.count() == 0 => quoted_leaf(leaf),
        First::List(_, under) if others.count() == 0 && under.count() == 0 => {
            Expanded::Form(CoreKind::Constant(Value::nil()))
        }
        _ => Expanded::Refused(Refusal::BadForm),
    }
}

/// `if` with or without its third form.
pub fn if_shape(place: Place, arguments: &Items) -> Shape
    ensures { result ≡ Shapes.if_shape place arguments.now }
{
    if arguments.count() == 2 {
        return Shape::OverNil(CoreKind::If, Roles::From(0));
    }
    fixed(place, CoreKind::If, 3, arguments)
}

/// Whether these are pairs of a variable and a value.
fn are_pairs(symbols: &Symbols, items: Items) -> bool
    ensures { result ≡ Shapes.are_pairs symbols.now items.entry }
{
    let mut left = items;
    while let Some((first, others)) = left.split_first() {
        let First::Leaf(leaf, _) = first else {
            return false;
        };
        let Leaf::Symbol(symbol) = leaf else {
            return false;
        };
        let Some((_, behind)) = others.split_first() else {
            return false;
        };
        if !is_variable_name(symbols, symbol) {
            return false;
        }
        left = behind;
    }
    true
}

/// `setq` of one variable or more.
pub fn setq_shape(symbols: &Symbols, place: Place, arguments: Items) -> Shape
    ensures { result ≡ Shapes.setq_shape symbols.now place arguments.entry }
{
    let has_some = arguments.count() > 0;
    where_holds(
        place,
        has_some && are_pairs(symbols, arguments),
        Shape::Setq,
    )
}

/// `incf` or `decf` with these arguments.
pub fn change_shape(
    context: &Context,
    place: Place,
    function: Primitive,
    arguments: &Items,
) -> Shape
    ensures { result ≡ Shapes.change_shape (scope_in context.now) place function arguments.now }
{
    let Some((first, others)) = arguments.split_first() else {
        return bad(place);
    };
    let First::Leaf(leaf, at) = first else {
        return bad(place);
    };
    let Leaf::Symbol(symbol) = leaf else {
        return bad(place);
    };
    if others.count() >= 2 || !is_variable_name(context.symbols, symbol) {
        return bad(place);
    }
    match target_of(context, symbol) {
        None => Shape::Wrong(Refusal::UnknownVariable, at),
        Some(target) => Shape::Change(target, function),
    }
}

/// The symbol s and its place, where these are the items of `'s`.
fn quoted_symbol(symbols: &Symbols, items: &Items) -> Option<(SymbolId, Place)>
    ensures { result ≡ Shapes.quoted_symbol symbols.now items.now }
{
    let (first, others) = items.split_first()?;
    let First::Leaf(leaf, _) = first else {
        return None;
    };
    let Leaf::Symbol(operator) = leaf else {
        return None;
    };
    let (second, behind) = others.split_first()?;
    let First::Leaf(leaf, at) = second else {
        return None;
    };
    let Leaf::Symbol(symbol) = leaf else {
        return None;
    };
    if behind.count() != 0 || !is_named(symbols, "QUOTE", Some(operator)) {
        return None;
    }
    Some((symbol, at))
}

/// The symbol s and its place, where these are the items of `(symbol-value 's)`.
fn valued_symbol(symbols: &Symbols, items: &Items) -> Option<(SymbolId, Place)>
    ensures { result ≡ Shapes.valued_symbol symbols.now items.now }
{
    let (first, others) = items.split_first()?;
    let First::Leaf(leaf, _) = first else {
        return None;
    };
    let Leaf::Symbol(function) = leaf else {
        return None;
    };
    let (second, behind) = others.split_first()?;
    let First::List(_, under) = second else {
        return None;
    };
    if behind.count() != 0 {
        return None;
    }
    if !is_named(symbols, "SYMBOL-VALUE", Some(function)) {
        return None;
    }
    quoted_symbol(symbols, &under)
}

/// `compare-and-swap` with these arguments.
pub fn swap_shape(context: &Context, place: Place, arguments: &Items) -> Shape
    ensures { result ≡ Shapes.swap_shape (scope_in context.now) place arguments.now }
{
    let Some((first, others)) = arguments.split_first() else {
        return bad(place);
    };
    let First::List(_, under) = first else {
        return bad(place);
    };
    if others.count() != 2 {
        return bad(place);
    }
    let Some((symbol, at)) = valued_symbol(context.symbols, &under) else {
        return bad(place);
    };
    if has(context.specials, symbol) {
        Shape::Over(CoreKind::CompareAndSwap(symbol), Roles::From(1))
    } else {
        Shape::Wrong(Refusal::UnknownVariable, at)
    }
}
