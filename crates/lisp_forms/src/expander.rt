ghost use Rattle.std.specs.Prelude.{◌≡◌, ◌++◌, None, All, IfOk, OnOk};
ghost use Rattle.std.specs.Result.{IfErr};
ghost use Rattle.lisp_program.specs.Program.{AreWhole, FlatFunction, program_of};
ghost use Rattle.lisp_program.specs.WellMade.{IsWellMade};
ghost use Rattle.lisp_forms.specs.inside.Flat.{flat};
ghost use Rattle.lisp_forms.specs.Program;
ghost use Rattle.lisp_forms.specs.Trees.{Expansion};
ghost use Rattle.lisp_forms.specs.inside.Written.{one_before, place_here};

use crate::blocks::is_function;
use crate::program::{functions, variables};
use crate::split::split;
use crate::top::expansion;
use form_shapes::expanded::{Expanded, ExpandedNode};
use form_shapes::levels::Levels;
use form_shapes::scope::{Base, Within};
use lisp_base::id::Place;
use lisp_base::memory::Memory;
use lisp_base::refusal::{Refusal, Refused, Rejection};
use lisp_data::datum::Datum;
use lisp_program::form;
use std::alloc::Global;
use symbol_table::symbols::Symbols;
use symbol_table::texts::Texts;

/// A program may have so many functions.
const MOST_FUNCTIONS: usize = 1024;

/// Whether one refusal comes before another.
fn comes_before(one: &Refused, other: &Refused) -> bool
    ensures { result ≡ Program.comes_before one.now other.now }
{
    one.place.0 < other.place.0
        || (one.place == other.place && one.refusal.number() < other.refusal.number())
}

/// The first of two refusals.
fn earlier(one: Option<Refused>, other: Option<Refused>) -> Option<Refused>
    ensures { result ≡ Program.earlier one other }
{
    match (one, other) {
        (Some(first), Some(second)) => {
            if comes_before(&second, &first) {
                Some(second)
            } else {
                Some(first)
            }
        }
        (Some(first), None) => Some(first),
        (None, other) => other,
    }
}

/// What is refused of a node by itself.
fn refusal_of(node: &ExpandedNode) -> Option<Refused>
    ensures { result ≡ Program.refusal_of node.now.kind node.now.place }
{
    match node.kind {
        Expanded::Refused(refusal) | Expanded::RefusedFunction(refusal) => Some(Refused {
            refusal,
            place: node.place,
        }),
        _ => None,
    }
}

/// What was found among nodes.
#[derive(Drop)]
struct Found {
    /// The first refusal of a form.
    refusal: Option<Refused>,
    /// The places of the functions.
    functions: Vec<Place>,
}

/// The first refusal among these nodes, and the places of the functions among them.
fn found_in(alloc: Global, nodes: &[ExpandedNode]) -> Result<Found, Memory>
    ensures refusal { IfOk result (λ found. (e : Expansion) → nodes.now ≡ flat e → found.refusal ≡ Program.first_refusal None e) }
    ensures functions { IfOk result (λ found. (e : Expansion) → nodes.now ≡ flat e → found.functions.items ≡ Program.function_places e) }
{
    let mut refusal = None;
    let mut functions = Vec::new(alloc);
    for node in nodes {
        refusal = earlier(refusal, refusal_of(node));
        push_place(node, &mut functions)?;
    }
    Ok(Found { refusal, functions })
}

/// Writes the place of a node that is a function.
fn push_place(node: &ExpandedNode, places: &mut Vec<Place>) -> Result<(), Memory>
    ensures { OnOk result (places.new.items ≡ places.old.items ++ place_here node.now) }
{
    if is_function(&node.kind) {
        places.push(node.place)?;
    }
    Ok(())
}

/// How many of these places come before that one.
fn before(place: Place, places: &[Place]) -> usize
    ensures { result ≡ Program.before place places.now }
{
    let mut count = 0;
    for other in places {
        count += one_before(place, *other);
    }
    count
}

/// One for a place before this one, and none for another.
fn one_before(place: Place, other: Place) -> usize
    ensures { result ≡ one_before place other }
{
    if other.0 < place.0 { 1 } else { 0 }
}

/// The first of these places before which there are as many as there may be.
fn past_limit(places: &[Place]) -> Option<Place>
    ensures { result ≡ Program.past_limit places.now places.now }
{
    if places.len() <= MOST_FUNCTIONS {
        return None;
    }
    for place in places {
        if before(*place, places) == MOST_FUNCTIONS {
            return Some(*place);
        }
    }
    None
}

/// The refusal of a function past the limit, where there is one.
fn limit_refusal(past: Option<Place>) -> Option<Refused>
    ensures { result ≡ Program.limit_refusal past }
{
    let place = past?;
    Some(Refused {
        refusal: Refusal::TooMany,
        place,
    })
}

/// What is refused of a program with these nodes.
fn program_refusal(alloc: Global, nodes: &[ExpandedNode]) -> Result<Option<Refused>, Memory>
    ensures { IfOk result (λ refusal. (e : Expansion) → nodes.now ≡ flat e → refusal ≡ Program.program_refusal e) }
{
    let found = found_in(alloc, nodes)?;
    let limit = limit_refusal(past_limit(found.functions.as_slice()));
    Ok(earlier(found.refusal, limit))
}

/// The program that data stand for, where these are the names of its symbols and the texts of its string literals. It is well made,
/// and its nodes are those of whole forms. It errs with what is refused of the data, by the least place and there by the least number
/// of a refusal, and where memory runs out.
pub fn expand(
    alloc: Global,
    program: &[Datum],
    symbols: &Symbols,
    texts: &Texts,
) -> Result<form::Program, Rejection>
    ensures expanded { IfOk result (λ p. Program.Expands symbols.now texts.now program.now (program_of p)) }
    ensures whole { IfOk result (λ p. AreWhole p.main) }
    ensures bodies { IfOk result (λ p. All (λ (f : FlatFunction). AreWhole f.body) p.functions) }
    ensures made { IfOk result (λ p. IsWellMade (program_of p)) }
    ensures refused { IfErr result (Program.IsRefusal symbols.now texts.now program.now) }
{
    let specials = variables(alloc, symbols, program)?;
    let functions = functions(alloc, symbols, program)?;
    let levels = Levels::none(alloc);
    let base = Base {
        symbols,
        texts,
        specials: specials.as_slice(),
        functions: functions.as_slice(),
    };
    let within = Within {
        alloc,
        base: &base,
        levels: &levels,
        depth: 0,
    };
    let expansion = expansion(within, program)?;
    let nodes = expansion.as_slice();
    if let Some(told) = program_refusal(alloc, nodes)? {
        return Err(Rejection::at(told.refusal, told.place));
    }
    let (main, functions) = split(alloc, program.len(), nodes)?;
    Ok(form::Program::of(main, functions, specials))
}
