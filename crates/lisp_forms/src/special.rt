ghost use Rattle.std.specs.Prelude.{◌≡◌};
ghost use Rattle.std.specs.List.{list_any};
ghost use Rattle.lisp_base.specs.Writing.{Wrote};
ghost use Rattle.form_shapes.specs.Scopes.{has};
ghost use Rattle.lisp_forms.specs.inside.Written.{special_node, special_nodes, special_parts as part_count_special};

use crate::nodes::{push_form, push_local};
use form_shapes::expanded::ExpandedNode;
use form_shapes::levels::next;
use form_shapes::scope::has;
use lisp_base::id::{Place, SymbolId};
use lisp_base::writer::Writer;
use lisp_program::form::CoreKind;

/// How many forms a body of so many is, where these parameters are bound round it.
pub fn special_parts(specials: &[SymbolId], parameters: &[SymbolId], body: u32) -> u32
    ensures { result ≡ part_count_special specials.now body parameters.now }
{
    if any_special(specials, parameters) {
        1
    } else {
        body
    }
}

/// Whether some of these parameters are special.
fn any_special(specials: &[SymbolId], parameters: &[SymbolId]) -> bool
    ensures { result ≡ list_any (has specials.now) parameters.now }
{
    parameters.iter().any(|parameter| has(specials, *parameter))
}

/// Writes what binds this parameter with this number, where it is special, round the others and a body of so many forms.
fn push_special(
    specials: &[SymbolId],
    place: Place,
    number: u32,
    parameter: SymbolId,
    others: &[SymbolId],
    body: u32,
    nodes: &mut Writer<ExpandedNode>,
)
    ensures { Wrote nodes.old nodes.new (special_node specials.now place body number parameter others.now) }
{
    if !has(specials, parameter) {
        return;
    }
    let parts = special_parts(specials, others, body);
    push_form(CoreKind::Let, place, 2, nodes);
    push_local(number, place, nodes);
    push_form(CoreKind::BindSpecial(parameter, 0), place, parts, nodes)
}

/// Writes what binds the special ones of these parameters round a body of so many forms.
pub fn push_specials(
    specials: &[SymbolId],
    place: Place,
    parameters: &[SymbolId],
    body: u32,
    nodes: &mut Writer<ExpandedNode>,
)
    ensures { Wrote nodes.old nodes.new (special_nodes specials.now place body 0 parameters.now) }
{
    let mut number = 0;
    for (index, parameter) in parameters.iter().enumerate() {
        let others = &parameters[index + 1..];
        push_special(specials, place, number, *parameter, others, body, nodes);
        let Ok(behind) = next(number) else {
            return nodes.fill();
        };
        number = behind;
    }
}
