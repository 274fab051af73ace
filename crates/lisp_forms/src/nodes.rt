ghost use Rattle.std.specs.Prelude.{◌≡◌, ◌∷◌, []};
ghost use Rattle.lisp_base.specs.Writing.{Wrote};
ghost use Rattle.lisp_forms.specs.inside.Flat.{flat_one, node, repeated};
ghost use Rattle.lisp_forms.specs.Rows;
ghost use Rattle.lisp_forms.specs.Trees.{nil_form};

use form_shapes::expanded::{Expanded, ExpandedNode};
use form_shapes::scope::constant;
use lisp_base::id::{Place, SymbolId};
use lisp_base::value::{Node, Value};
use lisp_base::writer::Writer;
use lisp_program::form::CoreKind;
use lisp_program::function::Primitive;

/// Writes one node.
pub fn push_node(kind: Expanded, place: Place, parts: u32, nodes: &mut Writer<ExpandedNode>)
    ensures { Wrote nodes.old nodes.new (node kind place parts ∷ []) }
{
    nodes.push(ExpandedNode { kind, place, parts });
}

/// Writes one node of a core form.
pub fn push_form(kind: CoreKind, place: Place, parts: u32, nodes: &mut Writer<ExpandedNode>)
    ensures { Wrote nodes.old nodes.new (node (Expanded.Form kind) place parts ∷ []) }
{
    push_node(Expanded::Form(kind), place, parts, nodes)
}

/// Writes a constant NIL.
pub fn push_nil(place: Place, nodes: &mut Writer<ExpandedNode>)
    ensures { Wrote nodes.old nodes.new (flat_one (nil_form place)) }
{
    push_form(CoreKind::Constant(Value::nil()), place, 0, nodes)
}

/// Writes a constant T.
pub fn push_true(place: Place, nodes: &mut Writer<ExpandedNode>)
    ensures { Wrote nodes.old nodes.new (flat_one (Rows.true_form place)) }
{
    push_form(
        CoreKind::Constant(Value::symbol(SymbolId(1))),
        place,
        0,
        nodes,
    )
}

/// Writes a number.
pub fn push_number(number: i64, place: Place, nodes: &mut Writer<ExpandedNode>)
    ensures { Wrote nodes.old nodes.new (flat_one (Rows.number_form number place)) }
{
    push_node(constant(Node::Int(number)), place, 0, nodes)
}

/// The number that changes nothing where a function is folded.
pub fn unit_of(function: Primitive) -> i64
    ensures { result ≡ Rows.unit_of function }
{
    match function {
        Primitive::Multiply => 1,
        _ => 0,
    }
}

/// Writes a lexical variable.
pub fn push_local(number: u32, place: Place, nodes: &mut Writer<ExpandedNode>)
    ensures { Wrote nodes.old nodes.new (flat_one (Rows.local number place)) }
{
    push_form(CoreKind::Local(number), place, 0, nodes)
}

/// Writes the same node of a core form so many times.
pub fn push_forms(
    count: u32,
    kind: &CoreKind,
    place: Place,
    parts: u32,
    nodes: &mut Writer<ExpandedNode>,
)
    ensures { Wrote nodes.old nodes.new (repeated count (node (Expanded.Form kind.now) place parts)) }
{
    for _done in 0..count {
        push_form(*kind, place, parts, nodes);
    }
}
