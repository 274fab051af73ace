ghost use Rattle.std.specs.Prelude.{◌≡◌, ◌++◌, ◌∷◌, [], ◌+◌, ◌^◌, ◌<◌, IfOk, OnOk, map};
ghost use Rattle.lisp_base.specs.Forest.{count_of};
ghost use Rattle.lisp_program.specs.Forms.{preorder};
ghost use Rattle.lisp_forms.specs.inside.Flat.{flat};
ghost use Rattle.lisp_forms.specs.inside.Functions.{flat_function, function_here};
ghost use Rattle.lisp_forms.specs.Program;
ghost use Rattle.lisp_forms.specs.inside.Written.{block_node, core_here, core_node, cores_in, is_done, left_behind};
ghost use Rattle.lisp_forms.specs.Trees.{Expansion};

use crate::blocks::{is_function, skipped_behind};
use crate::lowered::turning_kind;
use form_shapes::expanded::{Expanded, ExpandedNode};
use lisp_base::id::{FunctionName, Place};
use lisp_base::memory::Memory;
use lisp_base::value::Value;
use lisp_program::form::{CoreKind, FormNode, FunctionForm};
use std::alloc::Global;

/// The kind of a form that is not refused, which is at a place.
fn core_kind(kind: Expanded, place: Place) -> CoreKind
    ensures { result ≡ Program.core_kind kind place }
{
    match kind {
        Expanded::Form(kind) => kind,
        Expanded::InBlock(_, turning) => turning_kind(turning),
        Expanded::Lambda(_) => CoreKind::Function(FunctionName::At(place)),
        Expanded::Defun(name, _) => CoreKind::Defun(name),
        Expanded::Refused(_) | Expanded::RefusedFunction(_) => { CoreKind::Constant(Value::nil()) }
    }
}

/// The first so many forms of these nodes, without the bodies of the functions in them.
fn core_forms(alloc: Global, count: u64, nodes: &[ExpandedNode]) -> Result<Vec<FormNode>, Memory>
    ensures { IfOk result (λ forms. forms.items ≡ cores_in 0 count nodes.now) }
{
    let mut forms = Vec::new(alloc);
    // How many forms are still to come, and how many of the next belong to functions.
    let mut left = count as u128;
    let mut skipped: u128 = 0;
    for node in nodes {
        if is_done(skipped, left) {
            return Ok(forms);
        }
        push_here(skipped, node, &mut forms)?;
        left = left_behind(skipped, left, node);
        skipped = skipped_behind(skipped, node);
    }
    Ok(forms)
}

/// Whether no form is left to be written, and none is skipped.
fn is_done(skipped: u128, left: u128) -> bool
    ensures { result ≡ is_done skipped left }
{
    skipped == 0 && left == 0
}

/// Writes the node of the block that a form has.
fn push_block(node: &ExpandedNode, forms: &mut Vec<FormNode>) -> Result<(), Memory>
    ensures { OnOk result (forms.new.items ≡ forms.old.items ++ block_node node.now.kind node.now.place) }
{
    if let Expanded::InBlock(number, _) = node.kind {
        forms.push(FormNode {
            kind: CoreKind::Block(number),
            place: node.place,
            parts: 1,
        })?;
    }
    Ok(())
}

/// Writes the node of a form and of its block, unless it belongs to a function.
fn push_here(skipped: u128, node: &ExpandedNode, forms: &mut Vec<FormNode>) -> Result<(), Memory>
    ensures { OnOk result (forms.new.items ≡ forms.old.items ++ core_here skipped node.now) }
{
    if skipped > 0 {
        return Ok(());
    }
    push_block(node, forms)?;
    push_core(node, forms)
}

/// How many forms are left after a node, where so many of the forms from it on belong to a function.
fn left_behind(skipped: u128, left: u128, node: &ExpandedNode) -> u128
    requires { left < 2 ^ 127 }
    ensures is { result ≡ left_behind skipped left node.now }
    ensures few { result < left + 2 ^ 32 }
{
    if skipped > 0 || left == 0 {
        return left;
    }
    if is_function(&node.kind) {
        left - 1
    } else {
        left - 1 + node.parts as u128
    }
}

/// Writes the node of a core form, which has no parts where it is a function.
fn push_core(node: &ExpandedNode, forms: &mut Vec<FormNode>) -> Result<(), Memory>
    ensures { OnOk result (forms.new.items ≡ forms.old.items ++ core_node node.now ∷ []) }
{
    let parts = if is_function(&node.kind) {
        0
    } else {
        node.parts
    };
    forms.push(FormNode {
        kind: core_kind(node.kind, node.place),
        place: node.place,
        parts,
    })?;
    Ok(())
}

/// Writes a function of this name with so many parameters, whose node is this one, with those after it.
fn push_named(
    alloc: Global,
    name: FunctionName,
    params: u32,
    node: &ExpandedNode,
    after: &[ExpandedNode],
    functions: &mut Vec<FunctionForm>,
) -> Result<(), Memory>
    ensures { OnOk result (functions.new.items ≡ functions.old.items ++ (record { name = name; place = node.now.place; params = params; body = cores_in 0 node.now.parts after.now }) ∷ []) }
{
    let body = core_forms(alloc, node.parts as u64, after)?;
    functions.push(FunctionForm::of(name, node.place, params, body))?;
    Ok(())
}

/// Writes the function that a node is, where it is one, with these nodes after it.
fn push_function(
    alloc: Global,
    node: &ExpandedNode,
    after: &[ExpandedNode],
    functions: &mut Vec<FunctionForm>,
) -> Result<(), Memory>
    ensures { OnOk result (functions.new.items ≡ functions.old.items ++ function_here node.now after.now) }
{
    match node.kind {
        Expanded::Lambda(params) => {
            push_named(
                alloc,
                FunctionName::At(node.place),
                params,
                node,
                after,
                functions,
            )
        }
        Expanded::Defun(name, params) => {
            push_named(
                alloc,
                FunctionName::Named(name),
                params,
                node,
                after,
                functions,
            )
        }
        _ => Ok(()),
    }
}

/// The functions among these nodes.
fn functions_of(alloc: Global, nodes: &[ExpandedNode]) -> Result<Vec<FunctionForm>, Memory>
    ensures { IfOk result (λ functions. (e : Expansion) → nodes.now ≡ flat e → functions.items ≡ map flat_function (Program.functions_of e)) }
{
    let mut functions = Vec::new(alloc);
    for (index, node) in nodes.iter().enumerate() {
        push_function(alloc, node, &nodes[index + 1..], &mut functions)?;
    }
    Ok(functions)
}

/// The forms of main, and the functions, of a program with these nodes of so many forms.
pub fn split(
    alloc: Global,
    count: usize,
    nodes: &[ExpandedNode],
) -> Result<(Vec<FormNode>, Vec<FunctionForm>), Memory>
    ensures { IfOk result (λ parts. (e : Expansion) → nodes.now ≡ flat e → count ≡ count_of e → (parts.0.items ≡ preorder (Program.core_forms e)) × (parts.1.items ≡ map flat_function (Program.functions_of e))) }
{
    let main = core_forms(alloc, count as u64, nodes)?;
    let functions = functions_of(alloc, nodes)?;
    Ok((main, functions))
}
