ghost use Rattle.std.specs.Prelude.{◌≡◌, IfOk, OnOk};
ghost use Rattle.form_shapes.specs.Bindings;
ghost use Rattle.form_shapes.specs.inside.Contexts.{scope_in, scope_of, with_opened};
ghost use Rattle.form_shapes.specs.Scopes;
ghost use Rattle.form_shapes.specs.Scopes.{Scope};

use crate::expanded::Expanded;
use crate::function_names::operator_named;
use crate::levels::{Level, Levels, next};
use crate::operator::{Operator, is_constant, is_current_thread};
use lisp_base::id::{Place, SymbolId};
use lisp_base::memory::Memory;
use lisp_base::refusal::Refusal;
use lisp_base::value::{Node, Value};
use lisp_data::datum::Leaf;
use lisp_data::items::{First, Items};
use lisp_program::form::CoreKind;
use std::alloc::Global;
use symbol_table::symbols::Symbols;
use symbol_table::texts::Texts;

/// The variable that a symbol is.
#[derive(Clone, Copy)]
pub enum Target {
    /// The lexical variable with this number.
    Local(u32),
    Special(SymbolId),
}

/// What all forms of a program are read by.
#[derive(Clone, Copy)]
pub struct Base<'a> {
    /// The names of the symbols.
    pub symbols: &'a Symbols,
    /// The string literals.
    pub texts: &'a Texts,
    /// The special variables of the program.
    pub specials: &'a [SymbolId],
    /// The names of its functions.
    pub functions: &'a [SymbolId],
}

/// What a form is read by, as the expander hands it on: what all forms of the program are read by, and what is open round this one.
#[derive(Clone, Copy)]
pub struct Within<'a, 'b, 'l> {
    /// Where memory comes from, for what is opened inside.
    pub alloc: Global,
    /// What all forms of the program are read by.
    pub base: &'b Base<'a>,
    /// What is open round the form in its call and can be named.
    pub levels: &'l Levels,
    /// How much is open round it in all.
    pub depth: u32,
}

/// What a form is read by.
#[derive(Clone, Copy)]
pub struct Context<'a, 'l> {
    /// The names of the symbols.
    pub symbols: &'a Symbols,
    /// The string literals.
    pub texts: &'a Texts,
    /// The special variables of the program.
    pub specials: &'a [SymbolId],
    /// The names of its functions.
    pub functions: &'a [SymbolId],
    /// What is open round the form in its call and can be named.
    pub levels: &'l Levels,
    /// How much is open round it in all.
    pub depth: u32,
}

/// The context of a form: what all forms are read by, with what is open round this one.
pub fn context_at<'a, 'b, 'l>(within: Within<'a, 'b, 'l>) -> Context<'a, 'l>
    ensures { scope_in result ≡ scope_of within.entry }
{
    let base = within.base;
    Context {
        symbols: base.symbols,
        texts: base.texts,
        specials: base.specials,
        functions: base.functions,
        levels: within.levels,
        depth: within.depth,
    }
}

/// What is open, and how much there is of it in all.
#[derive(Drop)]
pub struct Opened {
    pub levels: Levels,
    pub depth: u32,
}

/// What is open in a context.
pub fn opened_in(alloc: Global, context: &Context) -> Result<Opened, Memory>
    ensures { IfOk result (λ opened. with_opened (scope_in context.now) opened ≡ scope_in context.now) }
{
    Ok(Opened {
        levels: context.levels.copied(alloc)?,
        depth: context.depth,
    })
}

impl Opened {
    /// Opens one more inside that no program can name.
    pub fn deepen(&mut self) -> Result<(), Memory>
        ensures { OnOk result ((s : Scope) → with_opened s self.new ≡ Scopes.deeper (with_opened s self.old)) }
    {
        self.depth = next(self.depth)?;
        Ok(())
    }

    /// Opens one more inside that can be named.
    pub fn open(&mut self, level: Level) -> Result<(), Memory>
        ensures { OnOk result ((s : Scope) → with_opened s self.new ≡ Scopes.inside (with_opened s self.old) level) }
    {
        self.levels.push(level, self.depth)?;
        self.depth = next(self.depth)?;
        Ok(())
    }
}

/// What is open in a context, with one more inside that can be named.
pub fn opened_with(alloc: Global, context: &Context, level: Level) -> Result<Opened, Memory>
    ensures { IfOk result (λ opened. with_opened (scope_in context.now) opened ≡ Scopes.inside (scope_in context.now) level) }
{
    let mut opened = opened_in(alloc, context)?;
    opened.open(level)?;
    Ok(opened)
}

/// Whether these symbols have that one.
pub fn has(symbols: &[SymbolId], symbol: SymbolId) -> bool
    ensures { result ≡ Scopes.has symbols.now symbol }
{
    symbols.iter().any(|other| *other == symbol)
}

/// The name of a symbol; the empty text where the table has no such symbol.
pub fn name_of(symbols: &Symbols, symbol: SymbolId) -> &str
    ensures { result.now ≡ Scopes.name_of symbols.now symbol }
{
    symbols.name(symbol).unwrap_or("")
}

/// The symbol that a leaf is.
pub fn leaf_symbol(leaf: Leaf) -> Option<SymbolId>
    ensures { result ≡ Scopes.leaf_symbol leaf }
{
    match leaf {
        Leaf::Symbol(symbol) => Some(symbol),
        _ => None,
    }
}

/// Whether a symbol has this name.
pub fn is_named(symbols: &Symbols, name: &str, symbol: Option<SymbolId>) -> bool
    ensures { result ≡ Bindings.is_named symbols.now name.now symbol }
{
    match symbol {
        None => false,
        Some(symbol) => name_of(symbols, symbol) == name,
    }
}

/// The symbol that the first of these is.
pub fn first_symbol(items: &Items) -> Option<SymbolId>
    ensures { result ≡ Scopes.first_symbol items.now }
{
    let (first, _) = items.split_first()?;
    match first {
        First::Leaf(leaf, _) => leaf_symbol(leaf),
        First::List(_, _) => None,
    }
}

/// Whether a symbol may be bound, set or defined.
pub fn is_variable_name(symbols: &Symbols, symbol: SymbolId) -> bool
    ensures { result ≡ Scopes.is_variable_name symbols.now symbol }
{
    let name = name_of(symbols, symbol);
    !(is_constant(name) || is_current_thread(name))
}

/// The symbol, where there is one that may be bound, set or defined.
pub fn as_variable(symbols: &Symbols, symbol: Option<SymbolId>) -> Option<SymbolId>
    ensures { result ≡ Scopes.as_variable symbols.now symbol }
{
    let symbol = symbol?;
    if is_variable_name(symbols, symbol) {
        Some(symbol)
    } else {
        None
    }
}

/// The variable that a symbol is.
pub fn target_of(context: &Context, symbol: SymbolId) -> Option<Target>
    ensures { result ≡ Scopes.target_of (scope_in context.now) symbol }
{
    if has(context.specials, symbol) {
        return Some(Target::Special(symbol));
    }
    let number = context.levels.number_of(&Level::Variable(symbol))?;
    Some(Target::Local(number))
}

/// The kind of form that reads a variable.
pub fn read_kind(target: &Target) -> CoreKind
    ensures { result ≡ Scopes.read_kind target.now }
{
    match target {
        Target::Local(number) => CoreKind::Local(*number),
        Target::Special(symbol) => CoreKind::Special(*symbol),
    }
}

/// The kind of form that sets a variable.
pub fn set_kind(target: &Target) -> CoreKind
    ensures { result ≡ Scopes.set_kind target.now }
{
    match target {
        Target::Local(number) => CoreKind::SetLocal(*number),
        Target::Special(symbol) => CoreKind::SetSpecial(*symbol),
    }
}

/// The node of a leaf that is quoted.
fn node_of(leaf: Leaf) -> Node
    ensures { result ≡ Scopes.node_of leaf }
{
    match leaf {
        Leaf::Int(number) => Node::Int(number),
        Leaf::Symbol(symbol) => Node::Symbol(symbol),
        Leaf::Text(text) => Node::Text(text),
        Leaf::Time(time) => Node::Time(time),
    }
}

/// A constant, or a refusal where its number is out of range.
pub fn constant(node: Node) -> Expanded
    ensures { result ≡ Scopes.constant node }
{
    match Value::of(node) {
        Some(value) => Expanded::Form(CoreKind::Constant(value)),
        None => Expanded::Refused(Refusal::BadForm),
    }
}

/// A leaf that is quoted.
pub fn quoted_leaf(leaf: Leaf) -> Expanded
    ensures { result ≡ Scopes.constant (Scopes.node_of leaf) }
{
    constant(node_of(leaf))
}

/// A symbol as a form.
fn symbol_form(context: &Context, symbol: SymbolId) -> Expanded
    ensures { result ≡ Scopes.symbol_form (scope_in context.now) symbol }
{
    let name = name_of(context.symbols, symbol);
    if is_constant(name) {
        return Expanded::Form(CoreKind::Constant(Value::symbol(symbol)));
    }
    if is_current_thread(name) {
        return Expanded::Form(CoreKind::CurrentThread);
    }
    match target_of(context, symbol) {
        Some(target) => Expanded::Form(read_kind(&target)),
        None => Expanded::Refused(Refusal::UnknownVariable),
    }
}

/// A leaf as a form.
pub fn leaf_form(context: &Context, leaf: Leaf) -> Expanded
    ensures { result ≡ Scopes.leaf_form (scope_in context.now) leaf }
{
    match leaf {
        Leaf::Symbol(symbol) => symbol_form(context, symbol),
        _ => quoted_leaf(leaf),
    }
}

/// What a symbol means at the head of a list.
fn operator_in(context: &Context, symbol: SymbolId) -> Option<Operator>
    ensures { result ≡ Scopes.operator_in (scope_in context.now) symbol }
{
    if let Some(operator) = operator_named(name_of(context.symbols, symbol)) {
        return Some(operator);
    }
    if has(context.functions, symbol) {
        return Some(Operator::Own(symbol));
    }
    None
}

/// What the head of a list means.
pub fn operator_at(context: &Context, head: Option<SymbolId>) -> Option<Operator>
    ensures { result ≡ Scopes.operator_at (scope_in context.now) head }
{
    operator_in(context, head?)
}
