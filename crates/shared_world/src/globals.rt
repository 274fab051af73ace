//! The special variables with their global values.
ghost use Rattle.std.specs.Prelude.{◌≡◌, IfOk};
ghost use Rattle.world_semantics.specs.World.{global_of, unbound_all, with_global};
ghost use Rattle.shared_world.specs.inside.Globals.{IsFirst};

use lisp_base::id::SymbolId;
use lisp_base::memory::Memory;
use lisp_base::value::Value;
use std::alloc;
use world_semantics::global::Global;

/// The place of a special variable.
fn place_of(globals: &[Global], symbol: SymbolId) -> Option<usize>
    ensures { IsFirst symbol globals.now result }
{
    globals.iter().position(|global| global.symbol == symbol)
}

/// Special variables without values.
pub(crate) fn unbound(alloc: alloc::Global, specials: &[SymbolId]) -> Result<Vec<Global>, Memory>
    ensures { IfOk result (λ globals. globals.items ≡ unbound_all specials.now) }
{
    let mut globals = Vec::new(alloc);
    for at in 0..specials.len() {
        globals.push(Global {
            symbol: specials[at],
            value: None,
        })?;
    }
    Ok(globals)
}

/// The global value of a special variable, where it has one.
#[tactic(auto, using(crate::proofs::Variables::value_none, crate::proofs::Variables::value_first))]
pub(crate) fn value_of(globals: &[Global], symbol: SymbolId) -> Option<Value>
    ensures { result ≡ global_of symbol globals.now }
{
    let at = place_of(globals, symbol)?;
    globals[at].value
}

/// Writes the global value of a special variable.
#[tactic(auto, using(crate::proofs::Variables::written_none, crate::proofs::Variables::written_first))]
pub(crate) fn write(globals: &mut [Global], symbol: SymbolId, value: Value)
    ensures { globals.new ≡ with_global symbol value globals.old }
{
    if let Some(at) = place_of(globals, symbol) {
        globals[at] = Global {
            symbol,
            value: Some(value),
        };
    }
}
