ghost use Rattle.std.specs.Prelude.{◌≡◌};
ghost use Rattle.world_semantics.specs.World.{global_of, with_global};
ghost use Rattle.form_evaluator.specs.inside.Globals.{IsFirst};

use lisp_base::id::SymbolId;
use lisp_base::sequence::Sequence;
use lisp_base::value::Value;
use world_semantics::global::Global;

/// The place of a special variable.
fn place_of(globals: &[Global], symbol: SymbolId) -> Option<usize>
    ensures { IsFirst symbol globals.now result }
{
    globals.iter().position(|global| global.symbol == symbol)
}

/// The global value of a special variable, where it has one.
#[tactic(auto, using(crate::proofs::Variables::value_none, crate::proofs::Variables::value_first))]
pub(crate) fn value_of(globals: &Sequence<Global>, symbol: SymbolId) -> Option<Value>
    ensures { result ≡ global_of symbol globals.now }
{
    let at = place_of(globals.as_slice(), symbol)?;
    globals.as_slice()[at].value
}

/// Writes the global value of a special variable.
#[tactic(auto, using(crate::proofs::Variables::written_none, crate::proofs::Variables::written_first))]
pub(crate) fn write(globals: &mut Sequence<Global>, symbol: SymbolId, value: Value)
    ensures { globals.new ≡ with_global symbol value globals.old }
{
    if let Some(at) = place_of(globals.as_slice(), symbol) {
        globals.set(
            at,
            Global {
                symbol,
                value: Some(value),
            },
        );
    }
}
