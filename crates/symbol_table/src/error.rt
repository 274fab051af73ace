ghost use Rattle.std.specs.Prelude.{◌≡◌};
ghost use Rattle.symbol_table.specs.declared.error.InternError.TheVariants.{Memory as OfMemory};

use lisp_base::memory::Memory;
use thiserror::Error;

/// Why a name gets no number. The table of names is as it was.
#[derive(Clone, Copy, Debug, PartialEq, Eq, Error)]
pub enum InternError {
    /// The name is new, and there are as many names as there may be.
    #[error("too many names")]
    TooMany,
    /// The name is new, and there is no memory for it.
    #[error("out of memory")]
    Memory,
}

impl From<Memory> for InternError {
    ghost from_gives = { λ _ error. error ≡ OfMemory };

    fn from(_memory: Memory) -> Self {
        InternError::Memory
    }
}
