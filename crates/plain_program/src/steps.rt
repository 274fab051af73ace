use crate::act::{Act, Opening, Question};
use lisp_base::id::{Place, SymbolId};

/// One step of a flattened form: one point.
#[derive(Clone, Copy, Debug, PartialEq, Eq)]
pub enum Step {
    Act(Act),
    Ask(Question),
    /// Asks whether a special variable has a global value. Where it has one, so many steps after this one are passed over.
    Test(SymbolId, usize),
    /// Opens a frame, of the form at this place.
    Enter(Opening, Place),
    /// Leaves the innermost frame.
    Leave,
}
