use crate::op::{Op, Reply};
use lisp_base::id::Actor;

/// One line of the journal: an operation, who did it at which of its points, and the reply. Tickets count the
/// entries from 1.
#[derive(Clone, Copy, Debug, PartialEq, Eq)]
pub struct Entry {
    pub ticket: u64,
    pub actor: Actor,
    pub point: u64,
    pub op: Op,
    pub reply: Reply,
}
