use world_semantics::op::Op;

/// What comes next for a thread.
#[derive(Clone, Copy, Debug, PartialEq, Eq)]
pub enum Next {
    /// A point that touches this thread alone.
    Local,
    /// An operation on shared objects.
    Operation(Op),
    /// Nothing: it has ended.
    Nothing,
}
