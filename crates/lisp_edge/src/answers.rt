/// What a call of a source's `read` did.
#[derive(Clone, Copy, Debug, PartialEq, Eq)]
pub enum ReadAnswer {
    /// This many bytes, at least one, were put into the front of the buffer.
    Took(usize),
    /// Nothing is left to read.
    End,
    /// The source failed, and counted a fault.
    Failed,
}

/// What a call of a sink's `write` did.
#[derive(Clone, Copy, Debug, PartialEq, Eq)]
pub enum WriteAnswer {
    /// This many bytes, at least one, were taken from the front of those given.
    Took(usize),
    /// The sink failed, and counted a fault.
    Failed,
}
