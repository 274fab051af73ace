/// Something that each worker passes before it goes on.
pub trait Gate {
    /// Lets this worker in, now or later.
    fn enter(&self, worker: u32);
}

/// A gate that lets every worker in at once.
#[derive(Clone, Copy, Debug, PartialEq, Eq)]
pub struct OpenGate;

impl Gate for OpenGate {
    fn enter(&self, _worker: u32) {}
}
