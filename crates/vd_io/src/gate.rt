/// A point that a worker passes before each of its requests, at which a test may hold it.
pub trait Gate {
    fn pass(&self, worker: u32, request: u64);
}

/// A gate that holds nobody.
#[derive(Clone, Copy, Debug)]
pub struct OpenGate;

impl Gate for OpenGate {
    fn pass(&self, _worker: u32, _request: u64) {}
}
