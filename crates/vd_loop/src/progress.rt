//! Where a run has come.

/// Why no line more is answered.
#[derive(Clone, Copy, Debug, PartialEq, Eq)]
pub enum Stop {
    End,
    SourceFailed,
    SinkFailed,
    Memory,
    BadLine,
    TooLong,
}

/// Where a script has come: why it stopped, and how many lines were answered; where the sink
/// failed, to how many lines the replies were written whole.
#[derive(Clone, Copy, Debug, PartialEq, Eq)]
pub struct Progress {
    pub stop: Stop,
    pub lines: u64,
}
