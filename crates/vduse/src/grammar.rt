//! The grammars of the programs' lines.

use std::alloc::Global;
use vd_script::{LineError, read_line};
use vd_vhost_lines::read_vhost_line;
use vr_queue::read_queue_line;

/// Which lines a program reads.
#[derive(Clone, Copy)]
pub enum Grammar {
    Script,
    Queue,
    Guest,
}

impl Grammar {
    /// Whether the line isn't in this grammar.
    pub fn refuses(self, alloc: Global, line: &[u8]) -> bool {
        let mut scratch = Vec::new(alloc);
        match self {
            Grammar::Script => matches!(read_line(alloc, &mut scratch, line), Err(LineError::Bad)),
            Grammar::Queue => matches!(read_queue_line(alloc, line), Err(LineError::Bad)),
            Grammar::Guest => matches!(
                read_vhost_line(alloc, &mut scratch, line),
                Err(LineError::Bad)
            ),
        }
    }
}
