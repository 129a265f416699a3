//! Why the program stops early, with the text of each fault.

use std::io;
use thiserror::Error;

/// Why the program stops early, with exit status 1. What it printed before may be written.
#[derive(Debug, Drop, Error)]
pub enum ProgramFault {
    /// The input can't be read.
    #[error("the input can't be read: {0}")]
    Read(io::Error),
    /// The output can't be written.
    #[error("the output can't be written: {0}")]
    Write(io::Error),
    /// Memory ran out.
    #[error("out of memory")]
    OutOfMemory,
}

impl ProgramFault {
    /// Returns the fault for an error of the reader: `OutOfMemory` if memory ran out, else `Read`.
    pub fn of_reading(error: io::Error) -> ProgramFault {
        match error.kind() {
            io::ErrorKind::OutOfMemory => ProgramFault::OutOfMemory,
            _ => ProgramFault::Read(error),
        }
    }

    /// Returns the fault for an error of the writer, or of a text for it.
    pub fn of_writing(error: io::Error) -> ProgramFault {
        match error.kind() {
            io::ErrorKind::OutOfMemory => ProgramFault::OutOfMemory,
            _ => ProgramFault::Write(error),
        }
    }
}
