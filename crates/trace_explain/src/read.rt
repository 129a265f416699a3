//! Reads one line: of a trace characters, a reset or a note; of a log a command or an answer.
pub mod channels;
pub mod digits;
pub mod entry;
pub mod files;
pub mod form_row;
pub mod forms;
pub mod log;
pub mod pattern;
pub mod reading;
pub mod time;
pub mod trace_line;
pub mod ways;
pub mod wide;
