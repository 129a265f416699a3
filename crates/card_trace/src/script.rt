//! Scripts: their lines, the words of a line, what a line says, and why a line is refused.
pub mod card_line;
pub mod fields;
pub mod keyword;
pub mod line;
pub mod lines;
mod places;
pub mod play_line;
pub mod reading;
pub mod reason;
pub mod refusal;
pub mod section;
pub mod table_line;
pub mod words;
