//! Follows the characters of the line: who sends each, and what they add to an opening or a TPDU.
pub mod block_row;
pub mod blocks;
pub mod chain;
pub mod command;
pub mod links;
pub mod listener;
pub mod opening;
pub mod pair;
pub mod preface;
pub mod response;
pub mod story;
pub mod tally;
pub mod tpdu;
pub mod turn;
