//! The static library for C, whose exports `galliumtoad_..` call the crates below.
//!
//! The header `bindings/c/include/galliumtoad.h` declares them. Its function `gt_..` of the same
//! name tests for NULL, which no export can, and then calls the export. Its comment lists what the
//! call takes, writes and returns, and the state after each code.
//!
//! - Without a handle: `objects` and `find` read data objects, `atr` and `pps` answers to reset.
//! - [`held_card::CardHandle`]: a card that C builds and drives, or a session with one.
//! - [`held_exchange::ExchangeHandle`]: a terminal's exchange of one command.
//! - [`held_terminal::TerminalHandle`]: a terminal, operation by operation.
//! - [`held_t1::T1Handle`]: the terminal's end of a line at T=1.
//!
//! A call on a handle returns a code (`code`). On an empty handle that is `EMPTY`, and the handle
//! stays empty, unless the call fills it. Proved: each export does what the call below it does.
//! README.md has the clauses.
#![tactic(auto)]

mod apdu_side;
mod atr;
mod atr_record;
mod card;
mod card_apdu;
mod card_buffers;
mod card_side;
mod card_t1;
mod card_tpdu;
mod character_record;
mod code;
mod command_record;
mod copied;
mod data_sent;
mod exchange;
mod exchange_apdu;
mod exchange_buffers;
mod exchange_side;
mod exchange_tpdu;
mod find;
mod handle;
mod handles;
mod head;
mod heard;
mod held_card;
mod held_exchange;
mod held_t1;
mod held_terminal;
mod listener;
mod loose;
mod objects;
mod own;
mod own_calls;
mod own_side;
mod own_t1;
mod own_whole;
mod plan_letters;
mod plans;
mod pps;
mod reader;
mod send;
mod session;
mod session_side;
mod t1;
mod t1_side;
mod tables;
mod tag_number;
mod terminal;
mod terminal_apdu;
mod terminal_buffers;
mod terminal_side;
mod threads;
mod version;
mod whole_apdu;
mod whole_tpdu;
