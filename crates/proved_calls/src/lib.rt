//! Proved calls: what the public functions require can be met, and generic code has a user.
//!
//! The programs and `card_c` call most functions. The tests here call those that only tests call:
//! each with a `requires` once, and each generic function and each trait at one type.
#![tactic(auto)]

#[cfg(test)]
mod calls;
#[cfg(test)]
mod counter;
#[cfg(test)]
mod good_line;
