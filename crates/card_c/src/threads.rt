//! Shows that a handle may move to another thread.
use crate::held_card::CardHandle;
use crate::held_exchange::ExchangeHandle;
use crate::held_t1::T1Handle;
use crate::held_terminal::TerminalHandle;

fn goes<T: Send>() {}

/// Compiles only if each handle is `Send`.
pub fn handles_go() {
    goes::<CardHandle>();
    goes::<ExchangeHandle>();
    goes::<T1Handle>();
    goes::<TerminalHandle>();
}
