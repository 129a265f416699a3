//! A terminal's exchange, as a handle holds it.
use crate::apdu_side::ApduSide;
use card_terminal::OwnedExchange;

/// An exchange that goes by characters or TPDUs, and one that goes by whole commands.
#[derive(Drop)]
pub struct ExchangeSide {
    pub exchange: OwnedExchange,
    pub apdus: ApduSide,
}
