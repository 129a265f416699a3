//! The part of an exchange or a terminal that goes by whole commands.
use apdu_terminal::ApduTerminal;

/// Carries out an operation by whole commands, for the handle of an exchange or a terminal.
#[derive(Drop)]
pub struct ApduSide {
    pub terminal: ApduTerminal,
    /// Whether the operation goes by whole commands: it has taken a response, or one has failed it.
    pub leads: bool,
}
