//! The stage of an exchange of whole commands: in progress, ended or failed.
use apdu_core::Status;

/// The stage of an exchange.
#[derive(Clone, Copy, Debug, PartialEq, Eq)]
pub enum Stage {
    /// The next command is to be sent.
    Going,
    /// It has ended, with this status.
    Done(Status),
    /// It has failed for good.
    Failed,
}
