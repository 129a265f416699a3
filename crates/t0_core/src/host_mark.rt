//! The state of a terminal's end without its data.

use crate::direction::Direction;
use crate::host_end::HostStage;
use apdu_core::Header;

/// The progress of a terminal's end in its TPDU, without the data that it sends. Store this where
/// nothing can borrow the data; `HostEnd::at` makes the end again.
#[derive(Clone, Copy, Debug)]
pub struct HostMark {
    pub(crate) header: Header,
    pub(crate) p3: u8,
    pub(crate) direction: Direction,
    pub(crate) stage: HostStage,
}
