//! A command that reached a card of an own application, as C sees it.

/// CLA to P2, Le or 0, and the data with their number. C sees it as `gt_command`.
#[repr(C)]
#[derive(Clone, Copy)]
pub struct CommandRecord {
    pub cla: u8,
    pub ins: u8,
    pub p1: u8,
    pub p2: u8,
    /// 1 to 256, or 0 without Le.
    pub le: u16,
    pub size: u8,
    /// The data, then zeros.
    pub data: [u8; 255],
}
