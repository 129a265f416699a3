//! An object that the exports list, as C sees it.

/// One object, with its places in the bytes that C passed. C sees it as `gt_object`.
#[repr(C)]
#[derive(Clone, Copy)]
pub struct ObjectRecord {
    /// The bytes of the tag as a number: `0x5F20`.
    pub tag: u32,
    /// The level, from 1.
    pub level: u8,
    /// 1 if the value is a list of objects, otherwise 0.
    pub constructed: u8,
    /// The place of its first byte, and its size in bytes.
    pub place: usize,
    pub size: usize,
    /// The place of its value, and the size of the value in bytes.
    pub value: usize,
    pub length: usize,
}
