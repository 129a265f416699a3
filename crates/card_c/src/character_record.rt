//! A character of the line, as C sees it.

/// A character that an end sent. C sees it as `gt_character`.
#[repr(C)]
#[derive(Clone, Copy)]
pub struct CharacterRecord {
    /// 0 for the terminal, 1 for the card.
    pub from: u8,
    pub byte: u8,
}
