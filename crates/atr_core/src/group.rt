//! Interface bytes: the groups of TA, TB and TC, and the T of each.

/// The characters TA, TB and TC of a group, each `None` if absent (ISO/IEC 7816-3, 8.2.3).
#[derive(Clone, Copy, Debug, Default, PartialEq, Eq)]
pub struct Group {
    pub ta: Option<u8>,
    pub tb: Option<u8>,
    pub tc: Option<u8>,
}

/// The T that a TD names, 0 to 15, with the TA, TB and TC after that TD. TD1 names the T of TA2,
/// TB2 and TC2, and so on (ISO/IEC 7816-3, 8.2.3).
#[derive(Clone, Copy, Debug, Default, PartialEq, Eq)]
pub struct TypedGroup {
    pub t: u8,
    pub group: Group,
}
