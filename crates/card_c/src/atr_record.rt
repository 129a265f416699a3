//! What an answer to reset says, as C sees it.

/// What an answer to reset says. C sees it as `gt_atr`.
#[repr(C)]
#[derive(Clone, Copy)]
pub struct AtrRecord {
    /// Its length in bytes.
    pub length: usize,
    /// Where its historical bytes begin, their number, and the number of their category.
    pub historical: usize,
    pub historical_count: usize,
    pub category: u8,
    /// 0 for the direct convention, 1 for the inverse one.
    pub convention: u8,
    /// The protocols in the order offered, then zeros; and their number.
    pub protocol_count: u8,
    pub protocols: [u8; 15],
    /// 1 if the answer names T=15, otherwise 0.
    pub names_15: u8,
    /// TA1, or `11` if it is absent; and its Di, or 0 if its code is reserved.
    pub rate_code: u8,
    pub di: u8,
    /// N: TC1, or 0 if it is absent.
    pub extra_guard_time: u8,
    /// WI: TC2, or 10 if it is absent; 0 if it is reserved.
    pub waiting_integer: u8,
    /// 1 in specific mode, otherwise 0. Then, or zeros: the protocol, 1 if the card can change to
    /// negotiable mode, and 1 if Fi and Di are implicit.
    pub specific: u8,
    pub specific_t: u8,
    pub can_change: u8,
    pub implicit: u8,
    /// Where the clock may stop: 0 nowhere, 1 at low, 2 at high, 3 at either.
    pub clock_stop: u8,
    /// The sum of 1 for class A, 2 for B and 4 for C; 0 if their code is reserved.
    pub classes: u8,
    /// Fi and the highest clock frequency in kHz; zeros if their code is reserved.
    pub fi: u16,
    pub max_khz: u16,
    /// The guard time in etu, of any protocol but T=1 and then of T=1; and the multiple of Fi/Di
    /// cycles to be added to each.
    pub guard_etu: u16,
    pub guard_etu_t1: u16,
    pub guard_indicated: u16,
    /// The waiting time of T=0 in clock cycles; 0 if WI or Fi is reserved.
    pub waiting_time: u32,
    /// The values for T=1.
    pub t1: BlockRecord,
}

/// What an answer to reset says about T=1 (ISO/IEC 7816-3, clause 11). It is by the first TA, TB
/// and TC for T=1 from TA3, TB3 and TC3 on. C sees it as `gt_atr_t1`.
#[repr(C)]
#[derive(Clone, Copy)]
pub struct BlockRecord {
    /// IFSC, the most bytes in the field of a block to the card, or 0 if it is reserved.
    pub ifsc: u8,
    /// The length of the error detection code in bytes: 1 for LRC, 2 for CRC; 0 if it is reserved.
    pub edc: u8,
    /// BWI, or 0 if it is reserved; and CWI.
    pub bwi: u8,
    pub cwi: u8,
    /// In etu: CWT; the etu of BWT, or 0 if BWI is reserved; and BGT.
    pub cwt_etu: u16,
    pub bwt_etu: u16,
    pub bgt_etu: u16,
    /// The clock cycles of BWT, in addition to its etu; 0 if BWI is reserved.
    pub bwt_cycles: u64,
}
