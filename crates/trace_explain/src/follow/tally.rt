//! The number of procedure bytes of each kind in a TPDU.
ghost use Rattle.std.specs.Prelude.{◌≡◌};

use t0_core::Step;

/// The number of procedure bytes of each kind, up to the greatest that fits.
#[derive(Clone, Copy)]
pub struct Tally {
    /// NULLs.
    pub nulls: u64,
    /// Procedure bytes for one data character.
    pub ones: u64,
    /// Procedure bytes for all that are left.
    pub alls: u64,
}

impl Tally {
    ghost use Rattle.trace_explain.specs.Reports.{counted};

    /// No procedure byte.
    pub const NONE: Tally = Tally {
        nulls: 0,
        ones: 0,
        alls: 0,
    };

    /// Returns the same with one more.
    pub fn with(self, step: Step) -> Tally
        ensures { result ≡ counted self step }
    {
        let mut more = self;
        match step {
            Step::Null => more.nulls = more.nulls.saturating_add(1),
            Step::One => more.ones = more.ones.saturating_add(1),
            Step::All => more.alls = more.alls.saturating_add(1),
        }
        more
    }
}
