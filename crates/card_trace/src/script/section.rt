//! The two sections of a script: its table lines, and the lines after them.
ghost use Rattle.std.specs.Prelude.{◌≡◌, ◌↔◌, IsOk, IfErr};

use crate::script::reason::LineReason;

/// The section that a line is in.
#[derive(Clone, Copy)]
pub enum Section {
    /// Before the first run line: table lines may follow.
    Building,
    /// After the first run line.
    Running,
}

impl Section {
    /// Accepts a table line in this section. After the first run line it is `LateTableLine`.
    pub fn takes_table_line(self) -> Result<(), LineReason>
        ensures ok { IsOk result ↔ (self ≡ Section.Building) }
        ensures err { IfErr result (λ reason. reason ≡ LineReason.LateTableLine) }
    {
        match self {
            Section::Building => Ok(()),
            Section::Running => Err(LineReason::LateTableLine),
        }
    }
}
