//! Whether the terminal has sent all data of a command, which a card may end before.
ghost use Rattle.std.specs.Prelude.{◌≡◌};
ghost use Rattle.t0_core.specs.DataSent.{both};

/// Whether a terminal's end has sent all data of its TPDU, or an exchange those of its command. Of
/// several TPDUs, `NotAll` comes before `NotKnown`, and that before `All`.
#[derive(Clone, Copy, Debug, PartialEq, Eq)]
pub enum DataSent {
    /// It has sent each data character, or it has no data.
    All,
    /// It has sent fewer. If the TPDU has ended, the card has not got the rest.
    NotAll,
    /// The TPDU went as a whole, or `BadProcedure` or `TooLong` has ended it.
    NotKnown,
}

impl DataSent {
    /// Returns the same about the data of two TPDUs: `NotAll` if one says so, `All` if both do,
    /// otherwise `NotKnown`.
    pub fn and(self, other: DataSent) -> DataSent
        ensures { result ≡ both self other }
    {
        match (self, other) {
            (DataSent::NotAll, _) | (_, DataSent::NotAll) => DataSent::NotAll,
            (DataSent::All, DataSent::All) => DataSent::All,
            _ => DataSent::NotKnown,
        }
    }
}
