//! The settings of a terminal's end.
ghost use Rattle.std.specs.Prelude.{◌≡◌, ◌<◌, IfOk};
ghost use Rattle.std.specs.Result.{result_err};
ghost use Rattle.t1_core.specs.Settings.{fault_of};

/// The default number of fruitless receptions since the last progress that a terminal survives: the
/// fifth is a fault, except in `Phase::Opening` (profile). EMV has 2.
pub const TRIES: u8 = 4;

/// The default number of S(WTX request) and S(IFS request) that a terminal grants per command
/// (profile): the making of a key may take a card minutes.
pub const EXTENSIONS: u16 = 1_000;

/// The error detection code that an answer to reset announces.
#[derive(Clone, Copy, Debug, PartialEq, Eq)]
pub enum Edc {
    /// One byte, the exclusive-or of the others.
    Lrc,
    /// Two bytes, a cyclic redundancy check.
    Crc,
}

/// Why settings are refused. `Crc` comes first if both hold.
#[derive(Clone, Copy, Debug, PartialEq, Eq)]
pub enum SettingsFault {
    /// The card uses CRC, and only LRC is supported (profile).
    Crc,
    /// IFSC is 00 or FF, which are reserved.
    Ifsc,
}

/// The settings of a terminal's end.
#[derive(Clone, Copy, Debug, PartialEq, Eq)]
pub struct Settings {
    /// IFSC, the longest field in bytes that the card takes: 1 to 254.
    pub ifsc: u8,
    /// The number of fruitless receptions since the last progress that the terminal survives, 0 to
    /// 255 (see `Cause::TriesSpent`).
    pub tries: u8,
    /// The number of S(WTX request) and S(IFS request) that the terminal grants per command, 0 to
    /// 65,535.
    pub extensions: u16,
    /// The longest response that the terminal takes, in bytes.
    pub limit: usize,
    ghost inside: { (0 < ifsc) × (ifsc < 255) },
}

impl Settings {
    /// Makes settings from the EDC and IFSC of an answer to reset, and from the terminal's limits.
    ///
    /// # Errors
    /// The first that holds; there are no settings after either:
    ///
    /// - `Crc`: the card uses CRC, which is not supported (profile).
    /// - `Ifsc`: `ifsc` is 0 or 255, which are reserved.
    pub fn new(
        edc: Edc,
        ifsc: u8,
        tries: u8,
        extensions: u16,
        limit: usize,
    ) -> Result<Settings, SettingsFault>
        ensures fault { result_err result ≡ fault_of edc ifsc }
        ensures settings { IfOk result (λ s. (s.ifsc ≡ ifsc) × (s.tries ≡ tries)
            × (s.extensions ≡ extensions) × (s.limit ≡ limit)) }
    {
        if edc == Edc::Crc {
            return Err(SettingsFault::Crc);
        }
        if ifsc == 0 || ifsc == 255 {
            return Err(SettingsFault::Ifsc);
        }
        Ok(Settings {
            ifsc,
            tries,
            extensions,
            limit,
        })
    }
}
