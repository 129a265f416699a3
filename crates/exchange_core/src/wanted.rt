//! How many bytes of a response a command still wants.
ghost use Rattle.std.specs.Prelude.{◌≡◌, ◌≤◌, IfSome};
ghost use Rattle.exchange_core.specs.Gathered.{wanted_by, less, wants_some, wants_at_least, smaller};
ghost use Rattle.exchange_core.specs.Unsent.{le_by};

/// How many bytes of a response a command wants.
#[derive(Clone, Copy, Debug, PartialEq, Eq)]
pub enum Wanted {
    /// At most this number of bytes, 0 to 256. [`Wanted::by`] makes `Everything` of Le 256.
    Bytes(u16),
    /// All bytes that the card announces.
    Everything,
}

impl Wanted {
    /// Returns what a command with this Le, 1 to 256, wants: nothing without Le, and everything,
    /// even beyond 256 bytes, with 256 (profile).
    pub fn by(le: Option<u16>) -> Wanted
        ensures { result ≡ wanted_by le }
    {
        match le {
            None => Wanted::Bytes(0),
            Some(256) => Wanted::Everything,
            Some(count) => Wanted::Bytes(count),
        }
    }

    /// The Le of a command that wants this, 1 to 256: `None` for nothing, 256 for `Everything`.
    pub fn le(self) -> Option<u16>
        ensures { result ≡ le_by self }
    {
        match self {
            Wanted::Bytes(0) => None,
            Wanted::Bytes(count) => Some(count),
            Wanted::Everything => Some(256),
        }
    }

    /// Returns what is still wanted after `gathered` bytes. `Bytes` falls by them, at lowest to 0;
    /// `Everything` stays.
    #[inline(never)]
    pub fn less(self, gathered: usize) -> Wanted
        ensures { result ≡ less self gathered }
    {
        match self {
            Wanted::Bytes(count) if gathered < usize::from(count) => {
                Wanted::Bytes(count - gathered as u16)
            }
            Wanted::Bytes(_) => Wanted::Bytes(0),
            Wanted::Everything => Wanted::Everything,
        }
    }

    /// Whether anything is wanted.
    pub fn is_some(self) -> bool
        ensures { result ≡ wants_some self }
    {
        !matches!(self, Wanted::Bytes(0))
    }

    /// Whether at least `count` bytes are wanted.
    pub fn is_at_least(self, count: u16) -> bool
        ensures { result ≡ wants_at_least count self }
    {
        match self {
            Wanted::Bytes(wanted) => count <= wanted,
            Wanted::Everything => true,
        }
    }

    /// Returns `count`, or what is wanted if that is less.
    pub fn up_to(self, count: u16) -> u16
        ensures { result ≡ smaller count self }
    {
        match self {
            Wanted::Bytes(wanted) => count.min(wanted),
            Wanted::Everything => count,
        }
    }
}
