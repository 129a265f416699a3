//! A run of the data that a card sends.
ghost use Rattle.std.specs.Prelude.{◌≡◌, ◌<◌, ◌≤◌, ℕ, List, length};
ghost use Rattle.t0_core.specs.DataRun.{bytes_of, IsRunAt};

/// Bytes that a card sends one after another, at least one.
#[derive(Clone, Copy)]
pub enum DataRun<'a> {
    /// One byte.
    One([u8; 1]),
    /// Bytes in the card's memory.
    Lent(&'a [u8]),
}

impl<'a> DataRun<'a> {
    /// The bytes.
    #[inline(always)]
    pub fn bytes(&self) -> &[u8]
        ensures { result.now ≡ bytes_of self.now }
    {
        match self {
            DataRun::One(byte) => byte,
            DataRun::Lent(bytes) => bytes,
        }
    }

    /// The first of the bytes, at most `most`.
    #[inline(always)]
    pub(crate) fn up_to(self, most: usize) -> DataRun<'a>
        requires { 0 < most }
        ensures most { length (bytes_of result) ≤ most }
        ensures first { (bytes : List ℕ) (at : ℕ) → IsRunAt bytes at (bytes_of self.entry)
            → IsRunAt bytes at (bytes_of result) }
    {
        match self {
            DataRun::One(byte) => DataRun::One(byte),
            DataRun::Lent(bytes) => DataRun::Lent(&bytes[..bytes.len().min(most)]),
        }
    }
}
