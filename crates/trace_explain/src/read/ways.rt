//! Which way the data of an instruction go, for traces without signs.
ghost use Rattle.std.specs.Prelude.{◌≡◌};
ghost use Rattle.trace_explain.specs.WaysOf.{way_of};

use crate::instructions::instruction;
use crate::read::digits::byte_of;
use t0_core::Direction;
use thiserror::Error;

/// The ways that `--to-card` and `--from-card` give, for every class.
#[derive(Clone, Copy)]
pub struct Ways {
    /// The way of each INS; `None` if the options don't give it.
    pub given: [Option<Direction>; 256],
}

/// Why such an option is refused.
#[derive(Clone, Copy, Debug, Error)]
pub enum WaysFault {
    /// Its value is not a list of two digits each, with commas between them.
    #[error("not instructions of two digits with commas between them")]
    Form,
    /// The options give both ways for this instruction.
    #[error("both ways are said of {0:02X}")]
    Both(u8),
}

impl Ways {
    /// No way is given.
    pub fn none() -> Ways {
        Ways { given: [None; 256] }
    }

    /// Gives this way to the instructions in `words`: two digits each, with commas between them.
    ///
    /// # Errors
    ///
    /// After an error some of them have it.
    ///
    /// - `Form`: `words` is anything else.
    /// - `Both`: this instruction has the other way already.
    pub fn give(&mut self, way: Direction, words: &str) -> Result<(), WaysFault> {
        for word in words.split(',') {
            let [high, low] = word.as_bytes() else {
                return Err(WaysFault::Form);
            };
            let ins = byte_of(*high, *low).ok_or(WaysFault::Form)?;
            let place = usize::from(ins);
            let before = self.given[place];
            if before.is_some() && before != Some(way) {
                return Err(WaysFault::Both(ins));
            }
            self.given[place] = Some(way);
        }
        Ok(())
    }

    /// Returns which way the data of an instruction go. The options' way of this INS counts in
    /// every class. Without one it is the way of `instruction`, by class and INS. Returns `None` if
    /// that does not know the instruction either.
    pub fn of(&self, cla: u8, ins: u8) -> Option<Direction>
        ensures { result ≡ way_of self.now cla ins }
    {
        let given = self.given[usize::from(ins)];
        match given {
            Some(way) => Some(way),
            None => instruction(cla, ins).map(|(_, way, _)| way),
        }
    }
}
