//! What the card's end of the line requires of the card behind it.
ghost use Rattle.std.specs.Prelude.{◌≡◌, ℕ, ◌<◌, ◌≤◌, List, length, slice_get, Some, false};
ghost use Rattle.apdu_core.specs.declared.header.Header.{Header};
ghost use Rattle.apdu_core.specs.HeaderBytes.{ins_is_valid};
ghost use Rattle.apdu_core.specs.StatusWord.{count};
ghost use Rattle.t0_core.specs.Meaning.{Tpdu, Ask, Prepared, Nothing, Decided, IsReceiving, IsSending, Decides, taken_with, answered_with};
ghost use Rattle.t0_core.specs.DataRun.{bytes_of, IsRunAt};
ghost use Rattle.t0_core.specs.CardContract.{IsRefusal, Permits, IsDecided, Judges};

use crate::data_run::DataRun;
use apdu_core::{Header, Status};

/// How a card judges a header.
#[derive(Clone, Copy, Debug, PartialEq, Eq)]
pub enum Verdict {
    /// The card refuses the command with this status, and no data move.
    Refuse(Status),
    /// The terminal sends as many data characters as P3 states, 0 to 255.
    Receive,
    /// The card sends as many data characters as P3 states, 1 to 256 (`00`: 256).
    Send,
}

/// A card that its caller may also change between two characters, by `CardEnd::with_card`: one that
/// gets its responses from outside. A card of data objects is not open.
pub trait Open {}

/// A card as its end of the line sees it: command TPDUs, not characters (ISO/IEC 7816-3, 10.3.1).
///
/// The end calls `header` for each header. After `Receive` it calls `data`. After `Send` it calls
/// `byte` for each place, or `run` for several, and then `end_of_sending`. In each case it calls
/// `answered` once SW2 is sent. Only `answered` and `reset` change the card's state.
pub trait TpduCard {
    /// The type of the card's states.
    ghost State: { Type 0 };

    /// The state before the TPDU in progress.
    ghost standing: { Self → State };

    /// What a TPDU does. The number is its cut, the most bytes that one `61XX` announces.
    ghost Does: { State → ℕ → Tpdu → State → Type 0 };

    /// The state after a reset.
    ghost after_reset: { State → State };

    /// The headers for which `header` may return `Receive`, and those for `Send`.
    ghost MayReceive: { Header → Type 0 };

    ghost MaySend: { Header → Type 0 };

    /// What the card has prepared for the TPDU in progress.
    ghost prepared: { Self → Prepared State };

    /// Judges a header. It may be called at any time, and drops what an unfinished TPDU prepared.
    /// `cut` is the most bytes, 1 to 256, that one `61XX` announces. A card must refuse an INS of
    /// `6X` or `9X`. It may return `Receive` only for headers of `MayReceive`, and `Send` only for
    /// those of `MaySend`.
    fn header(&mut self, header: Header, p3: u8, cut: u16) -> Verdict
        requires { (1 ≤ cut) × (cut ≤ 256) }
        ensures stands { standing self.new ≡ standing self.old }
        ensures judged { Judges Does (standing self.old)
            (record { header = header; p3 = p3; cut = cut }) result (prepared self.new) }
        ensures invalid { ins_is_valid header.ins ≡ false → IsRefusal result }
        ensures permitted { Permits MayReceive MaySend header result };

    /// Takes the data to the card, exactly P3 bytes, and returns the status. It may be called once,
    /// after the verdict `Receive`.
    fn data(&mut self, content: &[u8]) -> Status
        requires { IsReceiving (prepared self.old) (λ ask. length content.now ≡ ask.p3) }
        ensures stands { standing self.new ≡ standing self.old }
        ensures decided { IsReceiving (prepared self.old) (λ ask.
            Decides Does (standing self.old) ask.cut (taken_with ask content.now result)
            (prepared self.new)) };

    /// Returns the byte to send at index `at`, below `count(P3)`. It may be called after the
    /// verdict `Send`.
    fn byte(&self, at: u16) -> u8
        requires { IsSending (prepared self.now) (λ ask bytes. at < length bytes) }
        ensures { IsSending (prepared self.now) (λ ask bytes. slice_get bytes at ≡ Some result) };

    /// Returns bytes to send from index `at` on, below `count(P3)`: at least one. It may be called
    /// after the verdict `Send`. A card that lends those in its memory makes long data fast.
    fn run(&self, at: u16) -> DataRun<'_>
        requires { IsSending (prepared self.now) (λ ask bytes. at < length bytes) }
        ensures { IsSending (prepared self.now) (λ ask bytes.
            IsRunAt bytes at (bytes_of result)) }
    {
        DataRun::One([self.byte(at)])
    }

    /// Returns the status to send after all data characters. It may be called once, after the
    /// verdict `Send`.
    fn end_of_sending(&mut self) -> Status
        requires { IsSending (prepared self.old) (λ ask bytes. Unit {0}) }
        ensures stands { standing self.new ≡ standing self.old }
        ensures decided { IsSending (prepared self.old) (λ ask bytes.
            Decides Does (standing self.old) ask.cut (answered_with ask bytes result)
            (prepared self.new)) };

    /// SW2 is sent: the state that the TPDU decided takes effect. It may be called once, after
    /// `Refuse`, `data` or `end_of_sending`.
    fn answered(&mut self)
        requires { IsDecided (prepared self.old) }
        ensures stands { (next : State) → prepared self.old ≡ Decided next
            → standing self.new ≡ next }
        ensures done { prepared self.new ≡ Nothing };

    /// Resets the card, at any time, and drops what an unfinished TPDU prepared.
    fn reset(&mut self)
        ensures stands { standing self.new ≡ after_reset (standing self.old) }
        ensures dropped { prepared self.new ≡ Nothing };
}
