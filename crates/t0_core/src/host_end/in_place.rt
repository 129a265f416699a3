//! What a terminal's end does, on its mark: for an owner that keeps no end from call to call.
ghost use Rattle.std.specs.Prelude.{◌≡◌, ℕ, true, false};
ghost use Rattle.t0_core.specs.declared.host_end.HostStage.{HostStage};
ghost use Rattle.t0_core.specs.Buffers.{HandsOut, IsDataTaken, IsDataTurn, TakesNoData};
ghost use Rattle.t0_core.specs.Front.{Front, GoesOn};
ghost use Rattle.t0_core.specs.HostMark.{with_data};
ghost use Rattle.t0_core.specs.HostSide.{HostStandsAt, IsInRange, IsRequest, after_turn, at_stage, turn_of};
ghost use Rattle.t0_core.specs.HostView.{host_of};

use super::{HostTurn, data_bytes_at, take_data_at, turn_at};
use crate::direction::Direction;
use crate::gather::Gather;
use crate::host_mark::HostMark;
use crate::request::{Request, Transfer};
use std::alloc::Allocator;

impl HostMark {
    ghost use Rattle.t0_core.specs.declared.end.End.TheVariants.{Terminal};

    /// Does what `HostEnd::next` does, on the end over these data, which must be as long as before.
    #[inline(always)]
    pub fn next(&mut self, content: &[u8]) -> HostTurn
        requires { IsInRange (with_data self.old content.now) }
        ensures turn { result ≡ turn_of (with_data self.old content.now) }
        ensures after { with_data self.new content.now
            ≡ at_stage (with_data self.old content.now)
            (after_turn (with_data self.old content.now)) }
        ensures range { IsInRange (with_data self.new content.now) }
        ensures stays { ((byte : ℕ) → result ≡ HostTurn.Sends byte → ⊥) →
            with_data self.new content.now ≡ with_data self.old content.now }

        // A dialogue that the end opened continues with it.
        ensures goes_on { (front : Front) (byte : ℕ)
            → HostStandsAt (with_data self.old content.now) front
            → result ≡ HostTurn.Sends byte → (new : Front) × GoesOn front (Terminal, byte) new
            × HostStandsAt (with_data self.new content.now) new }
    {
        let request = request_of(*self, content);
        turn_at(&request, &mut self.stage)
    }

    /// Does what `HostEnd::next_data_bytes` does, on the end over these data, which must be as long
    /// as before.
    #[inline(always)]
    pub fn next_data_bytes(&mut self, content: &[u8], bytes: &mut [u8]) -> usize
        requires { IsInRange (with_data self.old content.now) }
        ensures handed { HandsOut IsDataTurn (with_data self.old content.now) bytes.old bytes.new
            result (with_data self.new content.now) }
        ensures range { IsInRange (with_data self.new content.now) }
    {
        let request = request_of(*self, content);
        data_bytes_at(&request, &mut self.stage, bytes)
    }

    /// Takes a character of the card, as `HostEnd::take` does on the end over these data, which
    /// must be as long as before, if it is data and `gather` has room. Returns whether it has; if
    /// not, nothing changes.
    #[inline(always)]
    pub fn take_data<A: Allocator>(
        &mut self,
        byte: u8,
        content: &[u8],
        gather: &mut Gather<A>,
    ) -> bool
        requires { IsInRange (with_data self.old content.now) }
        ensures taken { result ≡ true → IsDataTaken
            (record { host = with_data self.old content.now; room = gather.old }) byte
            (record { host = with_data self.new content.now; room = gather.new }) }
        ensures none { result ≡ false → TakesNoData
            (record { host = with_data self.old content.now; room = gather.old }) }
        ensures listens { result ≡ true →
            turn_of (with_data self.new content.now) ≡ HostTurn.Listens }
        ensures stays { result ≡ false → (self.new ≡ self.old) × (gather.new ≡ gather.old) }
        ensures range { IsInRange (with_data self.new content.now) }
        ensures limit { gather.new.limit ≡ gather.old.limit }
    {
        let request = request_of(*self, content);
        take_data_at(&request, &mut self.stage, byte, gather)
    }
}

/// What the end over these data has opened.
#[inline(always)]
pub(super) fn request_of<'a>(mark: HostMark, content: &'a [u8]) -> Request<'a>
    ensures { (stage : HostStage) → host_of result stage
        ≡ with_data (record mark { stage = stage }) content.now }
{
    let HostMark {
        header,
        p3,
        direction,
        ..
    } = mark;
    let transfer = match direction {
        Direction::ToCard => Transfer::Sending(content),
        Direction::FromCard => Transfer::Asking,
    };
    Request {
        header,
        p3,
        transfer,
    }
}
