//! A card's end above which a command may wait for its response.
ghost use Rattle.std.specs.Prelude.{◌≡◌, ◌≤◌, ◌++◌, [], true, false, length, None, Some, is_some, if◌then◌else◌};
ghost use Rattle.std.specs.Option.{option_map};
ghost use Rattle.std.specs.Fn.{FnOnceReturnsAtMut, FnOnceTakesAtMut};
ghost use Rattle.t1_core.specs.Block.{Came, is_filled, is_size, said};
ghost use Rattle.t1_core.specs.BlockBytes.{arrival_of, info_of};
ghost use Rattle.t1_core.specs.CardSide.{card_after, replies, serves};
ghost use Rattle.t1_core.specs.Doing.{AreRooms, Goes, IsDue};
ghost use Rattle.t1_core.specs.Patience.{Asks, Hears, Misses, Takes, TakesAsking, awaits, command_in, seen};
ghost use Rattle.t1_core.specs.declared.block.Control.TheVariants.{Abort, Ifs, Resynch};
ghost use Rattle.t1_core.specs.declared.pcb.BlockReason.TheVariants.{Edc, Other};

use crate::applet::Applet;
use crate::block::{Block, Control};
use crate::card::{BlockCard, Reply, Rooms};
use crate::pcb::BlockReason;
use crate::receiver::Receiver;
use crate::spelling::read;
use std::marker::Model;
use std::mem::swap;

/// A card's end above which a command may wait for its response, for instance because a person or
/// another machine gives it.
///
/// `take` keeps a block without a reply: the card above returned an error. Give that card what it
/// needs (`with_applet`), and call `again`. Meanwhile `ask_time` asks the terminal for more time.
///
/// A reply drops the block, so its command is not carried out again. The terminal's next block,
/// valid or not, also drops it, and its command is not carried out. During the card's S(WTX
/// request) only S(ABORT request) and S(RESYNCH request) do. `reset` always does.
#[derive(Drop)]
pub struct PatientCard<C: Applet> {
    end: BlockCard<C>,
    kept: Receiver,
    asked: Option<u8>,
}

impl<C: Applet> Model for PatientCard<C> {
    ghost use Rattle.t1_core.specs.Patience.{PatientOf};

    ghost Value = { PatientOf C };

    ghost view = { λ p. record { end = p.end; kept = p.kept; asked = p.asked } };
}

impl<C: Applet> PatientCard<C> {
    /// Makes the end after a reset, with the rooms of `rooms_for`. IFSD is 32 until the terminal
    /// asks for another.
    pub fn new(rooms: Rooms, applet: C) -> PatientCard<C>
        requires { AreRooms C.LIMIT rooms }
        ensures { result ≡ record {
          end = record { card = applet; at = card_after []; over = false };
          kept = [];
          asked = None;
        } }
    {
        PatientCard {
            end: BlockCard::new(rooms, applet),
            kept: Receiver::new(),
            asked: None,
        }
    }

    /// Makes the end as it was after `new`, at any time: a command or response in progress, and
    /// one that waits, are dropped. It does not reset the card above.
    pub fn reset(&mut self)
        ensures { self.new ≡ record {
          end = record { card = self.old.end.card; at = card_after []; over = false };
          kept = [];
          asked = None;
        } }
    {
        self.forget();
        self.end.reset();
    }

    /// Returns the card above the end.
    pub fn applet(&self) -> &C
        ensures { result.now ≡ self.now.end.card }
    {
        self.end.applet()
    }

    /// Lends the card above the end to `f`, whose contract must accept it
    /// (`BlockCard::with_applet`).
    pub fn with_applet<F, R>(&mut self, f: F) -> R
    where
        F: FnOnce(&mut C) -> R,
        requires { FnOnceTakesAtMut F.FnOnce f self.old.end.card }
        ensures same { self.new ≡ record self.old {
          end = record self.old.end { card = self.new.end.card };
        } }
        ensures lent { FnOnceReturnsAtMut F.FnOnce f self.old.end.card result self.new.end.card }
    {
        self.end.with_applet(f)
    }

    /// Drops the end, and returns the card above it.
    pub fn into_applet(self) -> C
        ensures { result ≡ self.end.card }
    {
        self.end.into_applet()
    }

    /// Returns the block of the last reply (`BlockCard::block`).
    pub fn block(&self, reply: Reply) -> Block<'_>
        ensures block { said result ≡ replies reply self.now.end.at }
        ensures short { length (info_of (said result)) ≤ 254 }
        ensures filled { is_filled (said result) ≡ true }
    {
        self.end.block(reply)
    }

    /// Whether a block is kept: `again` may have a reply to it. Not during an S(WTX request).
    pub fn awaits(&self) -> bool
        ensures { result ≡ awaits self.now }
    {
        self.asked.is_none() && self.kept.is_whole()
    }

    /// Returns the command that waits: the bytes of its earlier blocks, and those of the kept one.
    /// It is the whole command: `again` carries out no other. `None` if it is longer than
    /// `Applet::LIMIT`, if the kept block ends no command, or if `awaits` does not hold.
    pub fn command(&self) -> Option<(&[u8], &[u8])>
        ensures { option_map (λ parts. parts.0.now ++ parts.1.now) result
            ≡ command_in C.LIMIT self.now }
    {
        if !self.awaits() || self.end.is_over() {
            return None;
        }
        match read(self.kept.bytes()) {
            Some(
                Block::Information {
                    more: false,
                    info,
                    ..
                },
            ) if self.end.collected().len() + info.len() <= C::LIMIT => {
                Some((self.end.collected(), info))
            }
            _ => None,
        }
    }

    /// Takes the block of a receiver, which is empty afterwards, and returns the reply. `None` if
    /// memory ran out, or the card above returned an error: the block is kept, and its command is
    /// not carried out. `None` also at the response to S(WTX request) of `ask_time`: the kept block
    /// waits again.
    pub fn take(&mut self, block: &mut Receiver) -> Option<Reply>
        ensures hears { Hears C.Applet block.old self.old result self.new }
        ensures memory { self.old.asked ≡ None → result ≡ None →
            IsDue (arrival_of block.old) self.old.end }
        ensures emptied { block.new ≡ [] }
    {
        let Some(multiple) = self.asked else {
            swap(&mut self.kept, block);
            block.clear();
            return self.give();
        };
        let reply = self.take_asking(multiple, block.bytes());
        block.clear();
        reply
    }

    /// Gives the end the kept block again, and returns the reply. `None` if there is an error
    /// again: the block is still kept. `awaits` must hold.
    pub fn again(&mut self) -> Option<Reply>
        requires { awaits self.old ≡ true }
        ensures takes { Takes C.Applet self.old.kept self.old result self.new }
        ensures memory { result ≡ None → IsDue (arrival_of self.old.kept) self.old.end }
    {
        self.give()
    }

    /// Gives the end the kept block, while no request is in progress.
    fn give(&mut self) -> Option<Reply>
        requires { self.old.asked ≡ None }
        ensures takes { Takes C.Applet self.old.kept self.old result self.new }
        ensures memory { result ≡ None → IsDue (arrival_of self.old.kept) self.old.end }
    {
        match self.end.take_bytes(self.kept.bytes()) {
            Ok(reply) => {
                self.kept.clear();
                Some(reply)
            }
            Err(_) => None,
        }
    }

    /// Asks the terminal for this multiple of BWT, and returns the reply. `None` if no block is
    /// kept, or if such a request is in progress; nothing has changed.
    pub fn ask_time(&mut self, multiple: u8) -> Option<Reply>
        ensures { Asks multiple self.old result self.new }
    {
        if !self.awaits() {
            return None;
        }
        self.asked = Some(multiple);
        Some(Reply::Request(Control::Wtx(multiple)))
    }

    /// Reports a block with a wrong LRC or parity, and returns the reply. A block that waits is
    /// dropped, unless S(WTX request) is in progress.
    pub fn damaged(&mut self) -> Reply
        ensures { Misses Edc self.old result self.new }
    {
        self.fail(BlockReason::Edc)
    }

    /// Reports another invalid block, and returns the reply: as `damaged`.
    pub fn invalid(&mut self) -> Reply
        ensures { Misses Other self.old result self.new }
    {
        self.fail(BlockReason::Other)
    }

    fn fail(&mut self, reason: BlockReason) -> Reply
        ensures { Misses reason self.old result self.new }
    {
        match self.asked {
            Some(multiple) => Reply::Request(Control::Wtx(multiple)),
            None => {
                self.kept.clear();
                self.end.fail(reason)
            }
        }
    }

    /// Takes a block while the request is in progress.
    fn take_asking(&mut self, multiple: u8, bytes: &[u8]) -> Option<Reply>
        requires { self.old.asked ≡ Some multiple }
        ensures { TakesAsking multiple (arrival_of bytes.now) self.old result self.new }
    {
        match read(bytes) {
            Some(block) => self.take_block(multiple, block),
            None => Some(Reply::Request(Control::Wtx(multiple))),
        }
    }

    fn take_block(&mut self, multiple: u8, block: Block<'_>) -> Option<Reply>
        requires { self.old.asked ≡ Some multiple }
        ensures { TakesAsking multiple (Came (said block.entry)) self.old result self.new }
    {
        match block {
            Block::Response(control) if control == Control::Wtx(multiple) => {
                self.asked = None;
                None
            }
            Block::Request(control) => Some(self.serve(multiple, control)),
            _ => Some(Reply::Request(Control::Wtx(multiple))),
        }
    }

    /// Answers a request of the terminal while the card's own is in progress.
    fn serve(&mut self, multiple: u8, control: Control) -> Reply
        requires { self.old.asked ≡ Some multiple }
        ensures kept { self.new.kept ≡ (if is_some self.new.asked then self.old.kept else []) }
        ensures goes { Goes (serves control) (seen self.old) result (seen self.new) }
    {
        match control {
            Control::Ifs(0 | 255) | Control::Wtx(_) => Reply::Request(Control::Wtx(multiple)),
            Control::Ifs(size) => self.serve_size(multiple, size),
            Control::Resynch => self.serve_resynch(multiple),
            Control::Abort => self.serve_abort(multiple),
        }
    }

    fn serve_size(&mut self, multiple: u8, size: u8) -> Reply
        requires asked { self.old.asked ≡ Some multiple }
        requires size { is_size size ≡ true }
        ensures kept { (self.new.kept ≡ self.old.kept) × (self.new.asked ≡ self.old.asked) }
        ensures goes { Goes (serves (Ifs size)) (seen self.old) result (seen self.new) }
    {
        self.end.serve(Control::Ifs(size))
    }

    fn serve_resynch(&mut self, multiple: u8) -> Reply
        requires { self.old.asked ≡ Some multiple }
        ensures kept { (self.new.kept ≡ []) × (self.new.asked ≡ None) }
        ensures goes { Goes (serves Resynch) (seen self.old) result (seen self.new) }
    {
        self.forget();
        self.end.serve(Control::Resynch)
    }

    fn serve_abort(&mut self, multiple: u8) -> Reply
        requires { self.old.asked ≡ Some multiple }
        ensures kept { (self.new.kept ≡ []) × (self.new.asked ≡ None) }
        ensures goes { Goes (serves Abort) (seen self.old) result (seen self.new) }
    {
        self.forget();
        self.end.serve(Control::Abort)
    }

    /// Drops the block that waits, and the request.
    fn forget(&mut self)
        ensures { self.new ≡ record self.old { kept = []; asked = None } }
    {
        self.kept.clear();
        self.asked = None;
    }
}
