//! The four kinds of handles of C.
ghost use Rattle.std.specs.Prelude.{◌≡◌, Some, None};
ghost use Rattle.card_c.specs.Handles.{held_by, exchange_in, terminal_in, t1_in};

use crate::card_side::CardSide;
use crate::exchange_side::ExchangeSide;
use crate::handle::Handle;
use crate::held_card::{CardHandle, HeldCard};
use crate::held_exchange::{ExchangeHandle, HeldExchange};
use crate::held_t1::{HeldT1, T1Handle};
use crate::held_terminal::{HeldTerminal, TerminalHandle};
use crate::loose::Loose;
use crate::t1_side::T1Side;
use crate::terminal_side::TerminalSide;
use std::alloc::Global;
use std::mem;

impl Handle for CardHandle {
    type Content = CardSide;

    ghost content = { held_by };

    fn is_live(&self) -> bool {
        self.live
    }

    fn take_out(&mut self, alloc: Global) -> Option<Box<CardSide>> {
        if !self.live {
            return None;
        }
        self.live = false;
        let held = mem::replace(&mut self.held, HeldCard::empty(alloc));
        Some(held.into_loose().into_box())
    }

    fn put(&mut self, value: Box<CardSide>)
        requires { held_by self.old ≡ None }
        ensures { held_by self.new ≡ Some value.value }
    {
        self.held = HeldCard::of(Loose::of(value));
        self.live = true;
    }
}

impl Handle for ExchangeHandle {
    type Content = ExchangeSide;

    ghost content = { exchange_in };

    fn is_live(&self) -> bool {
        self.live
    }

    fn take_out(&mut self, alloc: Global) -> Option<Box<ExchangeSide>> {
        if !self.live {
            return None;
        }
        self.live = false;
        let held = mem::replace(&mut self.held, HeldExchange::empty(alloc));
        Some(held.into_loose().into_box())
    }

    fn put(&mut self, value: Box<ExchangeSide>)
        requires { exchange_in self.old ≡ None }
        ensures { exchange_in self.new ≡ Some value.value }
    {
        self.held = HeldExchange::of(Loose::of(value));
        self.live = true;
    }
}

impl Handle for TerminalHandle {
    type Content = TerminalSide;

    ghost content = { terminal_in };

    fn is_live(&self) -> bool {
        self.live
    }

    fn take_out(&mut self, alloc: Global) -> Option<Box<TerminalSide>> {
        if !self.live {
            return None;
        }
        self.live = false;
        let held = mem::replace(&mut self.held, HeldTerminal::empty(alloc));
        Some(held.into_loose().into_box())
    }

    fn put(&mut self, value: Box<TerminalSide>)
        requires { terminal_in self.old ≡ None }
        ensures { terminal_in self.new ≡ Some value.value }
    {
        self.held = HeldTerminal::of(Loose::of(value));
        self.live = true;
    }
}

impl Handle for T1Handle {
    type Content = T1Side;

    ghost content = { t1_in };

    fn is_live(&self) -> bool {
        self.live
    }

    fn take_out(&mut self, alloc: Global) -> Option<Box<T1Side>> {
        if !self.live {
            return None;
        }
        self.live = false;
        let held = mem::replace(&mut self.held, HeldT1::empty(alloc));
        Some(held.into_loose().into_box())
    }

    fn put(&mut self, value: Box<T1Side>)
        requires { t1_in self.old ≡ None }
        ensures { t1_in self.new ≡ Some value.value }
    {
        self.held = HeldT1::of(Loose::of(value));
        self.live = true;
    }
}
