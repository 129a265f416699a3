//! The pending chain of PUT DATA.
ghost use Rattle.std.specs.Prelude.{◌≡◌, ◌≤◌, ◌+◌, length, IfSome};
ghost use Rattle.object_card.specs.CardView.{standing_chain, length_before, settled_chain, chain_before};
ghost use Rattle.apdu_core.specs.Chaining.{Accepts, IsChain, added};
ghost use Rattle.object_card.specs.PendingChain.{CanBeGivenUp};

use crate::ready::Ready;
use apdu_core::{Chain, Header};
use std::alloc::Allocator;

/// The number of bytes in the pending chain, if there is one.
pub(crate) fn pending_len<A: Allocator>(chain: &Chain<A>) -> Option<usize>
    ensures len { result ≡ length_before chain.now }
    ensures chain { IsChain chain.now }
{
    if chain.is_pending() {
        Some(chain.len())
    } else {
        None
    }
}

/// Adds the data of a command to the chain.
pub(crate) fn join<A: Allocator>(chain: &mut Chain<A>, header: Header, content: &[u8])
    requires accepts { Accepts chain.old header }
    requires room { length chain.old.bytes + length content.now ≤ chain.old.limit }
    ensures { chain.new ≡ added chain.old header content.now }
{
    chain.add(header, content).unwrap();
}

/// The chain without a piece that has joined it in the TPDU in progress.
pub(crate) fn give_up<A: Allocator>(chain: &mut Chain<A>, ready: Ready)
    requires { CanBeGivenUp chain.old ready }
    ensures { chain.new ≡ standing_chain chain.old ready }
{
    if let Ready::Joins { before } = ready {
        restore(chain, before);
    }
}

/// The chain once SW2 is sent: it stays only if a piece has joined it.
pub(crate) fn settle<A: Allocator>(chain: &mut Chain<A>, ready: Ready)
    ensures { chain.new ≡ settled_chain chain.old ready }
{
    if !ready.keeps_chain() {
        chain.drop_all();
    }
}

/// Takes the chain back to its first `before` bytes, or to no chain.
pub(crate) fn restore<A: Allocator>(chain: &mut Chain<A>, before: Option<usize>)
    requires { IfSome before (λ len. len ≤ length chain.old.bytes) }
    ensures { chain.new ≡ chain_before chain.old before }
{
    match before {
        Some(len) => chain.keep_first(len),
        None => chain.drop_all(),
    }
}
