//! The fields of a card, borrowed to judge a header.
use crate::application::Application;
use crate::response::Response;
use apdu_core::Chain;
use std::alloc::Allocator;

/// The part of a card that decides whether it refuses a header.
#[derive(Drop)]
pub(crate) struct View<'a, A: Allocator> {
    pub(crate) applications: &'a [Application<A>],
    pub(crate) selected: Option<usize>,
    pub(crate) chain: &'a Chain<A>,
    pub(crate) response: Option<Response>,
}
