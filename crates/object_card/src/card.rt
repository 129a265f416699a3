//! The card of data objects: what it holds, and how it serves a TPDU.
ghost use Rattle.std.specs.Prelude.{◌≡◌, map, refl, Some, None, MatchOption, slice_get};
ghost use Rattle.std.specs.Option.{option_map};
ghost use Rattle.apdu_core.specs.Chaining.{idle};
ghost use Rattle.object_card.specs.Builder.{new_card};
ghost use Rattle.object_card.specs.CardFields.{applications_of};
ghost use Rattle.object_card.specs.Refusals.{is_locked_among};
ghost use Rattle.object_card.specs.State.{entry_at};
ghost use Rattle.object_card.specs.Tables.{AreApplications, entries_in};

use crate::aid::Aid;
use crate::application::Application;
use crate::command_data::take_data;
use crate::data_card::DataCard;
use crate::entries::{Apps, Entries};
use crate::limits::VALUE_LIMIT;
use crate::pending_chain::{give_up, restore, settle};
use crate::put_data::store;
use crate::ready::{Put, Ready};
use crate::response::Response;
use crate::select_command::find;
use crate::sent_response::sent;
use crate::verdict::judged;
use crate::view::View;
use apdu_core::{Chain, Header, Status, count};
use std::alloc::{Allocator, Global};
use std::marker::Model;
use t0_core::{DataRun, TpduCard, Verdict};
use tlv_core::ObjectTag;

/// A card of data objects: applications with their data objects, the selected application, and a
/// pending chain or response.
///
/// Make one with `CardBuilder`, and give it to a `t0_core::CardEnd`. Only `data` for the last PUT
/// DATA of a chain allocates; if memory runs out, the status is `6581`. Until SW2 is sent, the
/// methods below show the state before the TPDU in progress.
#[derive(Drop)]
pub struct ObjectCard<A: Allocator = Global> {
    applications: Vec<Application<A>, A>,
    selected: Option<usize>,
    chain: Chain<A>,
    response: Option<Response>,
    ready: Ready,
    put: Option<Put<A>>,
}

impl<A: Allocator> Model for ObjectCard<A> {
    ghost use Rattle.std.specs.Option.{option_map};
    ghost use Rattle.object_card.specs.CardView.{CardView, IsCard, view_of};

    ghost Value = { CardView };

    ghost view = { λ c. view_of c.applications.items c.selected c.chain c.response c.ready
        (option_map (λ put. (put.tag, put.value.items)) c.put) };

    ghost invariant = { λ c. IsCard c.applications.items c.selected c.chain c.response c.ready
        (option_map (λ put. (put.tag, put.value.items)) c.put) };
}

impl<A: Allocator> ObjectCard<A> {
    /// Makes a card with these applications, nothing selected and nothing pending.
    pub(crate) fn new(applications: Vec<Application<A>, A>, chain: Chain<A>) -> ObjectCard<A>
        requires applications { AreApplications (applications_of applications.items) }
        requires chain { chain ≡ idle VALUE_LIMIT }
        ensures { result ≡ new_card (applications_of applications.items) }
    {
        ObjectCard {
            applications,
            selected: None,
            chain,
            response: None,
            ready: Ready::Nothing,
            put: None,
        }
    }

    /// The identifier of the selected application; `None` if none is selected.
    pub fn selected(&self) -> Option<Aid>
        ensures { result ≡ self.now.state.selected }
    {
        let place = self.selected?;
        Some(self.applications[place].aid())
    }

    /// The identifiers of the applications, in the order in which they were added.
    pub fn apps(&self) -> Apps<'_, A>
        ensures apps { result ≡ map (λ a. a.aid) self.now.state.applications }
        ensures sound { AreApplications self.now.state.applications }
    {
        Apps::over(&self.applications)
    }

    /// The identifier of the application at this place, from 0, in the order of `apps`; `None`
    /// after the last.
    pub fn app_at(&self, place: usize) -> Option<Aid>
        ensures { result ≡ option_map (λ a. a.aid) (slice_get self.now.state.applications place) }
    {
        Some(self.applications.get(place)?.aid())
    }

    /// Returns the data object at index `place` of the application at index `app`: its tag, its
    /// value, and whether it is locked. Both count from 0: applications in the order of `apps`,
    /// objects in that of `entries`. `None` if either index is past the last.
    pub fn entry_at(&self, app: usize, place: usize) -> Option<(ObjectTag, &[u8], bool)>
        ensures { MatchOption result (entry_at app place self.now.state ≡ None)
            (λ e. entry_at app place self.now.state
            ≡ Some (record { tag = e.0; value = e.1.now; locked = e.2 })) }
    {
        self.applications.get(app)?.at(place)
    }

    /// The data objects of an application, in the order in which their tags were first stored;
    /// `None` if there is no such application.
    pub fn entries(&self, aid: &Aid) -> Option<Entries<'_, A>>
        ensures { result ≡ option_map (λ entries. map (λ e. (e.tag, e.value)) entries)
            (entries_in aid.now self.now.state.applications) }
    {
        let place = find(&self.applications, aid.bytes())?;
        Some(Entries::of(&self.applications[place]))
    }

    /// Whether the application contains a data object with this tag that is locked. `false` also if
    /// there is no such application or object.
    pub fn is_locked(&self, aid: &Aid, tag: ObjectTag) -> bool
        ensures { result
            ≡ is_locked_among (Some tag) (entries_in aid.now self.now.state.applications) }
    {
        match find(&self.applications, aid.bytes()) {
            Some(place) => self.applications[place].is_locked(tag),
            None => false,
        }
    }
}

impl<A: Allocator + Copy> TpduCard for ObjectCard<A> {
    ghost use Rattle.object_card.specs.State.{CardState, after_reset};
    ghost use Rattle.object_card.specs.CardMeaning.{Does};
    ghost use Rattle.object_card.specs.Instructions.{MayReceive, MaySend};

    ghost State = { CardState };

    ghost standing = { λ card. card.state };

    ghost Does = { Does };

    ghost after_reset = { after_reset };

    ghost MayReceive = { MayReceive };

    ghost MaySend = { MaySend };

    ghost prepared = { λ card. card.prepared };

    fn header(&mut self, header: Header, p3: u8, cut: u16) -> Verdict {
        give_up(&mut self.chain, self.ready);
        self.put = None;
        let view = View {
            applications: &self.applications,
            selected: self.selected,
            chain: &self.chain,
            response: self.response,
        };
        let (verdict, ready) = judged(&view, header, p3, cut);
        self.ready = ready;
        verdict
    }

    fn data(&mut self, content: &[u8]) -> Status {
        let taken = take_data(
            &mut self.applications,
            self.selected,
            &mut self.chain,
            self.response,
            self.ready,
            content,
        );
        self.ready = taken.ready;
        self.put = taken.put;
        taken.status
    }

    #[inline(always)]
    fn byte(&self, at: u16) -> u8 {
        match &self.ready {
            Ready::Sends { response, .. } => response.byte(&self.applications, self.selected, at),
            _ => unreachable!(),
        }
    }

    #[inline(always)]
    fn run(&self, at: u16) -> DataRun<'_> {
        match &self.ready {
            Ready::Sends { response, p3, .. } => {
                let most = usize::from(count(*p3) - at);
                DataRun::Lent(response.run(&self.applications, self.selected, at, most))
            }
            _ => unreachable!(),
        }
    }

    fn end_of_sending(&mut self) -> Status {
        let view = View {
            applications: &self.applications,
            selected: self.selected,
            chain: &self.chain,
            response: self.response,
        };
        let (ready, status) = sent(&view, self.ready);
        self.ready = ready;
        status
    }

    fn answered(&mut self) {
        let ready = self.ready;
        store(&mut self.applications, self.selected, self.put.take());
        settle(&mut self.chain, ready);
        self.selected = ready.selected_after(self.selected);
        self.response = ready.response_after();
        self.ready = Ready::Nothing;
    }

    fn reset(&mut self) {
        restore(&mut self.chain, None);
        self.selected = None;
        self.response = None;
        self.ready = Ready::Nothing;
        self.put = None;
    }
}

impl<A: Allocator + Copy> DataCard for ObjectCard<A> {
    ghost state = { λ card. card.state };

    ghost means = { (
      λ state. state,
      λ card. refl,
      record { steps = λ old new cut tpdu does. does; resets = λ state. refl },
    ) };

    ghost receives = { λ ins. (λ h. h, λ h. h) };

    ghost sends = { λ ins. (λ h. h, λ h. h) };

    fn is_idle(&self) -> bool {
        self.ready.stands_idle(self.chain.is_pending())
    }
}
