//! Operations of a session with a card of data objects.
ghost use Rattle.std.specs.Prelude.{◌≡◌, ◌<◌, ◌++◌, List, [], ◌∷◌, None, length, true, MatchResult, OnErr, IfOk};
ghost use Rattle.std.specs.List.{AllByRecursion, flat_map};
ghost use Rattle.apdu_core.specs.CommandBytes as spec;
ghost use Rattle.t0_core.specs.Character.{Character};
ghost use Rattle.t0_core.specs.Front.{fresh};
ghost use Rattle.t0_core.specs.Watch.{Hears};
ghost use Rattle.object_card.specs.State.{IsCardState, is_idle};
ghost use Rattle.object_card.specs.OneStep.{AnswersAll};
ghost use Rattle.card_terminal.specs.declared.session_fault.SessionFault.TheVariants.{OutOfMemory};
ghost use Rattle.exchange_core.specs.Gathered.{UnitOf, Gathers, dialogues_of};
ghost use Rattle.object_card.specs.Agreed.{IsAgreed};
ghost use Rattle.exchange_core.specs.ExchangeSide.{UnderWay, IsOver, response_limit};
ghost use Rattle.card_terminal.specs.Talk.{AreExchangesOf, IsTalkOf, Talk, talk_dialogues};
ghost use Rattle.card_terminal.specs.Operations.{operation_of};
ghost use Rattle.card_terminal.specs.Conversing.{point, HaveGone};
ghost use Rattle.card_terminal.specs.Running.{new_answers, carried_out};

use super::{Session, converse};
use crate::answers::Answers;
use crate::commands::{get_command, put_header, select_command};
use crate::held_answer::HeldAnswer;
use crate::operation::Op;
use crate::session_fault::SessionFault;
use apdu_core::{Command, Pieces, Status, pieces};
use exchange_core::{Answer, Exchange, RESPONSE_LIMIT};
use object_card::DataCard;
use std::alloc::{AllocError, Allocator};
use t0_core::{Gather, HostTurn, Plans, Watch};

impl<C: DataCard> Session<C> {
    /// Whether no chain is pending at the card. If so, `run`, `operate` and `operate_in` may be
    /// called.
    pub fn is_idle(&self) -> bool
        ensures idle { result ≡ is_idle (C.state self.now).pending }
        ensures sound { IsCardState (C.state self.now) }
    {
        self.end.card().is_idle()
    }

    /// Carries out the operations in turn, and appends an answer to `out` for each, whatever its
    /// status. No chain may be pending (`is_idle`), and none is afterwards. The card follows the
    /// plans at the cursor `plans`, and `watch` hears each character.
    ///
    /// # Errors
    ///
    /// - `OutOfMemory`: memory ran out before the first character of an operation. The operations
    ///   before it were carried out, and `out` holds their answers. No chain is pending.
    pub fn run<A: Allocator + Copy, B: Allocator, V: Allocator, W: Watch>(
        &mut self,
        alloc: A,
        ops: &[Op<V>],
        plans: &mut Plans<B>,
        watch: &mut W,
        out: &mut Answers<A>,
    ) -> Result<(), SessionFault>
        requires { is_idle (C.state self.old).pending ≡ true }

        // The new answers follow those that `out` held: one for each operation, or fewer if memory
        // ran out.
        ensures answered { let answers = new_answers out.old.given out.new.given in
            (out.new.given ≡ out.old.given ++ answers)
            × MatchResult result (λ _. length answers ≡ length ops.now)
            (λ fault. (fault ≡ OutOfMemory) × (length answers < length ops.now)) }

        // The answers and the tables are those of the one-step card.
        ensures one_step { let answers = new_answers out.old.given out.new.given in
            AnswersAll (C.state self.old) (carried_out ops.now answers) answers
            (C.state self.new) }

        // The watch heard a talk of these operations under the next plans, with these answers and
        // states. The cursor is then past the plans that were used.
        ensures talk { let answers = new_answers out.old.given out.new.given in
            (line : List Character)
            × Talk C.Does (C.standing self.old) plans.old.rest (carried_out ops.now answers)
            answers (C.standing self.new) plans.new.rest line
            × Hears (W.hearing watch.old) line (W.hearing watch.new) }
        ensures idle { is_idle (C.state self.new).pending ≡ true }
    {
        for op in ops {
            out.make_room()?;
            let answer = self.operate(alloc, op, plans, watch)?;
            out.append(answer);
        }
        Ok(())
    }

    /// Carries out one operation, as `run`, and returns its answer. No chain may be pending
    /// (`is_idle`), and none is afterwards.
    ///
    /// # Errors
    ///
    /// - `AllocError`: memory ran out, before the first character; nothing has changed.
    pub fn operate<A: Allocator, B: Allocator, V: Allocator, W: Watch>(
        &mut self,
        alloc: A,
        op: &Op<V>,
        plans: &mut Plans<B>,
        watch: &mut W,
    ) -> Result<Answer<A>, AllocError>
        requires { is_idle (C.state self.old).pending ≡ true }
        ensures memory { OnErr result ((self.new ≡ self.old) × (plans.new ≡ plans.old)
            × (W.hearing watch.new ≡ W.hearing watch.old)) }

        // The answer and the tables are those of the one-step card.
        ensures one_step { IfOk result (λ answer. AnswersAll (C.state self.old)
            (operation_of op.now ∷ []) (answer ∷ []) (C.state self.new)) }

        // The watch heard a talk of the operation under the next plans.
        ensures talk { IfOk result (λ answer. (line : List Character)
            × Talk C.Does (C.standing self.old) plans.old.rest (operation_of op.now ∷ [])
            (answer ∷ []) (C.standing self.new) plans.new.rest line
            × Hears (W.hearing watch.old) line (W.hearing watch.new)) }
        ensures idle { is_idle (C.state self.new).pending ≡ true }
    {
        let room = Gather::with_room(alloc, RESPONSE_LIMIT)?;
        Ok(self.operate_in(room, op, plans, watch).into_answer())
    }

    /// Carries out one operation, as `operate`, and allocates nothing at the terminal. No chain may
    /// be pending (`is_idle`), and none is afterwards. `room` must be empty and for
    /// `RESPONSE_LIMIT` bytes, as `HeldAnswer::into_room` returns it.
    pub fn operate_in<A: Allocator, B: Allocator, V: Allocator, W: Watch>(
        &mut self,
        room: Gather<A>,
        op: &Op<V>,
        plans: &mut Plans<B>,
        watch: &mut W,
    ) -> HeldAnswer<A>
        requires idle { is_idle (C.state self.old).pending ≡ true }
        requires empty { room.bytes ≡ [] }
        requires limit { room.limit ≡ response_limit }
        ensures one_step { AnswersAll (C.state self.old) (operation_of op.now ∷ []) (result ∷ [])
            (C.state self.new) }
        ensures talk { (line : List Character)
            × Talk C.Does (C.standing self.old) plans.old.rest (operation_of op.now ∷ [])
            (result ∷ []) (C.standing self.new) plans.new.rest line
            × Hears (W.hearing watch.old) line (W.hearing watch.new) }
        ensures idle { is_idle (C.state self.new).pending ≡ true }
    {
        // For the proof: the card's state is sound, and no chain is pending.
        let idle = self.is_idle();
        prove!(idle);
        self.carry_out(room, op, plans, watch)
    }

    /// Carries out a command that is agreed with the card (`object_card::is_agreed`), as
    /// `transmit`. A chain may be pending. A card of data objects neither stalls nor sends more
    /// than there is room for.
    ///
    /// # Errors
    ///
    /// - `AllocError`: memory ran out, before the first character; nothing has changed.
    pub fn send<A: Allocator, B: Allocator, W: Watch>(
        &mut self,
        alloc: A,
        command: Command,
        plans: &mut Plans<B>,
        watch: &mut W,
    ) -> Result<Answer<A>, AllocError>
        requires { IsAgreed C.MayReceive C.MaySend command }
        ensures memory { OnErr result ((self.new ≡ self.old) × (plans.new ≡ plans.old)
            × (W.hearing watch.new ≡ W.hearing watch.old)) }
        ensures answers { IfOk result
            (λ reply. (units : List UnitOf) × Gathers command.entry units reply.content reply.status
            × HaveGone C.Does (point (C.standing self.old) plans.old.rest (W.hearing watch.old))
            (flat_map dialogues_of units)
            (point (C.standing self.new) plans.new.rest (W.hearing watch.new))) }
    {
        let room = Gather::with_room(alloc, RESPONSE_LIMIT)?;
        Ok(self.send_in(room, command, plans, watch).into_answer())
    }

    /// Carries out a command that is agreed with the card, as `send`, and allocates nothing at the
    /// terminal. `room` must be empty and for `RESPONSE_LIMIT` bytes.
    pub fn send_in<A: Allocator, B: Allocator, W: Watch>(
        &mut self,
        room: Gather<A>,
        command: Command,
        plans: &mut Plans<B>,
        watch: &mut W,
    ) -> HeldAnswer<A>
        requires agreed { IsAgreed C.MayReceive C.MaySend command }
        requires empty { room.bytes ≡ [] }
        requires limit { room.limit ≡ response_limit }
        ensures { (units : List UnitOf)
            × Gathers command.entry units result.content result.status
            × HaveGone C.Does (point (C.standing self.old) plans.old.rest (W.hearing watch.old))
            (flat_map dialogues_of units)
            (point (C.standing self.new) plans.new.rest (W.hearing watch.new)) }
    {
        // For the proof: the call's contract says that the card's state is sound.
        let _is_sound = self.is_idle();
        let mut exchange = Exchange::begin(room, command);
        let status = self.go_through(&mut exchange, plans, watch);
        HeldAnswer::new(status, exchange.into_room())
    }

    /// Carries out one operation by its commands.
    fn carry_out<A: Allocator, B: Allocator, V: Allocator, W: Watch>(
        &mut self,
        room: Gather<A>,
        op: &Op<V>,
        plans: &mut Plans<B>,
        watch: &mut W,
    ) -> HeldAnswer<A>
        requires sound { IsCardState (C.state self.old) }
        requires empty { room.bytes ≡ [] }
        requires limit { room.limit ≡ response_limit }
        ensures { (exchanges : List (List UnitOf))
            × IsTalkOf (operation_of op.now) exchanges result
            × HaveGone C.Does (point (C.standing self.old) plans.old.rest (W.hearing watch.old))
            (talk_dialogues exchanges)
            (point (C.standing self.new) plans.new.rest (W.hearing watch.new)) }
    {
        match op {
            Op::Select(aid) => self.send_in(room, select_command(aid), plans, watch),
            Op::Get(tag) => self.send_in(room, get_command(*tag), plans, watch),
            Op::Put(tag, value) => {
                let (p1, p2) = tag.p1p2();
                let mut commands = pieces(put_header(p1, p2), value.bytes());
                let Some(first) = commands.next() else {
                    unreachable!()
                };
                self.chain(room, first, commands, plans, watch)
            }
        }
    }

    /// Carries out the command `first` and then `others` in one room, up to the first status other
    /// than `9000`.
    fn chain<'v, A: Allocator, B: Allocator, W: Watch>(
        &mut self,
        room: Gather<A>,
        first: Command<'v>,
        others: Pieces<'v>,
        plans: &mut Plans<B>,
        watch: &mut W,
    ) -> HeldAnswer<A>
        requires sound { IsCardState (C.state self.old) }
        requires agreed { IsAgreed C.MayReceive C.MaySend first
            × AllByRecursion (λ c. IsAgreed C.MayReceive C.MaySend c) others }
        requires empty { room.bytes ≡ [] }
        requires limit { room.limit ≡ response_limit }
        ensures { (exchanges : List (List UnitOf))
            × AreExchangesOf (first.entry ∷ others.entry) exchanges result
            × HaveGone C.Does (point (C.standing self.old) plans.old.rest (W.hearing watch.old))
            (talk_dialogues exchanges)
            (point (C.standing self.new) plans.new.rest (W.hearing watch.new)) }
    {
        let mut exchange = Exchange::begin(room, first);
        let mut status = self.go_through(&mut exchange, plans, watch);

        // For the proof: the label names the loop's goals.
        'pieces: for command in others {
            if !status.is_ok() {
                break;
            }
            exchange = exchange.again(command);
            status = self.go_through(&mut exchange, plans, watch);
        }
        HeldAnswer::new(status, exchange.into_room())
    }

    /// Passes the characters of an exchange, from its first to its last, and returns its status.
    #[inline(always)]
    fn go_through<A: Allocator, B: Allocator, W: Watch>(
        &mut self,
        exchange: &mut Exchange<'_, A>,
        plans: &mut Plans<B>,
        watch: &mut W,
    ) -> Status
        requires sound { IsCardState (C.state self.old) }
        requires begun { (c : spec.Command) × IsAgreed C.MayReceive C.MaySend c
            × UnderWay c exchange.old [] None fresh }
        requires room { exchange.old.gather.limit ≡ response_limit }
        ensures over { (c : spec.Command) → IsAgreed C.MayReceive C.MaySend c →
            UnderWay c exchange.old [] None fresh →
            (units : List UnitOf) × IsOver c exchange.new units result
            × HaveGone C.Does (point (C.standing self.old) plans.old.rest (W.hearing watch.old))
            (flat_map dialogues_of units)
            (point (C.standing self.new) plans.new.rest (W.hearing watch.new)) }
        ensures sound { IsCardState (C.state self.new) }
        ensures room { exchange.new.gather.limit ≡ response_limit }
    {
        converse(exchange, &mut self.end, plans, watch).unwrap();
        let HostTurn::Done(status) = exchange.next() else {
            unreachable!()
        };
        status
    }
}
