//! Laws of operations at a `Terminal`: each function's contract is one. For the proof: the bodies
//! are empty.
ghost use Rattle.std.specs.Prelude.{◌≡◌, ◌⊎◌, ◌≤◌, ◌+◌, ◌*◌, ◌++◌, ◌∷◌, ℕ, List, length, Some};
ghost use Rattle.std.specs.List.{AllByRecursion, flat_map};
ghost use Rattle.apdu_core.specs.CommandBytes.{Command};
ghost use Rattle.t0_core.specs.declared.host_end.HostTurn.TheVariants as HostTurn;
ghost use Rattle.t0_core.specs.Character.{Character};
ghost use Rattle.t0_core.specs.Dialogue.{IsDialogue};
ghost use Rattle.apdu_core.specs.Shared.{Reply};
ghost use Rattle.exchange_core.specs.Gathered.{UnitOf};
ghost use Rattle.card_terminal.specs.Talk.{AreExchangesOf, talk_dialogues, talk_characters};
ghost use Rattle.exchange_core.specs.ExchangeSide.{exchange_turn};
ghost use Rattle.exchange_core.specs.ExchangeHistory.{Expects, BeginsExchange, FaultCameLast};
ghost use Rattle.card_terminal.specs.TerminalSide.{OperationOf, HasCome, LeadsTo};
ghost use Rattle.card_terminal.specs.TerminalHistory.{HaveValidIns, HaveRoom, brought_by};

/// The characters that led to an operation begin with those of whole exchanges of its first
/// commands, each with the status `9000`. Those of the next command's exchange follow: the first of
/// them, or all, whether it is in progress, has ended or has stalled. Or this holds without the
/// last character, which the card sent, and which was an error that ended the operation.
pub fn what_led_begins_an_operation()
    ensures { (commands : List Command) (came : List Character) (o : OperationOf)
        → LeadsTo commands came (Some o) → HasCome (λ c here. BeginsExchange c here) commands came o
        ⊎ HasCome (λ c here. FaultCameLast c here o.exchange) commands came o }
{}

/// If the characters that led to an operation are those of whole exchanges of its commands, up to
/// the first status other than `9000`, it has ended, with their answer. Each INS must be valid.
pub fn a_whole_operation_is_done()
    ensures { (commands : List Command) (came : List Character) (o : OperationOf)
        (exchanges : List (List UnitOf)) (answer : Reply) → HaveValidIns commands →
        LeadsTo commands came (Some o) → AreExchangesOf commands exchanges answer →
        AllByRecursion IsDialogue (talk_dialogues exchanges) → came ≡ talk_characters exchanges →
        (exchange_turn o.exchange ≡ HostTurn.Done answer.status)
        × (o.exchange.gather.bytes ≡ answer.content) }
{}

/// The next character of an operation is settled. Take whole exchanges of its commands, up to the
/// first status other than `9000`, that begin with the characters that led to it. The data of each
/// fit its room. If the next character is the terminal's, the operation sends it. If it is the
/// card's, the operation listens and takes it without an error. In neither case has the operation
/// failed, so it has not stalled. Each INS must be valid.
pub fn the_next_character_of_an_operation_is_settled()
    ensures next { (commands : List Command) (came : List Character) (o : OperationOf)
        (exchanges : List (List UnitOf)) (answer : Reply) (ch : Character)
        (rest : List Character) → HaveValidIns commands →
        LeadsTo commands came (Some o) → AreExchangesOf commands exchanges answer →
        AllByRecursion IsDialogue (talk_dialogues exchanges) →
        HaveRoom o.exchange.gather.limit exchanges →
        talk_characters exchanges ≡ came ++ ch ∷ rest → Expects o.exchange ch }
    ensures going { (commands : List Command) (came : List Character) (o : OperationOf)
        (exchanges : List (List UnitOf)) (answer : Reply) (rest : List Character) →
        HaveValidIns commands → LeadsTo commands came (Some o) →
        AreExchangesOf commands exchanges answer →
        AllByRecursion IsDialogue (talk_dialogues exchanges) →
        HaveRoom o.exchange.gather.limit exchanges →
        talk_characters exchanges ≡ came ++ rest →
        exchange_turn o.exchange ≡ HostTurn.Failed → ⊥ }
{}

/// A finished operation has at most four TPDUs for each command that was sent, plus two for each
/// byte that its exchanges brought.
pub fn an_operation_has_few_tpdus()
    ensures { (commands : List Command) (exchanges : List (List UnitOf)) (answer : Reply) →
        AreExchangesOf commands exchanges answer → length (talk_dialogues exchanges)
        ≤ 2 * (brought_by exchanges + 2 * length exchanges) }
{}
