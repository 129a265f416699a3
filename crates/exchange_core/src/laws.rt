//! Laws of exchanges, over the definitions alone: each function's contract is one. For the proof:
//! the bodies are empty.
ghost use Rattle.std.specs.Prelude.{◌≡◌, ◌⊎◌, ◌≤◌, ◌<◌, ◌+◌, ◌*◌, ◌++◌, ◌∷◌, [], ℕ, List, length, Option, true};
ghost use Rattle.std.specs.List.{AllByRecursion, flat_map};
ghost use Rattle.apdu_core.specs.StatusWord.{StatusWord};
ghost use Rattle.apdu_core.specs.HeaderBytes.{ins_is_valid};
ghost use Rattle.t0_core.specs.declared.host_end.HostTurn.TheVariants as HostTurn;
ghost use Rattle.t0_core.specs.Dialogue.{Dialogue, IsDialogue};
ghost use Rattle.apdu_core.specs.CommandBytes as spec;
ghost use Rattle.t0_core.specs.Character.{Character};
ghost use Rattle.exchange_core.specs.Gathered.{UnitOf, dialogues_of, IsOpenExchange, Gathers, unit_data, tpdus};
ghost use Rattle.exchange_core.specs.ExchangeSide.{ExchangeOf, Continues, IsOver, Stall, ended_with, exchange_turn};
ghost use Rattle.exchange_core.specs.ExchangeHistory.{ComesTo, Expects, BeginsExchange, FaultCameLast, unit_characters};

/// The characters that led to an exchange are the first, or all, of an exchange of its command,
/// whether it is in progress, has ended or has stalled. Or this holds without the last character,
/// which was an error that ended it.
pub fn what_led_begins_an_exchange()
    ensures { (c : spec.Command) (came : List Character) (ex : ExchangeOf) → ComesTo c came ex →
        BeginsExchange c came ⊎ FaultCameLast c came ex }
{}

/// An exchange, ended or not, has at most 2(r + 2) TPDUs if they have brought r bytes. A TPDU and
/// its repetition after `6CXX` count as two.
pub fn an_exchange_has_few_tpdus()
    ensures { (c : spec.Command) (units : List UnitOf) → IsOpenExchange c units →
        tpdus units ≤ 2 * (length (flat_map unit_data units) + 2) }
{}

/// If the characters that led to an exchange are those of a whole one of its command, it has ended,
/// with the status and the data of that one. INS must be valid.
pub fn a_whole_exchange_is_done()
    ensures { (c : spec.Command) (came : List Character) (ex : ExchangeOf) (units : List UnitOf)
        (gathered : List ℕ) (status : StatusWord) →
        ins_is_valid c.header.ins ≡ true → c.header.ins < 256 →
        ComesTo c came ex → Gathers c units gathered status →
        AllByRecursion IsDialogue (flat_map dialogues_of units) →
        came ≡ unit_characters units →
        (exchange_turn ex ≡ HostTurn.Done status) × (ex.gather.bytes ≡ gathered) }
{}

/// The next character of an exchange is settled. Take a whole exchange of its command that begins
/// with the characters that led to it, and whose data fit its room. If the next character is the
/// terminal's, the exchange sends it. If it is the card's, the exchange listens and takes it
/// without an error. In neither case has the exchange failed, so it has not stalled. INS must be
/// valid.
pub fn the_next_character_is_settled()
    ensures next { (c : spec.Command) (came : List Character) (ex : ExchangeOf)
        (units : List UnitOf) (gathered : List ℕ) (status : StatusWord) (ch : Character)
        (rest : List Character) →
        ins_is_valid c.header.ins ≡ true → c.header.ins < 256 →
        ComesTo c came ex → Gathers c units gathered status →
        AllByRecursion IsDialogue (flat_map dialogues_of units) →
        length gathered ≤ ex.gather.limit →
        unit_characters units ≡ came ++ ch ∷ rest → Expects ex ch }
    ensures going { (c : spec.Command) (came : List Character) (ex : ExchangeOf)
        (units : List UnitOf) (gathered : List ℕ) (status : StatusWord) (rest : List Character) →
        ins_is_valid c.header.ins ≡ true → c.header.ins < 256 →
        ComesTo c came ex → Gathers c units gathered status →
        AllByRecursion IsDialogue (flat_map dialogues_of units) →
        length gathered ≤ ex.gather.limit →
        unit_characters units ≡ came ++ rest → exchange_turn ex ≡ HostTurn.Failed → ⊥ }
{}

/// If the last dialogue of a whole exchange ends, an exchange that continues after that dialogue
/// has ended, with the status and the data of the whole one. A whole exchange has not stalled.
pub fn a_whole_exchange_is_over()
    ensures over { (c : spec.Command) (ex : ExchangeOf) (units : List UnitOf)
        (first : Option Dialogue) (d : Dialogue) (gathered : List ℕ) (status : StatusWord) →
        Continues c ex units first d →
        Gathers c (units ++ ended_with first d ∷ []) gathered status →
        IsOver c ex (units ++ ended_with first d ∷ []) status × (ex.gather.bytes ≡ gathered) }
    ensures no_stall { (c : spec.Command) (units : List UnitOf) (gathered : List ℕ)
        (status : StatusWord) → Gathers c units gathered status → Stall c units → ⊥ }
{}
