//! One exchange: a block of the terminal and the card's reply, over a line.
ghost use Rattle.std.specs.Prelude.{◌≡◌, ◌⊎◌, true};
ghost use Rattle.std.specs.Option.{option_map};
ghost use Rattle.t1_core.specs.Block.{are_filled, said};
ghost use Rattle.t1_core.specs.CardSide.{replies};
ghost use Rattle.t1_core.specs.Passing.{Hears, IsHeard, Passes};
ghost use Rattle.t1_core.specs.Doing.{HasRefused};
ghost use Rattle.t1_core.specs.declared.line.Fate.TheVariants.{Delivers, Loses};
ghost use Rattle.t1_core.specs.TerminalSide.{takes};
ghost use Rattle.t1_core.specs.World.{arrives};

use crate::applet::Applet;
use crate::block::Block;
use crate::card::{BlockCard, Reply};
use crate::line::{Fate, Fates};
use crate::terminal::TerminalEnd;

/// Sends the terminal's block to the card, and the card's reply to the terminal. Returns what the
/// ends hear of the line: a block without a reply, because the card above refused its command,
/// counts as lost.
pub(crate) fn pass<C: Applet>(
    terminal: &mut TerminalEnd,
    card: &mut BlockCard<C>,
    fates: Fates,
) -> Fates
    ensures heard { IsHeard C.Applet fates result }
    ensures passes { Passes C.Applet result terminal.old terminal.new card.old card.new }
{
    let Some(block) = terminal.next() else {
        return fates;
    };
    let (down, reply) = hear(card, fates.down, block);
    bring(terminal, card, fates.up, reply);
    Fates { down, ..fates }
}

/// A block of the terminal reaches the card, or does not. Returns the card's reply, and what the
/// card hears of the line.
fn hear<C: Applet>(card: &mut BlockCard<C>, fate: Fate, block: Block<'_>) -> (Fate, Option<Reply>)
    ensures heard { (result.0 ≡ fate)
        ⊎ ((fate ≡ Delivers) × (result.0 ≡ Loses) × HasRefused C.Applet card.old) }
    ensures hears { Hears C.Applet result.0 (said block.entry) card.old result.1 card.new }
{
    match fate {
        Fate::Delivers => match card.take(block) {
            Ok(reply) => (fate, Some(reply)),
            Err(_) => (Fate::Loses, None),
        },
        Fate::Damages => (fate, Some(card.damaged())),
        Fate::Loses => (fate, None),
    }
}

/// The card's reply, if any, reaches the terminal, or does not.
fn bring<C: Applet>(
    terminal: &mut TerminalEnd,
    card: &BlockCard<C>,
    fate: Fate,
    reply: Option<Reply>,
)
    ensures taken { terminal.new ≡ takes terminal.old
        (arrives fate (option_map (λ r. replies r card.now.at) reply)) }
    ensures filled { are_filled
        (arrives fate (option_map (λ r. replies r card.now.at) reply)) ≡ true }
{
    match (fate, reply) {
        (Fate::Delivers, Some(reply)) => terminal.take(card.block(reply)),
        (Fate::Damages, Some(_)) => terminal.damaged(),
        _ => terminal.timed_out(),
    }
}
