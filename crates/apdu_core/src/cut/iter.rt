//! The iterator over the commands of a chain.
ghost use Rattle.std.specs.Prelude.{◌≡◌, true};
ghost use Rattle.std.specs.Iterator.{YieldsFirst, item_count};
ghost use Rattle.apdu_core.specs.HeaderBytes.{ins_is_valid};
ghost use Rattle.apdu_core.specs.Chaining.{chain_commands};
ghost use Rattle.apdu_core.specs.PieceList.{pieces_of};

use crate::command::Command;
use crate::header::Header;
use std::iter::FusedIterator;
use std::marker::Model;

/// The number of bytes in each piece of a value except the last (profile).
const PIECE: usize = 255;

/// Iterates over the commands of a chain, in order. Contracts see it as the list of the commands
/// that are left.
#[derive(Debug, Drop)]
pub struct Pieces<'a> {
    header: Header,
    left: Option<&'a [u8]>,
}

impl<'a> Model for Pieces<'a> {
    ghost use Rattle.std.specs.Prelude.{◌≡◌, List, true};
    ghost use Rattle.apdu_core.specs.CommandBytes.{Command};
    ghost use Rattle.apdu_core.specs.HeaderBytes.{ins_is_valid};

    ghost Value = { List Command };

    ghost use Rattle.apdu_core.specs.PiecesLeft.{commands_left};

    ghost view = { commands_left };

    ghost invariant = { λ pieces. ins_is_valid pieces.header.ins ≡ true };
}

impl<'a> Pieces<'a> {
    pub(super) fn new(header: Header, value: &'a [u8]) -> Pieces<'a>
        requires { ins_is_valid header.ins ≡ true }
        ensures { result ≡ chain_commands header (pieces_of value.now) }
    {
        Pieces {
            header,
            left: Some(value),
        }
    }
}

impl<'a> Iterator for Pieces<'a> {
    type Item = Command<'a>;

    ghost next_gives = { YieldsFirst (λ rest. rest) };

    ghost remaining = { item_count (λ rest. rest) };

    fn next(&mut self) -> Option<Command<'a>> {
        let left = self.left?;
        if left.len() <= PIECE {
            self.left = None;
            return Command::new(self.header, left, None);
        }
        let (piece, rest) = left.split_at(PIECE);
        self.left = Some(rest);
        Command::new(self.header.with_more(), piece, None)
    }
}

impl FusedIterator for Pieces<'_> {}
