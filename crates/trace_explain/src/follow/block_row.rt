//! What is kept of each block at T=1: its kind and size, without its bytes.

use std::alloc::{AllocError, Global};
use t1_core::{Block, BlockReason, Control, Damage, End, Found, Item, Role};

/// The most blocks of a command that are kept (profile): no hostile trace fills memory.
const MOST: usize = 4_096;

/// The kind of a block, or what is wrong with it.
#[derive(Clone, Copy)]
pub enum BlockKind {
    /// N(S), and whether more blocks of the chain follow.
    Information(bool, bool),
    /// N(R), and the error that it reports.
    Ready(bool, BlockReason),
    Request(Control),
    Response(Control),
    /// What is wrong, and whether a CRC fits in place of the wrong LRC.
    Damaged(Damage, bool),
    /// The first bytes of a block.
    Part,
}

/// What is kept of a block that a tap heard.
#[derive(Clone, Copy)]
pub struct BlockRow {
    pub from: End,
    pub kind: BlockKind,
    /// The number of bytes: those of the field, or all if it is no valid block.
    pub size: usize,
    /// What it is in its dialogue.
    pub role: Role,
}

impl BlockRow {
    /// The row of an item of a tap.
    pub fn of(item: Item<'_>) -> BlockRow {
        let all = item.bytes.len();
        let (kind, size) = match item.found {
            Found::Valid(Block::Information { number, more, info }) => {
                (BlockKind::Information(number, more), info.len())
            }
            Found::Valid(Block::Ready { number, reason }) => (BlockKind::Ready(number, reason), 0),
            Found::Valid(Block::Request(control)) => (BlockKind::Request(control), 0),
            Found::Valid(Block::Response(control)) => (BlockKind::Response(control), 0),
            Found::Damaged(why) => (BlockKind::Damaged(why, false), all),
            Found::Cut => (BlockKind::Part, all),
        };
        BlockRow {
            from: item.from,
            kind,
            size,
            role: item.role,
        }
    }

    /// The row of the first bytes of a block.
    pub fn of_part(from: End, size: usize) -> BlockRow {
        BlockRow {
            from,
            kind: BlockKind::Part,
            size,
            role: Role::Invalid,
        }
    }

    /// Whether it is the newest block of its end again.
    pub fn is_again(&self) -> bool {
        matches!(self.role, Role::Repetition { .. })
    }

    /// Whether its EDC or another of its bytes is wrong.
    pub fn is_damaged(&self) -> bool {
        matches!(self.kind, BlockKind::Damaged(..))
    }

    /// Whether it is a valid block.
    pub fn is_valid(&self) -> bool {
        !matches!(self.kind, BlockKind::Damaged(..) | BlockKind::Part)
    }

    /// Whether bytes are missing: of the block, or a block before it.
    pub fn is_lossy(&self) -> bool {
        matches!(self.kind, BlockKind::Part) || matches!(self.role, Role::Unknown)
    }
}

/// The blocks of a command, in turn.
#[derive(Drop)]
pub struct BlockRows {
    /// The first `MOST` of them.
    pub rows: Vec<BlockRow>,
    /// How many more there are.
    pub others: u64,
}

impl BlockRows {
    /// No blocks.
    pub fn new(alloc: Global) -> BlockRows {
        BlockRows {
            rows: Vec::new(alloc),
            others: 0,
        }
    }

    /// Whether it lists no block.
    pub fn is_empty(&self) -> bool {
        self.rows.is_empty()
    }

    /// Returns a copy, or `AllocError` if memory ran out.
    pub fn copied(&self) -> Result<BlockRows, AllocError> {
        Ok(BlockRows {
            rows: self.rows.clone()?,
            others: self.others,
        })
    }

    /// Notes that the newest block, whose LRC is wrong, has a CRC.
    pub fn mark_crc(&mut self) {
        if self.others == 0
            && let Some(row) = self.rows.last_mut()
        {
            row.kind = BlockKind::Damaged(Damage::Lrc, true);
        }
    }

    /// Adds a block. Returns `AllocError` if memory ran out: it is missing.
    pub fn push(&mut self, row: BlockRow) -> Result<(), AllocError> {
        if self.rows.len() < MOST {
            self.rows.push(row)?;
        } else {
            self.others = self.others.saturating_add(1);
        }
        Ok(())
    }
}
