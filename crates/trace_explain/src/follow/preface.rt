//! What precedes a dialogue: the card's answer to reset, and PPS exchanges.
ghost use Rattle.std.specs.Prelude.{◌≡◌, false, true, if◌then◌else◌, OnOk};
ghost use Rattle.trace_explain.specs.declared.follow.opening.Role.TheVariants.{Block};
ghost use Rattle.trace_explain.specs.declared.follow.opening.Stage.TheVariants.{Begun};
ghost use Rattle.trace_explain.specs.Openings.{first_opening, has_answered, is_full, leads_to_blocks, opening_of, opens, or_block, role_of, opening_at, unopened};

use crate::follow::blocks::{Blocks, edc_of};
use crate::follow::opening::{
    Role, Stage, after_answer, has_crc, is_direct, is_full, protocol_after, role_at,
};
use crate::read::digits::push;
use atr_core::Convention;
use std::alloc::{AllocError, Global};
use t0_core::End;
use t1_core::Edc;

/// The characters since the trace began or the card was reset, up to the dialogue.
#[derive(Drop)]
pub struct Preface {
    /// How far it is.
    pub stage: Stage,
    /// What turned the answer's characters: the inverse convention if read by the direct one.
    pub turned: Convention,
    /// The characters of the answer, as the card means them.
    pub answer: Vec<u8>,
    /// The characters of the last PPS request.
    pub request: Vec<u8>,
    /// The characters of the response to it.
    pub response: Vec<u8>,
    /// The line, counted from 1, in which the answer or the last request began.
    pub line: u64,
    /// The blocks since then, at T=1.
    pub blocks: Option<Blocks>,
    alloc: Global,
}

impl Preface {
    /// Starts before the first character of a trace, or among blocks with this EDC.
    pub fn new(alloc: Global, first_edc: Option<Edc>) -> Preface
        ensures { opening_of result ≡ first_opening first_edc }
    {
        let mut preface = Preface::unopened(alloc);
        if let Some(edc) = first_edc {
            preface.stage = Stage::Blocks;
            preface.blocks = Some(Blocks::new(alloc, edc, true));
        }
        preface
    }

    /// Starts before an answer.
    fn unopened(alloc: Global) -> Preface
        ensures { opening_of result ≡ unopened }
    {
        Preface {
            stage: Stage::Ready,
            turned: Convention::Direct,
            answer: Vec::new(alloc),
            request: Vec::new(alloc),
            response: Vec::new(alloc),
            line: 0,
            blocks: None,
            alloc,
        }
    }

    /// Whether an answer has begun since the last reset, and the dialogue has not.
    pub fn has_answered(&self) -> bool
        ensures { result ≡ has_answered (opening_of self.now) }
    {
        !self.answer.is_empty()
    }

    /// Whether the dialogue at T=0 has begun, and nothing is kept of what precedes it.
    pub fn is_over(&self) -> bool
        ensures { result ≡ true → opening_of self.now ≡ opening_at Begun }
    {
        self.stage.has_begun()
            && is_direct(self.turned)
            && self.answer.is_empty()
            && self.request.is_empty()
            && self.response.is_empty()
            && self.blocks.is_none()
    }

    /// Returns what the next character is.
    pub fn role_of(&self, from: End, byte: u8) -> Role
        ensures { result ≡ role_of (opening_of self.now) from byte }
    {
        let may_ask = is_direct(self.turned) && self.has_answered();
        let role = role_at(self.stage, may_ask, from, byte);
        or_block(role.is_dialogue() && self.leads_to_blocks(), from, role)
    }

    /// Whether what precedes the dialogue leads to T=1.
    fn leads_to_blocks(&self) -> bool
        ensures { result ≡ leads_to_blocks (opening_of self.now) }
    {
        matches!(self.stage, Stage::Ready)
            && is_direct(self.turned)
            && self.has_answered()
            && protocol_after(self.answer.as_slice(), self.response.as_slice()) == 1
    }

    /// Takes a character of this line, which has this number in its file, in this role. TS of an
    /// answer, and each character of the dialogue, clear the characters before it. Returns
    /// `AllocError` if memory ran out: the character is missing; drop the preface.
    pub fn take(&mut self, role: Role, byte: u8, line: u64, number: u64) -> Result<(), AllocError>
        ensures { OnOk result
            (opening_of self.new ≡ opens (opening_of self.old) role byte number) }
    {
        match role {
            Role::Ts(turned) => {
                self.begin(Stage::Answer);
                self.turned = turned;
                self.line = line;
                push(&mut self.answer, turned.turn(byte))
            }
            Role::Answer => {
                push(&mut self.answer, self.turned.turn(byte))?;
                self.stage = after_answer(self.answer.as_slice());
                Ok(())
            }
            Role::RequestPpss => {
                self.stage = Stage::Request;
                self.line = line;
                self.response.clear();
                self.request.clear();
                push(&mut self.request, byte)
            }
            Role::Request => {
                push(&mut self.request, byte)?;
                self.stage = if_full(self.request.as_slice(), Stage::Asked, Stage::Request);
                Ok(())
            }
            Role::ResponsePpss => {
                self.stage = Stage::Response;
                self.response.clear();
                push(&mut self.response, byte)
            }
            Role::Response => {
                push(&mut self.response, byte)?;
                self.stage = if_full(self.response.as_slice(), Stage::Ready, Stage::Response);
                Ok(())
            }
            Role::Stray => {
                self.stage = Stage::Astray;
                Ok(())
            }
            Role::Dialogue => {
                self.begin(Stage::Begun);
                Ok(())
            }
            Role::Block(from) => self.take_block(from, byte, number),
        }
    }

    /// Takes a byte of a block. Returns `AllocError` if memory ran out: drop the preface.
    fn take_block(&mut self, from: End, byte: u8, number: u64) -> Result<(), AllocError>
        ensures { OnOk result
            (opening_of self.new ≡ opens (opening_of self.old) (Block from) byte number) }
    {
        if let Some(blocks) = &mut self.blocks {
            blocks.hear(from, byte, number)?;
            self.forget(Stage::Blocks);
            return Ok(());
        }
        let edc = edc_of(has_crc(self.answer.as_slice()));
        let mut blocks = Blocks::new(self.alloc, edc, false);
        blocks.hear(from, byte, number)?;
        self.begin(Stage::Blocks);
        self.blocks = Some(blocks);
        Ok(())
    }

    /// Forgets all characters after a reset.
    pub fn reset(&mut self)
        ensures { opening_of self.new ≡ unopened }
    {
        self.begin(Stage::Ready);
    }

    /// Forgets all characters, and continues at this stage.
    fn begin(&mut self, stage: Stage)
        ensures { opening_of self.new ≡ opening_at stage }
    {
        self.forget(stage);
        self.blocks = None;
    }

    /// Forgets all characters but those of blocks, and continues at this stage.
    fn forget(&mut self, stage: Stage)
        ensures { opening_of self.new ≡ record (opening_at stage) {
          blocks = (opening_of self.old).blocks;
        } }
    {
        self.stage = stage;
        self.turned = Convention::Direct;
        self.answer.clear();
        self.request.clear();
        self.response.clear();
    }
}

/// This role, or that of a byte of a block if `is_block`.
fn or_block(is_block: bool, from: End, role: Role) -> Role
    ensures { result ≡ or_block is_block from role }
{
    if is_block { Role::Block(from) } else { role }
}

/// Returns the stage after these characters of a request or response: `all` if it is full.
fn if_full(bytes: &[u8], all: Stage, part: Stage) -> Stage
    ensures { result ≡ (if is_full bytes.now then all else part) }
{
    if is_full(bytes) { all } else { part }
}
