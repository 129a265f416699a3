//! The exports for PPS: a terminal's request, and whether a response agrees.
ghost use Rattle.card_c.specs.PpsCalls.{AgreesPps, AnswersPps, AsksPps, given};
ghost use Rattle.std.specs.Prelude.{◌≡◌};

use crate::code;
use crate::copied::copied;
use atr_core::{Pps, agreed};

/// The number for a missing character.
const ABSENT: u16 = 256;

/// Writes the request for this protocol, with PPS1 to PPS3 (256: without it), and its length.
#[unsafe(no_mangle)]
pub extern "C" fn galliumtoad_pps_request(
    t: u8,
    pps1: u16,
    pps2: u16,
    pps3: u16,
    out: &mut [u8],
    len: &mut usize,
) -> i32
    ensures { AsksPps t pps1 pps2 pps3 out.old len.old result out.new len.new }
{
    if t > 15 || pps1 > ABSENT || pps2 > ABSENT || pps3 > ABSENT {
        return code::ARGUMENT;
    }
    let request = Pps {
        t,
        pps1: given(pps1),
        pps2: given(pps2),
        pps3: given(pps3),
    };
    copied(&request.write(), out, len)
}

/// Returns the character with this number, unless it is missing.
fn given(number: u16) -> Option<u8>
    ensures { result ≡ given number }
{
    if number < ABSENT {
        Some(number as u8)
    } else {
        None
    }
}

/// Returns 1 if the response accepts the request, and otherwise 0.
#[unsafe(no_mangle)]
pub extern "C" fn galliumtoad_pps_agreed(request: &[u8], response: &[u8]) -> i32
    ensures { AgreesPps request.now response.now result }
{
    match Pps::read(request) {
        Ok(request) => answered(&request, response),
        Err(_) => code::ARGUMENT,
    }
}

/// Does the same for a request that was read.
fn answered(request: &Pps, response: &[u8]) -> i32
    ensures { AnswersPps request.now response.now result }
{
    match Pps::read(response) {
        Ok(response) => i32::from(agreed(request, &response)),
        Err(fault) => code::of_pps(fault),
    }
}
