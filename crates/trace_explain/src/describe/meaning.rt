//! Words for a status (ISO/IEC 7816-4, 5.1.3).

use crate::follow::response::waiting;
use crate::instructions::SIM_CLASS;
use crate::write::sheet::Sheet;
use apdu_core::{Commands, Header, MEANINGS, Meaning, Status};

/// The place of `9000` in the table. Most commands end with it.
const WELL: usize = 21;

macro_rules! meanings {
    ($($first:literal $last:literal $words:literal,)*) => {
        [$(Meaning { commands: Commands::Any, first: $first, last: $last, words: $words }),*]
    };
}

/// Statuses that only a UICC has (ETSI TS 102 221, 10.2.1), in classes `80` to `8F`.
static UICC: [Meaning; 12] = meanings! {
    0x9100 0x91FF "normal processing: a command of the card waits, of XX bytes",
    0x9200 0x92FF "normal processing, and news of a data transfer session",
    0x9300 0x9300 "the card application toolkit is busy",
    0x62F1 0x62F1 "a warning: more data are available",
    0x62F2 0x62F2 "a warning: more data are available, and a command of the card waits",
    0x62F3 0x62F3 "a warning: response data are available",
    0x63F1 0x63F1 "a warning: more data are expected",
    0x63F2 0x63F2 "a warning: more data are expected, and a command of the card waits",
    0x9850 0x9850 "INCREASE not possible: the maximum is reached",
    0x9862 0x9862 "authentication error of the application",
    0x9863 0x9863 "the security session has expired",
    0x9864 0x9864 "the time of a suspension is too short",
};

/// Whether a command succeeded, or its status asks for another: `9000`, `61XX` or `6CXX`. In the
/// class of a SIM card also `91XX`, `920X` and `9FXX`, in those of a UICC `91XX` and `92XX`.
pub fn is_well(header: Header, status: Status) -> bool {
    match (header.cla, status.sw1(), status.sw2()) {
        (_, 0x6C, _)
        | (SIM_CLASS | 0x80..=0x8F, 0x91, _)
        | (0x80..=0x8F, 0x92, _)
        | (SIM_CLASS, 0x92, 0x00..=0x0F) => true,
        _ => status.is_ok() || waiting(header, status).is_some(),
    }
}

/// Adds the meaning of the status of a command.
pub fn push_meaning(text: &mut Sheet, header: Header, status: Status) {
    let found = match MEANINGS.get(WELL) {
        Some(well) if status.is_ok() && well.first == 0x9000 => return text.push_str(well.words),
        _ => found(header, status),
    };
    let Some(meaning) = found else {
        return;
    };
    match meaning.words.split_once('X') {
        Some((before, after)) => {
            let number = meaning.number(status);
            let after = after.trim_start_matches('X');
            write!(text, "{before}{number}{after}");
        }
        None => text.push_str(meaning.words),
    }
}

/// Returns the meaning of the status of a command.
fn found(header: Header, status: Status) -> Option<Meaning> {
    if matches!(header.cla, 0x80..=0x8F)
        && let Some(own) = Meaning::find(&UICC, 0, 0, status)
    {
        return Some(own);
    }
    Meaning::find(&MEANINGS, header.cla, header.ins, status)
}
