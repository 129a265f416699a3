//! The reasons to refuse a line of a script, with their texts.
use apdu_core::ApduFault;
use atr_core::AtrFault;
use std::fmt;

/// Why a line of a script is refused.
#[derive(Clone, Copy)]
pub enum LineReason {
    /// No line of the subcommand starts with this word.
    UnknownWord,
    /// A table line follows a run line.
    LateTableLine,
    /// The line has more or fewer words than its form.
    WrongWordCount,
    /// A HEX or VALUE has another form.
    BadHex,
    /// A TAG is HEX, but no tag that GET DATA and PUT DATA can name.
    BadTag,
    /// A STEPS or CUT has another form.
    BadPlan,
    /// An N is no number of 1 to 65,535.
    BadNumber,
    /// An application identifier has fewer than 5 or more than 16 bytes.
    BadAid,
    /// The bytes are not an answer to reset; this is their first fault.
    BadAtr(AtrFault),
    /// The value of a put has more than 16,320 bytes, or that of an entry of the table more than
    /// 8,192.
    ValueTooLong,
    /// A command has fewer than four bytes.
    CommandTooShort,
    /// A command's bytes fit none of the four cases, or a case that does not go with its INS.
    BadCommandLength,
    /// The INS of a command is `6X` or `9X`.
    InvalidIns,
    /// There is an answer to reset already.
    AtrTwice,
    /// There is an application with this identifier already.
    AidTwice,
    /// There are 8 applications, the most of a card.
    TooManyApps,
    /// No application precedes the entry.
    NoApp,
    /// The tag is that of a template, but the value is not a list of objects within level 16; the
    /// template is at level 1.
    NotObjects,
    /// The tag is new, and the application has 64 entries, the most.
    TableFull,
}

impl fmt::Display for LineReason {
    ghost use Rattle.std.specs.Prelude.{Some};
    ghost use Rattle.card_trace.specs.ScriptReasons.{reason_text};

    ghost output = { λ reason. Some (reason_text reason) };

    fn fmt<W: fmt::Write>(&self, f: &mut fmt::Formatter<W>) -> fmt::Result {
        let text = match self {
            LineReason::BadAtr(fault) => return write!(f, "bad atr: {fault}"),
            LineReason::UnknownWord => "unknown word",
            LineReason::LateTableLine => "table line after the first run line",
            LineReason::WrongWordCount => "wrong number of words",
            LineReason::BadHex => "bad hex",
            LineReason::BadTag => "bad tag",
            LineReason::BadPlan => "bad plan",
            LineReason::BadNumber => "bad number",
            LineReason::BadAid => "bad aid",
            LineReason::ValueTooLong => "value too long",
            LineReason::CommandTooShort => "command too short",
            LineReason::BadCommandLength => "bad command length",
            LineReason::InvalidIns => "invalid INS",
            LineReason::AtrTwice => "atr twice",
            LineReason::AidTwice => "aid twice",
            LineReason::TooManyApps => "too many apps",
            LineReason::NoApp => "no app",
            LineReason::NotObjects => "not objects",
            LineReason::TableFull => "table full",
        };
        f.write_str(text)
    }
}

impl From<ApduFault> for LineReason {
    ghost use Rattle.std.specs.Prelude.{◌≡◌};
    ghost use Rattle.card_trace.specs.ScriptReasons.{reason_of_command};

    ghost from_gives = { λ fault reason. reason ≡ reason_of_command fault };

    fn from(fault: ApduFault) -> LineReason {
        match fault {
            ApduFault::TooShort => LineReason::CommandTooShort,
            ApduFault::BadLength => LineReason::BadCommandLength,
            ApduFault::InvalidIns => LineReason::InvalidIns,
        }
    }
}

impl From<AtrFault> for LineReason {
    ghost use Rattle.std.specs.Prelude.{◌≡◌};
    ghost use Rattle.card_trace.specs.declared.script.reason.LineReason.TheVariants.{BadAtr};

    ghost from_gives = { λ fault reason. reason ≡ BadAtr fault };

    fn from(fault: AtrFault) -> LineReason {
        LineReason::BadAtr(fault)
    }
}
