//! The texts of `--help` and `--version`, and the error for words that are not UTF-8.

/// The help of the program.
pub const PROGRAM: &str = "Explains the trace of a dialogue with a smart card over T=0 or T=1";

/// The version.
pub const VERSION: &str = "0.3.0";

// The help of each argument and option.
pub const FILE: &str = "Reads these files as one trace; `-` is standard input";

pub const DIFF: &str = "\
Compares the traces of two files up to a fault, or to
the first TPDU that differs, and shows that; not with
`--json`, `--commands`, `--summary` or files; no
effect with `--list-names`";

pub const HTML: &str = "\
Writes one page of HTML, which needs no other file,
in place of text; not with `--json`; no effect with
`--list-names`";

pub const TITLE: &str = "\
Sets the title of the page; needs `--html`; no effect
with `--json`";

pub const JSON: &str = "\
Writes one object of JSON in each line, in place of
text; not with `--html` or `--diff`; no effect with
`--list-names`";

pub const COMMANDS: &str = "\
Joins TPDUs to commands: repeats, parts of a
response, and pieces of a chain; not with `--diff`;
no effect with `--summary` or `--list-names`";

pub const MASK: &str = "\
Hides reference data, and objects with tags such as
`5A,57`, as `**`, or in JSON as `null`; the next word
is TAGS, unless it is an option";

pub const RESUME: &str = "\
Continues after an unexpected byte, at the next
header or `reset`, with `--mask` or `--unsigned` only
at `reset`; not with `--tpdu`; a log's form is not
read";

pub const FORM: &str = "\
Sets the form of the lines; a wrong FORM lists the
names of all; not with `--form-file` or `--unsigned`;
a log's form is not read with `--resume`";

pub const FORM_FILE: &str = "\
Reads lines by the first form in this file; not with
`--form` or `--unsigned`; a log's form is not read
with `--resume`";

pub const NAMES_FILE: &str = "\
Adds the names in this file, which come before those
of the program";

pub const LIST_NAMES: &str = "\
Lists the names of tags, application identifiers and
bits, and reads no trace; only `--names-file` adds to
that";

pub const SWAP: &str = "\
Takes each sign for that of the other end, as for a
log in which TX is the card's; not with `--unsigned`";

pub const UNSIGNED: &str = "\
Reads lines without signs, as far as the dialogue
shows who sent each character; not with `--form`,
`--form-file`, `--swap` or `--tpdu`";

pub const TO_CARD: &str = "\
Says of instructions, as `5A,F0`, that their data go
to the card; needs `--unsigned`; no effect with an
option that excludes `--unsigned`";

pub const FROM_CARD: &str = "\
Says of instructions, as `CA,F2`, that their data
come from the card; needs `--unsigned`; no effect
with an option that excludes `--unsigned`";

pub const SUMMARY: &str = "\
Writes the last block alone, which contains the
counts; not with `--diff`; no effect with
`--list-names`";

pub const PROTOCOL: &str = "\
Reads a trace that begins among blocks of T=1; not
with `--tpdu`; no effect on a
log";

pub const EDC: &str = "\
Sets the error detection code of the blocks of
`--protocol`, LRC without it; needs `--protocol`; no
effect with `--tpdu` or on a
log";

pub const TPDU: &str = "\
Reads a log of whole TPDUs or APDUs, as programs of
PC/SC write them; not with `--resume`, `--unsigned`
or `--protocol`";

/// What the program reads and prints.
pub const TRACE: &str = "\
The trace is on standard input or in the files, in lines as `card_trace
play` prints them:

  > HEX    characters of the terminal
  < HEX    characters of the card, or `<` alone for none
  reset    the card was reset

HEX is two digits for each byte, in either case, with or without spaces between
bytes. Right behind a byte there may be a comma, or a colon and the next byte,
and `0x` before each. In place of `>` and `<` the lines may have other signs:
`>>` and `<<`, `->` and `<-`, `=>` and `<=`, `TX` and `RX`, `TX:` and `RX:`,
`Tx:` and `Rx:`, `T:` and `C:`, `IFD` and `ICC`, `IFD:` and `ICC:`, or `TX -`
and `RX -`. All lines have the form of the first sign. `--form` sets it before,
by the terminal's sign, or by the names `angle`, `angles`, `arrow`, `double` and
`QXDM`. The other forms are logs of whole TPDUs or APDUs, and exclude
`--resume`; with `--tpdu` a form of signs has whole ones, too. Without an option
about lines, the program tries each form on at most 256 lines. It takes the one
that reads most of them without a fault, and names a log's form on standard
error.

Several files are one trace. Its boxes then have a row `file`, and a fault
begins as `FILE line 12`, with the number of the line in that file. The program
reads all of them before it explains.

A time may precede a sign or `reset`, with a space after it. It is the time of
day, as `12:34:56.789`, perhaps behind a date as `2026-11-27` or `Nov 27`;
seconds, as `[0.001234]`; the time since the line before, as `+0.5 ms`, `us` or
`s`; or a count of microseconds. A host and a program may follow, as `host
program[123]: ` in a syslog. A TPDU shows the time of the line in which it
begins, and how much later that is than for the last TPDU.

Every other line is a note, and is shown after `| `. A note within a TPDU is
shown before it. But a line that begins with a sign and can't be read is a
fault. So are digits alone, with no space before them, if no line before has a
sign and `--form` is missing. An empty line is skipped. A trace has at most 2^40
bytes, and a line at most 4,194,304.

At the start of the trace, and after a reset, a first character `3B`, `3F` or
`03` of the card begins an answer to reset. After an answer, `FF` of the
terminal begins a PPS request. Both are shown with their meaning, or with what
is wrong and where. If an answer offers neither T=0 nor T=1 first, a hint says
that the program reads these only. Other characters of the card before the
dialogue are shown as such. An answer that begins between two TPDUs at T=0 is
shown, too: the card was reset there, though no line says so.

After an answer and PPS that lead to T=1, bytes are read as blocks up to the
next line `reset`, with LRC or CRC as the answer says. A command is shown when
its response is whole, with its blocks: `I(0) 16, more` is an I-block with N(S)
0 and 16 bytes, and more of its chain follow. Repeated, damaged and missing
blocks are marked and counted, and are no protocol errors. A command that is not
short is one. Without signs, each end sends a block in turn. With `--protocol
t1` the trace begins among blocks with the code of `--edc`, up to a line
`reset`; from there on each answer decides. `wrong LRC (a CRC fits)` shows that
these blocks have CRC.

A byte is unexpected if no dialogue continues with it. The program prints its
line and place, counted from 1, the byte, and what was expected; then it stops.
With `--resume` it skips what follows, up to the next line `reset`, or the next
line `> HEX` of exactly five characters, which it takes for a header. That may
be the line of the byte itself. It prints which lines it skipped.

With `--unsigned` lines of digits alone are characters of either end, as in a
log of a line with one wire. A time may precede them, but not a count, which
is digits too. The dialogue shows who sent each character, and the class and
INS show which way the data go. `--to-card` and `--from-card` set that for
other instructions, or change it. If nothing shows who sent a character, the
program prints its line and place, and stops. The trace begins with an answer
to reset or a header, also after a line `reset`. An answer whose first
character is `3B` or `3F` may begin after each TPDU. With `--resume` the
program continues only at a line `reset`.

With `--tpdu` the lines are a log of whole TPDUs or APDUs, and an answer follows
each command. They have the form of `--form`. Without it they are `> HEX` and `<
HEX`, as `gt_pcsc -v` and `scriptor` write them, with `reset` or `> RESET`;
`APDU: HEX` and `SW: HEX` of `pcscd --apdu`, with or without colours; and the
dumps of OpenSC, as of `opensc-tool -vvv`. A command without an answer is shown
as cut off, and an answer without a command as before one. A command that is not
short, and an answer without SW1-SW2 at its end, are protocol errors: the
program shows what is wrong, and continues. Every other line is a note, but one
that begins as one of these and can't be read is a fault. So are characters of
T=0, with INS before data.

After the digits of an object its name follows, if the program knows it. So does
its value in words: a date, a number, or what its bits mean. No word is beside a
hidden value. `--list-names` prints the rows of tags, application identifiers
and bits. `--names-file` adds rows in the same form, which precede those of the
program. Lines with such words may be longer than 100 columns.

With `--mask` the data of VERIFY, CHANGE REFERENCE DATA, DISABLE and ENABLE
VERIFICATION REQUIREMENT, RESET RETRY COUNTER and PUT KEY are shown as `**`. So
are objects with the given tags, which commas separate, and all data that may be
part of one: data that are not a list of objects, and parts of a response, a
chain or a file. Notes, unexpected bytes, characters before a header, parts of a
header, and invalid answers may contain any of it, so they are always shown as
`**`. So are a header and its data, if such characters or an unexpected byte
precede it, or an unexpected byte ends it; and data of ENVELOPE that may contain
reference data. With `--resume` the program then continues only at a line
`reset`.

With `--commands` the TPDUs of a command are joined: its repeat after `6CXX`,
each GET RESPONSE after `61XX` or `9FXX` of a SIM card, and the pieces of a
chain. After the last one a line shows the command, its last status, and how
many bytes of a response, or else of data sent, moved in how many TPDUs. A reset
or a protocol error ends a command. On a page a box that folds has its TPDUs.

With `--json` each line is one object: `tpdu`, `reset`, `atr`, `pps`, `note`,
`error`, and at the end `summary`. With `--commands` the TPDUs are in objects
`command`, with the notes between them. What `--mask` hides is `null`, and its
object has `\"masked\": true`.

With `--diff` the traces of two files are compared, TPDU by TPDU, and standard
input is not read. Headers, data with their direction, and statuses are
compared, but not procedure bytes, or what is between TPDUs. The first TPDU that
differs is shown from both traces. Hidden data are compared, too. With `--html`
both sides are on one page.

The last block counts TPDUs, commands by name, statuses other than `9000`,
protocol errors, and answers to reset at fault. If lines have times, it shows
how long all took. On a page it links to statuses, errors and these answers.

A TPDU that a reset or the end of the trace cuts off is shown as far as it came,
and is no fault. A trace without a character of either end, such as an empty
one, is a fault. So is one with notes, but without a whole TPDU, answer to reset
or PPS: its lines may have a form that the program can't read. So is one whose
blocks of T=1 are all invalid.

The exit status is 0 if the program explained the whole trace and found no
protocol error, or if nobody reads the output any more. It is 1 after a fault or
a protocol error, and 2 if the command line is refused, as for an option that is
given twice. For a comparison it is 0 if the traces are alike, and 1 if they
differ.

Example:

  card_trace play < examples/read.play | trace_explain
  card_trace play < examples/read.play | trace_explain --html > read.html";

/// The error for a word that is not UTF-8, in the form of the errors of `clap`.
pub const NO_UTF_8: &str = "\
error: invalid UTF-8 was detected in one or more arguments

Usage: trace_explain [OPTIONS] [FILE]...

For more information, try '--help'.
";
