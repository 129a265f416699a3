//! The texts of `--help` and `--version`, and the message about words that are not UTF-8.

/// What `--version` prints after the program's name.
pub const VERSION: &str = "0.3.0";

/// What the program does.
pub const PROGRAM: &str = "Plays scripts of a terminal and a smart card that talk T=0";

/// The text after the list of subcommands.
pub const PROGRAM_EXAMPLE: &str = "\
A script is read from standard input; `card_trace play --help` and
`card_trace card --help` list its lines.

A fault is printed on standard error, in one line. The exit status is 0 after
success, whatever the card answered, 1 after a fault, and 2 if the words of the
command line are refused.

Example:

  printf '%s\\n' 'app A0000000031010' 'object 5F20 4A4F45' \\
    'select A0000000031010' 'get 5F20' | card_trace play";

/// What `play` does.
pub const PLAY: &str = "Runs a script of operations, and prints characters and answers";

/// The lines of a script of `play`, and what the program prints.
pub const PLAY_SCRIPT: &str = "\
The script is read from standard input. Its first lines say what the card holds:

  app HEX            an application with this identifier, of 5 to 16 bytes
  object TAG VALUE   a data object of the application above
  locked TAG VALUE   the same, but no command changes it

The lines after them are carried out in order:

  select HEX         selects the application
  get TAG            reads a data object
  put TAG VALUE      stores a data object
  send HEX           sends one command, of the case that goes with its INS
  plan STEPS CUT     how the card answers one TPDU of the next operation or send
  reset              resets the card, and prints `reset`
  table              prints what the card holds

HEX is one or more pairs of hexadecimal digits. TAG is one byte, 40 to FE except
5F, 7F, 9F, BF and DF, or two bytes: one of these or FF, then 01 to 7F. VALUE is
HEX, `-` for no bytes, or HH*N for N times the byte HH, where N is 1 to 65,535.
STEPS is `-` for none, or letters: n (a NULL), o (one byte), a (all bytes that
are left). CUT, 1 to 256, is the most bytes that the card announces at a time.
The first word of a line and STEPS are in lower case, digits in either case.
Words are separated by spaces; a tab is no space. Empty lines, and lines that
start with #, are passed over.

A script has at most 1,048,576 bytes, a card 8 applications, each of them 64
objects, and a value 8,192 bytes. A `put` line takes values of up to 16,320
bytes; the card refuses one that is too long for it.

Characters of the terminal are printed after `> `, those of the card after `< `,
and each answer after `= `, its status first. `! card busy` means that an
operation did not begin, because a chain of `send` is pending.

A refused line ends the script, and `line N: reason` is printed on standard
error. The exit status is 0 if the script was carried out to its end, whatever
the card answered, 1 after a fault, and 2 if the words of the command line are
refused.

Example:

  app A0000000031010
  object 5F20 4A4F45
  select A0000000031010
  get 5F20";

/// What `card` does.
pub const CARD: &str = "Sends characters to the card alone, and prints what the card sends";

/// The lines of a script of `card`, and what the program prints.
pub const CARD_SCRIPT: &str = "\
The script is read from standard input. Its first lines say what the card holds:

  app HEX            an application with this identifier, of 5 to 16 bytes
  object TAG VALUE   a data object of the application above
  locked TAG VALUE   the same, but no command changes it
  plan STEPS CUT     how the card answers one TPDU; TPDUs take the plans in
                     order, over resets too
  atr HEX            the answer to reset, which the card sends at the start and
                     after each reset, before it listens

The lines after them are carried out in order:

  > HEX              sends these characters to the card
  <                  prints the characters that the card sends, until it listens
  < N                the same, but at most N of them, 1 to 65,535
  reset              resets the card, and prints `reset`
  table              prints what the card holds

HEX is one or more pairs of hexadecimal digits. TAG is one byte, 40 to FE except
5F, 7F, 9F, BF and DF, or two bytes: one of these or FF, then 01 to 7F. VALUE is
HEX, `-` for no bytes, or HH*N for N times the byte HH, where N is 1 to 65,535.
STEPS is `-` for none, or letters: n (a NULL), o (one byte), a (all bytes that
are left). CUT, 1 to 256, is the most bytes that the card announces at a time.
The first word of a line and STEPS are in lower case, digits in either case.
Words are separated by spaces; a tab is no space. Empty lines, and lines that
start with #, are passed over.

A script has at most 1,048,576 bytes, a card 8 applications, each of them 64
objects, and a value 8,192 bytes.

Characters of the card are printed after `< `; `<` alone means that it sends
none. `! not listening` means that the card refused a character, and that the
rest of its line was dropped.

A refused line ends the script, and `line N: reason` is printed on standard
error. The exit status is 0 if the script was carried out to its end, whatever
the card answered, 1 after a fault, and 2 if the words of the command line are
refused.

Example:

  app A0000000031010
  object 5F20 4A4F45
  > 00A4040007
  <
  > A0000000031010
  <";

/// What `objects` does.
pub const OBJECTS: &str = "Prints data objects as a tree";

/// What the tree looks like, with an example.
pub const OBJECTS_EXAMPLE: &str = "\
Each object is a line: two spaces for each level below the first, its tag, and
unless it is a template its value, or `-` for no bytes. If the bytes are no list
of objects, the first fault and its place are printed on standard error, as
`ValueCut at 0`, and the exit status is 1.

Example:

  card_trace objects 6F098407A0000000031010

prints

  6F
    84 A0000000031010";

/// The argument of `objects`.
pub const HEX: &str = "The bytes of the objects, as pairs of hexadecimal digits";

/// The message if a word is not UTF-8, in the form that `clap` gives to mistakes.
pub const NO_UTF_8: &str = "\
error: invalid UTF-8 was detected in one or more arguments

Usage: card_trace <COMMAND>

For more information, try '--help'.
";
