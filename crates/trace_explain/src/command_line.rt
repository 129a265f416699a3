//! The command line.

use crate::describe::mask::{Mask, TagsFault};
use crate::follow::blocks::edc_of;
use crate::help;
use crate::read::reading::Options;
use crate::read::ways::Ways;
use crate::write::layout::{Layout, Medium};
use clap::builder::ValueParser;
use clap::error::ErrorKind;
use clap::{Arg, ArgAction, ArgMatches, Command, Error};
use std::alloc::{AllocError, Global};
use t0_core::Direction;
use t1_core::Edc;

/// What the command line asks for.
#[derive(Drop)]
pub struct Request<'a> {
    /// The layout of the explanation.
    pub layout: Layout,
    /// The title of a page, if it is not that of the program.
    pub title: Option<&'a str>,
    /// What is hidden.
    pub mask: Mask,
    /// Whether it continues after an unexpected byte.
    pub resumes: bool,
    /// How the lines of each trace are read.
    pub options: Options<'a>,
    /// The paths of the trace's files, in turn; none for standard input.
    pub paths: Vec<&'a str>,
    /// The paths of two traces, A and B, if two are compared.
    pub compared: Option<(&'a str, &'a str)>,
    /// The path of a file with names.
    pub names: Option<&'a str>,
    /// Whether it lists the names in place of an explanation.
    pub lists_names: bool,
}

impl<'a> Request<'a> {
    /// The path of the trace's file, `-` for standard input. `None` if it has several files.
    pub fn path(&self) -> Option<&'a str> {
        match self.paths.as_slice() {
            [] => Some("-"),
            [path] => Some(*path),
            _ => None,
        }
    }
}

/// Parses the command line. Its first word is the program's name. `forms` are the names of forms.
///
/// # Errors
///
/// That of the parser: help or the version is asked for, a word is wrong, or memory ran out. An
/// invalid value of `--mask`, `--to-card` or `--from-card` is a wrong word.
pub fn parsed<'a>(
    alloc: Global,
    words: &'a [String],
    forms: &'a [&'a str],
) -> Result<Request<'a>, Error> {
    let matches = command(alloc, forms)?.try_get_matches_from(words)?;
    requested(alloc, &matches)
}

/// What these matches ask for.
fn requested<'a>(alloc: Global, matches: &ArgMatches<'a>) -> Result<Request<'a>, Error> {
    let ways = ways(alloc, matches)?;
    let mask = mask(alloc, matches)?;
    let medium = match (matches.get_flag("html"), matches.get_flag("json")) {
        (true, _) => Medium::Html,
        (_, true) => Medium::Json,
        _ => Medium::Text,
    };
    let layout = Layout {
        medium,
        is_summary: matches.get_flag("summary"),
        joins: matches.get_flag("commands"),
    };
    let mut paths = Vec::new(alloc);
    paths.extend_from_slice(matches.get_strs("FILE").unwrap_or(&[]))?;
    Ok(Request {
        mask,
        options: Options {
            form: matches.get_str("form"),
            file: matches.get_str("form-file"),
            swaps: matches.get_flag("swap"),
            is_unsigned: matches.get_flag("unsigned"),
            ways,
            of_tpdus: matches.get_flag("tpdu"),
            first_edc: first_edc(matches),
        },
        layout,
        title: matches.get_str("title"),
        resumes: matches.get_flag("resume"),
        compared: match matches.get_strs("diff") {
            Some([a, b]) => Some((*a, *b)),
            _ => None,
        },
        paths,
        names: matches.get_str("names-file"),
        lists_names: matches.get_flag("list-names"),
    })
}

/// The error detection code of the blocks among which the trace begins, if it does.
fn first_edc(matches: &ArgMatches<'_>) -> Option<Edc> {
    matches.get_str("protocol")?;
    Some(edc_of(matches.get_str("edc") == Some("crc")))
}

/// What is hidden. The error says what is wrong with the tags.
fn mask(alloc: Global, matches: &ArgMatches<'_>) -> Result<Mask, Error> {
    if !matches.contains_id("mask") {
        return Ok(Mask::none(alloc));
    }
    let tags = matches.get_str("mask").unwrap_or("");
    match Mask::of(alloc, tags) {
        Ok(mask) => Ok(mask),
        Err(TagsFault::OutOfMemory) => Err(Error::from(AllocError)),
        Err(TagsFault::Form) => {
            let text = format!(in alloc;
                "invalid value '{tags}' for '--mask [<TAGS>]': not tags of one to three bytes \
                 with commas between them (a file precedes `--mask`)"
            )?;
            Err(invalid(alloc, text.as_str())?)
        }
    }
}

/// The ways of instructions that the options give. The error says what is wrong.
fn ways(alloc: Global, matches: &ArgMatches<'_>) -> Result<Ways, Error> {
    let mut ways = Ways::none();
    let options = [
        ("to-card", Direction::ToCard),
        ("from-card", Direction::FromCard),
    ];
    for (name, way) in options {
        if let Some(words) = matches.get_str(name)
            && let Err(why) = ways.give(way, words)
        {
            let text = format!(in alloc; "invalid value '{words}' for '--{name} <INS>': {why}")?;
            return Err(invalid(alloc, text.as_str())?);
        }
    }
    Ok(ways)
}

/// The error of an option's invalid value.
fn invalid(alloc: Global, text: &str) -> Result<Error, AllocError> {
    command(alloc, &[])?.error(ErrorKind::ValueValidation, text)
}

/// The program with its options. `--form` takes the names in `forms`.
fn command<'a>(alloc: Global, forms: &'a [&'a str]) -> Result<Command<'a>, AllocError> {
    Command::new(alloc, "trace_explain")
        .version(help::VERSION)
        .about(help::PROGRAM)
        .after_help(help::TRACE)
        .args(options(alloc, forms)?)
}

/// The files and the options.
fn options<'a>(alloc: Global, forms: &'a [&'a str]) -> Result<Vec<Arg<'a>>, AllocError> {
    let mut options = Vec::new(alloc);
    let files = Arg::new(alloc, "FILE").action(ArgAction::Append);
    options.push(files.num_args(0..).help(help::FILE))?;
    for row in &OPTIONS {
        options.push(option(alloc, row, forms)?)?;
    }
    Ok(options)
}

/// An option's name, its help, and what it takes.
struct Row(&'static str, &'static str, Takes);

/// What an option takes.
#[derive(Clone, Copy)]
enum Takes {
    Nothing,
    /// A value with each of these names.
    Values(&'static [&'static str]),
    /// A value with this name, or nothing.
    Perhaps(&'static [&'static str]),
    /// The name of a form.
    Form,
    /// A value with this name, which is one of these.
    One(&'static [&'static str], &'static [&'static str]),
}

/// The options, in the order of the help.
static OPTIONS: [Row; 19] = [
    Row("diff", help::DIFF, Takes::Values(&["A", "B"])),
    Row("html", help::HTML, Takes::Nothing),
    Row("title", help::TITLE, Takes::Values(&["TEXT"])),
    Row("json", help::JSON, Takes::Nothing),
    Row("commands", help::COMMANDS, Takes::Nothing),
    Row("mask", help::MASK, Takes::Perhaps(&["TAGS"])),
    Row("resume", help::RESUME, Takes::Nothing),
    Row("form", help::FORM, Takes::Form),
    Row("form-file", help::FORM_FILE, Takes::Values(&["FILE"])),
    Row("names-file", help::NAMES_FILE, Takes::Values(&["FILE"])),
    Row("list-names", help::LIST_NAMES, Takes::Nothing),
    Row("swap", help::SWAP, Takes::Nothing),
    Row("unsigned", help::UNSIGNED, Takes::Nothing),
    Row("to-card", help::TO_CARD, Takes::Values(&["INS"])),
    Row("from-card", help::FROM_CARD, Takes::Values(&["INS"])),
    Row("summary", help::SUMMARY, Takes::Nothing),
    Row("protocol", help::PROTOCOL, Takes::One(&["T"], &["t1"])),
    Row("edc", help::EDC, Takes::One(&["EDC"], &["lrc", "crc"])),
    Row("tpdu", help::TPDU, Takes::Nothing),
];

/// An option's name, the options that it needs, and those that it excludes.
struct Rule(
    &'static str,
    &'static [&'static str],
    &'static [&'static str],
);

/// What options need and exclude.
static RULES: [Rule; 10] = [
    Rule("diff", &[], &["json", "commands", "summary", "FILE"]),
    Rule("html", &[], &["json"]),
    Rule("title", &["html"], &[]),
    Rule("form-file", &[], &["form", "unsigned"]),
    Rule("unsigned", &[], &["form", "swap"]),
    Rule("to-card", &["unsigned"], &[]),
    Rule("from-card", &["unsigned"], &[]),
    Rule("protocol", &[], &["tpdu"]),
    Rule("edc", &["protocol"], &[]),
    Rule("tpdu", &[], &["resume", "unsigned"]),
];

/// The rule of each other option.
static NO_RULE: Rule = Rule("", &[], &[]);

/// The option of a row. `--form` takes the names in `forms`.
fn option<'a>(
    alloc: Global,
    row: &'static Row,
    forms: &'a [&'a str],
) -> Result<Arg<'a>, AllocError> {
    let Row(name, help, takes) = row;
    let (action, names, least, parser) = taken(*takes, forms);
    let found = RULES.iter().find(|rule| rule.0 == *name);
    let Rule(_, needs, excludes) = found.unwrap_or(&NO_RULE);
    Arg::new(alloc, name)
        .long(name)
        .help(help)
        .action(action)
        .value_names(names)
        .num_args(least..=names.len())
        .value_parser(parser)
        .hide_possible_values(matches!(takes, Takes::Form))
        .requires_all(needs)?
        .conflicts_with_all(excludes)
}

/// What an option does with its values, their names, their least number, and how each is read.
fn taken<'a>(
    takes: Takes,
    forms: &'a [&'a str],
) -> (ArgAction, &'static [&'static str], usize, ValueParser<'a>) {
    match takes {
        Takes::Nothing => (ArgAction::SetTrue, &[], 0, ValueParser::Bool),
        Takes::Values(names) => (ArgAction::Set, names, names.len(), ValueParser::String),
        Takes::Perhaps(name) => (ArgAction::Set, name, 0, ValueParser::String),
        Takes::Form => (ArgAction::Set, &["FORM"], 1, ValueParser::Names(forms)),
        Takes::One(name, all) => (ArgAction::Set, name, 1, ValueParser::Names(all)),
    }
}
