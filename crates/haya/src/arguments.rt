//! The words of the process, as what is asked.
use crate::asking::Words;
use crate::help::{ABOUT, AFTER};
use crate::lists::List;
use clap::parser::ValueSource;
use clap::{Arg, ArgAction, ArgMatches, Command, Error};
use haya_asked::Questions;
use haya_command::{Form, Options, SourceForm};
use haya_csl::ItemKey;
use haya_formats::Format;
use haya_questions::Table;
use std::alloc::{AllocError, Global};

/// What the process is asked for.
#[derive(Drop)]
pub enum Request {
    /// The entries that a selector picks.
    Ask(Arguments),
    /// The names that a selector or an option takes.
    List(List),
}

/// What is asked, and how the input is read.
#[derive(Drop)]
pub struct Arguments {
    /// What is asked, and how it is answered, but for what the words ask of the hits.
    pub options: Options,
    /// What the words ask of the hits.
    pub words: Words,
    /// Whether each entry is asked as soon as it is read, and let go.
    pub stream: bool,
}

/// What the words ask for, the first of which is the program's own name. The error is help, the
/// version or what is wrong.
pub fn request_of(alloc: Global, words: &[String]) -> Result<Request, Error> {
    let command = command(alloc)?;
    let matches = command.try_get_matches_from(words)?;
    if let Some(list) = list_in(&matches) {
        return Ok(Request::List(list));
    }
    Ok(Request::Ask(Arguments {
        options: options_in(alloc, &matches)?,
        words: words_in(alloc, &matches)?,
        stream: matches.get_flag("stream"),
    }))
}

// The names that options take as values: those of each enum's `ALL`, in order.
const FORMATS: [&str; 6] = [
    "hayagriva",
    "yaml",
    "bibtex",
    "csl-json",
    "json-lines",
    "lines",
];

const KEYS: [&str; 2] = ["citation-key", "id"];

const FORMS: [&str; 9] = [
    "keys",
    "lines",
    "hayagriva",
    "yaml",
    "json-lines",
    "source",
    "csl-json",
    "csv",
    "tsv",
];

const LISTS: [&str; 3] = ["types", "fields", "formats"];

// All arguments.
fn command<'a>(alloc: Global) -> Result<Command<'a>, AllocError> {
    let command = Command::new(alloc, "haya")
        .version("0.1.0")
        .about(ABOUT)
        .after_help(AFTER)
        .arg(selector(alloc))?
        .arg(files(alloc))?
        .arg(tests(alloc))?;
    let asking = with_order(alloc, command)?;
    let reading = asking.arg(max(alloc))?.arg(from(alloc))?.arg(key(alloc))?;
    let printing = with_forms(alloc, reading)?;
    with_flags(alloc, printing)?
        .arg(strict(alloc))?
        .arg(list(alloc))
}

// With those of the order of the entries, and of entries that have the same values.
fn with_order<'a>(alloc: Global, command: Command<'a>) -> Result<Command<'a>, AllocError> {
    command
        .arg(listed(
            alloc,
            "sort",
            "KEY[,KEY..]",
            "Sort the entries by these places; with - in front of one, the other way round",
        ))?
        .arg(listed(
            alloc,
            "unique",
            "PLACE[,PLACE..]",
            "Of entries that have the same values there, print the first alone",
        )
        .conflicts_with("duplicates")?)?
        .arg(listed(
            alloc,
            "duplicates",
            "PLACE[,PLACE..]",
            "Print the entries alone that share their values there with others",
        ))
}

// With those of what is printed of the entries.
fn with_forms<'a>(alloc: Global, command: Command<'a>) -> Result<Command<'a>, AllocError> {
    command
        .arg(to(alloc))?
        .arg(listed(
            alloc,
            "columns",
            "PLACE[,PLACE..]",
            "The columns of csv and tsv; without --to, of tsv [default: key,type,author,date,title]",
        ))?
        .arg(no_header(alloc))?
        .arg(flag(alloc, "count", 'c', "Print the number of entries alone"))
}

// With those that are there or not.
fn with_flags<'a>(alloc: Global, command: Command<'a>) -> Result<Command<'a>, AllocError> {
    command
        .arg(flag(
            alloc,
            "quiet",
            'q',
            "Print nothing, neither notes nor faults, but what is wrong with the options",
        ))?
        .arg(flag(
            alloc,
            "no-notes",
            'N',
            "Tell faults alone, and not what is passed over",
        ))?
        .arg(flag(
            alloc,
            "invert",
            'v',
            "Print the entries that it doesn't pick",
        ))?
        .arg(flag(
            alloc,
            "stream",
            's',
            "Ask each entry as it is read: in little memory, keys that come again not looked for",
        ))
}

// The selector.
fn selector<'a>(alloc: Global) -> Arg<'a> {
    Arg::new(alloc, "selector")
        .value_name("SELECTOR")
        .required(true)
        .action(ArgAction::Set)
        .help("Which entries are meant, as 'article[doi] > periodical'")
}

// The files behind it.
fn files<'a>(alloc: Global) -> Arg<'a> {
    Arg::new(alloc, "files")
        .value_name("FILE")
        .action(ArgAction::Append)
        .num_args(0..)
        .help("The library's files, in order; standard input for '-' or without a file")
}

// The tests.
fn tests<'a>(alloc: Global) -> Arg<'a> {
    Arg::new(alloc, "where")
        .short('w')
        .long("where")
        .value_name("TEST")
        .action(ArgAction::Append)
        .help("Print the entries alone that pass: 'date >= 2010', 'p.title ~ nature'; repeatable")
}

// An option that takes a list.
fn listed<'a>(alloc: Global, name: &'a str, value: &'a str, help: &'a str) -> Arg<'a> {
    Arg::new(alloc, name)
        .long(name)
        .value_name(value)
        .allow_hyphen_values(true)
        .help(help)
}

// How many entries are printed at most.
fn max<'a>(alloc: Global) -> Arg<'a> {
    Arg::new(alloc, "max")
        .short('n')
        .long("max")
        .value_name("N")
        .help("Print the first N entries at most")
}

// Whether a table has no names of columns.
fn no_header<'a>(alloc: Global) -> Arg<'a> {
    Arg::new(alloc, "no-header")
        .long("no-header")
        .action(ArgAction::SetTrue)
        .help("Leave the line of names out of csv and tsv")
}

// The format of the input.
fn from<'a>(alloc: Global) -> Arg<'a> {
    choice(alloc, "from", "FORMAT", &FORMATS).short('f').help(
        "The input's format; left out, each file's is guessed from its first bytes",
    )
}

// The key of an item.
fn key<'a>(alloc: Global) -> Arg<'a> {
    choice(alloc, "key", "MEMBER", &KEYS)
        .default_value("citation-key")
        .help("The member of an item of CSL-JSON that is its key; id where it has no citation-key")
}

// The form of what is printed.
fn to<'a>(alloc: Global) -> Arg<'a> {
    choice(alloc, "to", "FORM", &FORMS)
        .short('t')
        .default_value("keys")
        .help("The form in which the entries are printed")
}

// What is listed.
fn list<'a>(alloc: Global) -> Arg<'a> {
    choice(alloc, "list", "WHAT", &LISTS).exclusive(true).help(
        "Print the types or the names that a selector knows, or the formats",
    )
}

// An option that takes one of these values.
fn choice<'a>(alloc: Global, name: &'a str, value: &'a str, values: &'a [&'a str]) -> Arg<'a> {
    Arg::new(alloc, name)
        .long(name)
        .value_name(value)
        .value_parser(values)
}

// An option without a value.
fn flag<'a>(alloc: Global, name: &'a str, short: char, help: &'a str) -> Arg<'a> {
    Arg::new(alloc, name)
        .short(short)
        .long(name)
        .action(ArgAction::SetTrue)
        .help(help)
}

// The same without a short name.
fn strict<'a>(alloc: Global) -> Arg<'a> {
    Arg::new(alloc, "strict")
        .long("strict")
        .action(ArgAction::SetTrue)
        .help("Take what would be passed over for a fault")
}

// What the arguments say.
fn options_in(alloc: Global, matches: &ArgMatches<'_>) -> Result<Options, AllocError> {
    Ok(Options {
        selector: String::from_str(alloc, matches.get_str("selector").unwrap_or(""))?,
        from: format_in(matches),
        key: key_in(matches),
        questions: Questions::none(alloc),
        to: form_in(matches),
        columns: None,
        source: source_in(matches),
        count: matches.get_flag("count"),
        quiet: matches.get_flag("quiet"),
        invert: matches.get_flag("invert"),
        strict: matches.get_flag("strict"),
        notes: !matches.get_flag("no-notes"),
        files: files_in(alloc, matches)?,
    })
}

// What the words ask of the hits.
fn words_in(alloc: Global, matches: &ArgMatches<'_>) -> Result<Words, AllocError> {
    Ok(Words {
        tests: texts_in(alloc, matches, "where")?,
        sort: text_in(alloc, matches, "sort")?,
        unique: text_in(alloc, matches, "unique")?,
        duplicates: text_in(alloc, matches, "duplicates")?,
        max: text_in(alloc, matches, "max")?,
        columns: text_in(alloc, matches, "columns")?,
        table: table_in(matches),
        has_header: !matches.get_flag("no-header"),
    })
}

// The text of an option, where it is given.
fn text_in(
    alloc: Global,
    matches: &ArgMatches<'_>,
    name: &str,
) -> Result<Option<String>, AllocError> {
    match matches.get_str(name) {
        Some(text) => Ok(Some(String::from_str(alloc, text)?)),
        None => Ok(None),
    }
}

// The table that is asked for by name, or that columns are asked for and no form.
fn table_in(matches: &ArgMatches<'_>) -> Option<Table> {
    match matches.get_str("to") {
        Some("csv") => Some(Table::Csv),
        Some("tsv") => Some(Table::Tsv),
        _
            if matches.contains_id("columns")
                && matches.value_source("to") != Some(ValueSource::CommandLine) => {
            Some(Table::Tsv)
        }
        _ => None,
    }
}

// The files that are given.
fn files_in(alloc: Global, matches: &ArgMatches<'_>) -> Result<Vec<String>, AllocError> {
    texts_in(alloc, matches, "files")
}

// The texts of an argument that may be given again.
fn texts_in(
    alloc: Global,
    matches: &ArgMatches<'_>,
    name: &str,
) -> Result<Vec<String>, AllocError> {
    let mut texts = Vec::new(alloc);
    let Some(given) = matches.get_strs(name) else {
        return Ok(texts);
    };
    for text in given {
        texts.push(String::from_str(alloc, text)?)?;
    }
    Ok(texts)
}

// The format that is given.
fn format_in(matches: &ArgMatches<'_>) -> Option<Format> {
    Format::named(matches.get_str("from")?)
}

// The member that is given.
fn key_in(matches: &ArgMatches<'_>) -> ItemKey {
    match matches.get_str("key") {
        Some("id") => ItemKey::Id,
        _ => ItemKey::CitationKey,
    }
}

// The form that is given.
fn form_in(matches: &ArgMatches<'_>) -> Form {
    match matches.get_str("to") {
        Some(name) => Form::named(name).unwrap_or(Form::Keys),
        None => Form::Keys,
    }
}

// The form that is given, where entries are printed as their input has them.
fn source_in(matches: &ArgMatches<'_>) -> Option<SourceForm> {
    SourceForm::named(matches.get_str("to")?)
}

// What is to be listed.
fn list_in(matches: &ArgMatches<'_>) -> Option<List> {
    List::named(matches.get_str("list")?)
}
