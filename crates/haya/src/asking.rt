//! The words that ask of the hits of the selector.
use haya_asked::{Columns, Questions, Repeats, parse_places, parse_sort_keys};
use haya_command::{CommandError, Options, check_names};
use haya_questions::{Place, SortKey, Table, Test};
use std::alloc::Global;

// The columns of a table where none are asked for.
const COLUMNS: &str = "key,type,author,date,title";

/// What the words ask of the hits, as they are given.
#[derive(Drop)]
pub struct Words {
    /// The tests.
    pub tests: Vec<String>,
    /// The keys of the sort.
    pub sort: Option<String>,
    /// The places whose values are to come once.
    pub unique: Option<String>,
    /// The places whose values have to come again.
    pub duplicates: Option<String>,
    /// How many hits are wanted.
    pub max: Option<String>,
    /// The places of the columns.
    pub columns: Option<String>,
    /// The table in which hits are printed.
    pub table: Option<Table>,
    /// Whether a table has a row of the places' names.
    pub has_header: bool,
}

/// Reads the words into the options. The error is the first fault of them.
pub fn read_words(alloc: Global, words: &Words, options: &mut Options) -> Result<(), CommandError> {
    options.questions = questions_of(alloc, words)?;
    options.columns = columns_of(alloc, words)?;
    check_names(alloc, options)
}

fn questions_of(alloc: Global, words: &Words) -> Result<Questions, CommandError> {
    let mut questions = Questions::none(alloc);
    for text in &words.tests {
        questions.tests.push(test_of(alloc, text.as_str())?)?;
    }
    if let Some(text) = &words.sort {
        questions.keys = keys_of(alloc, text.as_str())?;
    }
    if let Some(text) = &words.unique {
        questions.repeats = Repeats::Dropped(places_of(alloc, text.as_str())?);
    }
    if let Some(text) = &words.duplicates {
        questions.repeats = Repeats::Alone(places_of(alloc, text.as_str())?);
    }
    if let Some(text) = &words.max {
        questions.max = Some(number_of(alloc, text.as_str())?);
    }
    Ok(questions)
}

// The table, where one is asked for.
fn columns_of(alloc: Global, words: &Words) -> Result<Option<Columns>, CommandError> {
    let Some(table) = words.table else {
        return match &words.columns {
            Some(_) => Err(CommandError::NoTable),
            None => Ok(None),
        };
    };
    let places = match &words.columns {
        Some(text) => places_of(alloc, text.as_str())?,
        None => places_of(alloc, COLUMNS)?,
    };
    Ok(Some(Columns {
        table,
        places,
        has_header: words.has_header,
    }))
}

// The test of a text.
fn test_of(alloc: Global, text: &str) -> Result<Test, CommandError> {
    match Test::parse(alloc, text) {
        Ok(test) => Ok(test),
        Err(error) => Err(CommandError::Test(String::from_str(alloc, text)?, error)),
    }
}

// The places of a text.
fn places_of(alloc: Global, text: &str) -> Result<Vec<Place>, CommandError> {
    match parse_places(alloc, text) {
        Ok(places) => Ok(places),
        Err(error) => Err(CommandError::Places(String::from_str(alloc, text)?, error)),
    }
}

// The keys of a text.
fn keys_of(alloc: Global, text: &str) -> Result<Vec<SortKey>, CommandError> {
    match parse_sort_keys(alloc, text) {
        Ok(keys) => Ok(keys),
        Err(error) => Err(CommandError::Places(String::from_str(alloc, text)?, error)),
    }
}

// The number of a text.
fn number_of(alloc: Global, text: &str) -> Result<usize, CommandError> {
    match text.parse::<usize>() {
        Ok(number) => Ok(number),
        Err(_) => Err(CommandError::NotANumber(String::from_str(alloc, text)?)),
    }
}
