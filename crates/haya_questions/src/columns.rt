//! Tables of values.
ghost use Rattle.std.specs.Prelude.{◌≡◌, ◌∷◌, ◌++◌, [], IfOk, OnOk, flat_map, if◌then◌else◌, map};
ghost use Rattle.std.specs.Prelude.{string_bytes};
ghost use Rattle.std.specs.List.{list_any};
ghost use Rattle.std.specs.Str.{chars};
ghost use Rattle.haya_questions.specs.Columns.{calls_for_quotes, cell, csv_cell, csv_char};
ghost use Rattle.haya_questions.specs.Columns.{csv_line, doubled};
ghost use Rattle.haya_questions.specs.Columns.{header, hit_row, joined, line, quote, row, rows};
ghost use Rattle.haya_questions.specs.Columns.{tsv_cell, tsv_char, tsv_line};
ghost use Rattle.haya_questions.specs.Place.{place_text, place_view};

use crate::at_place::values;
use crate::place::Place;
use haya_text::OutOfMemory;
use hayagriva::Hit;
use std::alloc::Global;

/// How a table is written.
#[derive(Clone, Copy, Debug, PartialEq, Eq)]
pub enum Table {
    /// Cells with commas between, as RFC 4180 says: one with a comma, a quote, a carriage return or
    /// a line feed is in quotes, and has each quote twice. A line ends with a line feed.
    Csv,
    /// Cells with tabs between, with `\t`, `\n`, `\r` and `\\` in the place of a tab, a line feed,
    /// a carriage return and a backslash.
    Tsv,
}

/// A table of hits: a row for each, with the values at each place, and before them a row of the
/// places' names where a header is wanted. The only error is out of memory.
pub fn columns_text(
    alloc: Global,
    hits: &[Hit],
    places: &[Place],
    table: Table,
    has_header: bool,
) -> Result<String, OutOfMemory>
    ensures { let names = map place_view places.now in IfOk result (λ text. string_bytes text
        ≡ (if has_header then header table names else []) ++ rows table names hits.now) }
{
    let mut text = String::new(alloc);
    if has_header {
        push_header(alloc, &mut text, places, table)?;
    }
    'hits: for hit in hits {
        push_columns(alloc, &mut text, hit, places, table)?;
    }
    Ok(text)
}

/// Puts the row of the places' names behind a text.
pub fn push_header(
    alloc: Global,
    text: &mut String,
    places: &[Place],
    table: Table,
) -> Result<(), OutOfMemory>
    ensures { OnOk result (string_bytes text.new
        ≡ string_bytes text.old ++ header table (map place_view places.now)) }
{
    let mut names = Vec::with_capacity(alloc, places.len())?;
    'places: for place in places {
        names.push(format!(in alloc; "{place}")?)?;
    }
    push_row(alloc, text, names.as_slice(), table)
}

/// Puts the row of a hit behind a text: for each place a cell, in which the values are joined by
/// `; `, as `columns_text` has it.
pub fn push_columns(
    alloc: Global,
    text: &mut String,
    hit: &Hit,
    places: &[Place],
    table: Table,
) -> Result<(), OutOfMemory>
    ensures { OnOk result (string_bytes text.new
        ≡ string_bytes text.old ++ hit_row table (map place_view places.now) hit.now) }
{
    let mut cells = Vec::with_capacity(alloc, places.len())?;
    'places: for place in places {
        cells.push(cell(alloc, hit, place)?)?;
    }
    push_row(alloc, text, cells.as_slice(), table)
}

// The values at a place, in one text.
#[tactic(auto, unfolding(crate::specs::Columns::cell))]
fn cell(alloc: Global, hit: &Hit, place: &Place) -> Result<String, OutOfMemory>
    ensures { IfOk result (λ text. string_bytes text ≡ cell hit.now (place_view place.now)) }
{
    let values = values(alloc, hit, place)?;
    joined(alloc, "; ", values.as_slice())
}

// The texts with a separator between each two.
fn joined(alloc: Global, separator: &str, texts: &[String]) -> Result<String, OutOfMemory>
    ensures { IfOk result (λ text. string_bytes text
        ≡ joined separator.now (map string_bytes texts.now)) }
{
    let mut text = String::new(alloc);
    if let Some((first, others)) = texts.split_first() {
        text.push_str(first.as_str())?;
        push_others(&mut text, separator, others)?;
    }
    Ok(text)
}

// Puts each text behind another, with a separator before it.
fn push_others(text: &mut String, separator: &str, others: &[String]) -> Result<(), OutOfMemory>
    ensures { OnOk result (string_bytes text.new ≡ string_bytes text.old
        ++ flat_map (λ t. separator.now ++ t) (map string_bytes others.now)) }
{
    'others: for other in others {
        text.push_str(separator)?;
        text.push_str(other.as_str())?;
    }
    Ok(())
}

// Puts the line of cells behind a text, and a line feed.
#[tactic(auto, unfolding(crate::specs::Columns::row))]
fn push_row(
    alloc: Global,
    text: &mut String,
    cells: &[String],
    table: Table,
) -> Result<(), OutOfMemory>
    ensures { OnOk result (string_bytes text.new
        ≡ string_bytes text.old ++ row table (map string_bytes cells.now)) }
{
    let line = line(alloc, cells, table)?;
    text.push_str(line.as_str())?;
    text.push('\n')?;
    Ok(())
}

// The line of cells.
fn line(alloc: Global, cells: &[String], table: Table) -> Result<String, OutOfMemory>
    ensures { IfOk result (λ text. string_bytes text
        ≡ line table (map string_bytes cells.now)) }
{
    match table {
        Table::Csv => csv_line(alloc, cells),
        Table::Tsv => tsv_line(alloc, cells),
    }
}

// The cells with commas between; one empty cell is two quotes.
fn csv_line(alloc: Global, cells: &[String]) -> Result<String, OutOfMemory>
    ensures { IfOk result (λ text. string_bytes text ≡ csv_line (map string_bytes cells.now)) }
{
    let mut quoted = Vec::with_capacity(alloc, cells.len())?;
    'cells: for cell in cells {
        quoted.push(csv_cell(alloc, cell.as_str())?)?;
    }
    let line = joined(alloc, ",", quoted.as_slice())?;
    if line.is_empty() {
        return Ok(String::from_str(alloc, "\"\"")?);
    }
    Ok(line)
}

// A cell of CSV: in quotes where it has a sign of a table.
fn csv_cell(alloc: Global, text: &str) -> Result<String, OutOfMemory>
    ensures { IfOk result (λ cell. string_bytes cell ≡ csv_cell text.now) }
{
    if !has_csv_sign(text) {
        return Ok(String::from_str(alloc, text)?);
    }
    let mut cell = String::from_str(alloc, "\"")?;
    push_doubled(&mut cell, text)?;
    cell.push('"')?;
    Ok(cell)
}

// Whether a cell with this text is in quotes.
fn has_csv_sign(text: &str) -> bool
    ensures { result ≡ list_any calls_for_quotes text.now }
{
    text.as_bytes().iter().any(|byte| calls_for_quotes(*byte))
}

fn calls_for_quotes(byte: u8) -> bool
    ensures { result ≡ calls_for_quotes byte }
{
    byte == b',' || byte == b'"' || byte == b'\r' || byte == b'\n'
}

// Puts a text behind another, with each quote twice.
fn push_doubled(cell: &mut String, text: &str) -> Result<(), OutOfMemory>
    ensures { OnOk result (string_bytes cell.new ≡ string_bytes cell.old ++ doubled text.now) }
{
    'characters: for c in text.chars() {
        push_csv_char(cell, c)?;
    }
    Ok(())
}

fn push_csv_char(cell: &mut String, c: char) -> Result<(), OutOfMemory>
    ensures { OnOk result (string_bytes cell.new ≡ string_bytes cell.old ++ csv_char c) }
{
    match c {
        '"' => cell.push_str("\"\"")?,
        _ => cell.push(c)?,
    }
    Ok(())
}

// The cells with tabs between.
fn tsv_line(alloc: Global, cells: &[String]) -> Result<String, OutOfMemory>
    ensures { IfOk result (λ text. string_bytes text ≡ tsv_line (map string_bytes cells.now)) }
{
    let mut escaped = Vec::with_capacity(alloc, cells.len())?;
    'cells: for cell in cells {
        escaped.push(tsv_cell(alloc, cell.as_str())?)?;
    }
    joined(alloc, "\t", escaped.as_slice())
}

// A cell of TSV.
fn tsv_cell(alloc: Global, text: &str) -> Result<String, OutOfMemory>
    ensures { IfOk result (λ cell. string_bytes cell ≡ tsv_cell text.now) }
{
    let mut cell = String::new(alloc);
    'characters: for c in text.chars() {
        push_tsv_char(&mut cell, c)?;
    }
    Ok(cell)
}

fn push_tsv_char(cell: &mut String, c: char) -> Result<(), OutOfMemory>
    ensures { OnOk result (string_bytes cell.new ≡ string_bytes cell.old ++ tsv_char c) }
{
    match c {
        '\t' => cell.push_str("\\t")?,
        '\n' => cell.push_str("\\n")?,
        '\r' => cell.push_str("\\r")?,
        '\\' => cell.push_str("\\\\")?,
        _ => cell.push(c)?,
    }
    Ok(())
}
