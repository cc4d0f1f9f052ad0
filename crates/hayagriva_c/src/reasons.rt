//! What is told of a text that is refused.
ghost use Rattle.std.specs.Prelude.{◌≡◌, ◌⊎◌, [], IfOk, map, string_bytes};
ghost use Rattle.haya_json.specs.Messages.{pointer};
ghost use Rattle.haya_json.specs.Refusal.{step_view};
ghost use Rattle.hayagriva_c.specs.Reasons.{IsToldOfBibtex, IsToldOfJson, IsToldOfJsonLine};
ghost use Rattle.hayagriva_c.specs.Reasons.{IsToldOfLine, IsToldOfSelector, IsToldOfYaml};
ghost use Rattle.hayagriva_c.specs.Reasons.{json_code, line_code, line_reason, place_of};
ghost use Rattle.hayagriva_c.specs.Reasons.{pointer_of, unknown_name};
ghost use Rattle.hayagriva_c.specs.Told.{IsMemoryTold, IsTold};

use crate::codes;
use crate::told::Told;
use haya_bibtex::BibtexReadError;
use haya_json::{JsonLineError, Position, ReadError, Step};
use haya_line_library::InputError;
use haya_lines::LineError;
use haya_text::OutOfMemory;
use haya_yaml_library::YamlReadError;
use hayagriva::SelectorError;
use std::alloc::Global;

/// Why a text in lines is no library.
pub fn of_input(alloc: Global, fault: InputError) -> Told
    ensures { IsToldOfLine fault result ⊎ IsMemoryTold result }
{
    match fault {
        InputError::Line(line, fault) => of_line(alloc, line, line_code(fault)),
        InputError::OutOfMemory => Told::memory(alloc),
    }
}

// A line has the fault of this code.
fn of_line(alloc: Global, line: usize, code: u32) -> Told
    ensures { IsTold code 0 line 0 [] [] (line_reason line code) result
        ⊎ IsMemoryTold result }
{
    let message = codes::message(code);
    let Ok(reason) = format!(in alloc; "line {line}: {message}") else {
        return Told::memory(alloc);
    };
    let place = Position { line, column: 0 };
    Told::of_input(alloc, code, place, String::new(alloc), reason)
}

/// Why a text in JSON is no library.
pub fn of_json(alloc: Global, error: &ReadError) -> Told
    ensures { IsToldOfJson error.now result ⊎ IsMemoryTold result }
{
    let Ok(reason) = format!(in alloc; "{error}") else {
        return Told::memory(alloc);
    };
    let Ok(pointer) = pointer_of(alloc, error) else {
        return Told::memory(alloc);
    };
    Told::of_input(alloc, json_code(error), place_of(error), pointer, reason)
}

/// Why a text in lines of JSON is no library.
pub fn of_json_line(alloc: Global, error: &JsonLineError) -> Told
    ensures { IsToldOfJsonLine error.now result ⊎ IsMemoryTold result }
{
    let Ok(reason) = format!(in alloc; "{error}") else {
        return Told::memory(alloc);
    };
    let Ok(pointer) = pointer_of(alloc, &error.error) else {
        return Told::memory(alloc);
    };
    let place = Position {
        line: error.line,
        column: place_of(&error.error).column,
    };
    Told::of_input(alloc, json_code(&error.error), place, pointer, reason)
}

/// Why a text in YAML is no library.
pub fn of_yaml(alloc: Global, error: &YamlReadError) -> Told
    ensures { IsToldOfYaml error.now result ⊎ IsMemoryTold result }
{
    let Ok(reason) = format!(in alloc; "{error}") else {
        return Told::memory(alloc);
    };
    match error {
        YamlReadError::NotYaml(fault) => {
            of_text(alloc, codes::NOT_YAML, fault.line, fault.column, reason)
        }
        YamlReadError::Refused(line, error) => of_value(alloc, line.unwrap_or(0), error, reason),
        YamlReadError::OutOfMemory => Told::memory(alloc),
    }
}

/// Why a `.bib` file is no library.
pub fn of_bibtex(alloc: Global, error: &BibtexReadError) -> Told
    ensures { IsToldOfBibtex error.now result ⊎ IsMemoryTold result }
{
    let Ok(reason) = format!(in alloc; "{error}") else {
        return Told::memory(alloc);
    };
    match error {
        BibtexReadError::NotBibtex(fault) => {
            of_text(alloc, codes::NOT_BIBTEX, fault.line, fault.column, reason)
        }
        BibtexReadError::OutOfMemory => Told::memory(alloc),
    }
}

// A text isn't by its grammar at this place, for this reason.
fn of_text(alloc: Global, code: u32, line: usize, column: usize, reason: String) -> Told
    ensures { IsTold code 0 line column [] [] (string_bytes reason) result }
{
    let place = Position { line, column };
    Told::of_input(alloc, code, place, String::new(alloc), reason)
}

// A value in this line is refused, for this reason.
fn of_value(alloc: Global, line: usize, error: &ReadError, reason: String) -> Told
    ensures { IsTold (json_code error.now) 0 line 0 (pointer_of error.now) []
        (string_bytes reason) result ⊎ IsMemoryTold result }
{
    let Ok(pointer) = pointer_of(alloc, error) else {
        return Told::memory(alloc);
    };
    Told::of_input(
        alloc,
        json_code(error),
        Position { line, column: 0 },
        pointer,
        reason,
    )
}

/// Why the text of a selector is none, with the byte at which that is seen.
pub fn of_selector(alloc: Global, offset: usize, error: SelectorError) -> Told
    ensures { IsToldOfSelector offset error result ⊎ IsMemoryTold result }
{
    let code = codes::of_selector(&error);
    let message = codes::message(code);
    let Ok(reason) = format!(in alloc; "byte {offset}: {message}") else {
        return Told::memory(alloc);
    };
    Told::of_selector(alloc, code, offset, name_in(alloc, error), reason)
}

// The name that is unknown, or no text.
fn name_in(alloc: Global, error: SelectorError) -> Vec<u8>
    ensures { result.items ≡ unknown_name error }
{
    match error {
        SelectorError::UnknownEntryType(name) => name.into_bytes(),
        _ => Vec::new(alloc),
    }
}

// The line and the column of an error, 0 and 0 where it has none.
fn place_of(error: &ReadError) -> Position
    ensures { result ≡ place_of error.now }
{
    match error {
        ReadError::NotJson(position) | ReadError::NameTwice(position) => *position,
        ReadError::Refused(_, _) | ReadError::OutOfMemory => Position { line: 0, column: 0 },
    }
}

// The JSON Pointer of the value that is refused, or no text.
fn pointer_of(alloc: Global, error: &ReadError) -> Result<String, OutOfMemory>
    ensures { IfOk result (λ text. string_bytes text ≡ pointer_of error.now) }
{
    match error {
        ReadError::Refused(path, _) => pointer_text(alloc, path),
        _ => Ok(String::new(alloc)),
    }
}

// The JSON Pointer of a path.
fn pointer_text(alloc: Global, path: &[Step]) -> Result<String, OutOfMemory>
    ensures { IfOk result (λ text. string_bytes text ≡ pointer (map step_view path.now)) }
{
    let mut text = String::new(alloc);
    'steps: for step in path {
        let shown = format!(in alloc; "{step}")?;
        text.push_str(shown.as_str())?;
    }
    Ok(text)
}

// The code of a line's fault.
fn line_code(fault: LineError) -> u32
    ensures { result ≡ line_code fault }
{
    match fault {
        LineError::Shape => codes::LINE_SHAPE,
        LineError::Depth => codes::LINE_DEPTH,
        LineError::UnknownType => codes::LINE_TYPE,
        LineError::UnknownField => codes::LINE_FIELD,
        LineError::RefusedValue => codes::LINE_VALUE,
        LineError::OutOfMemory => codes::OUT_OF_MEMORY,
    }
}

// The code of an error of JSON.
fn json_code(error: &ReadError) -> u32
    ensures { result ≡ json_code error.now }
{
    match error {
        ReadError::NotJson(_) => codes::NOT_JSON,
        ReadError::NameTwice(_) => codes::NAME_TWICE,
        ReadError::Refused(_, _) => codes::REFUSED_VALUE,
        ReadError::OutOfMemory => codes::OUT_OF_MEMORY,
    }
}
