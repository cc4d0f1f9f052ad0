//! A list of elements, printed.
ghost use Rattle.std.specs.Prelude.{◌≡◌, ◌++◌, IfOk, OnOk, map, string_bytes};
ghost use Rattle.haya_slices.specs.Layout.{element_text, end_text, list_text};

use haya_json_elements::Brackets;
use std::alloc::{AllocError, Global};

/// The elements as a list in these brackets, each as it is and on a line of its own, separated by
/// commas. Without any it is a line of the brackets.
pub fn list_text(alloc: Global, brackets: Brackets, elements: &[&str]) -> Result<String, AllocError>
    ensures { IfOk result (λ text.
        string_bytes text ≡ list_text brackets (map (λ s. s.now) elements.now)) }
{
    let mut text = String::with_capacity(alloc, room_for(elements))?;
    let mut is_first = true;
    'elements: for element in elements {
        push_element(&mut text, brackets, is_first, element)?;
        is_first = false;
    }
    push_end(&mut text, brackets, is_first)?;
    Ok(text)
}

// How many bytes a list of these elements takes, or as many as there can be.
fn room_for(elements: &[&str]) -> usize {
    let mut room = 3usize;
    'elements: for element in elements {
        room = room.saturating_add(element.len()).saturating_add(2);
    }
    room
}

/// Puts an element behind a text, the first of a list or a later one.
pub fn push_element(
    text: &mut String,
    brackets: Brackets,
    is_first: bool,
    element: &str,
) -> Result<(), AllocError>
    ensures { OnOk result (string_bytes text.new
        ≡ string_bytes text.old ++ element_text brackets is_first element.now) }
{
    text.push_str(match brackets {
        _ if !is_first => ",\n",
        Brackets::Square => "[\n",
        Brackets::Curly => "{\n",
    })?;
    text.push_str(element)
}

/// Puts the end of a list behind a text, of one without an element or of another.
pub fn push_end(text: &mut String, brackets: Brackets, is_empty: bool) -> Result<(), AllocError>
    ensures { OnOk result
        (string_bytes text.new ≡ string_bytes text.old ++ end_text brackets is_empty) }
{
    text.push_str(match brackets {
        Brackets::Square if is_empty => "[]\n",
        Brackets::Square => "\n]\n",
        Brackets::Curly if is_empty => "{}\n",
        Brackets::Curly => "\n}\n",
    })
}
