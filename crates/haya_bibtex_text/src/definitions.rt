//! The strings that a text defines.
ghost use Rattle.std.specs.Prelude.{◌≡◌, OnOk, option_map, string_bytes};
ghost use Rattle.std.specs.Str.{chars};
ghost use Rattle.haya_bibtex_text.specs.Definitions.{strings_view};
ghost use Rattle.haya_bibtex_text.specs.Predefined.{predefined_strings};
ghost use Rattle.haya_bibtex_text.specs.Strings.{with_string};

use crate::predefined::predefined_text;
use std::alloc::{AllocError, Global};
use std::collections::BTreeMap;

/// The strings that are defined so far, by their names in lower case. Behind them come those that
/// are defined from the start.
#[derive(Drop)]
pub(crate) struct Definitions {
    // Names that are made to collide cost no more than others.
    texts: BTreeMap<String, String>,
}

/// Those that are defined from the start.
pub(crate) fn first_definitions(alloc: Global) -> Definitions
    ensures { strings_view result ≡ predefined_strings }
{
    Definitions {
        texts: BTreeMap::new(alloc),
    }
}

/// The text that a name in lower case stands for.
pub(crate) fn defined_text<'d>(definitions: &'d Definitions, name: &str) -> Option<&'d str>
    ensures { option_map (λ t. chars t.now) result ≡ strings_view definitions.now (chars name.now) }
{
    match definitions.texts.get(name) {
        Some(text) => Some(text.as_str()),
        None => predefined_text(name),
    }
}

/// From now on the name stands for the text. The error: there was no memory for it.
pub(crate) fn define(
    definitions: &mut Definitions,
    name: String,
    text: String,
) -> Result<(), AllocError>
    ensures { OnOk result (strings_view definitions.new
        ≡ with_string (strings_view definitions.old)
        (chars (string_bytes name)) (chars (string_bytes text))) }
{
    definitions.texts.insert(name, text)?;
    Ok(())
}
