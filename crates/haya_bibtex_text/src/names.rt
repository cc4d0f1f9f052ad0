//! Sets of names.
ghost use Rattle.std.specs.Prelude.{◌≡◌, IfOk, OnOk, not, false};
ghost use Rattle.std.specs.Str.{chars};
ghost use Rattle.haya_bibtex_text.specs.Names.{names_view, with_name};

use std::alloc::{AllocError, Global};
use std::collections::BTreeSet;

/// A set of names.
#[derive(Drop)]
pub(crate) struct Names {
    // Names that are made to collide cost no more than others.
    texts: BTreeSet<String>,
}

/// No names.
pub(crate) fn no_names(alloc: Global) -> Names
    ensures { names_view result ≡ (λ _. false) }
{
    Names {
        texts: BTreeSet::new(alloc),
    }
}

/// Adds a name, and returns whether it is new. The error: there was no memory for it.
pub(crate) fn add_name(alloc: Global, names: &mut Names, name: &str) -> Result<bool, AllocError>
    ensures added { IfOk result (λ added. added ≡ not (names_view names.old (chars name.now))) }
    ensures names { OnOk result
        (names_view names.new ≡ with_name (names_view names.old) (chars name.now)) }
{
    let text = String::from_str(alloc, name)?;
    let added = names.texts.insert(text)?;
    Ok(added)
}
