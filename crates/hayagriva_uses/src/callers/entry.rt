//! The caller of `crates/haya_entry/CALLING.md`.
ghost use Rattle.std.specs.Prelude.{◌≡◌, option_map};
ghost use Rattle.haya_entry.specs.Lookups.{first_value};
ghost use Rattle.haya_entry.specs.Tree.{fields, view};

use haya_entry::Entry;

/// The year of a work, or of the first work above it that has a date.
pub fn year(work: &Entry) -> Option<i32>
    ensures { result ≡ option_map (λ date. date.year)
        (first_value (λ x. (fields x).date) (view work.now)) }
{
    work.date_any().map(|date| date.year)
}
