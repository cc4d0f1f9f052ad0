//! Lists of names.
ghost use Rattle.std.specs.Prelude.{◌≡◌, map};
ghost use Rattle.haya_bibtex_inherited.specs.Entries.{is_among, name_view};

/// Whether the name is one of these.
pub(crate) fn is_among(names: &[&str], name: &str) -> bool
    ensures { result ≡ is_among (map name_view names.now) name.now }
{
    'names: for other in names {
        if name == *other {
            return true;
        }
    }
    false
}
