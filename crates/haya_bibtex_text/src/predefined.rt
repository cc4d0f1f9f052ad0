//! The strings that are defined from the start.
ghost use Rattle.std.specs.Prelude.{◌≡◌, map, option_map};
ghost use Rattle.haya_bibtex_text.specs.Predefined.{predefined_strings, row_view, text_under};

// The months, and the journals of the standard styles.
const STRINGS: &[(&str, &str)] = &[
    ("jan", "January"),
    ("feb", "February"),
    ("mar", "March"),
    ("apr", "April"),
    ("may", "May"),
    ("jun", "June"),
    ("jul", "July"),
    ("aug", "August"),
    ("sep", "September"),
    ("oct", "October"),
    ("nov", "November"),
    ("dec", "December"),
    ("acmcs", "ACM Computing Surveys"),
    ("acta", "Acta Informatica"),
    ("cacm", "Communications of the ACM"),
    ("ibmjrd", "IBM Journal of Research and Development"),
    ("ibmsj", "IBM Systems Journal"),
    ("ieeese", "IEEE Transactions on Software Engineering"),
    ("ieeetc", "IEEE Transactions on Computers"),
    (
        "ieeetcad",
        "IEEE Transactions on Computer-Aided Design of Integrated Circuits",
    ),
    ("ipl", "Information Processing Letters"),
    ("jacm", "Journal of the ACM"),
    ("jcss", "Journal of Computer and System Sciences"),
    ("scp", "Science of Computer Programming"),
    ("sicomp", "SIAM Journal on Computing"),
    ("tocs", "ACM Transactions on Computer Systems"),
    ("tods", "ACM Transactions on Database Systems"),
    ("tog", "ACM Transactions on Graphics"),
    ("toms", "ACM Transactions on Mathematical Software"),
    ("toois", "ACM Transactions on Office Information Systems"),
    (
        "toplas",
        "ACM Transactions on Programming Languages and Systems",
    ),
    ("tcs", "Theoretical Computer Science"),
];

/// The text of a month, or of a journal of the standard styles.
pub(crate) fn predefined_text(name: &str) -> Option<&'static str>
    ensures { option_map (λ t. t.now) result ≡ predefined_strings name.now }
{
    text_under(STRINGS, name)
}

// The text that a table has for a name.
fn text_under(table: &[(&'static str, &'static str)], name: &str) -> Option<&'static str>
    ensures { option_map (λ t. t.now) result ≡ text_under (map row_view table.now) name.now }
{
    'rows: for (key, text) in table {
        if name == *key {
            return Some(*text);
        }
    }
    None
}
