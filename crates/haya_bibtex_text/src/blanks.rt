//! Blanks at the front of a text.
ghost use Rattle.std.specs.Prelude.{◌≡◌, ◌≤◌, length, true, false};
ghost use Rattle.haya_bibtex_text.specs.Blanks.{behind_blank, behind_blank_in};

use crate::classes::is_white;

// What is left behind the end of the line that a remark goes on to.
fn behind_remark(text: &[char]) -> &[char]
    ensures left { behind_blank_in true text.now ≡ behind_blank_in false result.now }
    ensures shorter { length result.now ≤ length text.now }
{
    let mut rest = text;
    'characters: while let Some((first, behind)) = rest.split_first() {
        rest = behind;
        if *first == '\n' {
            return rest;
        }
    }
    rest
}

/// What is left behind white space and remarks.
pub(crate) fn behind_blank(text: &[char]) -> &[char]
    ensures left { result.now ≡ behind_blank text.now }
    ensures shorter { length result.now ≤ length text.now }
{
    let mut rest = text;
    'characters: while let Some((first, behind)) = rest.split_first() {
        // Most blanks are spaces, and most other characters are letters and signs.
        match *first {
            ' ' => rest = behind,
            '&'..='~' => return rest,
            '%' => rest = behind_remark(behind),
            c => {
                if !is_white(c) {
                    return rest;
                }
                rest = behind;
            }
        }
    }
    rest
}
