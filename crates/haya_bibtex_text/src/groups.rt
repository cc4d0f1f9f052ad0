//! Balanced texts.
ghost use Rattle.std.specs.Prelude.{◌≡◌, length};
ghost use Rattle.haya_bibtex_text.specs.GroupViews.{IsBefore, end_view};
ghost use Rattle.haya_bibtex_text.specs.Groups.{end_of};

/// Where a balanced text ends: how many characters come before.
#[derive(Clone, Copy)]
pub(crate) enum End {
    /// At the closing sign outside of braces.
    Closed(usize),
    /// At a brace that closes none.
    Stray(usize),
    /// Nowhere: it is left open.
    Nowhere,
}

/// Where the balanced text ends that a sign closes.
pub(crate) fn end_of(sign: char, text: &[char]) -> End
    ensures end { end_view result ≡ end_of sign text.now }
    ensures within { IsBefore (length text.now) result }
{
    let mut depth: usize = 0;
    let mut count: usize = 0;
    'characters: for c in text {
        if depth == 0 && *c == sign {
            return End::Closed(count);
        }
        if *c == '{' {
            depth += 1;
        } else if *c == '}' {
            if depth == 0 {
                return End::Stray(count);
            }
            depth -= 1;
        }
        count += 1;
    }
    End::Nowhere
}
