//! Digits, and what is behind them.
ghost use Rattle.std.specs.Prelude.{◌≡◌, ◌≤◌, IfSome, option_map};
ghost use Rattle.haya_bibtex_dates.specs.Digits.{behind_sign, behind_two, digit, four_digits};
ghost use Rattle.haya_bibtex_dates.specs.Digits.{hundreds, short_number, tens, two_digits};

/// The value of a digit of ASCII.
pub(crate) fn digit(c: u32) -> Option<u8>
    ensures value { result ≡ digit c }
    ensures within { IfSome result (λ n. n ≤ 9) }
{
    if 48 <= c && c <= 57 {
        Some((c - 48) as u8)
    } else {
        None
    }
}

/// The value of a number with these two digits.
pub(crate) fn tens(a: Option<u8>, b: Option<u8>) -> Option<u8>
    requires first { IfSome a (λ n. n ≤ 9) }
    requires second { IfSome b (λ n. n ≤ 9) }
    ensures value { result ≡ tens a b }
    ensures within { IfSome result (λ n. n ≤ 99) }
{
    match (a, b) {
        (Some(a), Some(b)) => Some(a * 10 + b),
        _ => None,
    }
}

/// The value of two digits.
pub(crate) fn two_digits(a: u32, b: u32) -> Option<u8>
    ensures value { result ≡ two_digits a b }
    ensures within { IfSome result (λ n. n ≤ 99) }
{
    tens(digit(a), digit(b))
}

/// The value of a number of four digits, two and two.
pub(crate) fn hundreds(a: Option<u8>, b: Option<u8>) -> Option<u16>
    requires first { IfSome a (λ n. n ≤ 99) }
    requires second { IfSome b (λ n. n ≤ 99) }
    ensures value { result ≡ hundreds a b }
    ensures within { IfSome result (λ n. n ≤ 9999) }
{
    match (a, b) {
        (Some(a), Some(b)) => Some(u16::from(a) * 100 + u16::from(b)),
        _ => None,
    }
}

/// The value of a text of four digits.
pub(crate) fn four_digits(text: &[char]) -> Option<u16>
    ensures value { result ≡ four_digits text.now }
    ensures within { IfSome result (λ n. n ≤ 9999) }
{
    match text {
        [a, b, c, d] => {
            let end = two_digits(*c as u32, *d as u32);
            hundreds(two_digits(*a as u32, *b as u32), end)
        },
        _ => None,
    }
}

/// The value of a text of one digit, or two, in UTF-8.
pub(crate) fn short_number(text: &[u8]) -> Option<u8>
    ensures value { result ≡ short_number text.now }
    ensures within { IfSome result (λ n. n ≤ 99) }
{
    match text {
        [a] => digit(u32::from(*a)),
        [a, b] => two_digits(u32::from(*a), u32::from(*b)),
        _ => None,
    }
}

/// What is behind this sign at the front of a text.
pub(crate) fn behind_sign(sign: char, text: &[char]) -> Option<&[char]>
    ensures { option_map (λ p. p.now) result ≡ behind_sign sign text.now }
{
    match text.split_first() {
        Some((first, rest)) if *first == sign => Some(rest),
        _ => None,
    }
}

/// What is behind two digits at the front of a text.
pub(crate) fn behind_two(text: &[char]) -> Option<&[char]>
    ensures { option_map (λ p. p.now) result ≡ behind_two text.now }
{
    match text {
        [a, b, rest @ ..] if a.is_ascii_digit() && b.is_ascii_digit() => Some(rest),
        _ => None,
    }
}
