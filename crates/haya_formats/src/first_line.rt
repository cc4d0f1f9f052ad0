//! The first line of a text, and what it begins with.
ghost use Rattle.std.specs.Prelude.{◌≡◌, ◌<◌, IfSome, length, not, option_map, position};
ghost use Rattle.haya_formats.specs.FirstLine.{behind, ends_with_key, first_line, is_comment};
ghost use Rattle.std.specs.Char.{is_ascii_digit};
ghost use Rattle.haya_formats.specs.FirstLine.{is_gap, is_json, is_key, is_key_byte, is_row};
ghost use Rattle.haya_formats.specs.FirstLine.{is_yaml, is_yaml_text};

/// What is behind the sign, where the text begins with that, white space aside.
pub(crate) fn behind<'a>(sign: &str, text: &'a str) -> Option<&'a str>
    ensures { option_map (λ rest. rest.now) result ≡ behind sign.now text.now }
{
    text.trim_start().strip_prefix(sign)
}

/// The first line of a text that says something.
pub(crate) fn first_line(text: &str) -> Option<&str>
    ensures { option_map (λ line. line.now) result ≡ first_line text.now }
{
    text.lines().find(|line| !is_comment(line))
}

// Whether a line says nothing.
fn is_comment(line: &str) -> bool
    ensures { result ≡ is_comment line.now }
{
    let said = line.trim_start().as_bytes();
    said.is_empty() || said.starts_with(b"#")
}

/// Whether a text is in YAML, by its first line that says something.
pub(crate) fn is_yaml_text(text: &str) -> bool
    ensures { result ≡ is_yaml_text text.now }
{
    match first_line(text) {
        Some(line) => is_yaml(line.as_bytes()),
        None => false,
    }
}

/// Whether a line begins as those of YAML do, with dashes, an item or a key, or ends with the colon
/// of one.
pub(crate) fn is_yaml(line: &[u8]) -> bool
    ensures { result ≡ is_yaml line.now }
{
    line.starts_with(b"---")
        || line.starts_with(b"%YAML")
        || line.starts_with(b"- ")
        || is_key(line)
        || ends_with_key(line)
}

// Whether a line ends with a colon, and has no tab, as those of a library's rows do.
fn ends_with_key(line: &[u8]) -> bool
    ensures { result ≡ ends_with_key line.now }
{
    line.ends_with(b":") && !line.contains(&b'\t')
}

// Whether a line begins with a key and a colon, with nothing or a blank behind it.
fn is_key(line: &[u8]) -> bool
    ensures { result ≡ is_key line.now }
{
    match key_end(line) {
        Some(end) => end >= 1 && line[end] == b':' && is_gap(line.get(end + 1).copied()),
        None => false,
    }
}

// The place of the first byte that is no part of a key.
fn key_end(line: &[u8]) -> Option<usize>
    ensures place { result ≡ position (λ b. not (is_key_byte b)) line.now }
    ensures within { IfSome result (λ end. end < length line.now) }
{
    line.iter().position(|b| !is_key_byte(*b))
}

// Whether this is nothing, or a blank.
fn is_gap(byte: Option<u8>) -> bool
    ensures { result ≡ is_gap byte }
{
    matches!(byte, None | Some(b' ' | b'\t'))
}

// Whether a byte may be part of a key.
fn is_key_byte(byte: u8) -> bool
    ensures { result ≡ is_key_byte byte }
{
    byte.is_ascii_alphanumeric() || b"-_./+\"'".contains(&byte) || byte >= 0x80
}

/// Whether a line begins as JSON does.
pub(crate) fn is_json(line: &str) -> bool
    ensures { result ≡ is_json line.now }
{
    behind("[", line).is_some() || behind("{", line).is_some()
}

/// Whether a line begins as those of a library do: with one to three digits and a tab.
pub(crate) fn is_row(line: &[u8]) -> bool
    ensures { result ≡ is_row line.now }
{
    match digits_end(line) {
        Some(end) => (1..=3).contains(&end) && line[end] == b'\t',
        None => false,
    }
}

// The place of the first byte that is no digit.
fn digits_end(line: &[u8]) -> Option<usize>
    ensures place { result ≡ position (λ b. not (is_ascii_digit b)) line.now }
    ensures within { IfSome result (λ end. end < length line.now) }
{
    line.iter().position(|b| !b.is_ascii_digit())
}
