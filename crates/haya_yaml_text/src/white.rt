//! White space, and what begins behind it.
ghost use Rattle.std.specs.Prelude.{◌≡◌, ◌==◌, ◌||◌, ◌+◌, ◌<◌, ◌≤◌, ◌^◌};
ghost use Rattle.std.specs.Prelude.{drop, length, not, take, slice_index, false};
ghost use Rattle.std.specs.Str.{IsCharBoundary};
ghost use Rattle.haya_yaml_text.specs.Signs.{begins_plain, begins_with, blanks, ends_key, is_blank};
ghost use Rattle.haya_yaml_text.specs.Signs.{is_bracket, is_empty, is_end, is_flow_sign, is_gap};
ghost use Rattle.haya_yaml_text.specs.Signs.{is_half_indicator, is_hash, is_indicator, is_white};
ghost use Rattle.haya_yaml_text.specs.Signs.{line_end, passed, passes, skip};

fn is_blank(tabs: bool, byte: u8) -> bool
    ensures { result ≡ is_blank tabs byte }
{
    byte == b' ' || (tabs && byte == b'\t')
}

/// Whether this is a space or a tab.
pub fn is_white(byte: u8) -> bool
    ensures { result ≡ is_white byte }
{
    is_blank(true, byte)
}

/// How many spaces begin a text, or with `tabs`, how many spaces and tabs.
pub fn blanks(tabs: bool, text: &str) -> usize
    ensures { result ≡ blanks tabs text.now }
{
    let bytes = text.as_bytes();
    let mut count = 0;
    'blanks: while count < bytes.len() && is_blank(tabs, bytes[count]) {
        count += 1;
    }
    count
}

/// The blanks that begin a text, and the text without them.
pub fn split_blanks(tabs: bool, text: &str) -> (&str, &str)
    ensures front { result.0.now ≡ take (blanks tabs text.now) text.now }
    ensures rest { result.1.now ≡ skip tabs text.now }
    ensures len { blanks tabs text.now + length result.1.now ≡ length text.now }
    ensures fits { length text.now < 2 ^ 64 }
{
    text.split_at(blanks(tabs, text))
}

/// A text without the blanks that begin it.
pub fn skip(tabs: bool, text: &str) -> &str
    ensures rest { result.now ≡ skip tabs text.now }
    ensures len { blanks tabs text.now + length result.now ≡ length text.now }
    ensures fits { length text.now < 2 ^ 64 }
{
    let (_, rest) = split_blanks(tabs, text);
    rest
}

/// A text without so many bytes at its front.
pub fn behind(count: usize, text: &str) -> &str
    requires { IsCharBoundary text.now count }
    ensures rest { result.now ≡ drop count text.now }
    ensures len { count + length result.now ≡ length text.now }
{
    let (_, rest) = text.split_at(count);
    rest
}

/// A text behind its first sign, which is one byte.
pub fn tail(text: &str) -> &str
    requires some { 0 < length text.now }
    requires ascii { slice_index text.now 0 < 128 }
    ensures rest { result.now ≡ drop 1 text.now }
    ensures len { 1 + length result.now ≡ length text.now }
{
    behind(1, text)
}

/// Whether this sign stands here.
pub fn begins_with(sign: u8, bytes: &[u8]) -> bool
    ensures { result ≡ begins_with sign bytes.now }
{
    match bytes {
        [] => false,
        [byte, ..] => *byte == sign,
    }
}

/// Whether the sign `#` stands here.
pub fn is_hash(text: &str) -> bool
    ensures { result ≡ is_hash text.now }
{
    begins_with(b'#', text.as_bytes())
}

/// Whether nothing stands here, or a comment.
pub fn is_end(text: &str) -> bool
    ensures { result ≡ is_end text.now }
{
    match text.as_bytes() {
        [] => true,
        [byte, ..] => *byte == b'#',
    }
}

/// Whether white space stands here, or the end of the line.
pub fn is_gap(bytes: &[u8]) -> bool
    ensures { result ≡ is_gap bytes.now }
{
    match bytes {
        [] => true,
        [byte, ..] => is_white(*byte) || *byte == b'\n',
    }
}

fn is_flow_sign(byte: u8) -> bool
    ensures { result ≡ is_flow_sign byte }
{
    matches!(byte, b',' | b'[' | b']' | b'{' | b'}')
}

/// Whether a comma or a bracket stands here, where these count.
pub fn is_bracket(flow: bool, bytes: &[u8]) -> bool
    ensures { result ≡ is_bracket flow bytes.now }
{
    match bytes {
        [] => false,
        [byte, ..] => flow && is_flow_sign(*byte),
    }
}

/// Whether a colon that ends a key stands here, in brackets or not.
pub fn ends_key(flow: bool, bytes: &[u8]) -> bool
    ensures { result ≡ ends_key flow bytes.now }
{
    match bytes {
        [] => false,
        [byte, rest @ ..] => *byte == b':' && (is_gap(rest) || is_bracket(flow, rest)),
    }
}

// Whether the sign may begin no plain scalar.
fn is_indicator(byte: u8) -> bool
    ensures { result ≡ is_indicator byte }
{
    is_flow_sign(byte)
        || matches!(
            byte,
            b'#' | b'&' | b'*' | b'!' | b'|' | b'>' | b'\'' | b'"' | b'%' | b'@' | b'`'
        )
}

// Whether the sign may begin a plain scalar, some of them only where no gap follows.
fn begins_scalar(byte: u8) -> bool
    ensures { result ≡ not (is_white byte || (byte == 10) || is_indicator byte) }
{
    if matches!(byte, b'A'..=b'Z' | b'a'..=b'z') {
        return true;
    }
    !(is_white(byte) || byte == b'\n' || is_indicator(byte))
}

// Whether the sign may begin a plain scalar only where no gap follows.
fn is_half_indicator(byte: u8) -> bool
    ensures { result ≡ is_half_indicator byte }
{
    matches!(byte, b'-' | b'?' | b':')
}

/// Whether a plain scalar may begin here, in brackets or not.
pub fn begins_plain(flow: bool, bytes: &[u8]) -> bool
    ensures { result ≡ begins_plain flow bytes.now }
{
    match bytes {
        [] => false,
        [byte, rest @ ..] => {
            if is_half_indicator(*byte) && (is_gap(rest) || is_bracket(flow, rest)) {
                return false;
            }
            begins_scalar(*byte)
        }
    }
}

/// A text from the end of its line on.
#[tactic(auto, unfolding(crate::specs::Signs::line_end))]
pub fn line_end(text: &str) -> &str
    ensures { result.now ≡ line_end text.now }
{
    let bytes = text.as_bytes();
    let mut place = 0;
    'places: while place < bytes.len() {
        if bytes[place] == b'\n' {
            return behind(place, text);
        }
        place += 1;
    }
    ""
}

// Whether a sign is passed over, and whether the next is inside a comment.
fn passes(inside: bool, apart: bool, byte: u8) -> Option<bool>
    ensures { result ≡ passes inside apart byte }
{
    if inside {
        Some(byte != b'\n')
    } else if is_white(byte) || byte == b'\n' {
        Some(false)
    } else if byte == b'#' && apart {
        Some(true)
    } else {
        None
    }
}

/// What stands behind white space, line ends and comments.
pub fn pass(text: &str) -> &str
    ensures { result.now ≡ passed false false text.now }
{
    let bytes = text.as_bytes();
    let mut inside = false;
    let mut apart = false;
    let mut place = 0;
    'places: while place < bytes.len() {
        match passes(inside, apart, bytes[place]) {
            None => return behind(place, text),
            Some(next) => inside = next,
        }
        apart = true;
        place += 1;
    }
    ""
}
