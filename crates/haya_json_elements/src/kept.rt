//! Bytes that stay as they are, many at once.
ghost use Rattle.std.specs.Prelude.{◌≡◌, ◌<◌, ◌≤◌, ◌==◌, ◌||◌, ℕ, false, length, slice_index};
ghost use Rattle.haya_json_elements.specs.Steps.{KeepsFirst};

use crate::place::{Mode, Place};
use memchr::memchr2;

// How many bytes of a string are looked at before the step of the first that doesn't stay: where
// many don't, no byte is looked at more often than these are many.
const WINDOW: usize = 128;

/// How many bytes in turn stay as they are and lead nowhere else, of those that begin here: bytes of
/// a string, and the spaces between two tokens. There may be more.
#[inline]
pub(crate) fn kept_len(place: Place, bytes: &[u8]) -> usize
    ensures within { result ≤ length bytes.now }
    ensures kept { KeepsFirst place result bytes.now }
{
    match place {
        Place::Element(Mode::Text, _) => text_len(bytes),
        Place::Element(Mode::Between, _) => spaces_len(bytes),
        _ => 0,
    }
}

// How many bytes of a string stay as they are.
fn text_len(bytes: &[u8]) -> usize
    ensures within { result ≤ length bytes.now }
    ensures quoting { (k : ℕ) → k < result →
        (slice_index bytes.now k == 34 || slice_index bytes.now k == 92) ≡ false }
    ensures ending { (k : ℕ) → k < result →
        (slice_index bytes.now k == 10 || slice_index bytes.now k == 13) ≡ false }
{
    let (window, _) = bytes.split_at(bytes.len().min(WINDOW));
    let (text, _) = window.split_at(len_before(b'"', b'\\', window));
    len_before(b'\n', b'\r', text)
}

// How many bytes come before the first that is one of these, or how many there are.
fn len_before(one: u8, other: u8, bytes: &[u8]) -> usize
    ensures within { result ≤ length bytes.now }
    ensures before { (k : ℕ) → k < result →
        (slice_index bytes.now k == one || slice_index bytes.now k == other) ≡ false }
{
    match memchr2(one, other, bytes) {
        Some(at) => at,
        None => bytes.len(),
    }
}

// How many spaces these bytes begin with.
fn spaces_len(bytes: &[u8]) -> usize
    ensures within { result ≤ length bytes.now }
    ensures spaces { (k : ℕ) → k < result → slice_index bytes.now k ≡ 32 }
{
    let mut count = 0;
    'spaces: while count < bytes.len() && bytes[count] == b' ' {
        count += 1;
    }
    count
}
