//! The characters that no text may have.
ghost use Rattle.std.specs.Prelude.{◌≡◌, ◌==◌, ◌≤◌, length, take, drop, map, if◌then◌else◌};
ghost use Rattle.std.specs.Prelude.{MatchOption, true, false};
ghost use Rattle.std.specs.Int.{w64, trailing_zeros};
ghost use Rattle.std.specs.Simd.Lanes.{mask_l};
ghost use Rattle.haya_yaml.specs.Documents.{is_c1, is_control, is_printable, is_two, may_begin_control};

use haya_yaml_text::white::begins_with;
use std::simd::prelude::*;

/// How many bytes are looked at together.
pub(crate) const LANES: usize = 32;

fn is_two(first: u8, second: u8, bytes: &[u8]) -> bool
    ensures { result ≡ is_two first second bytes.now }
{
    match bytes {
        [] => false,
        [byte, rest @ ..] => *byte == first && begins_with(second, rest),
    }
}

fn is_c1(bytes: &[u8]) -> bool
    ensures { result ≡ is_c1 bytes.now }
{
    match bytes {
        [] => false,
        [byte, ..] => *byte < 160 && *byte != 133,
    }
}

// Whether a byte begins a character that no text may have; the rest is what follows it.
fn is_control(byte: u8, rest: &[u8]) -> bool
    ensures { result ≡ is_control byte rest.now }
{
    if byte >= 32 && byte < 127 {
        return false;
    }
    if byte < 32 {
        return !(byte == b'\t' || byte == b'\n' || (byte == b'\r' && begins_with(b'\n', rest)));
    }
    byte == 127
        || (byte == 194 && is_c1(rest))
        || (byte == 239
            && (is_two(187, 191, rest) || is_two(191, 190, rest) || is_two(191, 191, rest)))
}

// Which of the first bytes may begin a character that no text may have: a bit for each.
#[inline(always)]
fn doubtful(bytes: &[u8]) -> u64
    requires { LANES ≤ length bytes.now }
    ensures { result ≡ mask_l (map may_begin_control (take LANES bytes.now)) }
{
    let lanes = u8x32::from_slice(bytes);
    let control = lanes.simd_lt(u8x32::splat(b' ')) & lanes.simd_ne(u8x32::splat(b'\n'));
    (control
        | lanes.simd_eq(u8x32::splat(127))
        | lanes.simd_eq(u8x32::splat(194))
        | lanes.simd_eq(u8x32::splat(239))).to_bitmask()
}

/// How many bits come before the first that is set, or `LANES` where none is.
#[inline(always)]
pub(crate) fn first_mark(marks: u64) -> usize
    ensures { result ≡ if marks == 0 then LANES else trailing_zeros w64 marks }
{
    if marks == 0 {
        LANES
    } else {
        marks.trailing_zeros() as usize
    }
}

// How many of the first bytes come before one that may begin such a character.
#[inline(always)]
fn harmless(bytes: &[u8]) -> usize
    requires { LANES ≤ length bytes.now }
    ensures within { result ≤ LANES }
    ensures same { is_printable (drop result bytes.now) ≡ is_printable bytes.now }
{
    first_mark(doubtful(bytes))
}

// What is left of bytes behind those that begin no such character: how many are passed over is no
// part of the contract.
#[inline(always)]
fn pass_harmless(bytes: &[u8]) -> &[u8]
    ensures same { is_printable result.now ≡ is_printable bytes.now }
    ensures fewer { length result.now ≤ length bytes.now }
{
    let mut rest = bytes;
    'lanes: while rest.len() >= LANES {
        let count = harmless(rest);
        (_, rest) = rest.split_at(count);
        if count < LANES {
            return rest;
        }
    }
    rest
}

/// How many bytes are left at the first character that no text may have, or `None` without one.
#[tactic(auto, unfolding(crate::specs::Documents::is_printable))]
pub(crate) fn control_character(text: &str) -> Option<usize>
    ensures { MatchOption result (is_printable text.now ≡ true)
        (λ left. is_printable text.now ≡ false) }
{
    let mut rest = text.as_bytes();
    'bytes: loop {
        let left = pass_harmless(rest);
        match left {
            [] => return None,
            [byte, more @ ..] => {
                if is_control(*byte, more) {
                    return Some(left.len());
                }
                rest = more;
            }
        }
    }
}
