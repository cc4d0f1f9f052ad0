//! The signs of bytes: quotes, backslashes and brackets.
ghost use Rattle.std.specs.Prelude.{◌≡◌, ◌+◌, ◌-◌, ◌++◌, ◌≤◌, ◌<◌, ℕ, List, IfSome, OnSome, drop};
ghost use Rattle.std.specs.Prelude.{length, map, take};
ghost use Rattle.std.specs.Simd.Lanes.{mask_l};
ghost use Rattle.haya_json_elements.specs.declared.place.Brackets.{Brackets as BracketsData};
ghost use Rattle.haya_json_elements.specs.declared.place.Mode.TheVariants.{Between, Text};
ghost use Rattle.haya_slices.specs.Layout.{inside};
ghost use Rattle.haya_slices.specs.Sought.{AreSigns, IsFirst, IsNextSign, is_sign, is_sought};

use std::simd::prelude::*;

/// Which signs are looked for.
#[derive(Clone, Copy, Debug, Drop, PartialEq, Eq)]
pub(crate) enum Sought {
    /// Quotes and brackets.
    Turn,
    /// Quotes and backslashes.
    Mark,
}

impl Sought {
    // Whether the byte is one of them.
    #[inline(always)]
    fn is(self, byte: u8) -> bool
        ensures { result ≡ is_sought self byte }
    {
        match self {
            Sought::Turn => matches!(byte, b'"' | b'{' | b'}' | b'[' | b']'),
            Sought::Mark => matches!(byte, b'"' | b'\\'),
        }
    }
}

// How many bytes are looked at together.
const LANES: usize = 64;

// Which of the first bytes are signs: a bit for each.
#[inline(always)]
fn first_bits(bytes: &[u8]) -> u64
    requires { LANES ≤ length bytes.now }
    ensures { result ≡ mask_l (map is_sign (take LANES bytes.now)) }
{
    let low = u8x64::from_slice(bytes) | u8x64::splat(0x20);
    let brace = low.simd_ge(u8x64::splat(b'{')) & low.simd_le(u8x64::splat(b'}'));
    (low.simd_eq(u8x64::splat(b'"')) | brace).to_bitmask()
}

// Whether the byte is a sign.
fn is_sign(byte: u8) -> bool
    ensures { result ≡ is_sign byte }
{
    let low = byte | 0x20;
    low == b'"' || (low >= b'{' && low <= b'}')
}

// Which of these bytes are signs, of which there are few.
fn all_bits(bytes: &[u8]) -> u64
    requires { length bytes.now < LANES }
    ensures { result ≡ mask_l (map is_sign bytes.now) }
{
    let mut bits = 0u64;
    let mut at = bytes.len();
    'bytes: while at > 0 {
        at -= 1;
        bits *= 2;
        if is_sign(bytes[at]) {
            bits += 1;
        }
    }
    bits
}

/// Where bytes are looked at for signs.
#[derive(Clone, Copy, Drop)]
pub(crate) struct Signs {
    /// Where the next byte is that is to be looked at.
    pub(crate) start: usize,
    // Where those end that were looked at together with it, and a bit for each that is a sign.
    end: usize,
    bits: u64,
}

impl Signs {
    /// None of the bytes are looked at.
    #[inline(always)]
    pub(crate) fn new() -> Signs
        ensures signs { (bytes : List ℕ) → AreSigns bytes result }
        ensures start { result.start ≡ 0 }
    {
        Signs {
            start: 0,
            end: 0,
            bits: 0,
        }
    }

    // Looks at the bytes behind those that have no sign any more. `None` where there are none.
    #[inline(always)]
    fn look_on(&mut self, bytes: &[u8]) -> Option<()>
        requires { AreSigns bytes.now self.old }
        ensures signs { AreSigns bytes.now self.new }
        ensures start { OnSome result (self.new.start ≡ self.old.end) }
        ensures more { OnSome result (self.old.end < self.new.end) }
    {
        let (_, rest) = bytes.split_at(self.end);
        if rest.is_empty() {
            return None;
        }
        self.start = self.end;
        if rest.len() >= LANES {
            self.end += LANES;
            self.bits = first_bits(rest);
        } else {
            self.end = bytes.len();
            self.bits = all_bits(rest);
        }
        Some(())
    }

    // Goes behind the next sign. `None` where there is none.
    #[inline(always)]
    fn next(&mut self, bytes: &[u8]) -> Option<()>
        requires { AreSigns bytes.now self.old }
        ensures signs { AreSigns bytes.now self.new }
        ensures next { OnSome result (IsNextSign bytes.now self.old.start self.new.start) }
    {
        'signs: while self.bits == 0 {
            self.look_on(bytes)?;
        }
        let ahead = self.bits.trailing_zeros();
        self.bits = (self.bits >> ahead) >> 1;
        self.start += ahead as usize + 1;
        Some(())
    }

    /// Goes behind the first of these that is sought. The answer is how many bytes are in front of it;
    /// `None` where there is none.
    #[inline(always)]
    pub(crate) fn first(&mut self, bytes: &[u8], sought: Sought) -> Option<usize>
        requires { AreSigns bytes.now self.old }
        ensures signs { AreSigns bytes.now self.new }
        ensures first { IfSome result (λ len.
            IsFirst sought (drop self.old.start bytes.now) len
            × (self.new.start ≡ self.old.start + len + 1)) }
    {
        let from = self.start;
        'signs: loop {
            self.next(bytes)?;
            if sought.is(bytes[self.start - 1]) {
                return Some(self.start - 1 - from);
            }
        }
    }

    // Goes behind the next byte, whatever it is. `None` where there is none.
    #[inline(always)]
    fn pass_byte(&mut self, bytes: &[u8]) -> Option<()>
        requires { AreSigns bytes.now self.old }
        ensures signs { AreSigns bytes.now self.new }
        ensures start { OnSome result (self.new.start ≡ self.old.start + 1) }
    {
        if self.start == bytes.len() {
            return None;
        }
        if self.start < self.end {
            self.bits >>= 1;
        } else {
            self.end += 1;
        }
        self.start += 1;
        Some(())
    }

    /// Goes behind the quote that closes a string, from behind the one that opens it. `None` where
    /// none does.
    #[inline(always)]
    pub(crate) fn pass_string(&mut self, bytes: &[u8]) -> Option<()>
        requires { AreSigns bytes.now self.old }
        ensures signs { AreSigns bytes.now self.new }
        ensures more { OnSome result (self.old.start < self.new.start) }
        ensures closed { OnSome result ((b : BracketsData) → (d : ℕ) → (ys : List ℕ) →
            inside b Text d
            (take (self.new.start - self.old.start) (drop self.old.start bytes.now) ++ ys)
            ≡ inside b Between d ys) }
    {
        'marks: loop {
            self.first(bytes, Sought::Mark)?;
            if bytes[self.start - 1] == b'"' {
                return Some(());
            }
            self.pass_byte(bytes)?;
        }
    }
}
