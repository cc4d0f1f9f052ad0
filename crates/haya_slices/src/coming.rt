//! The element that bytes begin with, of which more may come.
ghost use Rattle.std.specs.Prelude.{◌≡◌, ◌<◌, ◌≤◌, ℕ, List, IfNone, IfSome, IsTrue, length};
ghost use Rattle.haya_json_elements.specs.declared.place.Brackets.{Brackets as BracketsData};
ghost use Rattle.haya_slices.specs.Layout.{is_outside_string};
ghost use Rattle.haya_slices.specs.Coming.{HasPassed, HasSeen, IsComing, LeadsOut, MayBegin};

use crate::element::{end_at, may_begin, passed};
use crate::white::{trimmed_len, white_len};
use haya_json_elements::{Brackets, Mode};

/// How far bytes are looked at for the element that they begin with, white space aside.
#[derive(Clone, Copy, Debug, Drop, PartialEq, Eq)]
pub struct Search {
    // How many bytes of white space are in front.
    white: usize,
    // How many bytes behind it are looked at, and where they lead.
    len: usize,
    mode: Mode,
    depth: u8,
}

/// What bytes begin with, white space aside.
#[derive(Clone, Copy)]
pub enum Coming<'t> {
    /// An element.
    Element(Complete<'t>),
    /// Behind so many bytes of white space is one that no element begins with.
    Nothing(usize),
    /// What may be the first bytes of an element, or of white space.
    More,
    /// So many bytes that no element begins with, whatever follows.
    Broken(usize),
}

/// An element that is complete.
#[derive(Clone, Copy)]
pub struct Complete<'t> {
    /// The element.
    pub element: &'t [u8],
    /// Whether the bracket that closes is behind it, and not a comma.
    pub is_last: bool,
    /// What is behind that.
    pub behind: &'t [u8],
}

impl Search {
    /// None of the bytes are looked at.
    pub fn new() -> Search
        ensures { (b : BracketsData) (bytes : List ℕ) → HasSeen b bytes result }
    {
        Search {
            white: 0,
            len: 0,
            mode: Mode::Between,
            depth: 0,
        }
    }

    /// What bytes begin with, of which those that were looked at are the first. Each byte is looked
    /// at once, however often more of them come.
    pub fn coming<'t>(&mut self, brackets: Brackets, bytes: &'t [u8]) -> Coming<'t>
        requires { HasSeen brackets bytes.now self.old }
        ensures { IsComing brackets bytes.now self.new result }
    {
        match self.start(brackets, bytes) {
            Some(coming) => coming,
            None => self.go_on(brackets, bytes),
        }
    }

    // What bytes begin with, where no element begins there.
    fn start<'t>(&mut self, brackets: Brackets, bytes: &'t [u8]) -> Option<Coming<'t>>
        requires { HasSeen brackets bytes.now self.old }
        ensures coming { IfSome result (IsComing brackets bytes.now self.new) }
        ensures seen { IfNone result (HasSeen brackets bytes.now self.new) }
        ensures begins { IfNone result (MayBegin brackets bytes.now self.new.white) }
    {
        if self.len > 0 {
            return None;
        }
        self.skip_white(bytes);
        if self.white == bytes.len() {
            return Some(Coming::More);
        }
        if may_begin(bytes[self.white]) {
            None
        } else {
            Some(Coming::Nothing(self.white))
        }
    }

    // Looks at the white space that is in front.
    fn skip_white(&mut self, bytes: &[u8])
        requires within { self.old.white ≤ length bytes.now }
        requires none { self.old.len ≡ 0 }
        ensures within { self.new.white ≤ length bytes.now }
        ensures seen { (b : BracketsData) → HasSeen b bytes.now self.old →
            HasSeen b bytes.now self.new }
    {
        let (_, rest) = bytes.split_at(self.white);
        self.white += white_len(rest);
    }

    // What bytes begin with, where an element may begin behind the white space.
    fn go_on<'t>(&mut self, brackets: Brackets, bytes: &'t [u8]) -> Coming<'t>
        requires seen { HasSeen brackets bytes.now self.old }
        requires begins { MayBegin brackets bytes.now self.old.white }
        ensures { IsComing brackets bytes.now self.new result }
    {
        let (_, rest) = bytes.split_at(self.white);
        if self.pass(brackets, rest) {
            ended(brackets, bytes, self.white, self.len, self.depth)
        } else {
            Coming::More
        }
    }

    // Looks at the bytes up to one that leads out of the element: whether there is one.
    fn pass(&mut self, brackets: Brackets, rest: &[u8]) -> bool
        requires { HasPassed brackets rest.now self.old.len self.old.mode self.old.depth }
        ensures passed { HasPassed brackets rest.now self.new.len self.new.mode self.new.depth }
        ensures white { self.new.white ≡ self.old.white }
        ensures out { IsTrue result → (self.new.len < length rest.now)
            × IsTrue (is_outside_string self.new.mode) }
    {
        let (mut mode, mut depth, mut at) = (self.mode, self.depth, self.len);
        'bytes: while at < rest.len() {
            let Some((next, deep)) = passed(mode, depth, rest[at]) else {
                self.keep(at, mode, depth);
                return true;
            };
            mode = next;
            depth = deep;
            at += 1;
        }
        self.keep(at, mode, depth);
        false
    }

    // So many bytes behind the white space are looked at, which lead there.
    fn keep(&mut self, len: usize, mode: Mode, depth: u8)
        ensures white { self.new.white ≡ self.old.white }
        ensures len { self.new.len ≡ len }
        ensures mode { self.new.mode ≡ mode }
        ensures depth { self.new.depth ≡ depth }
    {
        self.len = len;
        self.mode = mode;
        self.depth = depth;
    }
}

// The element that ends in front of a byte that leads out of it, if it may end there.
fn ended<'t>(brackets: Brackets, bytes: &'t [u8], white: usize, len: usize, depth: u8) -> Coming<'t>
    requires { LeadsOut brackets bytes.now white len depth }
    ensures { (now : Search) → IsComing brackets bytes.now now result }
{
    let (_, rest) = bytes.split_at(white);
    let (front, _) = rest.split_at(len);
    match end_at(brackets, depth, rest, len) {
        Some(_) => {
            let (element, _) = rest.split_at(trimmed_len(front));
            let (_, behind) = rest.split_at(len + 1);
            Coming::Element(Complete {
                element,
                is_last: rest[len] != b',',
                behind,
            })
        }
        None => Coming::Broken(white + len),
    }
}
