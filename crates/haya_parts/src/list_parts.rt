//! A list in JSON, divided into its elements.
ghost use Rattle.std.specs.Prelude.{◌≡◌, ◌⊎◌, ◌≤◌, ◌<◌, [], ℕ, List, IsTrue, drop, length, take};
ghost use Rattle.haya_json_elements.specs.Steps.{closing_bracket, opening_bracket};
ghost use Rattle.haya_slices.specs.Layout.{IsWhite};
ghost use Rattle.haya_slices.specs.Coming.{HasSeen};
ghost use Rattle.haya_parts.specs.Divided.{Begins, IsSplitNext, TakesNext};
ghost use Rattle.haya_parts.specs.ListParts.{ListDivides};

use crate::divider::{Divider, Last, Next, Split};
use crate::enclosed::Enclosed;
use haya_json_elements::Brackets;
use haya_slices::{Coming, Search, white_len};
use std::marker::PhantomData;

/// Divides a list in JSON in such brackets into its elements: each as it is in the text, from its
/// first byte to its last.
#[derive(Drop)]
pub struct ListParts<B> {
    place: ListPlace,
    search: Search,
    kind: PhantomData<B>,
}

// Where in a list what is held begins.
#[derive(Clone, Copy, Debug, Drop, PartialEq, Eq)]
pub(crate) enum ListPlace {
    // In front of the bracket that opens.
    Front,
    // Behind it.
    Opened,
    // Behind a comma.
    Next,
    // Behind the bracket that closes.
    Closed,
}

impl<B: Enclosed> ListParts<B> {
    /// In front of a list.
    pub fn new() -> ListParts<B>
        ensures { Begins (ListDivides B.around) result [] [] [] }
    {
        ListParts {
            place: ListPlace::Front,
            search: Search::new(),
            kind: PhantomData,
        }
    }

    // In front of the bracket that opens.
    fn front<'t>(&mut self, held: &'t [u8]) -> Next<'t>
        requires { self.old.place ≡ ListPlace.Front }
        ensures split { IsSplitNext held.now result }
        ensures takes { (taken : List ℕ) (parts : List (List ℕ)) →
            Begins (ListDivides B.around) self.old taken parts held.now →
            TakesNext (ListDivides B.around) self.new taken parts held.now result }
    {
        let white = white_len(held);
        if white > 0 {
            return Next::Between(split(held, white));
        }
        if held.is_empty() {
            return Next::More;
        }
        if held[0] != opening_byte(B::brackets()) {
            return Next::Broken(split(held, 0));
        }
        self.place = ListPlace::Opened;
        self.search = Search::new();
        Next::Between(split(held, 1))
    }

    // Where an element may begin.
    fn element<'t>(&mut self, held: &'t [u8]) -> Next<'t>
        requires place { (self.old.place ≡ ListPlace.Opened) ⊎ (self.old.place ≡ ListPlace.Next) }
        requires seen { HasSeen B.around held.now self.old.search }
        ensures split { IsSplitNext held.now result }
        ensures takes { (taken : List ℕ) (parts : List (List ℕ)) →
            Begins (ListDivides B.around) self.old taken parts held.now →
            TakesNext (ListDivides B.around) self.new taken parts held.now result }
    {
        match self.search.coming(B::brackets(), held) {
            Coming::Element(first) => {
                self.search = Search::new();
                self.place = if first.is_last {
                    ListPlace::Closed
                } else {
                    ListPlace::Next
                };
                let taken = held.len() - first.behind.len();
                Next::Part(first.element, split(held, taken))
            }
            Coming::Nothing(at) => {
                self.search = Search::new();
                self.none(held, at)
            }
            Coming::More => Next::More,
            Coming::Broken(at) => Next::Broken(split(held, at)),
        }
    }

    // At a byte that no element begins with: it may be the bracket that closes an empty list.
    fn none<'t>(&mut self, held: &'t [u8], at: usize) -> Next<'t>
        requires within { at < length held.now }
        requires white { IsWhite (take at held.now) }
        ensures split { IsSplitNext held.now result }
        ensures takes { (taken : List ℕ) (parts : List (List ℕ)) →
            Begins (ListDivides B.around) self.old taken parts held.now →
            TakesNext (ListDivides B.around) self.new taken parts held.now result }
    {
        if self.place == ListPlace::Opened && held[at] == closing_byte(B::brackets()) {
            self.place = ListPlace::Closed;
            return Next::Between(split(held, at + 1));
        }
        Next::Broken(split(held, at))
    }
}

// Behind the bracket that closes.
fn behind<'t, B: Enclosed>(held: &'t [u8]) -> Next<'t>
    ensures split { IsSplitNext held.now result }
    ensures takes { (d : ListParts B) (taken : List ℕ) (parts : List (List ℕ)) →
        d.place ≡ ListPlace.Closed → Begins (ListDivides B.around) d taken parts held.now →
        TakesNext (ListDivides B.around) d taken parts held.now result }
{
    let white = white_len(held);
    if white > 0 {
        return Next::Between(split(held, white));
    }
    if held.is_empty() {
        Next::More
    } else {
        Next::Broken(split(held, 0))
    }
}

// So many bytes, and those behind them.
fn split<'t>(held: &'t [u8], at: usize) -> Split<'t>
    requires { at ≤ length held.now }
    ensures front { result.front.now ≡ take at held.now }
    ensures behind { result.behind.now ≡ drop at held.now }
{
    Split {
        front: &held[..at],
        behind: &held[at..],
    }
}

// The byte of the bracket that opens.
fn opening_byte(brackets: Brackets) -> u8
    ensures { result ≡ opening_bracket brackets }
{
    match brackets {
        Brackets::Square => b'[',
        Brackets::Curly => b'{',
    }
}

// The byte of the bracket that closes.
fn closing_byte(brackets: Brackets) -> u8
    ensures { result ≡ closing_bracket brackets }
{
    match brackets {
        Brackets::Square => b']',
        Brackets::Curly => b'}',
    }
}

impl<B: Enclosed> Divider for ListParts<B> {
    ghost use Rattle.haya_parts.specs.ListParts.{AreElements, ListDivides};

    ghost divides = { ListDivides B.around };

    ghost are_parts = { AreElements B.around };

    fn next<'t>(&mut self, held: &'t [u8]) -> Next<'t> {
        match self.place {
            ListPlace::Front => self.front(held),
            ListPlace::Opened | ListPlace::Next => self.element(held),
            ListPlace::Closed => behind::<B>(held),
        }
    }

    fn last<'t>(&self, held: &'t [u8]) -> Last<'t> {
        if self.place == ListPlace::Closed && white_len(held) == held.len() {
            Last::Nothing
        } else {
            Last::Broken
        }
    }
}
