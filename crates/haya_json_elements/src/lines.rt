//! The elements of a text, an element a line, as they are read.
ghost use Rattle.std.specs.Prelude.{◌≡◌, ◌++◌, ℕ, List, option_map};
ghost use Rattle.haya_json_elements.specs.Elements.{element_lines, lines_from};

use crate::kept::kept_len;
use crate::place::{Brackets, MARK, Place};
use std::io;
use std::io::Read;

/// Reads a text in JSON from a reader, and gives its elements, each on a line of its own; other
/// lines are empty. Where a byte can't stand where it does, or the text ends too early, there is a
/// line that no element has.
///
/// A byte is given in place of each byte of the text, so that nothing is kept.
#[derive(Debug, Drop)]
pub struct ElementLines<R> {
    reader: R,
    brackets: Brackets,
    place: Place,
}

impl<R: Read> ElementLines<R> {
    ghost use Rattle.haya_json_elements.specs.Remaining.{unread_lines, lines_remaining};

    /// The lines of the elements of all that the reader has left, with brackets of this kind around
    /// them.
    pub fn new(reader: R, brackets: Brackets) -> ElementLines<R>
        ensures fresh { result ≡ unread_lines reader brackets }
        ensures remaining { lines_remaining R.remaining result
            ≡ option_map (element_lines brackets) (R.remaining reader) }
    {
        ElementLines {
            reader,
            brackets,
            place: Place::Front,
        }
    }
}

impl<R: Read> Read for ElementLines<R> {
    ghost use Rattle.haya_json_elements.specs.Remaining.{lines_remaining};

    ghost remaining = { lines_remaining R.remaining };

    fn read(&mut self, buf: &mut [u8]) -> io::Result<usize> {
        let count = self.reader.read(buf)?;
        if count > 0 {
            self.place = put_lines(self.brackets, self.place, &mut buf[..count]);
            return Ok(count);
        }
        if buf.is_empty() || self.place.may_end() {
            return Ok(0);
        }
        self.place = Place::Lost;
        buf[0] = MARK;
        Ok(1)
    }
}

// Puts bytes of the lines in place of these bytes of a text, and returns the place behind them.
fn put_lines(brackets: Brackets, place: Place, bytes: &mut [u8]) -> Place
    ensures { (more : List ℕ) → lines_from brackets place (bytes.old ++ more)
        ≡ bytes.new ++ lines_from brackets result more }
{
    let mut place = place;
    let mut at = 0;
    'bytes: while at < bytes.len() {
        let (_, rest) = bytes.split_at(at);
        at += kept_len(place, rest);
        if at < bytes.len() {
            let (next, put) = place.step(brackets, bytes[at]);
            place = next;
            bytes[at] = put;
            at += 1;
        }
    }
    place
}
