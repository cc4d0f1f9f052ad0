//! The words of a selector's text.
use haya_text::OutOfMemory;
use haya_text::cursor::Cursor;
use hayagriva::types::FieldName;
use std::alloc::Global;

/// The words in brackets that no entry can have as names.
pub(crate) fn listed_unknown<'s>(
    alloc: Global,
    selector: &'s str,
) -> Result<Vec<&'s str>, OutOfMemory> {
    let mut unknown = Vec::new(alloc);
    let mut words = Words::new(selector);
    for _ in 0..selector.len() {
        let Some(word) = words.next_word() else {
            return Ok(unknown);
        };
        if word.is_listed && word.text.parse::<FieldName>().is_err() {
            unknown.push(word.text)?;
        }
    }
    Ok(unknown)
}

// A word of a selector.
#[derive(Clone, Copy)]
struct Word<'s> {
    text: &'s str,
    // Whether it is in brackets.
    is_listed: bool,
}

// The words that are left of a selector.
#[derive(Drop)]
struct Words<'s> {
    cursor: Cursor<'s>,
    is_listed: bool,
}

impl<'s> Words<'s> {
    // All words of a selector.
    fn new(selector: &'s str) -> Self {
        Words {
            cursor: Cursor::new(selector),
            is_listed: false,
        }
    }

    // Takes the next word, with all that stands before it.
    fn next_word(&mut self) -> Option<Word<'s>> {
        for _ in 0..u64::MAX {
            let first = self.cursor.peek()?;
            if starts_word(first) {
                break;
            }
            self.is_listed = first == '[' || (self.is_listed && first != ']');
            self.cursor.eat();
        }
        Some(Word {
            text: self.cursor.eat_while(in_word),
            is_listed: self.is_listed,
        })
    }
}

// Whether a word may begin so.
fn starts_word(c: char) -> bool {
    c.is_ascii_alphabetic() || c == '-'
}

// Whether a word may go on so.
fn in_word(c: char) -> bool {
    c.is_ascii_alphanumeric() || c == '-'
}
