//! JSON laid out in block style, a line for each member and each item, as people write YAML.
use crate::scalars::{push_key, push_text};
use json::{Reader, Scratch, Token};
use std::alloc::{AllocError, Global};

/// The value of a text in JSON in block style: members and items on lines of their own, members two
/// spaces deeper than those around them, and texts without quotes where nobody reads them as
/// anything but themselves. That it says the value is for the caller to see.
pub(crate) fn block_style(alloc: Global, json: &str) -> Result<String, AllocError> {
    let mut scratch = Scratch::new(alloc);
    let mut reader = Reader::new(json, &mut scratch)?;
    let mut layout = Layout {
        out: String::new(alloc),
        open: Vec::new(alloc),
        before: Before::Nothing,
    };
    'tokens: for _ in 0..json.len() {
        match reader.next() {
            Some(token) => layout.token(token)?,
            None => break,
        }
    }
    let Layout { mut out, .. } = layout;
    out.push('\n')?;
    Ok(out)
}

// A list or a map that isn't closed yet.
#[derive(Clone, Copy, Drop)]
struct Open {
    // Where its items or members begin.
    column: usize,
    is_list: bool,
    is_empty: bool,
}

// What comes before the next value on its line.
#[derive(Clone, Copy, Drop, PartialEq, Eq)]
enum Before {
    Nothing,
    Key,
    Dash,
}

// What is laid out so far.
#[derive(Drop)]
struct Layout {
    out: String,
    open: Vec<Open>,
    before: Before,
}

impl Layout {
    // The next token.
    fn token(&mut self, token: Token<'_>) -> Result<(), AllocError> {
        match token {
            Token::BeginObject => self.begin(false),
            Token::BeginArray => self.begin(true),
            Token::EndObject => self.end("{}"),
            Token::EndArray => self.end("[]"),
            Token::Key(name) => self.key(name),
            Token::String(text) => {
                self.begin_value()?;
                self.push_blank()?;
                let column = self.column().saturating_add(2);
                push_text(&mut self.out, text, column)
            }
            Token::Number(text) => self.word(text),
            Token::Bool(true) => self.word("true"),
            Token::Bool(false) => self.word("false"),
            Token::Null => self.word("null"),
            Token::Bad => Ok(()),
        }
    }

    // Where the items or members of the innermost list or map begin.
    fn column(&self) -> usize {
        match self.open.as_slice() {
            [.., last] => last.column,
            [] => 0,
        }
    }

    // Whether a value is an item of a list.
    fn is_in_list(&self) -> bool {
        match self.open.as_slice() {
            [.., last] => last.is_list,
            [] => false,
        }
    }

    // A list or a map begins.
    fn begin(&mut self, is_list: bool) -> Result<(), AllocError> {
        self.begin_value()?;
        let column = match self.before {
            Before::Nothing => 0,
            Before::Key if is_list => self.column(),
            Before::Key | Before::Dash => self.column().saturating_add(2),
        };
        self.open.push(Open {
            column,
            is_list,
            is_empty: true,
        })?;
        Ok(())
    }

    // A list or a map ends, which is written so where it has nothing.
    fn end(&mut self, empty: &str) -> Result<(), AllocError> {
        match self.open.pop() {
            Some(closed) if closed.is_empty => {
                self.push_blank()?;
                self.out.push_str(empty)
            }
            _ => Ok(()),
        }
    }

    // The key of a member.
    fn key(&mut self, name: &str) -> Result<(), AllocError> {
        self.begin_entry()?;
        push_key(&mut self.out, name)?;
        self.before = Before::Key;
        self.out.push(':')
    }

    // A value that is one word.
    fn word(&mut self, text: &str) -> Result<(), AllocError> {
        self.begin_value()?;
        self.push_blank()?;
        self.out.push_str(text)
    }

    // A blank between a key and its value.
    fn push_blank(&mut self) -> Result<(), AllocError> {
        if self.before == Before::Key {
            self.out.push(' ')?;
        }
        Ok(())
    }

    // A value begins, behind a dash where it is an item.
    fn begin_value(&mut self) -> Result<(), AllocError> {
        if !self.is_in_list() {
            return Ok(());
        }
        self.begin_entry()?;
        self.before = Before::Dash;
        self.out.push_str("- ")
    }

    // A member or an item begins: on a line of its own, but for the first behind a dash or at the
    // front.
    fn begin_entry(&mut self) -> Result<(), AllocError> {
        let column = self.column();
        let is_first = self.take_first();
        if is_first && self.before != Before::Key {
            return Ok(());
        }
        self.out.push('\n')?;
        for _ in 0..column {
            self.out.push(' ')?;
        }
        Ok(())
    }

    // Whether nothing of the innermost list or map is written yet. Then it is.
    fn take_first(&mut self) -> bool {
        match self.open.pop() {
            Some(open) => {
                let first = open.is_empty;
                let _ = self.open.push(Open {
                    is_empty: false,
                    ..open
                });
                first
            }
            None => true,
        }
    }
}
