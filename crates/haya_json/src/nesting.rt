//! The tokens of a text, taken as those of one value, or of one member of an object.
use crate::alone::ELEMENT_DEPTH;
use json::{MAX_DEPTH, Token};
use std::alloc::{AllocError, Global};

// What is open round the next token.
#[derive(Clone, Copy, PartialEq, Eq)]
enum Open {
    Array,
    // An object, before a name or its end.
    Object,
    // An object, behind a name.
    Member,
}

// What may stand outside of all that is open.
#[derive(Clone, Copy, PartialEq, Eq)]
enum Next {
    Name,
    Value,
    Nothing,
}

/// What is open after the tokens that were taken.
#[derive(Drop)]
pub(crate) struct Nesting {
    open: Vec<Open>,
    max_open: usize,
    next: Next,
}

impl Nesting {
    /// Before the first token of a text.
    pub(crate) fn of_text(alloc: Global) -> Nesting {
        Nesting::new(alloc, MAX_DEPTH, Next::Value)
    }

    /// Before the first token of an item of the array that a text is.
    pub(crate) fn of_item(alloc: Global) -> Nesting {
        Nesting::new(alloc, ELEMENT_DEPTH, Next::Value)
    }

    /// Before the first token of a member of the object that a text is.
    pub(crate) fn of_member(alloc: Global) -> Nesting {
        Nesting::new(alloc, ELEMENT_DEPTH, Next::Name)
    }

    fn new(alloc: Global, max_open: usize, next: Next) -> Nesting {
        Nesting {
            open: Vec::new(alloc),
            max_open,
            next,
        }
    }

    /// Takes the token, if it may stand next, and tells whether it may.
    pub(crate) fn takes(&mut self, token: &Token<'_>) -> Result<bool, AllocError> {
        match token {
            Token::Bad => Ok(false),
            Token::Key(_) => Ok(self.takes_name()),
            Token::BeginArray => self.begins(Open::Array),
            Token::BeginObject => self.begins(Open::Object),
            Token::EndArray => Ok(self.ends(Open::Array)),
            Token::EndObject => Ok(self.ends(Open::Object)),
            Token::String(_) | Token::Number(_) | Token::Bool(_) | Token::Null => {
                Ok(self.takes_value())
            }
        }
    }

    /// Whether a name may stand next.
    pub(crate) fn expects_name(&self) -> bool {
        match self.open.last() {
            Some(open) => *open == Open::Object,
            None => self.next == Next::Name,
        }
    }

    // A value stands alone, in an array or behind a name.
    fn takes_value(&mut self) -> bool {
        match self.open.last_mut() {
            Some(Open::Array) => true,
            Some(Open::Object) => false,
            Some(open) => {
                *open = Open::Object;
                true
            }
            None => {
                let may_stand = self.next == Next::Value;
                self.next = Next::Nothing;
                may_stand
            }
        }
    }

    fn takes_name(&mut self) -> bool {
        match self.open.last_mut() {
            Some(open) if *open == Open::Object => {
                *open = Open::Member;
                true
            }
            Some(_) => false,
            None => {
                let may_stand = self.next == Next::Name;
                self.next = Next::Value;
                may_stand
            }
        }
    }

    fn begins(&mut self, open: Open) -> Result<bool, AllocError> {
        if self.open.len() >= self.max_open || !self.takes_value() {
            return Ok(false);
        }
        self.open.push(open)?;
        Ok(true)
    }

    fn ends(&mut self, open: Open) -> bool {
        if self.open.last() != Some(&open) {
            return false;
        }
        self.open.pop();
        true
    }
}
