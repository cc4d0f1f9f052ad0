//! Where a value is that steps lead to.
use haya_json::Step;
use json::{Reader, Scratch, Token};
use std::alloc::{AllocError, Global};

// How far a walk over tokens has gone the steps.
#[derive(Drop)]
struct Walk {
    // How many lists and maps are open.
    open: usize,
    // How many steps are gone.
    gone: usize,
    // How many items are behind in the list that the next step goes into.
    items: usize,
    // Whether the next value is the one that the next step leads to.
    is_next: bool,
    // How many keys are behind.
    keys: usize,
    // The number of the last key that was stepped to.
    found: Option<usize>,
}

/// The number among the keys of a text in JSON, from 0 on, of the last one that these steps go
/// through, or `None` where they go through none. The error: there was no memory to look for it.
pub(crate) fn key_number(
    alloc: Global,
    json: &str,
    steps: &[Step],
) -> Result<Option<usize>, AllocError> {
    let mut scratch = Scratch::new(alloc);
    let mut reader = Reader::new(json, &mut scratch)?;
    let mut walk = Walk {
        open: 0,
        gone: 0,
        items: 0,
        is_next: false,
        keys: 0,
        found: None,
    };
    'tokens: while let Some(token) = reader.next() {
        match steps.get(walk.gone) {
            Some(step) => walk.pass(step, token),
            None => break,
        }
    }
    Ok(walk.found)
}

impl Walk {
    // Goes on behind a token, where this is the next step.
    fn pass(&mut self, step: &Step, token: Token<'_>) {
        match token {
            Token::Key(name) => self.pass_key(step, name),
            Token::EndObject | Token::EndArray => self.open = self.open.saturating_sub(1),
            Token::BeginObject | Token::BeginArray => {
                self.pass_value(step);
                self.open = self.open.saturating_add(1);
            }
            _ => self.pass_value(step),
        }
    }

    // Whether a token is right inside the list or map that the next step goes into.
    fn is_inside(&self) -> bool {
        self.open == self.gone.saturating_add(1)
    }

    fn pass_key(&mut self, step: &Step, name: &str) {
        if let Step::Name(wanted) = step {
            if self.is_inside() && wanted.as_str() == name {
                self.found = Some(self.keys);
                self.is_next = true;
            }
        }
        self.keys = self.keys.saturating_add(1);
    }

    fn pass_value(&mut self, step: &Step) {
        if let Step::Place(wanted) = step {
            if self.is_inside() {
                self.is_next = self.items == *wanted;
                self.items = self.items.saturating_add(1);
            }
        }
        if self.is_next {
            self.gone = self.gone.saturating_add(1);
            self.items = 0;
            self.is_next = false;
        }
    }
}
