//! The first name that comes twice in one map.
use haya_yaml_text::output::Place;
use json::{Reader, Scratch, Token};
use std::alloc::{AllocError, Global};

// A key: the number of its map, its name, and its number among all keys.
#[derive(Clone, Copy, Drop, PartialEq, Eq, PartialOrd, Ord)]
struct Key<'a> {
    map: usize,
    name: &'a str,
    number: usize,
}

// The keys of a text in JSON, or of the front of one.
fn keys_of<'a>(alloc: Global, reader: &mut Reader<'a>) -> Result<Vec<Key<'a>>, AllocError> {
    let mut keys = Vec::new(alloc);
    let mut open: Vec<usize> = Vec::new(alloc);
    let mut maps: usize = 0;
    let mut number: usize = 0;
    'tokens: while let Some(token) = reader.next() {
        match token {
            Token::BeginObject => {
                maps = maps.saturating_add(1);
                open.push(maps)?;
            }
            Token::BeginArray => open.push(0)?,
            Token::EndObject | Token::EndArray => {
                let _ = open.pop();
            }
            Token::Key(name) => {
                let map = match open.last() {
                    Some(map) => *map,
                    None => 0,
                };
                keys.push(Key { map, name, number })?;
                number = number.saturating_add(1);
            }
            _ => {}
        }
    }
    Ok(keys)
}

// The least number of a key that comes behind another of its map with its name, in sorted keys.
fn least_second(keys: &[Key<'_>]) -> Option<usize> {
    let mut least: Option<usize> = None;
    let mut index = 1;
    'keys: while index < keys.len() {
        let before = &keys[index - 1];
        let key = &keys[index];
        if before.map == key.map && before.name == key.name {
            least = match least {
                Some(number) if number < key.number => Some(number),
                _ => Some(key.number),
            };
        }
        index += 1;
    }
    least
}

/// The number, from 0 on, of the first key in a text in JSON, or in the front of one, that its map
/// has twice, or `None` without one. The error: there was no memory for the keys.
pub(crate) fn second_key(alloc: Global, bytes: &[u8]) -> Result<Option<usize>, AllocError> {
    let mut scratch = Scratch::new(alloc);
    let Ok(text) = str::from_utf8(bytes) else {
        return Ok(None);
    };
    let mut reader = Reader::new(text, &mut scratch)?;
    let mut keys = keys_of(alloc, &mut reader)?;
    keys.sort_unstable();
    Ok(least_second(keys.as_slice()))
}
