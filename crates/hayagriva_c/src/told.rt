//! Why a text is refused, in parts and in words.
ghost use Rattle.std.specs.Prelude.{[], string_bytes};
ghost use Rattle.hayagriva_c.specs.Told.{IsMemoryTold, IsTold};

use crate::codes;
use haya_json::Position;
use std::alloc::Global;

/// The words for why a text is refused: the JSON Pointer of a value, the name that is unknown, and
/// all of it.
#[derive(Drop)]
pub struct Words {
    pub pointer: Vec<u8>,
    pub name: Vec<u8>,
    pub reason: Vec<u8>,
}

/// Why a text is refused: a code, the place in parts, and words.
#[derive(Drop)]
pub struct Told {
    pub code: u32,
    pub offset: usize,
    pub line: usize,
    pub column: usize,
    pub words: Words,
}

impl Told {
    /// A code alone, without words.
    pub fn alone(alloc: Global, code: u32) -> Told
        ensures { IsTold code 0 0 0 [] [] [] result }
    {
        Told {
            code,
            offset: 0,
            line: 0,
            column: 0,
            words: Words {
                pointer: Vec::new(alloc),
                name: Vec::new(alloc),
                reason: Vec::new(alloc),
            },
        }
    }

    /// No memory for the words.
    pub fn memory(alloc: Global) -> Told
        ensures { IsMemoryTold result }
    {
        Told::alone(alloc, codes::OUT_OF_MEMORY)
    }

    /// An input is refused at a place, of the value with a JSON Pointer, with all of it in words.
    pub fn of_input(
        alloc: Global,
        code: u32,
        place: Position,
        pointer: String,
        reason: String,
    ) -> Told
        ensures { IsTold code 0 place.line place.column
            (string_bytes pointer) [] (string_bytes reason) result }
    {
        Told {
            code,
            offset: 0,
            line: place.line,
            column: place.column,
            words: Words {
                pointer: pointer.into_bytes(),
                name: Vec::new(alloc),
                reason: reason.into_bytes(),
            },
        }
    }

    /// A selector is refused at a byte, for the name that is unknown, with all of it in words.
    pub fn of_selector(
        alloc: Global,
        code: u32,
        offset: usize,
        name: Vec<u8>,
        reason: String,
    ) -> Told
        ensures { IsTold code offset 0 0 [] name.items (string_bytes reason) result }
    {
        Told {
            code,
            offset,
            line: 0,
            column: 0,
            words: Words {
                pointer: Vec::new(alloc),
                name,
                reason: reason.into_bytes(),
            },
        }
    }
}
