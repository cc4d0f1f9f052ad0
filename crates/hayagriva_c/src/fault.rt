//! What C is told of a refusal, and a text that was written for it.
ghost use Rattle.std.specs.Prelude.{◌≡◌, ◌⊎◌, None};
ghost use Rattle.hayagriva_c.specs.Faults.{IsEmpty, IsMemory, IsWrittenOut, Tells};

use crate::codes;
use crate::content::{Content, boxed};
use crate::held::Held;
use crate::texts::{Text, text_of};
use crate::told::Told;
use std::alloc::Global;

/// Why a call refused, in parts and in words.
#[repr(C)]
#[derive(Drop)]
pub struct Fault {
    /// The code.
    pub code: u32,
    /// The byte of a selector at which it is seen.
    pub offset: usize,
    /// The line of an input, from 1 on, or 0.
    pub line: usize,
    /// The character of that line, from 1 on, or 0.
    pub column: usize,
    /// The JSON Pointer of the value that is refused.
    pub pointer: Text,
    /// The name that is unknown.
    pub name: Text,
    /// All of it, in words.
    pub reason: Text,
    /// What has the words.
    pub words: Held,
}

impl Fault {
    /// What is told, or that an allocation fails.
    pub fn of(alloc: Global, told: Told) -> Fault
        ensures { Tells told result ⊎ IsMemory result }
    {
        let Told {
            code,
            offset,
            line,
            column,
            words,
        } = told;
        let (pointer, name, reason) = (
            text_of(&words.pointer),
            text_of(&words.name),
            text_of(&words.reason),
        );
        match boxed(alloc, Content::Words(words)) {
            Some(content) => Fault {
                code,
                offset,
                line,
                column,
                pointer,
                name,
                reason,
                words: Held::of(content),
            },
            None => Fault::alone(alloc, codes::OUT_OF_MEMORY),
        }
    }

    /// A code without words.
    pub fn alone(alloc: Global, code: u32) -> Fault
        ensures { IsEmpty code result }
    {
        Fault {
            code,
            offset: 0,
            line: 0,
            column: 0,
            pointer: no_text(alloc),
            name: no_text(alloc),
            reason: no_text(alloc),
            words: Held::none(alloc),
        }
    }
}

// A text of no bytes.
fn no_text(alloc: Global) -> Text
    ensures { result.len ≡ 0 }
{
    let none: Vec<u8> = Vec::new(alloc);
    text_of(&none)
}

/// A text that was written for C.
#[repr(C)]
#[derive(Drop)]
pub struct Written {
    /// Its bytes.
    pub text: Text,
    /// What has them.
    pub bytes: Held,
}

impl Written {
    /// The bytes, if they can be kept.
    pub fn of(alloc: Global, bytes: Vec<u8>) -> Option<Written>
        ensures { IsWrittenOut bytes result }
    {
        let text = text_of(&bytes);
        match boxed(alloc, Content::Text(bytes)) {
            Some(content) => Some(Written {
                text,
                bytes: Held::of(content),
            }),
            None => None,
        }
    }

    /// No bytes.
    pub fn none(alloc: Global) -> Written
        ensures { (result.text.len ≡ 0) × (result.bytes.content ≡ None) }
    {
        Written {
            text: no_text(alloc),
            bytes: Held::none(alloc),
        }
    }
}
