//! The calls that make, change and free what C has pointers to.
ghost use Rattle.std.specs.Prelude.{◌≡◌, None, length};
ghost use Rattle.hayagriva_c.specs.Codes.{message_of};
ghost use Rattle.hayagriva_c.specs.Faults.{IsEmpty};
ghost use Rattle.hayagriva_c.specs.Making.{LibraryRead, SelectorRead};
ghost use Rattle.hayagriva_c.specs.Room.{filled};

use crate::fault::{Fault, Written};
use crate::held::Held;
use crate::room::fill;
use crate::{codes, making};
use hayagriva::HashKeys;
use std::alloc::Global;

/// The number of what the header declares. A program compares it with its header's.
#[unsafe(no_mangle)]
pub extern "C" fn haya_version() -> u32
    ensures { result ≡ 2 }
{
    2
}

/// The oldest header that this library still serves.
#[unsafe(no_mangle)]
pub extern "C" fn haya_version_least() -> u32
    ensures { result ≡ 2 }
{
    2
}

/// What a code says, in words: as many bytes of them as there is room for are written. The answer
/// is how many there are.
#[unsafe(no_mangle)]
pub extern "C" fn haya_message(code: u32, room: &mut [u8]) -> usize
    ensures len { result ≡ length (message_of code) }
    ensures bytes { room.new ≡ filled (message_of code) room.old }
{
    fill(codes::message(code).as_bytes(), room)
}

/// Reads a library. Its map hashes with the two keys. What the pointer led to before is freed.
#[unsafe(no_mangle)]
pub extern "C" fn haya_library_read(
    alloc: Global,
    text: &[u8],
    format: u32,
    first_key: u64,
    second_key: u64,
    library: &mut Held,
    fault: &mut Fault,
) -> u32
    ensures { LibraryRead format text.now result library.old library.new fault.old fault.new }
{
    let keys = HashKeys::new(first_key, second_key);
    making::library_read(alloc, keys, format, text, library, fault)
}

/// Reads the selector at the front of a text. `used` is then the byte at which it ends. What the
/// pointer led to before is freed.
#[unsafe(no_mangle)]
pub extern "C" fn haya_selector_read(
    alloc: Global,
    text: &[u8],
    used: &mut usize,
    selector: &mut Held,
    fault: &mut Fault,
) -> u32
    ensures { SelectorRead text.now result used.old used.new selector.old selector.new
        fault.old fault.new }
{
    making::selector_read(alloc, text, used, selector, fault)
}

/// Frees a library, or does nothing where there is none.
#[unsafe(no_mangle)]
pub extern "C" fn haya_library_free(library: Held) {
    drop(library);
}

/// Frees a selector, or does nothing where there is none.
#[unsafe(no_mangle)]
pub extern "C" fn haya_selector_free(selector: Held) {
    drop(selector);
}

/// Frees the words of a fault, which is empty then, and may be used or freed again.
#[unsafe(no_mangle)]
pub extern "C" fn haya_fault_free(alloc: Global, fault: &mut Fault)
    ensures { IsEmpty 0 fault.new }
{
    *fault = Fault::alone(alloc, codes::OK);
}

/// Frees a text that was written, which is empty then, and may be used or freed again.
#[unsafe(no_mangle)]
pub extern "C" fn haya_written_free(alloc: Global, written: &mut Written)
    ensures { (written.new.text.len ≡ 0) × (written.new.bytes.content ≡ None) }
{
    *written = Written::none(alloc);
}
