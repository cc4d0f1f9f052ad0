//! The calls that change what a pointer of C's leads to.
ghost use Rattle.std.specs.Borrow.{sem};
ghost use Rattle.hayagriva_c.specs.Changing.{PushGives, RemoveGives};
ghost use Rattle.hayagriva_c.specs.Owned.{owned, owned_as};
ghost use Rattle.hayagriva_c.specs.contracts.content.Content.{the_row};

use crate::changes;
use crate::content::Content;
use crate::fault::Fault;

/// Puts the entry that a text says into a library, in the place of the one with its key, or last.
#[unsafe(no_mangle)]
pub unsafe extern "C" fn haya_library_push(library: *mut u8, text: &[u8], fault: &mut Fault) -> u32
    ghost was: { the_row.Denot }
    requires* { sem 𝓛 (owned library was) }
    ensures* { sem 𝓛 (owned_as library
        (λ now. PushGives text.now was now result fault.old fault.new)) }
{
    changes::library_push(&mut *library.cast::<Content>(), text, fault)
}

/// Takes the entry with a key out of a library, and closes up the others.
#[unsafe(no_mangle)]
pub unsafe extern "C" fn haya_library_remove(library: *mut u8, key: &[u8]) -> u32
    ghost was: { the_row.Denot }
    requires* { sem 𝓛 (owned library was) }
    ensures* { sem 𝓛 (owned_as library (λ now. RemoveGives key.now was now result)) }
{
    changes::library_remove(&mut *library.cast::<Content>(), key)
}
