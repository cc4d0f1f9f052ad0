//! Texts that are written into a room of the caller's.
ghost use Rattle.std.specs.Prelude.{◌≡◌, length};
ghost use Rattle.hayagriva_c.specs.Room.{filled};

use std::cmp;

/// Writes as many bytes of the text as there is room for. The answer is how many it has.
pub fn fill(text: &[u8], room: &mut [u8]) -> usize
    ensures len { result ≡ length text.now }
    ensures bytes { room.new ≡ filled text.now room.old }
{
    let count = cmp::min(text.len(), room.len());
    room[..count].copy_from_slice(&text[..count]);
    text.len()
}
