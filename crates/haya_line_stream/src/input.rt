//! Reads all that a reader has left.
ghost use Rattle.std.specs.Prelude.{◌≡◌, ◌<◌, ℕ, List, Option, Ok, Some, length, IfOk, OnOk};
ghost use Rattle.std.specs.Io.KnownBytes.{Consumes, IsAtEnd};

use std::alloc::Global;
use std::io;
use std::io::Read;

/// Counts the bytes of an input as they are read; `()` counts none.
pub trait ByteCounter {
    /// So many bytes more were read.
    fn add(&mut self, bytes: usize);
}

impl ByteCounter for () {
    fn add(&mut self, _bytes: usize) {}
}

/// All bytes that the reader has left, up to its end. A read that is only interrupted is tried
/// again. The error is that of a read that fails otherwise, of the kind `OutOfMemory` where an
/// allocation failed, or of the kind `Other` where 18446744073709551615 reads don't reach the end.
pub fn read_all<R: Read, C: ByteCounter>(
    alloc: Global,
    reader: &mut R,
    counter: &mut C,
) -> io::Result<Vec<u8>>
    ensures bytes { IfOk result (λ bytes.
        Consumes (R.remaining reader.old) (R.remaining reader.new) bytes.items) }
    ensures end { OnOk result (IsAtEnd (R.remaining reader.new)) }
{
    let mut bytes = Vec::new(alloc);
    let mut chunk = [0u8; 65536];
    'reads: for _ in 0..u64::MAX {
        match read_more(reader, &mut chunk, &mut bytes)? {
            Some(0) => return Ok(bytes),
            Some(taken) => counter.add(taken),
            None => {}
        }
    }
    Err(io::Error::from(io::ErrorKind::Other))
}

// Reads once, and puts what it takes behind the bytes: how many there are, 0 at the end, and none
// where the read was interrupted.
fn read_more<R: Read>(
    reader: &mut R,
    chunk: &mut [u8],
    bytes: &mut Vec<u8>,
) -> io::Result<Option<usize>>
    requires { 0 < length chunk.old }
    ensures bytes { OnOk result ((start : Option (List ℕ)) →
        Consumes start (R.remaining reader.old) bytes.old.items →
        Consumes start (R.remaining reader.new) bytes.new.items) }
    ensures end { result ≡ Ok (Some 0) → IsAtEnd (R.remaining reader.new) }
{
    match reader.read(chunk) {
        Ok(taken) => {
            bytes.extend_from_slice(&chunk[..taken])?;
            Ok(Some(taken))
        }
        Err(error) => {
            if error.kind() == io::ErrorKind::Interrupted {
                return Ok(None);
            }
            Err(error)
        }
    }
}
