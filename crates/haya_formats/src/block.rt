//! The first bytes of an input, of which its format is seen.
ghost use Rattle.std.specs.Prelude.{◌≡◌, ◌≤◌, ◌⊎◌, length, take, IfOk};
ghost use Rattle.std.specs.Io.KnownBytes.{Consumes, IsAtEnd};
ghost use Rattle.haya_formats.specs.Block.{first_text, without_mark};

use std::io;
use std::io::Read;

/// How many bytes of an input are looked at, where no format is given.
pub const FIRST_BLOCK: usize = 4096;

/// So many, behind a byte order mark.
pub const MARKED_BLOCK: usize = FIRST_BLOCK + 3;

/// How many first bytes tell a file that isn't text.
pub const SIGNATURE_LEN: usize = 16;

/// The bytes without the byte order mark of UTF-8 that they may begin with.
pub fn without_mark(bytes: &[u8]) -> &[u8]
    ensures { result.now ≡ without_mark bytes.now }
{
    match bytes {
        [0xef, 0xbb, 0xbf, rest @ ..] => rest,
        _ => bytes,
    }
}

/// The text that the bytes begin with: of the first `FIRST_BLOCK` bytes those in front of the first
/// that isn't UTF-8.
pub fn first_text(bytes: &[u8]) -> &str
    ensures { result.now ≡ first_text bytes.now }
{
    let block = &bytes[..bytes.len().min(FIRST_BLOCK)];
    match str::from_utf8(block) {
        Ok(text) => text,
        Err(error) => match str::from_utf8(&block[..error.valid_up_to()]) {
            Ok(text) => text,
            Err(_) => unreachable!(),
        },
    }
}

/// Fills the block from the reader, as far as that has bytes: so many are in front of it then. A
/// read that is only interrupted is tried again. The error is that of a read that fails otherwise:
/// what was read before is lost.
pub fn read_block<R: Read>(reader: &mut R, block: &mut [u8]) -> io::Result<usize>
    ensures within { IfOk result (λ n. n ≤ length block.new) }
    ensures bytes { IfOk result (λ n.
        Consumes (R.remaining reader.old) (R.remaining reader.new) (take n block.new)) }
    ensures full { IfOk result (λ n.
        (n ≡ length block.new) ⊎ IsAtEnd (R.remaining reader.new)) }
{
    let mut filled = 0;
    'reads: for _ in 0..u64::MAX {
        if filled == block.len() {
            return Ok(filled);
        }
        match reader.read(&mut block[filled..]) {
            Ok(0) => return Ok(filled),
            Ok(taken) => filled += taken,
            Err(error) => {
                if error.kind() != io::ErrorKind::Interrupted {
                    return Err(error);
                }
            }
        }
    }
    Err(io::Error::from(io::ErrorKind::Other))
}
