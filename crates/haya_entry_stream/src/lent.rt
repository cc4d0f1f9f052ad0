//! A reader that is lent to another one.
ghost use Rattle.std.specs.Prelude.{◌==◌, ℕ};
ghost use Rattle.haya_entry_stream.specs.Lent.{known_while};

use std::io;
use std::io::Read;
use std::marker::{Brand, PhantomData};

// Which reference is lent: the one of this name.
pub(crate) trait Loan {
    ghost name: { ℕ };
}

impl Loan for Brand {
    ghost name = { 0 };
}

// A reader that is lent. What it has left counts as known only behind the reference of the loan, so
// that one who reads known bytes is known to keep that reference.
#[derive(Drop)]
pub(crate) struct Lent<'r, R, K> {
    pub(crate) reader: &'r mut R,
    pub(crate) loan: PhantomData<K>,
}

impl<'r, R: Read, K: Loan> Read for Lent<'r, R, K> {
    ghost remaining = { λ s.
        known_while (s.reader.ghost_name == K.name) (R.remaining s.reader.now) };

    fn read(&mut self, buf: &mut [u8]) -> io::Result<usize> {
        self.reader.read(buf)
    }
}
