//! How far the reading of a long input is, shown to a person.
use haya_line_stream::ByteCounter;
use std::io::Write;

// A line is shown at each ten megabytes.
const STEP: u64 = 10_000_000;

/// Counts the bytes of an input as they are read, and shows them where somebody looks.
#[derive(Drop)]
pub struct Progress<'e, E> {
    err: &'e mut E,
    is_shown: bool,
    read: u64,
}

impl<'e, E: Write> Progress<'e, E> {
    /// Of inputs that are read one after another; shown on this writer, or not at all.
    pub fn new(err: &'e mut E, is_shown: bool) -> Self {
        Progress {
            err,
            is_shown,
            read: 0,
        }
    }

    /// Takes away what was shown.
    pub fn end(&mut self) {
        if self.is_shown && self.read >= STEP {
            let _ = write!(self.err, "\r                              \r");
            let _ = self.err.flush();
        }
    }
}

impl<E: Write> ByteCounter for Progress<'_, E> {
    /// Shows the count where a step is passed.
    fn add(&mut self, bytes: usize) {
        let before = self.read / STEP;
        self.read = self.read.saturating_add(bytes as u64);
        if self.is_shown && self.read / STEP > before {
            let _ = write!(self.err, "\rhaya: {} MB read", self.read / 1_000_000);
            let _ = self.err.flush();
        }
    }
}
