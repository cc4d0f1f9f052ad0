//! What lines leave out of the entries that are printed, as it is told.
ghost use Rattle.std.specs.Prelude.{◌≡◌, [], OnOk};

use crate::shown::shown_key;
use haya_printing::LeftOut;
use haya_text::OutOfMemory;
use std::alloc::Global;

// So many entries are told; the others are counted.
const MOST: usize = 10;

/// What lines leave out of the entries that are printed: a line for each of the first ten, and how
/// many there are more.
#[derive(Debug, Drop)]
pub struct LeftNotes {
    text: String,
    lines: usize,
    more: u64,
}

impl LeftNotes {
    /// Notes of no entry.
    pub fn new(alloc: Global) -> LeftNotes {
        LeftNotes {
            text: String::new(alloc),
            lines: 0,
            more: 0,
        }
    }

    /// Notes what is left out of the entry with this key and of its ancestors, if anything is.
    pub(crate) fn add(
        &mut self,
        alloc: Global,
        key: &str,
        left_out: &[LeftOut],
    ) -> Result<(), OutOfMemory>
        ensures nothing { left_out.now ≡ [] → OnOk result (self.new ≡ self.old) }
    {
        if left_out.is_empty() {
            return Ok(());
        }
        if self.lines >= MOST {
            self.more = self.more.saturating_add(1);
            return Ok(());
        }
        let line = line_of(alloc, key, left_out)?;
        self.text.push_str(line.as_str())?;
        self.lines += 1;
        Ok(())
    }

    /// What is told: the lines, and how many entries there are more.
    pub fn text(&self, alloc: Global) -> Result<String, OutOfMemory> {
        let lines = self.text.as_str();
        let more = self.more;
        let rest = "not printed whole in lines";
        match more {
            0 => Ok(String::from_str(alloc, lines)?),
            1 => Ok(format!(in alloc; "{lines}haya: 1 more entry was {rest}\n")?),
            _ => Ok(format!(in alloc; "{lines}haya: {more} more entries were {rest}\n")?),
        }
    }
}

// The line of an entry.
fn line_of(alloc: Global, key: &str, left_out: &[LeftOut]) -> Result<String, OutOfMemory> {
    let mut parts = String::new(alloc);
    'parts: for left in left_out {
        if !parts.is_empty() {
            parts.push_str(", ")?;
        }
        let part = part_text(alloc, key, left)?;
        parts.push_str(part.as_str())?;
    }
    let key = shown_key(alloc, key)?;
    Ok(format!(in alloc; "haya: `{key}`: not printed in lines: {parts}\n")?)
}

// A part of the entry with this key, or of an ancestor, whose key is told.
fn part_text(alloc: Global, key: &str, left: &LeftOut) -> Result<String, OutOfMemory> {
    let part = left.part;
    if left.key.as_str() == key {
        return Ok(format!(in alloc; "{part}")?);
    }
    let ancestor = shown_key(alloc, left.key.as_str())?;
    Ok(format!(in alloc; "{part} of `{ancestor}`")?)
}
