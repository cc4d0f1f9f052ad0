//! What was passed over of a text.
ghost use Rattle.std.specs.Prelude.{◌≡◌, ◌∷◌, ◌++◌, [], IfOk, OnOk};
ghost use Rattle.haya_json.specs.Notes.{notes_view};
ghost use Rattle.hayagriva_c.specs.Noted.{noted};

use haya_json::Notes;
use haya_text::OutOfMemory;
use std::alloc::Global;

/// A name that was passed over, and how often it came.
#[derive(Drop)]
pub struct Noted {
    pub name: String,
    pub count: u64,
}

/// The names that notes count, each with how often it came.
pub fn counted(alloc: Global, notes: &Notes) -> Result<Vec<Noted>, OutOfMemory>
    ensures { IfOk result (λ rows. noted rows.items ≡ (notes_view notes.now).counts) }
{
    let mut rows = Vec::new(alloc);
    'names: for row in notes.ignored() {
        push_row(alloc, &mut rows, row)?;
    }
    Ok(rows)
}

// Puts a name with its count behind others.
fn push_row(alloc: Global, rows: &mut Vec<Noted>, row: (&str, u64)) -> Result<(), OutOfMemory>
    ensures { OnOk result (noted rows.new.items
        ≡ noted rows.old.items ++ (row.entry.0.now, row.entry.1) ∷ []) }
{
    let (name, count) = row;
    let name = String::from_str(alloc, name)?;
    rows.push(Noted { name, count })?;
    Ok(())
}
