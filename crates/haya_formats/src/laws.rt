//! A law of the definitions. A call of it, `first_block_tells();`, gives its statement to the caller's
//! proof.
ghost use Rattle.std.specs.Prelude.{◌≡◌, ◌≤◌, ◌++◌, ℕ, List, Option, length};
ghost use Rattle.haya_formats.specs.Formats.{format_for};
ghost use Rattle.haya_formats.specs.Likeness.{foreign_for};
ghost use Rattle.haya_formats.specs.declared.block.TheConstants.{FIRST_BLOCK};
ghost use Rattle.haya_formats.specs.declared.format.Format.{Format as FormatData};

/// What an input is is seen of its first block: whatever is behind that changes neither its format
/// nor whether it is foreign. So an input that is asked as it is read is taken for the same as one
/// that is read as a whole.
pub fn first_block_tells()
    ensures format { (given : Option FormatData) (first rest : List ℕ) →
        FIRST_BLOCK ≤ length first → format_for given (first ++ rest) ≡ format_for given first }
    ensures foreign { (given : Option FormatData) (first rest : List ℕ) →
        FIRST_BLOCK ≤ length first → foreign_for given (first ++ rest) ≡ foreign_for given first }
{}
