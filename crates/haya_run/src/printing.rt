//! Prints hits, a line each.
ghost use Rattle.std.specs.Prelude.{◌≡◌, ◌⊎◌, IfErr, List, ℕ, OnOk};
ghost use Rattle.std.specs.Io.KnownBytes.{Appends};
ghost use Rattle.haya_run.specs.declared.error.RunError.TheVariants.{CannotWrite, OutOfMemory};
ghost use Rattle.haya_hits.specs.Line.{AreLinesAt};
ghost use Rattle.haya_run.specs.Output.{PrintsPart};

use crate::error::RunError;
use haya_hits::push_line;
use haya_line_stream::write_all;
use hayagriva::Query;
use std::alloc::Global;
use std::io::Write;

/// Prints each hit's line before the next entry is evaluated. A line is composed whole and handed
/// on by one write, so at a fault the lines of a first part of the hits stand there, whole, and
/// behind them at most what a write that failed had taken of the next.
pub fn print_hits<W: Write>(alloc: Global, hits: &mut Query, out: &mut W) -> Result<(), RunError>
    ensures printed { OnOk result ((printed : List ℕ)
        × AreLinesAt hits.old.selector hits.old.left printed
        × Appends (W.contents out.old) (W.contents out.new) printed) }
    ensures part { IfErr result (PrintsPart hits.old.selector hits.old.left
        (W.contents out.old) (W.contents out.new)) }
    ensures fault { IfErr result (λ e. (e ≡ CannotWrite) ⊎ (e ≡ OutOfMemory)) }
{
    let mut line = String::new(alloc);
    'hits: for hit in hits {
        line.clear();
        push_line(alloc, &mut line, &hit?)?;
        write_all(out, line.as_str())?;
    }
    match out.flush() {
        Ok(()) => Ok(()),
        Err(_) => Err(RunError::CannotWrite),
    }
}
