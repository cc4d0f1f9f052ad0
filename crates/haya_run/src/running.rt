//! The whole program, but for where its words, its input and its output come from.
ghost use Rattle.std.specs.Prelude.{◌≡◌, ◌≢◌, ◌≤◌, length, slice_get, string_bytes, IfErr, IfSome};
ghost use Rattle.std.specs.Prelude.{IsErrOf, OnOk};
ghost use Rattle.std.specs.Io.KnownBytes.{Keeps};
ghost use Rattle.std.specs.Process.{exit_status};
ghost use Rattle.haya_run.specs.declared.error.RunError.{RunError as FaultData};
ghost use Rattle.haya_run.specs.declared.error.RunError.TheVariants.{Usage};
ghost use Rattle.haya_run.specs.Output.{Answers, KeepsAtFault, Stands};
ghost use Rattle.haya_run.specs.Words.{IsStatus, words_of};

use crate::error::RunError;
use crate::printing::print_hits;
use haya_line_library::read_library;
use haya_line_stream::read_all;
use hayagriva::HashKeys;
use std::alloc::Global;
use std::io::{Read, Write};
use std::mem;
use std::process::ExitCode;

/// Runs the program over the words that were given, and answers how the process is to end: as `run`
/// says, or with the fault that there are no words. The library's map hashes with the keys; where
/// there are none, the input can't be read.
pub fn run_given<R: Read, W: Write, E: Write>(
    alloc: Global,
    given: Result<Vec<String>, RunError>,
    keys: Option<HashKeys>,
    input: &mut R,
    out: &mut W,
    err: &mut E,
) -> ExitCode
    ensures answer { exit_status result ≡ 0 → IfSome (slice_get (words_of given) 0) (λ word.
        Answers (string_bytes word) (R.remaining input.old) (R.remaining input.new)
        (W.contents out.old) (W.contents out.new)) }
    ensures quiet { exit_status result ≡ 0 → Keeps (E.contents err.old) (E.contents err.new) }
    ensures status { IsStatus given (exit_status result) }
    ensures silent { length (words_of given) ≢ 1 → Keeps (W.contents out.old) (W.contents out.new) }
    ensures unread { length (words_of given) ≢ 1
        → Keeps (R.remaining input.old) (R.remaining input.new) }
    ensures stands { exit_status result ≢ 0 → IfSome (slice_get (words_of given) 0) (λ word.
        (fault : FaultData) × Stands (string_bytes word) (R.remaining input.old)
        (R.remaining input.new) (W.contents out.old) (W.contents out.new) fault) }
    ensures kept { IfSome (slice_get (words_of given) 0) (λ word. KeepsAtFault (string_bytes word)
        (R.remaining input.old) (W.contents out.old) (W.contents out.new)) }
{
    match given {
        Ok(words) => {
            let ended = answer(alloc, words.as_slice(), keys, input, out);
            ExitCode::from(conclude(&ended, err))
        }
        Err(fault) => ExitCode::from(complain(&fault, err)),
    }
}

/// Runs the program and answers the status that the process is to end with. `words` are the
/// arguments without the program's own name. A fault is one line on `err`. The library's map hashes
/// with keys that are always the same.
pub fn run<R: Read, W: Write, E: Write>(
    alloc: Global,
    words: &[String],
    input: &mut R,
    out: &mut W,
    err: &mut E,
) -> u8
    ensures answer { result ≡ 0 → IfSome (slice_get words.now 0) (λ word.
        Answers (string_bytes word) (R.remaining input.old) (R.remaining input.new)
        (W.contents out.old) (W.contents out.new)) }
    ensures quiet { result ≡ 0 → Keeps (E.contents err.old) (E.contents err.new) }
    ensures usage { length words.now ≢ 1 → result ≡ 2 }
    ensures other { length words.now ≡ 1 → result ≤ 1 }
    ensures silent { length words.now ≢ 1 → Keeps (W.contents out.old) (W.contents out.new) }
    ensures unread { length words.now ≢ 1 → Keeps (R.remaining input.old) (R.remaining input.new) }
    ensures stands { result ≢ 0 → IfSome (slice_get words.now 0) (λ word.
        (fault : FaultData) × Stands (string_bytes word) (R.remaining input.old)
        (R.remaining input.new) (W.contents out.old) (W.contents out.new) fault) }
    ensures kept { IfSome (slice_get words.now 0) (λ word. KeepsAtFault (string_bytes word)
        (R.remaining input.old) (W.contents out.old) (W.contents out.new)) }
{
    let ended = answer(alloc, words, Some(HashKeys::new(0, 0)), input, out);
    conclude(&ended, err)
}

// Tells the fault, if there is one, and answers the status that it ends with, or 0.
fn conclude<E: Write>(ended: &Result<(), RunError>, err: &mut E) -> u8
    ensures ok { OnOk ended.now ((result ≡ 0) × (err.new ≡ err.old)) }
    ensures usage { IsErrOf ended.now Usage → result ≡ 2 }
    ensures other { IfErr ended.now (λ e. e ≢ Usage → result ≡ 1) }
{
    match ended {
        Ok(()) => 0,
        Err(fault) => complain(fault, err),
    }
}

// Tells the fault in one line, and answers the status that it ends with.
fn complain<E: Write>(fault: &RunError, err: &mut E) -> u8
    ensures usage { fault.now ≡ Usage → result ≡ 2 }
    ensures other { fault.now ≢ Usage → result ≡ 1 }
{
    // Where this fails, the status says it all.
    let _ = writeln!(err, "{fault}");
    let _ = err.flush();
    fault.status()
}

// Answers the one word that there is to be, and the library's map hashes with the keys.
fn answer<R: Read, W: Write>(
    alloc: Global,
    words: &[String],
    keys: Option<HashKeys>,
    input: &mut R,
    out: &mut W,
) -> Result<(), RunError>
    ensures answer { OnOk result (IfSome (slice_get words.now 0) (λ word.
        Answers (string_bytes word) (R.remaining input.old) (R.remaining input.new)
        (W.contents out.old) (W.contents out.new))) }
    ensures usage { length words.now ≢ 1 → IsErrOf result Usage }
    ensures other { length words.now ≡ 1 → IfErr result (λ e. e ≢ Usage) }
    ensures silent { length words.now ≢ 1 → Keeps (W.contents out.old) (W.contents out.new) }
    ensures unread { length words.now ≢ 1 → Keeps (R.remaining input.old) (R.remaining input.new) }
    ensures stands { IfErr result (λ e. IfSome (slice_get words.now 0) (λ word.
        Stands (string_bytes word) (R.remaining input.old) (R.remaining input.new)
        (W.contents out.old) (W.contents out.new) e)) }
    ensures kept { IfSome (slice_get words.now 0) (λ word. KeepsAtFault (string_bytes word)
        (R.remaining input.old) (W.contents out.old) (W.contents out.new)) }
{
    let [word] = words else {
        return Err(RunError::Usage);
    };
    let Some(keys) = keys else {
        return Err(RunError::CannotRead);
    };
    answer_word(alloc, word.as_str(), keys, input, out)
}

// Reads the library, asks it, and prints the hits as they come.
fn answer_word<R: Read, W: Write>(
    alloc: Global,
    word: &str,
    keys: HashKeys,
    input: &mut R,
    out: &mut W,
) -> Result<(), RunError>
    ensures answer { OnOk result (Answers word.now (R.remaining input.old)
        (R.remaining input.new) (W.contents out.old) (W.contents out.new)) }
    ensures other { IfErr result (λ e. e ≢ Usage) }
    ensures stands { IfErr result (Stands word.now (R.remaining input.old)
        (R.remaining input.new) (W.contents out.old) (W.contents out.new)) }
    ensures kept { KeepsAtFault word.now (R.remaining input.old) (W.contents out.old)
        (W.contents out.new) }
{
    let bytes = read_all(alloc, input, &mut ())?;
    let Ok(text) = str::from_utf8(bytes.as_slice()) else {
        return Err(RunError::NotText);
    };
    let library = read_library(alloc, keys, text)?;
    let mut hits = library.query_iter(alloc, word)?;
    let printed = print_hits(alloc, &mut hits, out);
    drop(hits);
    // The process ends with this answer, and gives all memory back at once: entry by entry that
    // takes longer than any selector.
    mem::forget(library);
    printed
}
