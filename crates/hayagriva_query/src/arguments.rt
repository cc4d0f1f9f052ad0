//! The arguments of the process, as words.
ghost use Rattle.std.specs.Prelude.{◌≡◌, ◌≢◌, ◌⊎◌, IfErr};
ghost use Rattle.std.specs.IoError.{error_kind};
ghost use Rattle.std.specs.declared.io.ErrorKind.TheVariants.{OutOfMemory as NoMemory};
ghost use Rattle.haya_run.specs.declared.error.RunError.TheVariants.{OutOfMemory, Usage};

use haya_run::RunError;
use std::{env, io};

/// The arguments without the program's own name. Where one isn't UTF-8, they are wrong as a whole:
/// `Usage`. The only other fault is that an allocation fails.
pub fn words(rt: &(impl env::Env + AllocGlobal)) -> Result<Vec<String>, RunError>
    ensures { IfErr result (λ e. (e ≡ Usage) ⊎ (e ≡ OutOfMemory)) }
{
    match env::args(rt) {
        Ok(all) => Ok(all.skip(1).collect(rt.alloc())?),
        Err(error) => Err(fault_of(&error)),
    }
}

// What it says of the arguments that they can't be had.
fn fault_of(error: &io::Error) -> RunError
    ensures memory { error_kind error.now ≡ NoMemory → result ≡ OutOfMemory }
    ensures other { error_kind error.now ≢ NoMemory → result ≡ Usage }
{
    match error.kind() {
        io::ErrorKind::OutOfMemory => RunError::OutOfMemory,
        _ => RunError::Usage,
    }
}
