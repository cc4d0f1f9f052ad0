//! Prints the entries that a selector picks from a library on standard input.
#![tactic(auto)]

mod arguments;

use arguments::words;
use haya_run::run_given;
use hayagriva::HashKeys;
use std::process::ExitCode;

fn main(rt: HostRuntime) -> ExitCode {
    let (mut input, mut out, mut err) = (rt.stdin(), rt.stdout(), rt.stderr());
    // Keys of entries that were made to collide are to cost no more than others.
    let keys = HashKeys::random(&rt).ok();
    run_given(rt.alloc(), words(&rt), keys, &mut input, &mut out, &mut err)
}
