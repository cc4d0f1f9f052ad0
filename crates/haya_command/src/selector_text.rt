//! The text of a selector.
ghost use Rattle.std.specs.Prelude.{IfErr, OnOk};
ghost use Rattle.haya_command.specs.SelectorText.{IsOneSelector, IsSelectorFault};

use crate::error::CommandError;
use hayagriva::{Selector, SelectorError};
use std::alloc::Global;

/// Refuses a text that isn't one selector, with white space alone behind it. `Selector`: it begins
/// with none. `SelectorEnd`: what is behind the selector begins at this byte.
pub fn check_selector(alloc: Global, text: &str) -> Result<(), CommandError>
    ensures one { OnOk result (IsOneSelector text.now) }
    ensures fault { IfErr result (IsSelectorFault text.now) }
{
    match Selector::parse_prefix(alloc, text) {
        Ok((selector, end)) => {
            drop(selector);
            let rest = text[end..].trim_start();
            if rest.is_empty() {
                Ok(())
            } else {
                Err(CommandError::SelectorEnd(text.len() - rest.len()))
            }
        }
        Err(SelectorError::OutOfMemory) => Err(CommandError::OutOfMemory),
        Err(error) => Err(CommandError::Selector(error)),
    }
}
