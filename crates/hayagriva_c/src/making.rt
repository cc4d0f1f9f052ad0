//! Libraries and selectors behind pointers, or what is told where there is none.
ghost use Rattle.hayagriva_c.specs.Making.{LibraryRead, SelectorRead};

use crate::codes;
use crate::content::{Content, boxed};
use crate::fault::Fault;
use crate::held::Held;
use crate::reading::{library_of, selector_of};
use hayagriva::HashKeys;
use std::alloc::Global;

/// Makes the library that bytes say, or tells why they say none.
pub fn library_read(
    alloc: Global,
    keys: HashKeys,
    format: u32,
    bytes: &[u8],
    library: &mut Held,
    fault: &mut Fault,
) -> u32
    ensures { LibraryRead format bytes.now result library.old library.new fault.old fault.new }
{
    match library_of(alloc, keys, format, bytes) {
        Ok(shelf) => match boxed(alloc, Content::Library(shelf)) {
            Some(content) => {
                *library = Held::of(content);
                codes::OK
            }
            None => {
                *fault = Fault::alone(alloc, codes::OUT_OF_MEMORY);
                codes::OUT_OF_MEMORY
            }
        },
        Err(told) => {
            let code = told.code;
            *fault = Fault::of(alloc, told);
            code
        }
    }
}

/// Makes the selector at the front of bytes, or tells why there is none.
pub fn selector_read(
    alloc: Global,
    bytes: &[u8],
    used: &mut usize,
    selector: &mut Held,
    fault: &mut Fault,
) -> u32
    ensures { SelectorRead bytes.now result used.old used.new selector.old selector.new
        fault.old fault.new }
{
    match selector_of(alloc, bytes) {
        Ok((asked, end)) => match boxed(alloc, Content::Selector(asked)) {
            Some(content) => {
                *selector = Held::of(content);
                *used = end;
                codes::OK
            }
            None => {
                *fault = Fault::alone(alloc, codes::OUT_OF_MEMORY);
                codes::OUT_OF_MEMORY
            }
        },
        Err(told) => {
            let code = told.code;
            *fault = Fault::of(alloc, told);
            code
        }
    }
}
