//! Whether the elements of an input are of the kind of the first input's.
ghost use Rattle.std.specs.Prelude.{◌≡◌, ◌⊎◌, IfErr, IfOk, Some};
ghost use Rattle.haya_command.specs.Source.{IsKindError};
ghost use Rattle.haya_command.specs.SourceKinds.{IsKindFaultBehind};
ghost use Rattle.haya_command.specs.SourceForm.{kind_in};
ghost use Rattle.haya_command.specs.declared.source_form.SourceForm.{SourceForm as FormData};
ghost use Rattle.haya_formats.specs.declared.format.Format.{Format as FormatData};

use crate::error::CommandError;
use crate::source_error::SourceError;
use crate::source_form::SourceForm;
use crate::sources::{no_kind, other_kind};
use haya_formats::Format;
use haya_source::ElementKind;
use std::alloc::Global;

/// The kind of the elements of the input that is called so and is in a format, where the first input
/// is in this one. `Source`: the form prints no elements of the format, or not of the same kind as of
/// the first input's.
pub fn kind_behind(
    alloc: Global,
    name: &str,
    form: SourceForm,
    first: Format,
    format: Format,
) -> Result<ElementKind, CommandError>
    ensures kind { IfOk result (λ kind. kind_in form format ≡ Some kind) }
    ensures same { IfOk result (λ kind. kind_in form first ≡ Some kind) }
    ensures fault { IfErr result (λ e. (e ≡ CommandError.OutOfMemory)
        ⊎ IsKindFaultBehind form first format name.now e) }
{
    let kind = form.kind_in(format);
    let is_same = kind == form.kind_in(first);
    match kind {
        Some(kind) if is_same => Ok(kind),
        Some(_) => Err(kind_fault(alloc, name, other_kind(form, first, format))),
        None => Err(kind_fault(alloc, name, no_kind(form, format))),
    }
}

// The fault of the input that is called so, of which this is the error.
fn kind_fault(alloc: Global, name: &str, error: SourceError) -> CommandError
    ensures { (result ≡ CommandError.OutOfMemory) ⊎ ((form : FormData) (first format : FormatData) →
        IsKindError form first format error →
        IsKindFaultBehind form first format name.now result) }
{
    match String::from_str(alloc, name) {
        Ok(name) => CommandError::Source(name, error),
        Err(_) => CommandError::OutOfMemory,
    }
}
