//! A law of the definitions. A call of it gives its statement to the caller's proof.
ghost use Rattle.haya_text.specs.Equality.{EqualsByValue};

use crate::error::LineError;

/// `==` holds exactly where both are equal.
pub fn faults_equal_by_value()
    ensures { EqualsByValue ⟦<LineError as PartialEq>⟧.eq }
{}
