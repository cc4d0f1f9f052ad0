//! Laws of the definitions. A call of one, as `are_in_order();`, gives its statement to the
//! caller's proof.
ghost use Rattle.haya_assignment.specs.Laws.{AreAllAssignments, AreInOrder, GreedyFinds};
ghost use Rattle.haya_assignment.specs.Laws.{GreedyIsLeast, LeastComesFirst, NoLeast};
ghost use Rattle.haya_assignment.specs.Laws.{ShortHasNone};

/// The list of the assignments of a table has each of them, and nothing else.
pub fn are_all_assignments()
    ensures { AreAllAssignments }
{}

/// The assignments are in order: each comes before all after it, since where the two first differ
/// it has the lesser position.
pub fn are_in_order()
    ensures { AreInOrder }
{}

/// The least assignment is one, and comes before each other one.
pub fn least_comes_first()
    ensures { LeastComesFirst }
{}

/// There is no least assignment exactly where there is no assignment.
pub fn no_least()
    ensures { NoLeast }
{}

/// Where each row in turn finds a position that isn't taken, these positions are the least
/// assignment.
pub fn greedy_is_least()
    ensures { GreedyIsLeast }
{}

/// Where no two rows are true at one position, each row in turn finds a position exactly if there
/// is an assignment.
pub fn greedy_finds()
    ensures { GreedyFinds }
{}

/// Members that are accepted at fewer positions than they are leave no assignment.
pub fn short_has_none()
    ensures { ShortHasNone }
{}
