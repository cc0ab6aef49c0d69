//! The laws of typing rules and of what is in scope.

ghost use Rattle.c_scopes.specs.Laws.{TellsTheLeast, FitsWhereNoneFails, StayInScope, StayIn};
ghost use Rattle.c_scopes.specs.Laws.{FindsNamed, FindsNamedHere, BindsNamed, LeavesNamed};
ghost use Rattle.c_scopes.specs.Laws.{FindsIn, FindsInHere, BindsIn, LeavesIn};

/// Where the numbers of a rule's constraints rise, it tells the least that fails; it fits exactly where none fails.
pub fn rule_law()
    ensures least { TellsTheLeast }
    ensures fits { FitsWhereNoneFails }
{}

/// What is in scope stays as a table grows.
pub fn growth_law()
    ensures names { StayInScope }
    ensures ids { StayIn }
{}

/// Looking up, binding and leaving are the same of ids and of the types that they stand for, and keep ids that are the
/// table's.
pub fn view_law()
    ensures finds { FindsNamed }
    ensures finds_here { FindsNamedHere }
    ensures binds { BindsNamed }
    ensures leaves { LeavesNamed }
    ensures finds_in { FindsIn }
    ensures finds_in_here { FindsInHere }
    ensures binds_in { BindsIn }
    ensures leaves_in { LeavesIn }
{}
