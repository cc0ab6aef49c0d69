//! The law of the rules.
ghost use Rattle.c_operator_rules.specs.Laws.{ListsRise};

/// The numbers of the constraints of every rule rise, so the first that fails is the least that fails.
pub fn rising_law()
    ensures { ListsRise }
{}
