//! The law of the order of constraints.

ghost use Rattle.c_statement_rules.specs.Laws.{AllRise};

/// The numbers of each rule's constraints rise, so that the first that fails is the least.
pub fn order_law()
    ensures { AllRise }
{}
