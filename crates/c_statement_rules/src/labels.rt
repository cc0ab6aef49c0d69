//! The labels of a `switch`.

ghost use Rattle.std.specs.Prelude.{◌≡◌, OnOk};
ghost use Rattle.c_statement_rules.specs.Labels as rule;

use acc_num::{IntKind, convert};
use c_core::{Case, TypeFault};
use critical_table::Pos;
use std::alloc::{AllocError, Global};
use std::collections::BTreeSet;
use std::marker::Model;

/// The labels of a `switch` so far. Contracts see the `case` labels in order, and where `default` stands. Beside them
/// stands an ordered set of the values, since to go through them for each label would take long where there are many.
#[derive(Drop)]
pub struct LabelList {
    cases: Vec<Case>,
    default: Option<u32>,
    values: BTreeSet<i128>,
}

impl Model for LabelList {
    ghost use Rattle.c_statement_rules.specs.Labels.{Labels};

    ghost Value = { Labels };

    ghost view = { λ list. record { cases = list.cases.items; default = list.default } };

    ghost use Rattle.c_statement_rules.specs.Labels.{IsKept};

    ghost invariant = { λ list. IsKept list.cases.items list.values };
}

impl LabelList {
    /// No labels.
    pub fn new(alloc: Global) -> LabelList
        ensures { result ≡ rule.no_labels }
    {
        LabelList {
            cases: Vec::new(alloc),
            default: None,
            values: BTreeSet::new(alloc),
        }
    }

    // A label has the value.
    fn is_given(&self, value: i128) -> bool
        ensures { result ≡ rule.is_among value self.now.cases }
    {
        self.values.contains(&value)
    }

    // One more label, whose value is new.
    fn add(&mut self, case: Case) -> Result<(), AllocError>
        ensures { OnOk result (self.new ≡ rule.with_case self.old case.value case.at) }
    {
        self.cases.push(case)?;
        if self.values.insert(case.value).is_err() {
            self.cases.pop();
            return Err(AllocError);
        }
        Ok(())
    }

    /// A `case` at that place in front of item `at`, by its value, or none where it is no integer constant expression;
    /// the kind is that of the controlling expression (6.8.4.2p3, p5).
    ///
    /// Constraint 39 where there is no value, or an earlier label has it once it is converted.
    pub fn case(
        &mut self,
        pos: Pos,
        kind: IntKind,
        value: Option<i128>,
        at: u32,
    ) -> Result<(), TypeFault>
        ensures { rule.Adds (rule.case_rule kind self.old value at) pos self.new result }
    {
        let Some(n) = value else {
            return Err(TypeFault::Constraint(39, pos));
        };
        let n = convert(kind, n);
        if self.is_given(n) {
            return Err(TypeFault::Constraint(39, pos));
        }
        self.add(Case { value: n, at })?;
        Ok(())
    }

    /// A `default` at that place in front of item `at` (6.8.4.2p3).
    ///
    /// Constraint 39 where there is another.
    pub fn default(&mut self, pos: Pos, at: u32) -> Result<(), TypeFault>
        ensures { rule.Adds (rule.default_rule self.old at) pos self.new result }
    {
        if self.default.is_some() {
            return Err(TypeFault::Constraint(39, pos));
        }
        self.default = Some(at);
        Ok(())
    }

    /// The `case` labels in order, and where `default` stands.
    pub fn into_parts(self) -> (Vec<Case>, Option<u32>)
        ensures cases { result.0.items ≡ self.cases }
        ensures default { result.1 ≡ self.default }
    {
        (self.cases, self.default)
    }
}
