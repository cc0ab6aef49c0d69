//! The law of parts: how deep a type nests, and how long a comparison takes.

ghost use Rattle.std.specs.Prelude.{◌≤◌};
ghost use Rattle.c_types.specs.CType.{CType};
ghost use Rattle.c_types.specs.PartCount.{part_count, height, comparisons};

/// A law of parts: a type nests no deeper than it has parts, and a comparison looks at no more pairs than that.
///
/// So a walk through a type of a table, which has at most 4,096 parts, is no deeper and no longer than that.
pub fn part_law()
    ensures depth { (type : CType) → height type ≤ part_count type }
    ensures steps { (a b : CType) → comparisons a b ≤ part_count a }
{}
