//! What holds of the rows of Annex K and of libraries.
ghost use Rattle.std.specs.Prelude.{◌≡◌, ◌+◌, ◌<◌, ◌≤◌, Some, IsSome};
ghost use Rattle.std.specs.Option.{option_map};
ghost use Rattle.lib_defs.specs.RowNumbers.{name_at, row_named};
ghost use Rattle.lib_defs.specs.Names.{name_text};
ghost use Rattle.lib_defs.specs.RowTable.{rule_of};
ghost use Rattle.lib_defs.specs.Rules.{run_rule};
ghost use Rattle.lib_defs.specs.Violations.{StandsThere};
ghost use Rattle.lib_defs.specs.Library.{values_of};
ghost use Rattle.lib_defs.specs.Laws.{IsSized, CallFits, KeepsLaws};
ghost use Rattle.lib_defs.specs.RuleLaws.{RuleKeeps};
ghost use Rattle.lib_defs.specs.Units.{rsize_max};
ghost use Rattle.lib_defs.specs.Text.{text};
ghost use Rattle.lib_defs.specs.PlainTexts.{text_order};
ghost use Rattle.lib_defs.specs.Characters.{AreRead, characters_from, characters_at, string_at};
ghost use Rattle.lib_defs.specs.Conversions.{pieces_of, pieces_text};
ghost use Rattle.lib_defs.specs.Profile.{HasAll, profile};
ghost use Rattle.lib_defs.specs.Sample.{sample};

/// The row that a name finds has that name, and each name finds one.
pub fn names_law()
    ensures found { (text : _) (row : _) → row_named text ≡ Some row → option_map name_text (name_at row) ≡ Some text }
    ensures all { (name : _) → IsSome (row_named (name_text name)) }
{}

/// Each row of Annex K keeps the laws at all arguments and in all stores: a constraint that it tells is the first that
/// may fail by what the arguments decide, its action is reached, its stores are to reached ranges, and a trap is that
/// of a reach.
pub fn rules_law()
    ensures { (name : _) (values : _) (rule : _) → rule_of name values ≡ Some rule → RuleKeeps rule }
{}

/// So each answers its call as every library does, by the facts at the values that the line of the call shows.
pub fn rows_law()
    ensures { (row : _) (args : _) (name : _) (rule : _) → name_at row ≡ Some name
        → rule_of name (values_of args) ≡ Some rule → (w : _) → IsSized w.store → (waits : _) (streams : _)
        → CallFits waits row args w streams (run_rule rule w.store) }
{}

/// The library of the profile keeps the laws that every library keeps, and has all functions with a name: at all
/// arguments and in all worlds.
pub fn profile_law()
    ensures keeps { KeepsLaws profile }
    ensures all { HasAll }
{}

/// A row that wants a guest's function can keep them too: there is a library with one, beside those of the profile.
pub fn sample_law()
    ensures { KeepsLaws sample }
{}

/// The characters of a text that is read to be written are those that the conditions on their number give, and no
/// others meet them (7.1.1).
pub fn characters_law()
    ensures is { (s : _) (p : _) (k : _) (most : _) → AreRead s p k most (characters_from s p k most) }
    ensures alone { (s : _) (p : _) (k : _) (most : _) (c : _)
        → AreRead s p k most c → characters_from s p k most ≡ c }
{}

/// No object has more than RSIZE_MAX bytes, so what a string comes to does not depend on the bound that its reading is
/// given, where that is greater: its length, its characters, and its order to another (7.1.1).
pub fn strings_law()
    ensures text { (s : _) (w : _) (p : _) (most : _) → IsSized s → 0 < w → rsize_max + 1 ≤ most
        → text w s p most ≡ text w s p (rsize_max + 1) }
    ensures characters { (s : _) (p : _) (most : _) → IsSized s → rsize_max + 1 ≤ most
        → characters_at s p most ≡ string_at s p }
    ensures order { (s : _) (value : _) (w : _) (p : _) (q : _) (most : _) → IsSized s → 0 < w → rsize_max + 1 ≤ most
        → text_order value w s p q most ≡ text_order value w s p q (rsize_max + 1) }
{}

/// A format is its pieces, one behind the other: what is printed leaves nothing of it out (7.21.6.1).
pub fn format_law()
    ensures { (format : _) → pieces_text (pieces_of format) ≡ format }
{}

/// The message of each class stands in the message object of each store.
pub fn message_law()
    ensures { (class : _) → StandsThere class }
{}
