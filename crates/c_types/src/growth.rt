//! The law of growth: what a table keeps.

ghost use Rattle.std.specs.Prelude.{◌≡◌, Some, List};
ghost use Rattle.c_types.specs.declared.layout.Layout.{Layout};
ghost use Rattle.c_types.specs.Types.{Types};
ghost use Rattle.c_types.specs.CType.{CType};
ghost use Rattle.c_types.specs.Structures.{Structure, has_const};
ghost use Rattle.c_types.specs.Layouts.{layout_of};
ghost use Rattle.c_types.specs.Making.{Grows, KeepsStructures};

/// A law of growth: what is kept in steps is kept, and a type that has a layout keeps it, and whether it has a const
/// member, as structures and unions are added and completed.
pub fn growth_law()
    ensures none { (types : Types) → Grows types types }
    ensures steps { (old mid new : Types) → Grows old mid → Grows mid new → Grows old new }
    ensures layouts { (type : CType) (old new : List Structure) (layout : Layout) → KeepsStructures old new →
        layout_of type old ≡ Some layout → layout_of type new ≡ Some layout }
    ensures constants { (type : CType) (old new : List Structure) (layout : Layout) → KeepsStructures old new →
        layout_of type old ≡ Some layout → has_const type new ≡ has_const type old }
{}
