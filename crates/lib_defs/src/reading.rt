//! What reading units one by one comes to, and the law of texts.
ghost use Rattle.std.specs.Prelude.{◌≡◌};
ghost use Rattle.lib_defs.specs.Spans.{Reads, span};

use critical_table::Case;
use object_store::Pointer;

/// What the units of a text come to.
#[derive(Clone, Copy, Debug, PartialEq, Eq)]
pub enum Reading {
    /// So many units before the one that ends them, or as many as were asked for.
    Length(u64),
    /// The unit at this place is not reached.
    Unreached(Case, Pointer),
    /// A unit is indeterminate.
    Unknown,
}

/// The units that a text has are those that the conditions on one number of units give, and no other reading meets them
/// (K.3.7.4.4). So it is for any test that the units of a text pass.
pub fn span_law()
    ensures is { (test : _) (w : _) (s : _) (p : _) (m : _) → Reads test w s p m (span test w s p m) }
    ensures alone { (test : _) (w : _) (s : _) (p : _) (m : _) (r : _)
        → Reads test w s p m r → span test w s p m ≡ r }
{}
