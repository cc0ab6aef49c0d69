//! Laws of reaches and stores.
ghost use Rattle.object_store.specs.Changes.{StoresAreThere};
ghost use Rattle.object_store.specs.Subranges.{SubrangesAreReached, SubrangesAreReachedToStore};

/// A range within one that is reached is reached, and one within a range that is reached to store is reached to store,
/// at alignment 1.
pub fn subrange_law()
    ensures read { SubrangesAreReached }
    ensures store { SubrangesAreReachedToStore }
{}

/// After a store its range holds the bytes that were stored, and the indeterminate ones where those were.
pub fn store_law()
    ensures { StoresAreThere }
{}
