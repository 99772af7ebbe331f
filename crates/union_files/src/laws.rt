//! What holds of unions. Each function here does nothing when it runs: its contract is the law.
ghost use Rattle.std.specs.Prelude.{◌≡◌, List};
ghost use Rattle.catalogue_core.specs.Histories.{current};
ghost use Rattle.catalogue_editions.specs.declared.edition.Edition.{Edition};
ghost use Rattle.union_files.specs.Deliveries.{Delivery, Stream, codes_of, AreDistinct};
ghost use Rattle.union_files.specs.Unions.{IsUnion, AreSameDeliveries};

/// Two unions of the same deliveries of distinct libraries have the same editions: whatever the order of the libraries, and however
/// their batches interleave. So they have the same export, byte for byte.
pub fn unions_of_the_same_deliveries_are_one()
    ensures { (all other : List Delivery) (streams others : List Stream) (one two : List Edition)
        → AreDistinct (codes_of all) → AreDistinct (codes_of other) → AreSameDeliveries all other
        → IsUnion all streams one → IsUnion other others two → one ≡ two }
{}

/// And they leave the same records current. So the export in which local fields tell whose they are is the same too.
pub fn unions_of_the_same_deliveries_have_the_same_records()
    ensures { (all other : List Delivery) (streams others : List Stream) (one two : List Edition)
        → AreDistinct (codes_of all) → AreDistinct (codes_of other) → AreSameDeliveries all other
        → (p : IsUnion all streams one) (q : IsUnion other others two)
        → current p.history ≡ current q.history }
{}
