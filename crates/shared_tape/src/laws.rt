//! What holds of records and their bytes, whatever the records are.

ghost use Rattle.shared_tape.specs.Laws.{HeadsMayDecide, OrderBytesAreOrdered, OrderBytesAreToldApart, RecordsAreOrdered, StoredIsReadBack, StoredIsShort};

/// Records have a total order.
#[tactic(auto, using(crate::proofs::OrderBytes::record_cmp_total))]
pub fn records_are_ordered()
    ensures { RecordsAreOrdered }
{}

/// The order of order bytes as unsigned bytes is the order of the records.
#[tactic(auto, using(crate::proofs::OrderBytes::order_bytes_ordered))]
pub fn order_bytes_are_ordered()
    ensures { OrderBytesAreOrdered }
{}

/// Records of equal order bytes have equal keys and row pointers.
#[tactic(auto, using(crate::proofs::OrderBytes::order_bytes_apart))]
pub fn order_bytes_are_told_apart()
    ensures { OrderBytesAreToldApart }
{}

/// What was stored is read back, whatever stands before and behind it.
pub fn stored_is_read_back()
    ensures { StoredIsReadBack }
{}

/// Bytes compare as their heads, and where these are equal as they do: a sort may look at the heads
/// first.
#[tactic(auto, using(crate::proofs::Heads::heads_of_bytes_may_decide))]
pub fn heads_may_decide()
    ensures { HeadsMayDecide }
{}

/// A record's bytes are few where its values are short.
pub fn stored_is_short()
    ensures { StoredIsShort }
{}
