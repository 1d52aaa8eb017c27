//! A choice between two seats: the one that fits a table.
ghost use Rattle.std.specs.Prelude.{◌≡◌, ◌≢◌, ◌⊎◌};

use crate::rule::Known;
use crate::shared_heap::SharedHeap;
use atomic_table::Seat;

/// Returns the first seat if it is at the second one's table, else the second one; and then the other. It does nothing: a seat
/// has no bytes, so all seats are alike to a program, and only proofs tell them apart.
pub(crate) fn fitting_first(
    seat: Seat<SharedHeap, Known>,
    spare: Seat<SharedHeap, Known>,
) -> (Seat<SharedHeap, Known>, Seat<SharedHeap, Known>)
    ensures { ((seat.table_id ≡ spare.table_id) × (result.0 ≡ seat))
        ⊎ ((seat.table_id ≢ spare.table_id) × (result.0 ≡ spare)) }
{
    (seat, spare)
}
