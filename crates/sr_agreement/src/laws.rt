//! What holds of encodings.

ghost use Rattle.sr_agreement.specs.Agreement.{EncodingsAreUnique};

use sr_forwarding::writings_are_unique;

/// Parcels have one list of encodings, so an agreement is about this one.
pub fn parcels_have_one_list_of_encodings()
    ensures { EncodingsAreUnique }
{
    writings_are_unique();
}
