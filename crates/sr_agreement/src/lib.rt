//! Whether what came in at one end of a wire is what went in at the other, by the logs of the workers there.
#![tactic(auto)]

mod agreeing;
mod laws;

pub use agreeing::agree;
pub use laws::parcels_have_one_list_of_encodings;
