//! Laws about routes and framings.

ghost use Rattle.std.specs.Prelude.{◌≡◌, ◌≢◌, ◌↔◌, ◌≤◌, ℕ, true, false, List, length, Some, None, Result};
ghost use Rattle.sr_frame.specs.declared.ports.Port.{Port};
ghost use Rattle.sr_forwarding.specs.declared.header.Header.{Header};
ghost use Rattle.sr_forwarding.specs.declared.role_image.RoleImage.{RoleImage};
ghost use Rattle.sr_forwarding.specs.declared.fault.ReadFault.{ReadFault};
ghost use Rattle.sr_forwarding.specs.Outlets.{has};
ghost use Rattle.sr_forwarding.specs.Routes.{routes};
ghost use Rattle.sr_forwarding.specs.Parcels.{ParcelImage, IsParcel};
ghost use Rattle.sr_forwarding.specs.Framings.{FramingImage};
ghost use Rattle.sr_forwarding.specs.Decoding.{IsRead, Reads, longest};
ghost use Rattle.sr_forwarding.specs.Encoding.{IsWritten, write_fault, or_no_memory};
ghost use Rattle.sr_forwarding.specs.Carriage.{IsTaken, copy_for, IsReadAgain};
ghost use Rattle.sr_forwarding.specs.Kinds.{framing_at};

/// No frame goes back to the port where it came in, whatever the role.
pub fn routes_never_have_the_inlet()
    ensures { (r : RoleImage) (h : Header) (inlet : Port) (now : ℕ)
        → has (routes r h inlet now) inlet ≡ false }
{}

/// With a role's own framings, what goes where its routes say is written, a failed allocation apart.
pub fn what_is_wanted_is_written()
    ensures { (r : RoleImage) (h : Header) (inlet outlet : Port) (now : ℕ) (p : ParcelImage)
        (f : FramingImage)
        → IsTaken r.kind inlet p → has (routes r h inlet now) outlet ≡ true
        → framing_at r.kind outlet ≡ Some f → write_fault f (copy_for outlet p) ≡ None }
{}

/// A framing answers to octets in one way at most: with one parcel, or with one reason why they are none.
pub fn readings_are_unique()
    ensures { (f : FramingImage) (octets : List ℕ) (r s : Result ParcelImage ReadFault)
        → Reads f octets r → Reads f octets s → r ≡ s }
{}

/// A parcel that octets are read as has these octets, whole.
pub fn what_is_read_keeps_its_octets()
    ensures { (f : FramingImage) (octets : List ℕ) (p : ParcelImage)
        → IsRead f octets p → p.octets ≡ octets }
{}

/// A framing writes a parcel in one way at most.
pub fn writings_are_unique()
    ensures { (f : FramingImage) (p : ParcelImage) (a b : List ℕ)
        → IsWritten f p.form p a → IsWritten f p.form p b → a ≡ b }
{}

/// What a framing refuses in a parcel is never a failed allocation. So a parcel that was not written for a failed
/// allocation can be written, and one that was refused otherwise can't.
pub fn want_of_memory_is_no_fault_of_a_parcel()
    ensures never { (f : FramingImage) (p : ParcelImage)
        → write_fault f p ≢ Some ReadFault.NoMemory }
    ensures tells { (f : FramingImage) (p : ParcelImage) (e : ReadFault)
        → e ≡ or_no_memory (write_fault f p)
        → (e ≡ ReadFault.NoMemory) ↔ (write_fault f p ≡ None) }
{}

/// What an outlet wrote is read at a port of the same framing: with the same number, and in plain form the same frame, padded
/// where it got a tag or a trailer anew.
pub fn what_is_written_is_read_again()
    ensures { (f : FramingImage) (p : ParcelImage) (octets : List ℕ)
        → IsParcel p → IsWritten f p.form p octets → length octets ≤ longest f
        → IsReadAgain f p octets }
{}
