//! Where frames go: parcels, the roles that route them, and the framings of the ports.
#![tactic(auto)]

mod danh;
mod danp;
mod fault;
mod form;
mod framing;
mod header;
mod hsr_framing;
mod kind;
mod laws;
mod net_id;
mod outlets;
mod own_role;
mod parcel;
mod parcel_view;
mod pieces;
mod plain_framing;
mod port_framing;
mod port_list;
mod prp_framing;
mod role;
mod role_image;

pub use danh::{Danh, DanhRouting};
pub use danp::{Danp, DanpRouting};
pub use fault::ReadFault;
pub use form::Form;
pub use framing::Framing;
pub use header::Header;
pub use hsr_framing::HsrFraming;
pub use kind::{RoleKind, framing_at};
pub use laws::{
    readings_are_unique, routes_never_have_the_inlet, want_of_memory_is_no_fault_of_a_parcel,
    what_is_read_keeps_its_octets, what_is_wanted_is_written, what_is_written_is_read_again,
    writings_are_unique,
};
pub use net_id::{MAX_NET, NetId};
pub use outlets::Outlets;
pub use own_role::{OwnRole, Routing};
pub use parcel::Parcel;
pub use parcel_view::ParcelView;
pub use pieces::{tagged_pieces, trailed_pieces};
pub use plain_framing::{MAX_PLAIN_LEN, PlainFraming};
pub use port_framing::PortFraming;
pub use port_list::PortList;
pub use prp_framing::PrpFraming;
pub use role::Role;
pub use role_image::{Proxied, RoleImage};
pub use sr_frame::{LearnOutcome, Port};
