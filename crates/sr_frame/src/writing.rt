//! Writing the octets that fields spell.

ghost use Rattle.std.specs.Prelude.{◌≡◌, ◌+◌, ◌≤◌, ◌++◌, length, vec_len, vec_capacity, IsOk, OnOk, OnErr};
ghost use Rattle.sr_frame.specs.Frame.{spelling};
ghost use Rattle.sr_frame.specs.View.{fields_of};

use crate::fault::NoMemory;
use crate::fields::{FrameView, VLAN_ETHERTYPE};

/// Appends the octets of the frame with these fields to a list.
///
/// A list with room for them takes no memory. `NoMemory` where its allocation failed: the list then stays as it was.
pub fn append(out: &mut Vec<u8>, frame: &FrameView<'_>) -> Result<(), NoMemory>
    ensures ok { OnOk result (out.new.items ≡ out.old.items ++ spelling (fields_of frame.now)) }
    ensures err { OnErr result (out.new.items ≡ out.old.items) }
    ensures succeeds { vec_len out.old + length (spelling (fields_of frame.now))
        ≤ vec_capacity out.old → IsOk result }
    ensures capacity { vec_capacity out.old ≤ vec_capacity out.new }
{
    out.reserve(frame.frame_len())?;
    put(out, frame);
    Ok(())
}

/// Appends the octets of the frame to a list that has room for them.
fn put(out: &mut Vec<u8>, frame: &FrameView<'_>)
    requires { vec_len out.old + length (spelling (fields_of frame.now)) ≤ vec_capacity out.old }
    ensures items { out.new.items ≡ out.old.items ++ spelling (fields_of frame.now) }
    ensures capacity { vec_capacity out.old ≤ vec_capacity out.new }
{
    out.extend_from_slice(&frame.dst.0).unwrap();
    out.extend_from_slice(&frame.src.0).unwrap();
    if let Some(control) = frame.vlan {
        out.extend_from_slice(&VLAN_ETHERTYPE.to_be_bytes())
            .unwrap();
        out.extend_from_slice(&control.to_be_bytes()).unwrap();
    }
    out.extend_from_slice(&frame.ethertype.to_be_bytes())
        .unwrap();
    out.extend_from_slice(frame.payload).unwrap();
}
