//! Writing supervision.

ghost use Rattle.std.specs.Prelude.{◌≡◌, ◌++◌, [], ◌∷◌, IfOk, OnOk};
ghost use Rattle.std.specs.Int.{w16, to_be_bytes};
ghost use Rattle.sr_supervision.specs.Supervised.{IsSupervision, supervision_address, life_type};
ghost use Rattle.sr_supervision.specs.Written.{Fits, address_tlv, content_octets, written};

use crate::message::{Life, Supervision};
use crate::reading::{PRP_ETHERTYPE, SUPERVISION};
use crate::tlv::{
    END_OF_TLVS, HSR_ANNOUNCE, HSR_LIFE_CHECK, MAC_LEN, PRP_LIFE_CHECK_DA, PRP_LIFE_CHECK_DD,
    REDBOX_MAC,
};
use sr_frame::{Frame, FrameView, Mac, NoMemory, append};
use std::alloc::Global;

/// Path 0 and version 1.
const PATH_AND_VERSION: u16 = 1;

/// The octets of a frame that is written.
const LEN: usize = 60;

/// The type of the first TLV.
fn kind_of(life: Life) -> u8
    ensures { result ≡ life_type life }
{
    match life {
        Life::PrpDiscard => PRP_LIFE_CHECK_DD,
        Life::PrpAccept => PRP_LIFE_CHECK_DA,
        Life::Announce => HSR_ANNOUNCE,
        Life::Hsr => HSR_LIFE_CHECK,
    }
}

/// Appends destination, source and type.
fn put_head(out: &mut Vec<u8>, src: Mac) -> Result<(), NoMemory>
    ensures { OnOk result (out.new.items ≡ out.old.items
        ++ (supervision_address ++ src.0 ++ 0x88 ∷ 0xFB ∷ [])) }
{
    let head = FrameView {
        dst: SUPERVISION,
        src,
        vlan: None,
        ethertype: PRP_ETHERTYPE,
        payload: &[],
    };
    append(out, &head)
}

fn put_address(out: &mut Vec<u8>, kind: u8, mac: Mac) -> Result<(), NoMemory>
    ensures { OnOk result (out.new.items ≡ out.old.items ++ address_tlv kind mac) }
{
    out.extend_from_slice(&[kind, MAC_LEN])?;
    out.extend_from_slice(&mac.0)?;
    Ok(())
}

fn put_content(out: &mut Vec<u8>, supervision: Supervision) -> Result<(), NoMemory>
    ensures octets { OnOk result (out.new.items ≡ out.old.items ++ content_octets supervision) }
    ensures fits { Fits supervision }
{
    out.extend_from_slice(&PATH_AND_VERSION.to_be_bytes())?;
    out.extend_from_slice(&supervision.seq.0.to_be_bytes())?;
    put_address(out, kind_of(supervision.life), supervision.mac)?;
    if let Some(redbox) = supervision.redbox {
        put_address(out, REDBOX_MAC, redbox)?;
    }
    out.extend_from_slice(&[END_OF_TLVS, 0])?;
    Ok(())
}

/// The supervision frame that says this, in one list of octets.
///
/// Its source is the RedBox where there is one, and else the node. It has path 0, version 1 and 60 octets.
/// `NoMemory` where the allocation failed.
pub fn write(alloc: Global, supervision: &Supervision) -> Result<Frame, NoMemory>
    ensures octets { IfOk result (λ own. own ≡ written supervision.now) }
    // What is written is read again as this value.
    ensures says { IfOk result (λ own. IsSupervision own supervision.now) }
{
    let src = supervision.redbox.unwrap_or(supervision.mac);
    let mut octets = Vec::with_capacity(alloc, LEN)?;
    put_head(&mut octets, src)?;
    put_content(&mut octets, *supervision)?;
    octets.resize(LEN, 0)?;
    Ok(Frame::of(octets))
}
