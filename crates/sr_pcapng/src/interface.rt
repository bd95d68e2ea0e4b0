//! The descriptions of interfaces.

ghost use Rattle.std.specs.Prelude.{◌≡◌, ◌≤◌, ◌-◌, length, IfOk, IfErr, IfSome, IfNone};
ghost use Rattle.sr_pcapng.specs.Interfaces.{is_wanted, plain, counted, IsFree, IsInterface, IsMeant, Describes, IsWrongInterface};
ghost use Rattle.sr_pcapng.specs.declared.track.Interface.{Interface as Known};

use crate::options::read_options;
use crate::track::{Interface, Section, Wanted};
use sr_capture::{Listed, Reason, half_at, word_at};

/// The length of the description of an interface without options.
pub(crate) const MIN_LEN: usize = 20;

/// Where the options of a description begin.
const OPTIONS_AT: usize = 16;

/// The length of the length at the end of a block.
const TAIL_LEN: usize = 4;

/// The link type of Ethernet.
pub(crate) const ETHERNET: u16 = 1;

/// The unit of times where no option tells it: microseconds.
const MICROSECONDS: u8 = 6;

/// Whether the interface of this number and this link type is the one that is wanted.
fn is_wanted(wanted: Wanted, count: u32, link: u16) -> bool
    ensures { result ≡ is_wanted wanted count link }
{
    match wanted {
        Wanted::Only => link == ETHERNET,
        Wanted::Number(number) => number == count,
    }
}

/// The interface that a block describes. None where its options are none.
fn interface_of(check_len: u8, section: &Section, octets: &[u8]) -> Option<Interface>
    requires { 20 ≤ length octets.now }
    ensures found { IfSome result (λ interface.
        IsInterface check_len section.now octets.now interface) }
    ensures none { IfNone result ((interface : Known)
        → IsInterface check_len section.now octets.now interface → ⊥) }
{
    let plain = Interface {
        number: section.count,
        snap: word_at(section.order, octets, 12),
        check_len,
        resolution: MICROSECONDS,
        offset: 0,
    };
    read_options(
        section.order,
        &octets[OPTIONS_AT..octets.len() - TAIL_LEN],
        plain,
    )
}

/// The section with one interface more.
fn counted(section: &Section, taken: Option<Interface>) -> Section
    ensures { result ≡ counted section.now taken }
{
    Section {
        order: section.order,
        count: section.count.saturating_add(1),
        taken,
    }
}

/// The section behind the description of an interface that is wanted.
fn described(
    wanted: Wanted,
    check_len: u8,
    section: &Section,
    octets: &[u8],
) -> Result<Section, Reason>
    requires { IsMeant wanted section.now octets.now }
    ensures read { IfOk result (λ next. Describes wanted check_len section.now octets.now next) }
    ensures refused { IfErr result (λ reason.
        IsWrongInterface wanted check_len section.now octets.now reason) }
{
    let link = half_at(section.order, octets, 8);
    if link != ETHERNET {
        return Err(Reason::Link(link));
    }
    if let (Wanted::Only, Some(other)) = (wanted, section.taken) {
        return Err(Reason::Several(Listed(0).with(other.number).with(section.count)));
    }
    match interface_of(check_len, section, octets) {
        Some(interface) => Ok(counted(section, Some(interface))),
        None => Err(Reason::Options),
    }
}

/// The section behind the description of an interface. `check_len` is the length of check sequences where it tells none.
///
/// # Errors
/// `Length` where the block is too short. Of the interface that is wanted: `Link` where it is not Ethernet, `Several` where
/// it is the second that is, `Options` where its options are none.
pub(crate) fn read_interface(
    wanted: Wanted,
    check_len: u8,
    section: &Section,
    octets: &[u8],
) -> Result<Section, Reason>
    ensures read { IfOk result (λ next. Describes wanted check_len section.now octets.now next) }
    ensures refused { IfErr result (λ reason.
        IsWrongInterface wanted check_len section.now octets.now reason) }
{
    if octets.len() < MIN_LEN {
        return Err(Reason::Length);
    }
    if is_wanted(wanted, section.count, half_at(section.order, octets, 8)) {
        described(wanted, check_len, section, octets)
    } else {
        Ok(counted(section, section.taken))
    }
}
