//! Elements of BER: a tag, a length and a value.

ghost use Rattle.std.specs.Prelude.{◌≡◌, ◌≤◌, length, Some, None, MatchOption, IfSome, slice_index};
ghost use Rattle.sr_streams.specs.Elements.{one_octet, two_octets, len_front, has_tag, element, past_element, behind_any, in_four, ber_number, number_front, name_front};

/// The greatest length that is spelled in one octet, by itself.
const SHORT_LEN: u8 = 0x7F;

/// What stands before a length in one octet.
const ONE_OCTET: u8 = 0x81;

/// What stands before a length in two octets.
const TWO_OCTETS: u8 = 0x82;

/// The most octets of a name (IEC 61850-8-1 and 9-2: VisibleString129).
pub const MAX_NAME_LEN: usize = 129;

/// A number in one octet, and what stands behind it.
fn one_octet(octets: &[u8]) -> Option<(usize, &[u8])>
    ensures { MatchOption result (one_octet octets.now ≡ None)
        (λ r. one_octet octets.now ≡ Some (r.0, r.1.now)) }
{
    let (low, behind) = octets.split_first()?;
    Some((usize::from(*low), behind))
}

/// A number in two octets, and what stands behind it.
pub(crate) fn two_octets(octets: &[u8]) -> Option<(u16, &[u8])>
    ensures { MatchOption result (two_octets octets.now ≡ None)
        (λ r. two_octets octets.now ≡ Some (r.0, r.1.now)) }
{
    let (high, behind) = octets.split_first()?;
    let (low, behind) = behind.split_first()?;
    Some((256 * u16::from(*high) + u16::from(*low), behind))
}

/// A length, and what stands behind it.
fn len_front(octets: &[u8]) -> Option<(usize, &[u8])>
    ensures { MatchOption result (len_front octets.now ≡ None)
        (λ r. len_front octets.now ≡ Some (r.0, r.1.now)) }
{
    let (form, behind) = octets.split_first()?;
    match *form {
        0..=SHORT_LEN => Some((usize::from(*form), behind)),
        ONE_OCTET => one_octet(behind),
        TWO_OCTETS => {
            let (len, behind) = two_octets(behind)?;
            Some((usize::from(len), behind))
        }
        _ => None,
    }
}

/// The value of the element at the front, which has this tag, and what stands behind the element.
pub(crate) fn element(octets: &[u8], tag: u8) -> Option<(&[u8], &[u8])>
    ensures { MatchOption result (element tag octets.now ≡ None)
        (λ r. element tag octets.now ≡ Some (r.0.now, r.1.now)) }
{
    let (own, behind) = octets.split_first()?;
    if *own != tag {
        return None;
    }
    let (len, behind) = len_front(behind)?;
    behind.split_at_checked(len)
}

/// What stands behind the element at the front, which has this tag.
pub(crate) fn behind(octets: &[u8], tag: u8) -> Option<&[u8]>
    ensures { MatchOption result (past_element tag octets.now ≡ None)
        (λ r. past_element tag octets.now ≡ Some r.now) }
{
    let (_, behind) = element(octets, tag)?;
    Some(behind)
}

/// Whether the first octet is this tag.
fn has_tag(octets: &[u8], tag: u8) -> bool
    ensures { result ≡ has_tag tag octets.now }
{
    match octets.first() {
        Some(own) => *own == tag,
        None => false,
    }
}

/// What stands behind an element that may be left out.
pub(crate) fn behind_any(octets: &[u8], tag: u8) -> Option<&[u8]>
    ensures { MatchOption result (behind_any tag octets.now ≡ None)
        (λ r. behind_any tag octets.now ≡ Some r.now) }
{
    if has_tag(octets, tag) {
        return behind(octets, tag);
    }
    Some(octets)
}

/// The number that four octets spell.
fn number_in_four(octets: [u8; 4]) -> u32
    ensures { result ≡ in_four (slice_index octets 0) (slice_index octets 1)
        (slice_index octets 2) (slice_index octets 3) }
{
    let [a, b, c, d] = octets;
    256 * (256 * (256 * u32::from(a) + u32::from(b)) + u32::from(c)) + u32::from(d)
}

/// A number in one to four octets, or in five of which the first is zero.
fn number_of(octets: &[u8]) -> Option<u32>
    ensures { result ≡ ber_number octets.now }
{
    match *octets {
        [a] => Some(u32::from(a)),
        [a, b] => Some(256 * u32::from(a) + u32::from(b)),
        [a, b, c] => Some(256 * (256 * u32::from(a) + u32::from(b)) + u32::from(c)),
        [a, b, c, d] | [0, a, b, c, d] => Some(number_in_four([a, b, c, d])),
        _ => None,
    }
}

/// An element that is such a number, and what stands behind it.
pub(crate) fn number_front(octets: &[u8], tag: u8) -> Option<(u32, &[u8])>
    ensures { MatchOption result (number_front tag octets.now ≡ None)
        (λ r. number_front tag octets.now ≡ Some (r.0, r.1.now)) }
{
    let (spelled, behind) = element(octets, tag)?;
    let number = number_of(spelled)?;
    Some((number, behind))
}

/// An element that is a name, and what stands behind it.
pub(crate) fn name_front(octets: &[u8], tag: u8) -> Option<(&[u8], &[u8])>
    ensures names { MatchOption result (name_front tag octets.now ≡ None)
        (λ r. name_front tag octets.now ≡ Some (r.0.now, r.1.now)) }
    ensures short { IfSome result (λ r. length r.0.now ≤ MAX_NAME_LEN) }
{
    let (name, behind) = element(octets, tag)?;
    if name.len() > MAX_NAME_LEN {
        return None;
    }
    Some((name, behind))
}
