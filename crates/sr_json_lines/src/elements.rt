//! The objects of nodes, alarms and refusals in the object of a status, and the counts of ports.

ghost use Rattle.std.specs.Prelude.{◌≡◌, ◌++◌, ◌∷◌, [], ℕ, List, codes, IfOk, OnOk, Some, None};
ghost use Rattle.sr_session.specs.Octets.{Lacks};
ghost use Rattle.sr_json_lines.specs.StatusObjects.{NodeWords, AreWords, with_comma, ages_told, numbers_told, indices_told, node_told, age_members, number_members, index_members, redbox_member, node_element, ring_error_element, node_down_element, refused_element, count_member, port_members, left_out_member};

use crate::pieces::{append_labelled, append_two, first_word};
use sr_text::Text;
use std::alloc::AllocError;

/// Appends a comma to elements, if there are some.
fn append_comma(text: &mut Text) -> Result<(), AllocError>
    ensures { OnOk result (text.new ≡ with_comma text.old) }
{
    if text.is_empty() {
        return Ok(());
    }
    text.push(b',')
}

/// Appends the address of a node, and how long ago it was heard at each port. The answer is what stands behind these words.
fn append_ages<'a>(text: &mut Text, line: &'a [u8]) -> Result<&'a [u8], AllocError>
    ensures text { (n : NodeWords) (rest : List ℕ) → AreWords n → line.now ≡ ages_told n rest
        → OnOk result (text.new ≡ text.old ++ age_members n) }
    ensures rest { (n : NodeWords) (rest : List ℕ) → AreWords n → line.now ≡ ages_told n rest
        → IfOk result (λ r. r.now ≡ rest) }
{
    let rest = append_labelled(text, b"{\"lreNodesMacAddress\":\"", b"", line)?;
    let rest = append_labelled(text, b"\",\"lreTimeLastSeenA\":", b"if1_age ", rest)?;
    append_labelled(text, b",\"lreTimeLastSeenB\":", b"if2_age ", rest)
}

/// Appends the last numbers of a node. The answer is what stands behind these words.
fn append_numbers<'a>(text: &mut Text, line: &'a [u8]) -> Result<&'a [u8], AllocError>
    ensures text { (n : NodeWords) (rest : List ℕ) → AreWords n → line.now ≡ numbers_told n rest
        → OnOk result (text.new ≡ text.old ++ number_members n) }
    ensures rest { (n : NodeWords) (rest : List ℕ) → AreWords n → line.now ≡ numbers_told n rest
        → IfOk result (λ r. r.now ≡ rest) }
{
    let rest = append_labelled(text, b",\"if1_seq\":", b"if1_seq ", line)?;
    append_labelled(text, b",\"if2_seq\":", b"if2_seq ", rest)
}

/// Appends the indices of the ports at which a node is heard. The answer is what stands behind these words.
fn append_indices<'a>(text: &mut Text, line: &'a [u8]) -> Result<&'a [u8], AllocError>
    ensures text { (n : NodeWords) (rest : List ℕ) → AreWords n → line.now ≡ indices_told n rest
        → OnOk result (text.new ≡ text.old ++ index_members n) }
    ensures rest { (n : NodeWords) (rest : List ℕ) → AreWords n → line.now ≡ indices_told n rest
        → IfOk result (λ r. r.now ≡ rest) }
{
    let rest = append_labelled(text, b",\"if1_ifindex\":", b"if1_ifindex ", line)?;
    append_labelled(text, b",\"if2_ifindex\":", b"if2_ifindex ", rest)
}

/// Appends the RedBox that a node stands behind, and the end of its object.
fn append_redbox(text: &mut Text, line: &[u8]) -> Result<(), AllocError>
    ensures none { line.now ≡ [] → OnOk result (text.new ≡ text.old ++ redbox_member None) }
    ensures some { (mac : List ℕ) → Lacks 32 mac → line.now ≡ codes "redbox " ++ (mac ++ 32 ∷ [])
        → OnOk result (text.new ≡ text.old ++ redbox_member (Some mac)) }
{
    if line.is_empty() {
        return text.extend_from_slice(b",\"redbox\":null}");
    }
    append_labelled(text, b",\"redbox\":\"", b"redbox ", line)?;
    text.extend_from_slice(b"\"}")
}

/// Appends the object of a node, of whose line this is what stands behind `node`.
fn append_known(text: &mut Text, line: &[u8]) -> Result<(), AllocError>
    ensures none { (n : NodeWords) → AreWords n → line.now ≡ node_told n []
        → OnOk result (text.new ≡ text.old ++ node_element n None) }
    ensures some { (n : NodeWords) (mac : List ℕ) → AreWords n → Lacks 32 mac
        → line.now ≡ node_told n (codes "redbox " ++ (mac ++ 32 ∷ []))
        → OnOk result (text.new ≡ text.old ++ node_element n (Some mac)) }
{
    let rest = append_ages(text, line)?;
    let rest = append_numbers(text, rest)?;
    let rest = append_indices(text, rest)?;
    append_redbox(text, rest)
}

/// Appends a node to others: of its line this is what stands behind `node`.
///
/// # Errors
/// An allocation failed. What was appended is then a part of the object.
pub fn append_node_element(nodes: &mut Text, line: &[u8]) -> Result<(), AllocError>
    ensures none { (n : NodeWords) → AreWords n → line.now ≡ node_told n []
        → OnOk result (nodes.new ≡ with_comma nodes.old ++ node_element n None) }
    ensures some { (n : NodeWords) (mac : List ℕ) → AreWords n → Lacks 32 mac
        → line.now ≡ node_told n (codes "redbox " ++ (mac ++ 32 ∷ []))
        → OnOk result (nodes.new ≡ with_comma nodes.old ++ node_element n (Some mac)) }
{
    append_comma(nodes)?;
    append_known(nodes, line)
}

/// Appends an alarm of a port to others: of its line this is what stands behind `alarm RingError`.
///
/// # Errors
/// Those of `append_node_element`.
pub fn append_ring_error(alarms: &mut Text, line: &[u8]) -> Result<(), AllocError>
    ensures { (mac port at : List ℕ) → Lacks 32 mac → Lacks 32 port → Lacks 32 at
        → line.now ≡ mac ++ 32 ∷ (codes "port " ++ (port ++ 32 ∷ (codes "at " ++ (at ++ 32 ∷ []))))
        → OnOk result (alarms.new ≡ with_comma alarms.old ++ ring_error_element mac port at) }
{
    append_comma(alarms)?;
    let before = b"{\"kind\":\"RingError\",\"mac\":\"";
    let rest = append_labelled(alarms, before, b"", line)?;
    let rest = append_labelled(alarms, b"\",\"port\":\"", b"port ", rest)?;
    append_labelled(alarms, b"\",\"at_ms\":", b"at ", rest)?;
    alarms.extend_from_slice(b"}")
}

/// Appends an alarm of a node that is down to others: of its line this is what stands behind `alarm NodeDown`.
///
/// # Errors
/// Those of `append_node_element`.
pub fn append_node_down(alarms: &mut Text, line: &[u8]) -> Result<(), AllocError>
    ensures { (mac at : List ℕ) → Lacks 32 mac → Lacks 32 at
        → line.now ≡ mac ++ 32 ∷ (codes "at " ++ (at ++ 32 ∷ []))
        → OnOk result (alarms.new ≡ with_comma alarms.old ++ node_down_element mac at) }
{
    append_comma(alarms)?;
    let before = b"{\"kind\":\"NodeDown\",\"mac\":\"";
    let rest = append_labelled(alarms, before, b"", line)?;
    append_labelled(alarms, b"\",\"port\":null,\"at_ms\":", b"at ", rest)?;
    alarms.extend_from_slice(b"}")
}

/// Appends an event that is refused to others: of its line this is what stands behind `refused`.
///
/// # Errors
/// Those of `append_node_element`.
pub fn append_refusal(refusals: &mut Text, line: &[u8]) -> Result<(), AllocError>
    ensures { (number name : List ℕ) → Lacks 32 number → Lacks 32 name
        → line.now ≡ number ++ 32 ∷ (name ++ 32 ∷ [])
        → OnOk result (refusals.new ≡ with_comma refusals.old ++ refused_element number name) }
{
    append_comma(refusals)?;
    let rest = append_labelled(refusals, b"{\"number\":", b"", line)?;
    append_labelled(refusals, b",\"fault\":\"", b"", rest)?;
    refusals.extend_from_slice(b"\"}")
}

/// Appends a count of a port, whose name stands ahead of the port's letter. The answer is what stands behind its words.
fn append_count<'a>(
    text: &mut Text,
    name: &[u8],
    port: &[u8],
    label: &[u8],
    line: &'a [u8],
) -> Result<&'a [u8], AllocError>
    ensures text { (count rest : List ℕ) → Lacks 32 count
        → line.now ≡ label.now ++ (count ++ 32 ∷ rest) → OnOk result (text.new
        ≡ text.old ++ count_member name.now port.now count) }
    ensures rest { (count rest : List ℕ) → Lacks 32 count
        → line.now ≡ label.now ++ (count ++ 32 ∷ rest) → IfOk result (λ r. r.now ≡ rest) }
{
    append_two(text, name, port)?;
    append_labelled(text, b"\":", label, line)
}

/// Appends the counts of a port to others: of its line this is what stands behind `port`.
///
/// # Errors
/// Those of `append_node_element`.
pub fn append_port(counts: &mut Text, line: &[u8]) -> Result<(), AllocError>
    ensures { (port frames wrong_lan refused : List ℕ) → Lacks 32 port → Lacks 32 frames
        → Lacks 32 wrong_lan → Lacks 32 refused
        → line.now ≡ port ++ 32 ∷ (codes "frames " ++ (frames ++ 32 ∷ (codes "wrong_lan "
        ++ (wrong_lan ++ 32 ∷ (codes "refused " ++ (refused ++ 32 ∷ []))))))
        → OnOk result (counts.new ≡ counts.old ++ port_members port frames wrong_lan refused) }
{
    let (port, rest) = first_word(line);
    let rest = append_count(counts, b",\"lreCntRx", port, b"frames ", rest)?;
    let rest = append_count(counts, b",\"lreCntErrWrongLan", port, b"wrong_lan ", rest)?;
    append_count(counts, b",\"lreCntErrors", port, b"refused ", rest)?;
    Ok(())
}

/// Appends to counts how many frames a full table of sources left out: of its line this is what stands behind `sources left out`.
///
/// # Errors
/// Those of `append_node_element`.
pub fn append_left_out(counts: &mut Text, line: &[u8]) -> Result<(), AllocError>
    ensures { (count : List ℕ) → Lacks 32 count → line.now ≡ count ++ 32 ∷ []
        → OnOk result (counts.new ≡ counts.old ++ left_out_member count) }
{
    append_labelled(counts, b",\"sources_left_out\":", b"", line)?;
    Ok(())
}
