//! The members of a status that tell of the node itself.

ghost use Rattle.std.specs.Prelude.{◌≡◌, ◌++◌, ℕ, List, OnOk};
ghost use Rattle.sr_json_lines.specs.StatusObjects.{station_members, no_network_members, network_members, nodes_member, end_members};

use crate::pieces::{append_two, append_value, append_values};
use itoa::Buffer;
use sr_text::Text;
use std::alloc::AllocError;

/// Appends the members of a node: its role, its address, its mode and its window, as words.
///
/// # Errors
/// An allocation failed. What was appended is then a part of them.
pub fn append_station(
    text: &mut Text,
    role: &[u8],
    mac: &[u8],
    mode: &[u8],
    window: &[u8],
) -> Result<(), AllocError>
    ensures { OnOk result (text.new
        ≡ text.old ++ station_members role.now mac.now mode.now window.now) }
{
    append_two(text, b"{\"role\":\"", role)?;
    append_two(text, b"\",\"mac\":\"", mac)?;
    append_two(text, b"\",\"mode\":\"", mode)?;
    append_two(text, b"\",\"window\":", window)
}

/// Appends that no PRP network is at the interlink of a node.
///
/// # Errors
/// Those of `append_station`.
pub fn append_no_network(text: &mut Text) -> Result<(), AllocError>
    ensures { OnOk result (text.new ≡ text.old ++ no_network_members) }
{
    text.extend_from_slice(b",\"lan\":null,\"net\":null")
}

/// Appends which LAN of which PRP network is at the interlink of a node, as words.
///
/// # Errors
/// Those of `append_station`.
pub fn append_network(text: &mut Text, lan: &[u8], net: &[u8]) -> Result<(), AllocError>
    ensures { OnOk result (text.new ≡ text.old ++ network_members lan.now net.now) }
{
    append_two(text, b",\"lan\":\"", lan)?;
    append_two(text, b"\",\"net\":", net)
}

/// Appends how many nodes are told of, and their objects.
///
/// # Errors
/// Those of `append_station`.
pub fn append_nodes(text: &mut Text, count: u64, nodes: &[u8]) -> Result<(), AllocError>
    ensures { OnOk result (text.new ≡ text.old ++ nodes_member count nodes.now) }
{
    let mut digits = Buffer::new();
    append_two(text, b",\"lreCntNodes\":", digits.format(count).as_bytes())?;
    append_value(text, b",\"nodes\":[", nodes, b"]")
}

/// Appends the objects of alarms and of refusals, and the end of a status.
///
/// # Errors
/// Those of `append_station`.
pub fn append_end(text: &mut Text, alarms: &[u8], refusals: &[u8]) -> Result<(), AllocError>
    ensures { OnOk result (text.new ≡ text.old ++ end_members alarms.now refusals.now) }
{
    append_values(
        text,
        b",\"alarms\":[",
        alarms,
        b"],\"refused\":[",
        refusals,
        b"]}\n",
    )
}
