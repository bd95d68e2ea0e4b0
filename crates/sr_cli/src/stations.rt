//! The members of a status that tell of the node itself.

use sr_forwarding::RoleKind;
use sr_json_lines::{append_network, append_no_network, append_station};
use sr_options::{Mode, NodeTask, Window};
use sr_prp_trailer::Lan;
use sr_text::Text;
use std::alloc::{AllocError, Global};

/// The word of `--role`.
fn role_word(role: RoleKind) -> &'static str {
    match role {
        RoleKind::Danp => "danp",
        RoleKind::Danh => "danh",
        RoleKind::San => "san",
        RoleKind::Prp { .. } => "prp",
        RoleKind::Hsr => "hsr",
    }
}

/// The word of `--mode`.
fn mode_word(mode: Mode) -> &'static str {
    match mode {
        Mode::H => "h",
        Mode::X => "x",
    }
}

/// The word of `--window`.
fn window_word(window: Window) -> &'static str {
    match window {
        Window::Narrow => "1024",
        Window::Wide => "2048",
    }
}

/// The word of `--lan`.
fn lan_word(lan: Lan) -> &'static str {
    match lan {
        Lan::A => "a",
        Lan::B => "b",
    }
}

/// The members of the node that is asked for.
pub fn station_of(alloc: Global, task: &NodeTask) -> Result<Text, AllocError> {
    let mut text = Text::new(alloc);
    let address = task.mac;
    let mac = format!(in alloc; "{address}")?;
    append_station(
        &mut text,
        role_word(task.role).as_bytes(),
        mac.as_bytes(),
        mode_word(task.options.mode).as_bytes(),
        window_word(task.options.window).as_bytes(),
    )?;
    match task.role {
        RoleKind::Prp { lan, net } => {
            let number = net.number();
            let net = format!(in alloc; "{number}")?;
            append_network(&mut text, lan_word(lan).as_bytes(), net.as_bytes())?;
        }
        _ => append_no_network(&mut text)?,
    }
    Ok(text)
}
