//! What the libraries of captures call what the command line asks for.

use sr_capture_audit::{Format, Lists, Network, Ports, Subject};
use sr_capture_merge::{Plan, Scope, Spelling};
use sr_options::{AuditTask, MergeTask};

/// How frames have their numbers.
pub(crate) fn network_of(network: sr_options::Network) -> Network {
    match network {
        sr_options::Network::Prp => Network::Prp,
        sr_options::Network::Hsr => Network::Hsr,
    }
}

/// How frames have their numbers, as they are read while captures grow.
pub(crate) fn watch_network_of(network: sr_options::Network) -> sr_intake::Network {
    match network {
        sr_options::Network::Prp => sr_intake::Network::Prp,
        sr_options::Network::Hsr => sr_intake::Network::Hsr,
    }
}

/// What is audited, at the times that are read.
pub(crate) fn subject_of(task: &AuditTask<'_>) -> Subject {
    Subject {
        network: network_of(task.network),
        ports: match task.ports {
            sr_options::Ports::Two => Ports::Two,
            sr_options::Ports::Mirror => Ports::Mirror,
        },
        clock: None,
    }
}

/// The lists that are wanted.
pub(crate) fn lists_of(task: &AuditTask<'_>) -> Lists {
    Lists {
        lost: task.lists.lost,
        wrong: task.lists.wrong,
        pairs: task.lists.pairs,
    }
}

/// How the lines of an audit are printed. None: a picture is drawn, or a page written, in their place.
pub(crate) fn lines_of(task: &AuditTask<'_>) -> Option<Format> {
    match task.format {
        sr_options::Format::Text => Some(Format::Text),
        sr_options::Format::Json => Some(Format::Json),
        sr_options::Format::Csv => Some(Format::Csv),
        sr_options::Format::Svg | sr_options::Format::Html => None,
    }
}

/// How captures are merged.
pub(crate) fn plan_of(task: &MergeTask<'_>) -> Plan {
    Plan {
        network: network_of(task.network),
        spelling: match task.spelling {
            sr_options::Spelling::Plain => Spelling::Plain,
            sr_options::Spelling::Kept => Spelling::Kept,
        },
        scope: match task.scope {
            sr_options::Scope::All => Scope::All,
            sr_options::Scope::Lost => Scope::Lost,
        },
        early: task.early,
    }
}
