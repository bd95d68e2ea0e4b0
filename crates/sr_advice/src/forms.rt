//! The kinds of lines of a script, by which a line that is none of one is explained.

/// What a script is for.
#[derive(Clone, Copy, Debug, PartialEq, Eq)]
pub enum ScriptKind {
    /// A node without an interlink.
    Node,
    /// A node with one.
    RedBox,
    /// A network.
    Network,
    /// A network whose nodes run on threads.
    Threads,
}

impl ScriptKind {
    /// The kinds of its lines.
    pub(crate) fn forms(self) -> &'static [Form] {
        match self {
            ScriptKind::Node => NODE_FORMS,
            ScriptKind::RedBox => REDBOX_FORMS,
            ScriptKind::Network => PLANT_FORMS,
            ScriptKind::Threads => THREAD_FORMS,
        }
    }
}

/// What a word of a line is.
#[derive(Clone, Copy)]
pub(crate) enum Part {
    /// A port of a node without an interlink.
    Port,
    /// A port of a node with one.
    PortOrInterlink,
    /// A time.
    Time,
    /// A node, a link, or a copy.
    Number,
    /// A node, or all.
    Destination,
    /// Octets.
    Octets,
}

/// A kind of line: its first word, the others, and how it is shown.
#[derive(Clone, Copy)]
pub(crate) struct Form {
    /// Its first word.
    pub name: &'static str,
    /// What stands behind it.
    pub parts: &'static [Part],
    /// How it is shown.
    pub shown: &'static str,
}

/// The lines of a script for a node without an interlink.
const NODE_FORMS: &[Form] = &[
    Form {
        name: "in",
        parts: &[Part::Port, Part::Time, Part::Octets],
        shown: "in P T HEX",
    },
    SEND,
    TICK,
];

/// The lines of a script for a node with one.
const REDBOX_FORMS: &[Form] = &[
    Form {
        name: "in",
        parts: &[Part::PortOrInterlink, Part::Time, Part::Octets],
        shown: "in P T HEX",
    },
    SEND,
    TICK,
];

const SEND: Form = Form {
    name: "send",
    parts: &[Part::Time, Part::Octets],
    shown: "send T HEX",
};

const TICK: Form = Form {
    name: "tick",
    parts: &[Part::Time],
    shown: "tick T",
};

const PLANT_SEND: Form = Form {
    name: "send",
    parts: &[Part::Number, Part::Destination, Part::Octets],
    shown: "send I D HEX",
};

/// The lines of a script for a ring or for two LANs whose nodes run on threads.
const THREAD_FORMS: &[Form] = &[PLANT_SEND];

/// The lines of a script for a ring or for two LANs.
const PLANT_FORMS: &[Form] = &[
    PLANT_SEND,
    Form {
        name: "carry",
        parts: &[Part::Number],
        shown: "carry K",
    },
    Form {
        name: "drop",
        parts: &[Part::Number],
        shown: "drop K",
    },
    Form {
        name: "repeat",
        parts: &[Part::Number],
        shown: "repeat K",
    },
    Form {
        name: "cut",
        parts: &[Part::Number],
        shown: "cut L",
    },
    Form {
        name: "mend",
        parts: &[Part::Number],
        shown: "mend L",
    },
    Form {
        name: "tick",
        parts: &[Part::Number, Part::Time],
        shown: "tick I T",
    },
    Form {
        name: "flow",
        parts: &[],
        shown: "flow",
    },
];
