//! What is wrong with the value of an option, or with options that stand together.

/// What is wrong with the value of an option, or with options that stand together.
#[derive(Clone, Copy, Debug, PartialEq, Eq)]
pub enum OptionFault {
    /// `--shift-a` is no number of milliseconds, nor of its unit.
    ShiftA,
    /// `--shift-b` is none.
    ShiftB,
    /// `--shift-c` is none.
    ShiftC,
    /// The shifts are too far apart.
    Shifts,
    /// `--from` is no whole number of milliseconds.
    From,
    /// `--to` is none.
    To,
    /// `--tick` is none, or 0.
    Tick,
    /// The address of a node is that of a group.
    Group,
    /// A script of no captures.
    NoFiles,
    /// An audit of no captures.
    NoCaptures,
    /// The capture of a mirror port beside those of LANs.
    Mirror,
    /// The files of a capture are of several interfaces.
    Interfaces,
    /// Times of day in a table or a picture.
    Time,
    /// A word of `--list` is the name of no list, or there are too many.
    List,
    /// More than one list in one table.
    Table,
    /// A list where a picture is drawn.
    Picture,
    /// A list where a page is written.
    Listed,
    /// Words of a page in another format.
    Page,
    /// More joins than a ring has nodes less one.
    Joins,
    /// A picture of a run on threads.
    Drawn,
    /// Standard input for both captures of a watch.
    Inputs,
    /// `--every` is no number of seconds from 1 to 3600.
    Every,
    /// `--alone-for` is no number of seconds from 1 on.
    AloneFor,
    /// `--skew-over` is no number of microseconds from 1 on.
    SkewOver,
    /// `--lost-over` is no number from 1 to 100.
    LostOver,
    /// `--max-lost` is no number.
    MaxLost,
    /// `--max-skew-us` is no number of microseconds.
    MaxSkew,
    /// `--slack` is no number of milliseconds from 300 to 60000.
    Slack,
    /// `--for` is no number of seconds from 1 on.
    For,
}

impl OptionFault {
    /// The word that standard error has for the fault.
    pub(crate) fn word(self) -> &'static str {
        match self {
            OptionFault::ShiftA => "shift-a",
            OptionFault::ShiftB => "shift-b",
            OptionFault::ShiftC => "shift-c",
            OptionFault::Shifts => "shift",
            OptionFault::From => "from",
            OptionFault::To => "to",
            OptionFault::Tick => "tick",
            OptionFault::Group => "mac",
            OptionFault::NoFiles => "files",
            OptionFault::NoCaptures => "captures",
            OptionFault::Mirror => "mirror",
            OptionFault::Interfaces => "interface",
            OptionFault::Time => "time",
            OptionFault::List => "list",
            OptionFault::Table => "table",
            OptionFault::Picture => "picture",
            OptionFault::Listed => "list",
            OptionFault::Page => "page",
            OptionFault::Joins => "joins",
            OptionFault::Drawn => "format",
            OptionFault::Inputs => "input",
            OptionFault::Every => "every",
            OptionFault::AloneFor => "alone-for",
            OptionFault::SkewOver => "skew-over",
            OptionFault::LostOver => "lost-over",
            OptionFault::MaxLost => "max-lost",
            OptionFault::MaxSkew => "max-skew-us",
            OptionFault::Slack => "slack",
            OptionFault::For => "for",
        }
    }

    /// What is wanted in place of what was given.
    pub(crate) fn wanted(self) -> &'static str {
        match self {
            OptionFault::ShiftA | OptionFault::ShiftB | OptionFault::ShiftC =>
                "a shift is a number of milliseconds, or has a unit of s, ms, us or ns behind it, as 500, -0.3ms or 300us",
            OptionFault::Shifts => "the shifts are more than 146 years apart",
            OptionFault::From | OptionFault::To =>
                "--from and --to take whole milliseconds from the earliest packet on",
            OptionFault::Tick => "--tick takes whole milliseconds, at least 1",
            OptionFault::Group =>
                "--mac is the address of one node: the first octet of a group's address is odd",
            OptionFault::NoFiles => "give a capture at least: --a FILE, --b FILE or --c FILE",
            OptionFault::NoCaptures =>
                "give a capture at least: --a FILE or --b FILE, or --mirror FILE",
            OptionFault::Mirror => "--mirror FILE stands alone: without --a and --b",
            OptionFault::Interfaces =>
                "the files of a capture are read as one: name the same interface of each, as FILE:N",
            OptionFault::Time => "--time utc is for --format text and json",
            OptionFault::List => "--list takes lost, wrong and pairs, joined by commas",
            OptionFault::Table => "--format csv prints one table: name one list",
            OptionFault::Picture => "--format svg draws a picture: it takes no list",
            OptionFault::Listed => "--format html writes a page: it takes no list",
            OptionFault::Page => "--title, --note and --names are for --format html",
            OptionFault::Joins =>
                "a link joins a box of each ring, and a ring has more nodes than boxes: --joins is less than --left and --right",
            OptionFault::Drawn => "--format svg draws a run by steps: it takes no --turns",
            OptionFault::Inputs =>
                "standard input is one capture: name a file or a pipe for the other",
            OptionFault::Every => "--every takes whole seconds, 1 to 3600",
            OptionFault::AloneFor => "--alone-for takes whole seconds, at least 1",
            OptionFault::SkewOver => "--skew-over takes whole microseconds, at least 1",
            OptionFault::LostOver => "--lost-over takes a percentage, 1 to 100",
            OptionFault::MaxLost => "--max-lost takes a whole number of frames",
            OptionFault::MaxSkew => "--max-skew-us takes whole microseconds",
            OptionFault::Slack => "--slack takes whole milliseconds, 300 to 60000",
            OptionFault::For => "--for takes whole seconds, at least 1",
        }
    }
}
