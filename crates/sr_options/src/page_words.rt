//! What a page of an audit has besides what the captures tell.

ghost use Rattle.std.specs.Prelude.{◌↔◌, IfOk, IsTrue};
ghost use Rattle.sr_options.specs.Tasks.{AreNone, HasPlaceFor};

use crate::audit_line::Format;
use crate::fault::OptionFault;
use crate::script_line::with_option;
use clap::{ArgMatches, Command};
use std::alloc::{AllocError, Global};

/// What a page of an audit has besides what the captures tell. No other format has a place for it.
#[derive(Clone, Copy, Debug)]
pub struct PageWords<'a> {
    /// Its title.
    pub title: Option<&'a str>,
    /// What the tester has to say.
    pub note: Option<&'a str>,
    /// The file that has names of nodes.
    pub names: Option<&'a str>,
}

impl<'a> PageWords<'a> {
    /// Whether none of them is given.
    fn are_none(&self) -> bool
        ensures { IsTrue result ↔ AreNone self.now }
    {
        self.title.is_none() && self.note.is_none() && self.names.is_none()
    }
}

/// A command with the options of a page more, if it was made.
pub(crate) fn with_page_words<'a>(
    alloc: Global,
    command: Result<Command<'a>, AllocError>,
) -> Result<Command<'a>, AllocError> {
    let title = "The title of a page";
    let command = with_option(alloc, command, "title", "TEXT", title);
    let note = "What stands below the title of a page";
    let command = with_option(alloc, command, "note", "TEXT", note);
    let names = "Names of nodes for a page: an address and a name in each line of the file";
    with_option(alloc, command, "names", "FILE", names)
}

/// What a page has besides what the captures tell.
///
/// # Errors
/// `Page` where another format is wanted.
pub(crate) fn page_words_of<'a>(
    matches: &ArgMatches<'a>,
    format: Format,
) -> Result<PageWords<'a>, OptionFault>
    ensures { IfOk result (λ words. HasPlaceFor format words) }
{
    let words = PageWords {
        title: matches.get_str("title"),
        note: matches.get_str("note"),
        names: matches.get_str("names"),
    };
    if format == Format::Html || words.are_none() {
        Ok(words)
    } else {
        Err(OptionFault::Page)
    }
}
