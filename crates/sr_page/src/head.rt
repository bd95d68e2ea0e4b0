//! Where a page begins and ends: its policy, its style, its title, and facts on the captures as a whole.

use crate::elements::{put, put_all, put_escaped};
use crate::outcome::{Outcome, word_of};
use crate::script::{SCRIPT, SCRIPT_HASH};
use crate::style::{STYLE, STYLE_HASH};
use sr_markup::Escaped;
use std::io::{self, Write};

/// A fact under a name.
#[derive(Drop)]
pub struct Fact {
    /// Its name.
    pub name: &'static str,
    /// What it is.
    pub text: Escaped,
}

/// Writes what a browser may do with the page: it takes the page's own style and script, and asks for nothing.
fn put_policy<W: Write>(writer: &mut W) -> io::Result<()> {
    put_all(
        writer,
        &[
            "<meta http-equiv=\"Content-Security-Policy\" content=\"default-src 'none'; style-src 'sha256-",
            STYLE_HASH,
            "'; script-src 'sha256-",
            SCRIPT_HASH,
            "'; base-uri 'none'; form-action 'none'\">\n<meta name=\"viewport\" content=\"width=device-width, initial-scale=1\">\n",
            "<meta name=\"color-scheme\" content=\"light dark\">\n<meta name=\"referrer\" content=\"no-referrer\">\n",
        ],
    )
}

/// Writes the style.
fn put_style<W: Write>(writer: &mut W) -> io::Result<()> {
    put(writer, "<style>")?;
    put_all(writer, STYLE.as_slice())?;
    put(writer, "</style>\n")
}

/// Writes the script.
fn put_script<W: Write>(writer: &mut W) -> io::Result<()> {
    put(writer, "<script>")?;
    put_all(writer, SCRIPT.as_slice())?;
    put(writer, "</script>\n")
}

/// Begins a page of this title, up to what it shows.
///
/// # Errors
/// The writer fails.
pub fn open_page<W: Write>(writer: &mut W, outcome: Outcome, title: &Escaped) -> io::Result<()> {
    put(
        writer,
        "<!DOCTYPE html>\n<html lang=\"en\">\n<head>\n<meta charset=\"utf-8\">\n",
    )?;
    put_policy(writer)?;
    put_all(writer, &["<title>", word_of(outcome), ": "])?;
    put_escaped(writer, title)?;
    put(writer, "</title>\n")?;
    put_style(writer)?;
    put(
        writer,
        "</head>\n<body>\n<a class=\"skip\" href=\"#verdict\">To the verdict</a>\n",
    )
}

/// Writes a fact.
fn put_fact<W: Write>(writer: &mut W, fact: &Fact) -> io::Result<()> {
    put_all(writer, &["<dl><dt>", fact.name, "</dt><dd>"])?;
    put_escaped(writer, &fact.text)?;
    put(writer, "</dd></dl>\n")
}

/// Writes the title and facts on the captures as a whole.
///
/// # Errors
/// The writer fails.
pub fn write_head<W: Write>(writer: &mut W, title: &Escaped, facts: &[Fact]) -> io::Result<()> {
    put(writer, "<header><h1>")?;
    put_escaped(writer, title)?;
    put(writer, "</h1>\n<div class=\"facts\">\n")?;
    for fact in facts {
        put_fact(writer, fact)?;
    }
    put(writer, "</div></header>\n<main>\n")
}

/// Ends a page.
///
/// # Errors
/// The writer fails.
pub fn close_page<W: Write>(writer: &mut W) -> io::Result<()> {
    put(writer, "</main>\n")?;
    put_script(writer)?;
    put(writer, "</body>\n</html>\n")
}
