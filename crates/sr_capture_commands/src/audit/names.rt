//! The file of names of nodes: an address and a name in each line.

use sr_capture_script::ScriptFault;
use sr_command_io::{Ended, beside};
use sr_frame::Mac;
use sr_markup::Escaped;
use sr_options::mac_of;
use sr_page::NodeName;
use std::fs::File;
use std::io;
use std::rt::Files;

/// The address and the name of a line. None: it has none of them.
fn parts_of(line: &str) -> Option<(Mac, &str)> {
    let (word, rest) = line.trim().split_once(' ')?;
    Some((mac_of(word)?, rest.trim()))
}

/// Whether a line says nothing: it is empty, or a comment behind `#`.
fn is_blank(line: &str) -> bool {
    let line = line.trim();
    line.is_empty() || line.starts_with('#')
}

/// Adds the name of a line. The error is what ended the audit.
fn add_line<R: AllocGlobal + Eprint>(
    rt: &R,
    path: &str,
    number: u64,
    line: &str,
    names: &mut Vec<NodeName>,
) -> Result<(), Ended> {
    if is_blank(line) {
        return Ok(());
    }
    let Some((mac, name)) = parts_of(line) else {
        let _ = eprintln!(rt; "fault names {number}");
        let _ = eprintln!(rt;
            "{path}, line {number}: an address and a name are wanted, as 02:00:00:00:00:01 pump"
        );
        return Err(Ended::Unopened);
    };
    let Ok(name) = Escaped::of(rt.alloc(), name) else {
        return Err(Ended::By(ScriptFault::NoMemory));
    };
    match names.push(NodeName { mac, name }) {
        Ok(()) => Ok(()),
        Err(_) => Err(Ended::By(ScriptFault::NoMemory)),
    }
}

/// The text of a file of names. Standard error is told where it can't be read.
fn text_at<R: AllocGlobal + Eprint + Files>(rt: &R, path: &str) -> Result<String, Ended> {
    let Ok(file) = File::open(rt, path) else {
        let _ = eprintln!(rt; "fault names open");
        let _ = eprintln!(rt; "{path}: the file can not be opened");
        return Err(Ended::Unopened);
    };
    match io::read_to_string(rt.alloc(), file) {
        Ok(text) => Ok(text),
        Err(_) => {
            let _ = eprintln!(rt; "fault names read");
            let _ = eprintln!(rt; "{path}: the file can not be read as text");
            Err(Ended::Unopened)
        }
    }
}

/// Adds the names of the lines of a text. The error is what ended the audit.
fn add_lines<R: AllocGlobal + Eprint>(
    rt: &R,
    path: &str,
    text: &str,
    names: &mut Vec<NodeName>,
) -> Result<(), Ended> {
    let mut number: u64 = 0;
    for line in text.lines() {
        number = number.saturating_add(1);
        add_line(rt, path, number, line, names)?;
    }
    Ok(())
}

/// The names of nodes that a file has, if one is named. Standard error is told what is wrong with it.
pub(crate) fn read_names<R: AllocGlobal + Eprint + Files>(
    rt: &R,
    path: Option<&str>,
) -> Result<Vec<NodeName>, Ended> {
    let Some(path) = path else {
        return Ok(Vec::new(rt.alloc()));
    };
    let text = text_at(rt, path)?;
    let mut names = Vec::new(rt.alloc());
    let added = add_lines(rt, path, &text, &mut names);
    drop(text);
    let ((), names) = beside(added, names)?;
    Ok(names)
}
