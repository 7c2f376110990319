//! Scenes: scripts of which each line stands beside the line that answers it, each from a boot of its own.
//!
//! A scene begins with a line `== TITLE` or `== TITLE == BOOT TEXT`. Its rows are `LINE -> ANSWER`, or `COUNT times LINE -> ANSWER`;
//! empty ones and those that begin with `#` are remarks. In a row `~TEXT*COUNT~` is a text so many times, and `~#~` is how often the
//! row has come before.

use crate::session::{NO_FAULTS, ROOM, Session};
use crate::texts::push_expanded;
use crate::{
    directories, files, lines, listings, opens, paths, processes, rights, sessions, standard,
    terminals,
};
use std::alloc::Global;
use std::test::Fail;

/// The lines of a script, and their answers.
#[derive(Drop)]
struct Pages {
    script: Vec<u8>,
    answers: Vec<u8>,
}

/// Adds a line and its answer.
fn add(alloc: Global, pages: &mut Pages, row: &str, number: u32) -> Result<(), Fail> {
    let (line, answer) = row.split_once(" -> ").ok_or("no row")?;
    push_expanded(alloc, &mut pages.script, line, number)?;
    pages.script.push(b'\n')?;
    push_expanded(alloc, &mut pages.answers, answer, number)?;
    Ok(pages.answers.push(b'\n')?)
}

/// Adds a row so many times.
fn add_times(alloc: Global, pages: &mut Pages, count: &str, row: &str) -> Result<(), Fail> {
    for number in 0..count.parse::<u32>()? {
        add(alloc, pages, row, number)?;
    }
    Ok(())
}

fn add_row(alloc: Global, pages: &mut Pages, row: &str) -> Result<(), Fail> {
    if row.is_empty() || row.starts_with('#') {
        return Ok(());
    }
    match row.split_once(" times ") {
        Some((count, row)) => add_times(alloc, pages, count, row),
        None => add(alloc, pages, row, 0),
    }
}

fn pages_of(alloc: Global, rows: &str) -> Result<Pages, Fail> {
    let mut pages = Pages {
        script: Vec::new(alloc),
        answers: Vec::new(alloc),
    };
    for row in rows.split_terminator('\n') {
        add_row(alloc, &mut pages, row)?;
    }
    Ok(pages)
}

/// The boot text that the first line of a scene names.
fn boot_of(title: &str) -> &str {
    match title.split_once(" == ") {
        Some((_, boot_text)) => boot_text,
        None => "",
    }
}

/// Whether the program writes the answers of a scene to its lines.
fn is_right(alloc: Global, title: &str, rows: &str) -> Result<bool, Fail> {
    let pages = pages_of(alloc, rows)?;
    let session = Session {
        command: "script boot",
        boot_text: boot_of(title).as_bytes(),
        script: &pages.script,
        faults: NO_FAULTS,
        room: ROOM,
    };
    Ok(session.writes(alloc, &pages.answers, 0)?)
}

const TABLES: [&str; 11] = [
    directories::SCENES,
    files::SCENES,
    lines::SCENES,
    listings::SCENES,
    opens::SCENES,
    paths::SCENES,
    processes::SCENES,
    rights::SCENES,
    sessions::SCENES,
    standard::SCENES,
    terminals::SCENES,
];

#[test]
fn each_line_has_its_answer(rt: HostRuntime) -> Result<(), Fail> {
    for table in TABLES {
        for scene in table.split("\n== ") {
            let (title, rows) = scene.split_once('\n').unwrap_or(("", ""));
            let is_right = is_right(rt.alloc(), title, rows)?;
            assert!(rt; is_right, "{title}");
        }
    }
    Ok(())
}
