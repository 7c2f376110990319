//! The tables of the layers below the kernel, and the one loop over them. A row is a question and its answer, as
//! `WORD OF -> ANSWER`.

use crate::{lists, shell_lines, terminals};
use std::alloc::Global;

/// What the rows of a table ask about.
#[derive(Clone, Copy)]
enum Layer {
    Lists,
    Terminals,
    ShellLines,
}

const TABLES: [(Layer, &str); 3] = [
    (Layer::Lists, lists::ROWS),
    (Layer::Terminals, terminals::ROWS),
    (Layer::ShellLines, shell_lines::ROWS),
];

/// The answer to a question.
fn told(alloc: Global, layer: Layer, asked: &str, of: &str) -> Option<Vec<u8>> {
    match layer {
        Layer::Lists => lists::told(alloc, asked, of),
        Layer::Terminals => terminals::told(alloc, of),
        Layer::ShellLines => shell_lines::told(alloc, of),
    }
}

/// Whether a row has the answer that its question is given. An empty row and one that begins with `#` ask nothing.
fn is_right(alloc: Global, layer: Layer, row: &str) -> Option<bool> {
    if row.is_empty() || row.starts_with('#') {
        return Some(true);
    }
    let (question, answer) = row.split_once(" -> ")?;
    let (asked, of) = question.split_once(' ')?;
    let given = told(alloc, layer, asked, of)?;
    Some(given.as_slice() == answer.as_bytes())
}

#[test]
fn each_question_has_its_answer(rt: HostRuntime) {
    for (layer, table) in TABLES {
        for row in table.split_terminator('\n') {
            let is_right = is_right(rt.alloc(), layer, row);
            assert!(rt; is_right == Some(true), "{row}");
        }
    }
}
