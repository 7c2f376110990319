//! Texts of scripts and answers with short forms, so that long ones stand in a line.

use std::alloc::{AllocError, Global};
use std::test::Fail;

/// Pushes a text in which each `|` is a newline.
fn push_lines(out: &mut Vec<u8>, text: &str) -> Result<(), AllocError> {
    for byte in text.as_bytes() {
        out.push(if *byte == b'|' { b'\n' } else { *byte })?;
    }
    Ok(())
}

/// Pushes a text so many times.
fn push_repeated(out: &mut Vec<u8>, text: &str, count: &str) -> Result<(), Fail> {
    for _ in 0..count.parse::<usize>()? {
        push_lines(out, text)?;
    }
    Ok(())
}

/// Pushes what stands between two `~`: `TEXT*COUNT` for a text so many times, and `#` for a number.
fn push_form(alloc: Global, out: &mut Vec<u8>, form: &str, number: u32) -> Result<(), Fail> {
    match form.split_once('*') {
        Some((text, count)) => push_repeated(out, text, count),
        None => Ok(push_lines(out, format!(in alloc; "{number}")?.as_str())?),
    }
}

/// Pushes a text with its short forms written out: `~TEXT*COUNT~` is a text so many times, `~#~` is a number, and `|` a newline.
pub fn push_expanded(
    alloc: Global,
    out: &mut Vec<u8>,
    text: &str,
    number: u32,
) -> Result<(), Fail> {
    for (place, part) in text.split('~').enumerate() {
        if place % 2 == 0 {
            push_lines(out, part)?;
        } else {
            push_form(alloc, out, part, number)?;
        }
    }
    Ok(())
}

/// A text with its short forms written out.
pub fn expanded(alloc: Global, text: &str) -> Result<Vec<u8>, Fail> {
    let mut out = Vec::new(alloc);
    push_expanded(alloc, &mut out, text, 0)?;
    Ok(out)
}
