//! That the definitions mean what a shell's user expects, and where lines have their faults.

use sh_text::{Command, Line, NoMemory, ShFault, Word, read_line};
use std::alloc::Global;

/// Lines, and their trees as `shown` writes them, or the place of their fault.
pub const ROWS: &str = "
line  -> nothing
line  \t  -> nothing
line ls; ps & -> [ls]|;[ps]|&
line ls; -> [ls]|;
line a&b -> [a]|&[b]|;
line a|b  c | d -> [a]|[b][c]|[d]|;
line a<b>c d -> [a][d]<[b]>[c]|;
line < in cat >> out -> [cat]<[in]>>[out]|;
line a >b -> [a]>[b]|;
line echo 'a  b;|' c\\ d -> [echo][a  b;|][c d]|;
line a'b'\\''c\\' -> [ab'c\\]|;
line '' -> []|;
line \\\\ \\' -> [\\][']|;
line cat 'a'\\ \t<'b c' -> [cat][a ]<[b c]|;
line 1|2|3|4|5|6|7|8 -> [1]|[2]|[3]|[4]|[5]|[6]|[7]|[8]|;
line a|b&c;d\t -> [a]|[b]|&[c]|;[d]|;
line ls | -> at 4
line a < > b -> at 4
line 'ab -> at 3
line ab\\ -> at 3
line ; -> at 0
line  & -> at 1
line a;;b -> at 2
line a & ; b -> at 4
line |a -> at 0
line a||b -> at 2
line a < -> at 3
line a > > b -> at 4
line a >>> b -> at 4
line a < b < c -> at 6
line a > b >> c -> at 6
line < a -> at 3
line < a | b -> at 4
line < a ; b -> at 4
line 1|2|3|4|5|6|7|8|9 -> at 15
line a ; < b > 'c -> at 12
";

/// Puts a word behind the text, in brackets.
fn show_word(word: &Word, text: &mut Vec<u8>) -> Result<(), NoMemory> {
    text.push(b'[')?;
    text.extend_from_slice(word.as_slice())?;
    text.push(b']')?;
    Ok(())
}

/// Puts a command behind the text: its words, and then its input and its output.
fn show_command(command: &Command, text: &mut Vec<u8>) -> Result<(), NoMemory> {
    for word in command.words.as_slice() {
        show_word(word, text)?;
    }
    if let Some(word) = &command.input {
        text.push(b'<')?;
        show_word(word, text)?;
    }
    if let Some(word) = &command.output {
        text.extend_from_slice(if command.append { b">>" } else { b">" })?;
        show_word(word, text)?;
    }
    Ok(())
}

/// A line's tree as a text: a bar behind each command, and `&` or `;` behind each job.
fn shown(alloc: Global, line: &Line) -> Result<Vec<u8>, NoMemory> {
    let mut text = Vec::new(alloc);
    for job in line.jobs.as_slice() {
        for command in job.commands.as_slice() {
            show_command(command, &mut text)?;
            text.push(b'|')?;
        }
        text.push(if job.background { b'&' } else { b';' })?;
    }
    Ok(text)
}

/// A line's tree, or the place of its fault.
pub fn told(alloc: Global, text: &str) -> Option<Vec<u8>> {
    match read_line(alloc, text.as_bytes()) {
        Ok(line) if line.jobs.as_slice().is_empty() => Vec::from_slice(alloc, b"nothing").ok(),
        Ok(line) => shown(alloc, &line).ok(),
        Err(ShFault::Text { at }) => Some(format!(in alloc; "at {at}").ok()?.into_bytes()),
        Err(ShFault::NoMemory) => None,
    }
}
