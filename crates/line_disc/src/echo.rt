//! What a line puts out for a byte: the output rule and the echo.
ghost use Rattle.std.specs.Prelude.{◌≡◌, ◌<◌, ◌≤◌, ◌++◌, length};
ghost use Rattle.line_disc.specs.Echo.{is_char, shown_byte, shown, is_drawn, draw, echo, columns, erase_echo, drop_line_echo};

use arrayvec::ArrayVec;
use termios_core::{DISABLED, Termios};

/// How many bytes an echo has at most before the output rule.
pub(crate) const ECHO_BYTES: usize = 6;

/// How many bytes go out for an echo at most.
pub(crate) const SHOWN_BYTES: usize = 12;

/// A few bytes: the echo of a byte.
pub(crate) type Echo = ArrayVec<u8, ECHO_BYTES>;

/// The delete character of ASCII.
const DELETE: u8 = 127;

/// Back, blank, back: what wipes a column of a screen.
const WIPE: [u8; 3] = [8, b' ', 8];

/// Whether a byte is this control character, which is disabled where it is 255.
pub(crate) fn is_char(char: u8, byte: u8) -> bool
    ensures { result ≡ is_char char byte }
{
    byte == char && char != DISABLED
}

/// What goes out for a byte: one byte, or two for a newline.
pub(crate) fn shown_byte(termios: &Termios, byte: u8) -> ArrayVec<u8, 2>
    ensures shown { result.items ≡ shown_byte termios.now byte }
    ensures most { length result.items ≤ 2 }
    ensures some { 0 < length result.items }
{
    let flags = termios.flags;
    let mut out = ArrayVec::new();
    if flags.opost && flags.onlcr && byte == b'\n' {
        out.push(b'\r');
        out.push(b'\n');
    } else if flags.opost && flags.ocrnl && byte == b'\r' {
        out.push(b'\n');
    } else {
        out.push(byte);
    }
    out
}

/// What goes out for an echo.
pub(crate) fn shown(termios: &Termios, bytes: &Echo) -> ArrayVec<u8, SHOWN_BYTES>
    ensures { result.items ≡ shown termios.now bytes.now.items }
{
    let mut out = ArrayVec::new();
    for byte in bytes.as_slice() {
        let _ = out.try_extend_from_slice(shown_byte(termios, *byte).as_slice());
    }
    out
}

/// Whether echoctl draws a byte as `^` and a letter.
fn is_drawn(byte: u8) -> bool
    ensures { result ≡ is_drawn byte }
{
    (byte < b' ' && byte != b'\t' && byte != b'\n') || byte == DELETE
}

/// Adds the drawing of a byte: itself, or `^` and a letter.
fn draw(termios: &Termios, byte: u8, out: &mut Echo)
    requires { length out.old.items ≤ 2 }
    ensures { out.new.items ≡ out.old.items ++ draw termios.now byte }
{
    if termios.flags.echoctl && is_drawn(byte) {
        out.push(b'^');
        out.push(byte ^ 64);
    } else {
        out.push(byte);
    }
}

/// The echo of a byte that came in.
pub(crate) fn echo(termios: &Termios, byte: u8) -> Echo
    ensures { result.items ≡ echo termios.now byte }
{
    let flags = termios.flags;
    let mut out = ArrayVec::new();
    if flags.echo {
        draw(termios, byte, &mut out);
    } else if flags.echonl && flags.icanon && byte == b'\n' {
        out.push(b'\n');
    }
    out
}

/// How many columns of a screen a byte took that was echoed: none, one, or two.
fn columns(termios: &Termios, byte: u8) -> u8
    ensures columns { result ≡ columns termios.now byte }
    ensures most { result ≤ 2 }
{
    if is_drawn(byte) {
        if termios.flags.echoctl { 2 } else { 0 }
    } else if byte == b'\n' {
        0
    } else {
        1
    }
}

/// The echo of ERASE, which took the byte `removed` away.
pub(crate) fn erase_echo(termios: &Termios, byte: u8, removed: u8) -> Echo
    ensures { result.items ≡ erase_echo termios.now byte removed }
{
    let mut out = ArrayVec::new();
    if !termios.flags.echo {
        return out;
    }
    if !termios.flags.echoe {
        draw(termios, byte, &mut out);
        return out;
    }
    for _column in 0..columns(termios, removed) {
        let _ = out.try_extend_from_slice(&WIPE);
    }
    out
}

/// The echo of KILL.
pub(crate) fn drop_line_echo(termios: &Termios, byte: u8) -> Echo
    ensures { result.items ≡ drop_line_echo termios.now byte }
{
    let mut out = ArrayVec::new();
    if !termios.flags.echo {
        return out;
    }
    draw(termios, byte, &mut out);
    if termios.flags.echok {
        out.push(b'\n');
    }
    out
}
