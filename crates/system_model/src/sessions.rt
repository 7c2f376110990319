//! The terminal line of a session (tty(4)).
ghost use Rattle.std.specs.Prelude.{◌≡◌, ◌<◌, length, position, IfSome};
ghost use Rattle.sys_types.specs.declared.limits.TheConstants.{LINES};
ghost use Rattle.proc_table.specs.Groups.{is_number};
ghost use Rattle.system_model.specs.Looks.{line_of_session};
ghost use Rattle.system_model.specs.Tables.{Tables, view_of};

use tty_dev::Line;

/// Whether a line is the controlling terminal of a session.
fn is_line_of(line: &Line, session: u32) -> bool
    ensures { result ≡ is_number session line.now.session }
{
    match line.session {
        None => false,
        Some(other) => other == session,
    }
}

/// The place of the first line that is the controlling terminal of a session.
fn place_of(lines: &[Line], session: u32) -> Option<usize>
    ensures place { result ≡ position (λ line. is_number session line.session) lines.now }
    ensures below { IfSome result (λ place. place < length lines.now) }
{
    lines.iter().position(|line| is_line_of(line, session))
}

/// The least of 8 lines that is the controlling terminal of a session. `None` comes exactly where none is.
pub fn line_of_session(lines: &[Line], session: u32) -> Option<u8>
    requires { length lines.now ≡ LINES }
    ensures line { (t : Tables) → t.lines ≡ lines.now → result ≡ line_of_session (view_of t) session }
    ensures below { IfSome result (λ line. line < LINES) }
{
    match place_of(lines, session) {
        None => None,
        Some(line) => Some(line as u8),
    }
}
