//! The lines of a boot text.
ghost use Rattle.std.specs.Prelude.{◌≡◌};
ghost use Rattle.user_db.specs.Grammar.{recheck_of, boot_line_of};

/// How many lines a boot text has at most.
pub const BOOT_LINES: u32 = 256;

/// How many bytes a line of a boot text has at most, without its newline.
pub const BOOT_LINE_BYTES: usize = 4096;

/// How many bytes a boot text has at most, with its newlines. A text of more is bad, and its first
/// bad line is told by any prefix of it that is longer than this.
pub const BOOT_TEXT_BYTES: usize = BOOT_LINES as usize * (BOOT_LINE_BYTES + 1);

/// What a line of a boot text says.
#[derive(Clone, Copy)]
pub(crate) enum BootLine {
    /// Whether reads and writes check the labels anew.
    Recheck(bool),
}

/// `recheck on` or `recheck off`.
fn read_recheck(line: &[u8]) -> Option<BootLine>
    ensures { result ≡ recheck_of line.now }
{
    if line == b"recheck on".as_slice() {
        return Some(BootLine::Recheck(true));
    }
    if line == b"recheck off".as_slice() {
        return Some(BootLine::Recheck(false));
    }
    None
}

/// What a line says, without its newline. `None` exactly where it is bad.
#[tactic(auto, unfolding(crate::specs::Grammar::boot_line_of))]
pub(crate) fn read_boot_line(line: &[u8]) -> Option<BootLine>
    ensures { result ≡ boot_line_of line.now }
{
    if line.len() > BOOT_LINE_BYTES {
        return None;
    }
    read_recheck(line)
}
