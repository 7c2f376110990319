//! fdevname(3).
ghost use Rattle.std.specs.Prelude.{◌≡◌, ◌<◌, ℕ, List, Option};
ghost use Rattle.sys_types.specs.declared.limits.TheConstants.{SLOTS, LINES};
ghost use Rattle.fd_table.specs.declared.open.Target.TheVariants as kept;
ghost use Rattle.tree_model.specs.Tree.{NodeAt};
ghost use Rattle.tty_dev.specs.Table.{counts_of, boots_of};
ghost use Rattle.system_model.specs.Fit.{FitLines};
ghost use Rattle.system_model.specs.Rows.{Does};
ghost use Rattle.system_model.specs.Tables.{Tables, seen_target, view_of};
ghost use Rattle.system_model.specs.TtyCalls.{target_name, fdname_row};

use call_words::{Decision, Rule};
use fd_table::{FdTable, Target};
use sys_types::TextBuf;
use system_model::is_dead_file;
use tty_dev::Line;

/// What an open file is of, in a word.
fn name_of(target: &Target) -> TextBuf
    requires { (line opened : ℕ) → target.now ≡ kept.Line line opened → line < LINES }
    ensures { (nodes : List (Option NodeAt)) → result ≡ target_name (seen_target nodes target.now) }
{
    match target {
        Target::File(_) => TextBuf::from_slice(b"file").unwrap(),
        Target::PipeRead(_) | Target::PipeWrite(_) => TextBuf::from_slice(b"pipe").unwrap(),
        Target::Line { line, opened: _ } => {
            TextBuf::from_slice(&[b't', b't', b'y', b'0' + *line]).unwrap()
        }
    }
}

/// fdevname(3): answers the name of the line that a number refers to, as `tty3`; `file`, where it refers to a regular file; and `pipe`,
/// where it refers to an end of a pipe.
///
/// Denied by the first rule that holds: `BadFd`, where the number is not open; `Dead`, where its line was revoked since it was opened.
pub fn do_fdname(fds: &FdTable, lines: &[Line], slot: u8, fd: u8) -> Decision
    requires slot { slot < SLOTS }
    requires lines { FitLines fds.now (counts_of lines.now) (boots_of lines.now) }
    ensures does { (t : Tables) → t.descriptors ≡ fds.now → t.lines ≡ lines.now →
        Does (view_of t) (view_of t) result (fdname_row (view_of t) slot fd) }
{
    let Some(file) = fds.get(slot, fd) else {
        return Decision::denied(Rule::BadFd);
    };
    if is_dead_file(lines, &file.target) {
        return Decision::denied(Rule::Dead);
    }
    Decision::text(name_of(&file.target))
}
