//! The line that a number refers to.
ghost use Rattle.std.specs.Prelude.{◌≡◌, ◌<◌, ℕ, List, [], Option, Some, length, IfOk, MatchResult};
ghost use Rattle.sys_types.specs.declared.limits.TheConstants.{SLOTS};
ghost use Rattle.tree_model.specs.Tree.{NodeAt};
ghost use Rattle.tty_dev.specs.Table.{counts_of, boots_of};
ghost use Rattle.system_model.specs.Fit.{FitLines};
ghost use Rattle.system_model.specs.Rows.{refused, first};
ghost use Rattle.system_model.specs.Tables.{Tables, seen_target, view_of};
ghost use Rattle.system_model.specs.TtyCalls.{tty_of, tty_checks};
ghost use Rattle.tty_calls.specs.LineOf.{IsLineOf};

use call_words::Rule;
use fd_table::{FdTable, Target};
use system_model::is_dead_file;
use tty_dev::Line;

/// The line that an open file is of.
fn line_of_target(target: &Target) -> Option<u8>
    ensures { (nodes : List (Option NodeAt)) → result ≡ tty_of (seen_target nodes target.now) }
{
    match target {
        Target::Line { line, opened: _ } => Some(*line),
        Target::File(_) | Target::PipeRead(_) | Target::PipeWrite(_) => None,
    }
}

/// The line of a number of a slot.
///
/// Denied by the first rule that holds: `BadFd`, where the number is not open; `Dead`, where the line was revoked since; `NotLine`, where
/// the file is not of a line.
pub(crate) fn line_of_fd(fds: &FdTable, lines: &[Line], slot: u8, fd: u8) -> Result<u8, Rule>
    requires slot { slot < SLOTS }
    requires lines { FitLines fds.now (counts_of lines.now) (boots_of lines.now) }
    ensures below { IfOk result (λ line. line < length lines.now) }
    ensures line { MatchResult result
        (λ line. (t : Tables) → t.descriptors ≡ fds.now → t.lines ≡ lines.now → IsLineOf (view_of t) slot fd line)
        (λ rule. (t : Tables) → t.descriptors ≡ fds.now → t.lines ≡ lines.now → first (tty_checks (view_of t) slot fd) ≡ Some (refused rule, [])) }
{
    let Some(file) = fds.get(slot, fd) else {
        return Err(Rule::BadFd);
    };
    if is_dead_file(lines, &file.target) {
        return Err(Rule::Dead);
    }
    match line_of_target(&file.target) {
        Some(line) => Ok(line),
        None => Err(Rule::NotLine),
    }
}
