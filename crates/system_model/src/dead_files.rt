//! Open files of lines that were revoked (revoke(2)).
ghost use Rattle.std.specs.Prelude.{◌≡◌, ◌<◌, ℕ, length};
ghost use Rattle.fd_table.specs.declared.open.Target.TheVariants as kept;
ghost use Rattle.tty_dev.specs.Table.{counts_of};
ghost use Rattle.system_model.specs.Tables.{generations, is_dead_target};

use fd_table::Target;
use tty_dev::Line;
use tty_dev::table::is_dead;

/// Whether an open file is a dead one of a line: the line, which there is, was revoked since the open.
pub fn is_dead_file(lines: &[Line], target: &Target) -> bool
    requires { (line opened : ℕ) → target.now ≡ kept.Line line opened → line < length lines.now }
    ensures { result ≡ is_dead_target (generations (counts_of lines.now)) target.now }
{
    match target {
        Target::Line { line, opened } => is_dead(lines, *line, *opened),
        Target::File(_) | Target::PipeRead(_) | Target::PipeWrite(_) => false,
    }
}
