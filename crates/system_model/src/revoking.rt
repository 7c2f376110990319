//! The revoke of a line (revoke(2)), as a call asks for it and as the end of a session's leader brings it.
ghost use Rattle.std.specs.Prelude.{◌≡◌, ◌<◌, ◌^◌, ◌+◌, ℕ, is_some, length, if◌then◌else◌};
ghost use Rattle.sys_types.specs.declared.limits.TheConstants.{LINES};
ghost use Rattle.block_pool.specs.Chain.{ChainState};
ghost use Rattle.block_pool.specs.Pool.{AreOf};
ghost use Rattle.fd_table.specs.declared.open.Open.{Open};
ghost use Rattle.fd_table.specs.Shared.{Shared};
ghost use Rattle.line_disc.specs.Lines.{line_at};
ghost use Rattle.pipe_core.specs.Pipes.{Pipes};
ghost use Rattle.tty_dev.specs.Table.{devices, lines_held, counts_of, boots_of, count_at};
ghost use Rattle.system_model.specs.Effects.{on_lines, change};
ghost use Rattle.system_model.specs.Fit.{FitLines, FitBlocks, AreRevokedAtMost};
ghost use Rattle.system_model.specs.LineEffects.{revoke_line};
ghost use Rattle.system_model.specs.Tables.{Tables, view_of};

use block_pool::Pool;
use tty_dev::Line;
use tty_dev::table::revoke;

/// Revokes a line, which was revoked fewer than 2^63 times: each open file of it is dead from now on, nothing is queued, its blocks are
/// free, and it has no session. Answers the session that it had.
pub fn revoke_line(lines: &mut [Line], pool: &mut Pool, line: u8) -> Option<u32>
    requires line { line < LINES }
    requires places { length lines.old ≡ LINES }
    requires few { (count_at (counts_of lines.old) line).generation < 2 ^ 63 }
    requires of_pool { AreOf pool.old (lines_held lines.old) }
    ensures session { result ≡ (line_at (devices pool.old lines.old) line).session }
    ensures lines { (d : Shared Open) → FitLines d (counts_of lines.old) (boots_of lines.old) → FitLines d (counts_of lines.new) (boots_of lines.new) }
    ensures blocks { (pipes : Pipes ChainState) → FitBlocks pool.old pipes lines.old → FitBlocks pool.new pipes lines.new }
    ensures revokes { (most : ℕ) → AreRevokedAtMost most pool.old lines.old →
        AreRevokedAtMost (most + (if is_some result then 0 else 1)) pool.new lines.new }
    ensures does { (t : Tables) → t.pool ≡ pool.old → t.lines ≡ lines.old → FitLines t.descriptors (counts_of lines.old) (boots_of lines.old) →
        FitBlocks pool.old t.pipes lines.old →
        view_of (record t { pool = pool.new; lines = lines.new }) ≡ change (view_of t) (on_lines (revoke_line line)) }
{
    revoke(lines, pool, line)
}
