//! What holds of every line and of what has been done at it, as contracts of functions that do nothing.
ghost use Rattle.std.specs.Prelude.{◌≡◌, ℕ, ◌*◌, true, List, [], ◌∷◌, ◌++◌, length, nat_lt, replicate, count_by, All};
ghost use Rattle.sys_types.specs.declared.limits.TheConstants.{LINE_BLOCKS, OPEN_FILES};
ghost use Rattle.tty_dev.specs.Line.{LineState, is_dead, live_after};
ghost use Rattle.block_pool.specs.Pool.{PoolState};
ghost use Rattle.block_pool.specs.Others.{SameContents};
ghost use Rattle.line_disc.specs.Device.{is_live};
ghost use Rattle.line_disc.specs.Lines.{line_at};
ghost use Rattle.tty_dev.specs.Table.{devices, lines_held, counts_of, boots_of, count_at, HoldsBlocks};
ghost use Rattle.tty_dev.specs.History.{Use, Counts, opens, closes, revokes, after, after_use, is_revoked_in, Leads};

/// A file that was neither closed nor revoked is not dead. After a revoke every generation that was given before is dead for
/// good.
pub fn dead_files()
    ensures revoked { (uses : List Use) (c : Counts) → nat_lt c.generation (after c uses).generation ≡ is_revoked_in uses }
    ensures for_good { (uses : List Use) (c : Counts) (opened : ℕ) → nat_lt opened c.generation ≡ true → nat_lt opened (after c uses).generation ≡ true }
{}

/// The files that were neither closed nor revoked are as many as are counted live, and each was opened at the line's
/// generation, so it is not dead.
pub fn live_files()
    ensures { (uses : List Use) (c : Counts) (files : List ℕ) → Leads uses c files → files ≡ replicate c.live c.generation }
{}

/// A line counts what is done at it as a history does.
pub fn counts()
    ensures { (line : LineState) (opened : ℕ) → live_after line opened
        ≡ (after_use (record { generation = line.generation; live = line.live }) (closes opened)).live }
{}

/// There is a device for each line, its counts and its boot's settings. Lines whose blocks have the same in them are the same
/// devices.
pub fn lines_as_devices()
    ensures devices { (pool : PoolState) (lines : List LineState) → length (devices pool lines) ≡ length lines }
    ensures counts { (lines : List LineState) → length (counts_of lines) ≡ length lines }
    ensures boots { (lines : List LineState) → length (boots_of lines) ≡ length lines }
    ensures same { (old new : PoolState) (lines : List LineState) → SameContents (lines_held lines) old new → devices new lines ≡ devices old lines }
{}

/// Lines that have their blocks hold 40 for each that has a live file, and a line has a discipline exactly while a file of it is
/// live.
pub fn blocks_of_lines()
    ensures size { (pool : PoolState) (lines : List LineState) → All HoldsBlocks lines
        → length (lines_held lines) ≡ LINE_BLOCKS * count_by is_live (devices pool lines) }
    ensures live { (pool : PoolState) (lines : List LineState) (n : ℕ) → All HoldsBlocks lines
        → is_live (line_at (devices pool lines) n) ≡ nat_lt 0 (count_at (counts_of lines) n).live }
{}

/// The figures of the limits: the blocks of an open line, and the open files that there are at most.
pub fn limits()
    ensures blocks { LINE_BLOCKS ≡ 40 }
    ensures files { OPEN_FILES ≡ 256 }
{}
