//! What holds of every line discipline, as contracts of functions that do nothing.
ghost use Rattle.std.specs.Prelude.{◌≡◌, ℕ, ◌≤◌, List, ◌++◌, length, take};
ghost use Rattle.sys_types.specs.declared.limits.TheConstants.{INPUT_PLACES, READY_LINE_BYTES, OUTPUT_BYTES, PIECE_BYTES, LINE_BLOCKS};
ghost use Rattle.termios_core.specs.declared.termios.Termios.{Termios};
ghost use Rattle.block_pool.specs.Pool.{PoolState, AreOf, AreApart, WritesTo};
ghost use Rattle.line_disc.specs.Echo.{shown};
ghost use Rattle.line_disc.specs.Transfers.{fit_count};
ghost use Rattle.line_disc.specs.Disc.{DiscState, discipline_of, blocks_of, KeepsBlocks};

/// The blocks of a discipline are still of the pool after a call.
pub fn keeps_blocks()
    ensures { (old new : PoolState) (before after : DiscState) → AreOf old (blocks_of before) → KeepsBlocks old new before after → AreOf new (blocks_of after) }
{}

/// What is written to other blocks leaves a discipline as it is.
pub fn other_disciplines()
    ensures { (own : List ℕ) (old new : PoolState) (disc : DiscState) → WritesTo own old new → AreApart own (blocks_of disc)
        → discipline_of new disc ≡ discipline_of old disc }
{}

/// A write puts as many bytes as fit: what goes out for them has room, and for one more it has not.
pub fn fit_counts()
    ensures fit { (t : Termios) (room : ℕ) (written : List ℕ) → length (shown t (take (fit_count t room written) written)) ≤ room }
    ensures all { (t : Termios) (room : ℕ) (written : List ℕ) → length (shown t written) ≤ room → fit_count t room written ≡ length written }
{}

/// The figures of the limits: the places of an input, the bytes of a line that is edited and of an output, those of one read,
/// and the blocks of a line.
pub fn limits()
    ensures places { INPUT_PLACES ≡ 1024 }
    ensures line { READY_LINE_BYTES ≡ 255 }
    ensures output { OUTPUT_BYTES ≡ 4096 }
    ensures piece { PIECE_BYTES ≡ 512 }
    ensures blocks { LINE_BLOCKS ≡ 40 }
{}
