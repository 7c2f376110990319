//! What holds of every table of pipes, as contracts of functions that do nothing.
ghost use Rattle.std.specs.Prelude.{◌≡◌, ◌*◌, length, is_some, count_by, All};
ghost use Rattle.sys_types.specs.declared.limits.TheConstants.{PIPE_BLOCKS};
ghost use Rattle.block_pool.specs.Pool.{PoolState};
ghost use Rattle.block_pool.specs.Others.{SameContents};
ghost use Rattle.block_pool.specs.Chain.{ChainState};
ghost use Rattle.pipe_core.specs.Pipes.{Pipes};
ghost use Rattle.pipe_core.specs.Chains.{bytes_of, blocks_of, HoldsBlocks};

/// Pipes whose blocks have the same in them hold the same bytes.
pub fn same_pipes()
    ensures { (old new : PoolState) (pipes : Pipes ChainState) → SameContents (blocks_of pipes) old new → bytes_of new pipes ≡ bytes_of old pipes }
{}

/// Pipes that have their blocks hold 32 each.
pub fn blocks_of_pipes()
    ensures { (pipes : Pipes ChainState) → All HoldsBlocks pipes → length (blocks_of pipes) ≡ PIPE_BLOCKS * count_by is_some pipes }
{}
