//! What holds of every pool, its leases and its chains, as contracts of functions that do nothing.
ghost use Rattle.std.specs.Prelude.{◌≡◌, ℕ, ◌+◌, ◌<◌, ◌↔◌, List, [], ◌++◌, length, All, nat_eq};
ghost use Rattle.std.specs.List.{Contains, IsDistinct};
ghost use Rattle.block_pool.specs.declared.TheConstants.{BLOCK_BYTES, LEASE_BLOCKS};
ghost use Rattle.block_pool.specs.Pool.{PoolState, contents, times, AreOf, AreAllOf, AreApart, Lends, WritesTo};
ghost use Rattle.block_pool.specs.Chain.{ChainState, holds};
ghost use Rattle.block_pool.specs.Others.{KeepsOthers};

/// The blocks of a lease are blocks of its pool, no two of them are the same, and none is free.
pub fn leased_blocks()
    ensures below { (pool : PoolState) (lease : List ℕ) → AreOf pool lease → All (λ block. block < length pool.blocks) lease }
    ensures distinct { (pool : PoolState) (lease : List ℕ) → AreOf pool lease → IsDistinct nat_eq lease }
    ensures not_free { (pool : PoolState) (lease : List ℕ) → AreOf pool lease → AreApart lease pool.free }
{}

/// Leases of one pool are apart. Each of them is of the pool, and they may be listed in any order.
pub fn leases_apart()
    ensures apart { (pool : PoolState) (lease other : List ℕ) → AreOf pool (lease ++ other) → AreApart lease other }
    ensures part { (pool : PoolState) (lease other : List ℕ) → AreOf pool (lease ++ other) → AreOf pool lease }
    ensures order { (pool : PoolState) (lease other : List ℕ) → ((block : ℕ) → times block lease ≡ times block other) → AreOf pool lease → AreOf pool other }
{}

/// Two leases that were reserved one after the other share no block.
pub fn reserved_in_turn()
    ensures together { (first second : List ℕ) (start middle last : PoolState) → AreOf start [] → Lends first start middle → Lends second middle last → AreOf last (second ++ first) }
    ensures apart { (first second : List ℕ) (start middle last : PoolState) → AreOf start [] → Lends first start middle → Lends second middle last → AreApart second first }
{}

/// The free blocks and the leased ones are all blocks, each once. Lending keeps this, and so does
/// giving back, which is lending seen backwards.
pub fn all_blocks()
    ensures lends { (lease leased : List ℕ) (old new : PoolState) → Lends lease old new → (AreAllOf old leased ↔ AreAllOf new (lease ++ leased)) }
    ensures of_pool { (pool : PoolState) (leased : List ℕ) → AreAllOf pool leased → AreOf pool leased }
    ensures count { (pool : PoolState) (leased : List ℕ) → AreAllOf pool leased → length pool.free + length leased ≡ length pool.blocks }
    ensures order { (pool : PoolState) (leased other : List ℕ) → ((block : ℕ) → times block leased ≡ times block other) → AreAllOf pool leased → AreAllOf pool other }
{}

/// What is written to blocks leaves what is leased.
pub fn writes_leave_leases()
    ensures of_pool { (own leased : List ℕ) (old new : PoolState) → WritesTo own old new → AreOf old leased → AreOf new leased }
    ensures all { (own leased : List ℕ) (old new : PoolState) → WritesTo own old new → AreAllOf old leased → AreAllOf new leased }
{}

/// No write is a write, a write to blocks is one to blocks that contain them, and two writes to the
/// same blocks are one: so a call that works on several chains writes to their blocks together.
pub fn writes_add_up()
    ensures none { (own : List ℕ) (pool : PoolState) → WritesTo own pool pool }
    ensures wider { (own wider : List ℕ) (old new : PoolState) → ((block : ℕ) → Contains own block → Contains wider block) → WritesTo own old new → WritesTo wider old new }
    ensures in_turn { (own : List ℕ) (old middle new : PoolState) → WritesTo own old middle → WritesTo own middle new → WritesTo own old new }
{}

/// What a chain holds depends on its own blocks alone, and it holds as many bytes as it counts.
pub fn own_blocks()
    ensures same { (old new : PoolState) (chain : ChainState) → All (λ block. contents new block ≡ contents old block) chain.blocks → holds new chain ≡ holds old chain }
    ensures count { (pool : PoolState) (chain : ChainState) → length (holds pool chain) ≡ chain.count }
{}

/// What is written to blocks leaves what every chain over other blocks holds.
pub fn other_chains()
    ensures { (own : List ℕ) (old new : PoolState) (chain : ChainState) → WritesTo own old new → AreApart own chain.blocks → holds new chain ≡ holds old chain }
{}

/// What others have of a pool they keep: where nothing is done, over a write to an owner's own blocks, where it takes a lease or
/// gives one back, and over such calls one after another. The owner's blocks may be listed in any order, and more of its blocks
/// may be listed that stay. The owner's blocks are of the pool as they were.
pub fn others_keep()
    ensures own { (before after : List ℕ) (old new : PoolState) → KeepsOthers before after old new → AreOf old before → AreOf new after }
    ensures still { (own : List ℕ) (pool : PoolState) → KeepsOthers own own pool pool }
    ensures writes { (own : List ℕ) (old new : PoolState) → WritesTo own old new → KeepsOthers own own old new }
    ensures lends { (lease : List ℕ) (old new : PoolState) → Lends lease old new → KeepsOthers [] lease old new }
    ensures returns { (lease : List ℕ) (old new : PoolState) → Lends lease new old → KeepsOthers lease [] old new }
    ensures in_turn { (before own after : List ℕ) (old middle new : PoolState) → KeepsOthers before own old middle → KeepsOthers own after middle new
        → KeepsOthers before after old new }
    ensures order { (before after first last : List ℕ) (old new : PoolState) → ((block : ℕ) → times block first ≡ times block before)
        → ((block : ℕ) → times block after ≡ times block last) → KeepsOthers before after old new → KeepsOthers first last old new }
    ensures beside { (before after beside : List ℕ) (old new : PoolState) → KeepsOthers before after old new
        → KeepsOthers (before ++ beside) (after ++ beside) old new }
{}

/// The figures of the limits: the bytes of a block, and the blocks of a lease.
pub fn limits()
    ensures block { BLOCK_BYTES ≡ 128 }
    ensures lease { LEASE_BLOCKS ≡ 40 }
{}
