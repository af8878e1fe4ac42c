// The walk over a pool's blocks, and the bytes of the reply that tells its figures.
#![tactic(auto)]

ghost use Rattle.std.specs.Prelude.{◌≡◌, cond, List, ℕ, ◌+◌, ◌-◌, ◌%◌, ◌≤◌, ◌<◌, length};
ghost use Rattle.lists.specs.Splice.{splice};
ghost use Rattle.wire.specs.Bytes.{word_bytes};
ghost use Rattle.rules.specs.Pools.{block_of, blocks_of};
ghost use Rattle.pool.specs.Answers.{tallied, walked_of, figure_bytes, WalkedNumbers};

use rules::Header;
use wire::put_words;

// Free words, free blocks, usable words of the largest free block; used words, used blocks.
#[derive(Clone, Copy)]
pub struct Figures {
    pub free: usize,
    pub freeblocks: usize,
    pub usable: usize,
    pub used: usize,
    pub usedblocks: usize,
}

// What the walk carries: the free blocks' figures, and how many blocks there are. What is used is the rest of the words and blocks passed.
#[derive(Clone, Copy)]
struct Tally {
    free: usize,
    freeblocks: usize,
    largest: usize,
    blocks: usize,
}

// n or 0. A block is used or free by chance, so that a branch here would be guessed wrong half the time; this compiles to none.
fn picked(taken: bool, n: usize) -> usize
    ensures { (result ≡ cond taken n 0) × (result ≤ n) }
{
    if taken { n } else { 0 }
}

// The tally with the block that begins with word `w`. The sums are at most the words passed, so they fit.
fn count_block(t: Tally, w: u32) -> Tally
    requires { (t.free + (block_of w).size < 18446744073709551616) × (t.freeblocks + 1 < 18446744073709551616) × (t.blocks + 1 < 18446744073709551616) }
    ensures { result ≡ tallied t (block_of w) }
{
    let size = (w % 2147483648) as usize;
    let used = 2147483648 <= w;
    let freesize = picked(!used, size);
    let freeone = picked(!used, 1);
    Tally {
        free: t.free + freesize,
        freeblocks: t.freeblocks + freeone,
        largest: t.largest.max(freesize),
        blocks: t.blocks + 1,
    }
}

// The figures of a pool's blocks, from the first word of each. None where they are damaged.
pub fn walk_pool(pool: &[u32]) -> Option<Figures>
    ensures { result ≡ walked_of (blocks_of pool.now) }
{
    let mut t = Tally {
        free: 0,
        freeblocks: 0,
        largest: 0,
        blocks: 0,
    };
    let mut at = 0;
    // kept: a step is as long as the block says
    while at < pool.len() {
        let w = pool[at];
        let size = (w % 2147483648) as usize;
        if size == 0 {
            return None;
        }
        if pool.len() - at < size {
            return None;
        }
        t = count_block(t, w);
        at = at + size;
    }
    // The first word of the largest free block isn't usable.
    Some(Figures {
        free: t.free,
        freeblocks: t.freeblocks,
        usable: t.largest.saturating_sub(1),
        used: at - t.free,
        usedblocks: t.blocks - t.freeblocks,
    })
}

// The reply as eight words, each number cut to its field.
fn reply_words(h: Header, pool: u16, f: Figures) -> [u32; 8]
    ensures { word_bytes result ≡ figure_bytes (h.count % 16384) (h.unit % 16) (h.transaction % 4096) pool f }
{
    let sequence = 49152 + u32::from(h.count % 16384);
    let identity = 4096 * u32::from(h.unit % 16) + u32::from(h.transaction % 4096);
    [
        785 * 65536 + sequence,
        25 * 65536 + identity,
        u32::from(pool) * 65536,
        (f.free % 4294967296) as u32,
        (f.freeblocks % 4294967296) as u32,
        (f.usable % 4294967296) as u32,
        (f.used % 4294967296) as u32,
        (f.usedblocks % 4294967296) as u32,
    ]
}

// The reply at the start of the buffer, each number cut to its field. Where it does not fit, nothing is written.
pub fn put_reply(reply: &mut [u8], h: Header, pool: u16, f: Figures)
    ensures { (32 ≤ length reply.old → reply.new ≡ splice reply.old 0 (figure_bytes (h.count % 16384) (h.unit % 16) (h.transaction % 4096) pool f))
        × (length reply.old < 32 → reply.new ≡ reply.old) }
{
    put_words(reply, 0, &reply_words(h, pool, f));
}

// The number of a pool's walk, exactly in its case. This function does nothing: its contract is what is proved.
pub fn numbers_of_walks()
    ensures { (ws : List ℕ) → WalkedNumbers ws (walked_of (blocks_of ws)) }
{}
