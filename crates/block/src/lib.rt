// Blocks of the C interface, words of 32 bits in the caller's memory: a word, a range and a run of words, read and written. What a block
// says of a state is in specs/Blocks.antt.
#![tactic(auto)]

ghost use Rattle.std.specs.Prelude.{◌≡◌, ◌+◌, ◌%◌, ◌≤◌, length, set};
ghost use Rattle.lists.specs.Splice.{splice};
ghost use Rattle.block.specs.Blocks.{word, range_in};
ghost use Rattle.block.specs.RoundTrip.{RoundTrip};
ghost use Rattle.block.specs.Layout.{Layout};
ghost use Rattle.block.specs.Changes.{BlockChanges};
ghost use Rattle.rules.specs.declared.State.{State};

use rules::{Address, Range};

// READ

// Word `i`, and 0 past the end.
pub fn word_at(b: &[u32], i: usize) -> u32
    ensures { result ≡ word b.now i }
{
    b.get(i).copied().unwrap_or(0)
}

// The range in words `at` and `at + 1`.
pub fn range_in(b: &[u32], at: usize) -> Range
    ensures { result ≡ range_in b.now at }
{
    if b.len() <= at {
        return Range {
            start: Address(0),
            words: 0,
        };
    }
    let start = Address(b[at]);
    let words = word_at(b, at + 1);
    Range { start, words }
}

// WRITTEN

// Word `i`; nothing is past the end.
pub fn set_word(b: &mut [u32], i: usize, x: u32)
    ensures { b.new ≡ set b.old i x }
{
    if i < b.len() {
        b[i] = x;
    }
}

// One more in word `i`, and 0 after `most`.
pub fn raise(b: &mut [u32], i: usize, most: u32)
    ensures { b.new ≡ set b.old i ((word b.old i + 1) % (most + 1)) }
{
    let n = u64::from(word_at(b, i)) + 1;
    let more = n % (u64::from(most) + 1);
    set_word(b, i, more as u32);
}

// The words of `v`, from index `at` on. Kept word by word: of the library's copy the compiler makes a call of `memmove`, and the archive needs `memset` alone.
fn copy_run(b: &mut [u32], at: usize, v: &[u32])
    requires { at + length v.now ≤ length b.old }
    ensures { b.new ≡ splice b.old at v.now }
{
    for (i, word) in v.iter().enumerate() {
        b[at + i] = *word;
    }
}

// The words of `v`, from index `at` on. Where they do not fit, nothing is written.
pub fn put_run(b: &mut [u32], at: usize, v: &[u32])
    ensures { (at + length v.now ≤ length b.old → b.new ≡ splice b.old at v.now)
        × ((at + length v.now ≤ length b.old → ⊥) → b.new ≡ b.old) }
{
    if b.len() < at {
        return;
    }
    if b.len() - at < v.len() {
        return;
    }
    copy_run(b, at, v);
}

// WHAT A BLOCK SAYS

// A state's block gives the state back, and a block that is a state is that state's block, but for the words of entries not in use.
pub fn round_trip()
    ensures { RoundTrip }
{}

// What each word of a state's block is.
pub fn block_layout()
    ensures { (s : State) → Layout s }
{}

// A change of the state changes the words of what changed, and no others.
pub fn block_changes()
    ensures { BlockChanges }
{}
