// The region table in a block: 48 words, three to a region (start, size, rights), in the caller's memory. What is done with a table is in regions.
#![tactic(auto)]

ghost use Rattle.std.specs.Prelude.{◌≡◌, true, ℕ, ◌≤◌, length};
ghost use Rattle.rules.specs.Regions.{table_rules};
ghost use Rattle.regions.specs.Lookup.{table_words, FoundWhen, IndexWhen};
ghost use Rattle.block.specs.Blocks.{regions_in, regions_bounds};
ghost use Rattle.lent_regions.specs.Finding.{find_in, word_index_in};

use block::{range_in, word_at};
use regions::{Miss, Spot, Table};
use rules::{Address, Range, Region, WordIndex};

// A table in words: the first 48 of a slice.
#[derive(Clone, Copy)]
pub struct TableWords<'a> {
    words: &'a [u32],
    ghost whole: { 48 ≤ length words.now },
}

impl<'a> TableWords<'a> {
    // Kept: the length is asked for where it enters the type, and nowhere else.
    pub fn new(words: &'a [u32]) -> TableWords<'a>
        requires { 48 ≤ length words.now }
        ensures { result.words.now ≡ words.now }
    {
        TableWords { words }
    }

    // Whether none of the n entries in use has rights over 3.
    pub fn rights_bounds(&self, n: usize) -> bool
        ensures { result ≡ regions_bounds self.now.words.now 0 n }
    {
        (0..n.min(16)).all(|i| self.words[3 * i + 2] <= 3)
    }
}

impl<'a> Table for TableWords<'a> {
    ghost entries = { λ table. regions_in table.words.now 0 };

    fn entry(&self, i: usize) -> Region {
        let start = Address(self.words[3 * i]);
        let words = self.words[3 * i + 1];
        let rights = self.words[3 * i + 2];
        Region {
            range: Range { start, words },
            load: rights % 2 == 1,
            dump: 2 <= rights,
        }
    }
}

// ANY WORDS. Those past the end are 0.

#[derive(Clone, Copy)]
struct AnyWords<'a>(&'a [u32]);

impl<'a> Table for AnyWords<'a> {
    ghost entries = { λ table. regions_in table.0.now 0 };

    fn entry(&self, i: usize) -> Region {
        let rights = word_at(self.0, 3 * i + 2);
        Region {
            range: range_in(self.0, 3 * i),
            load: rights % 2 == 1,
            dump: 2 <= rights,
        }
    }
}

// The words of the image of the first n regions, or 0 where the table breaks a rule.
pub fn table_words(rs: &[u32], n: usize) -> usize
    ensures { result ≡ table_words (regions_in rs.now 0) n }
{
    regions::table_words(&AnyWords(rs), n)
}

// The region that holds the range whole, or how it missed. Fewer words than a table hold nothing.
pub fn find_region(rs: &[u32], n: usize, a: Range) -> Result<Spot, Miss>
    ensures { (result ≡ find_in rs.now n a) × (48 ≤ length rs.now → table_rules (regions_in rs.now 0) n ≡ true → FoundWhen (regions_in rs.now 0) n a result) }
{
    if rs.len() < 48 {
        return Err(Miss::StartsOutside);
    }
    regions::find_region(&AnyWords(rs), n, a)
}

// The index in the image of the first word of a range that region k holds, and 0 where there is no table.
pub fn word_index(rs: &[u32], k: u8, a: Range) -> WordIndex
    ensures { (result ≡ word_index_in rs.now k a) × (48 ≤ length rs.now → (n : ℕ) → table_rules (regions_in rs.now 0) n ≡ true → IndexWhen (regions_in rs.now 0) n k a result) }
{
    if rs.len() < 48 {
        return WordIndex(0);
    }
    regions::word_index(&AnyWords(rs), k, a)
}
