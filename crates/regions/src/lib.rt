// Regions: the rules of one, what a lookup answers, and a table of sixteen, wherever its entries stand. The table in a block's words is in lent_regions.
#![tactic(auto)]

ghost use Rattle.std.specs.Prelude.{◌≡◌, true, List, ℕ, ◌*◌, ◌-◌, ◌/◌, ◌<◌, ◌≤◌, min, length};
ghost use Rattle.rules.specs.Regions.{start_of, end_of, region_at, table_rules, first_of, words_below};
ghost use Rattle.regions.specs.Halving.{region_by_halving, compared, AtMostFive, NumberSettled, RightInOrder, find_by_halving};
ghost use Rattle.regions.specs.Lookup.{rules_by, holds_by, table_words, refusal_of, can_dump, FoundWhen, word_index, IndexWhen};
ghost use Rattle.regions.specs.SearchExamples.{SearchExamples};
ghost use Rattle.rules.specs.declared.Range.{Range};
ghost use Rattle.rules.specs.declared.Region.{Region};

use rules::{Address, Range, Refusal, Region, WordIndex};

// The region that holds a range whole: its number and rights.
#[derive(Clone, Copy)]
pub struct Spot {
    pub region: u8,
    pub load: bool,
    pub dump: bool,
}

// How a range misses: its first word is in no region, or it starts inside a region and runs out of it.
#[derive(Clone, Copy)]
pub enum Miss {
    StartsOutside,
    EndsOutside,
}

impl From<Miss> for Refusal {
    ghost from_gives = { λ miss refusal. refusal ≡ refusal_of miss };

    fn from(miss: Miss) -> Refusal {
        match miss {
            Miss::StartsOutside => Refusal::OutsideRegions,
            Miss::EndsOutside => Refusal::RunsOut,
        }
    }
}

// What a search answers: the region, or the number of entries looked at where none holds the range; and how many regions it compared.
#[derive(Clone, Copy)]
pub struct Searched {
    pub region: usize,
    pub compared: usize,
}

// ONE REGION

// The end of a range, in 64 bits: it may be 2^32 and more.
pub fn end_of(a: Range) -> u64
    ensures { result ≡ end_of a }
{
    u64::from(a.start.0) + 4 * u64::from(a.words)
}

// The rules of a region, with the end of the region before it.
pub fn region_rules(region: Range, before: u64) -> bool
    ensures { result ≡ rules_by region.start.0 region.words before }
{
    (region.start.0 % 4 == 0)
        & (1 <= region.words)
        & (region.words <= 1048576)
        & (end_of(region) <= 4294967296)
        & (before <= u64::from(region.start.0))
}

// Whether a region holds whole what begins at `from` and ends at `end`.
pub fn is_holding(region: Range, from: Address, end: u64) -> bool
    ensures { result ≡ holds_by region.start.0 region.words from.0 end }
{
    (region.start.0 <= from.0) & (end <= end_of(region))
}

// The words of a region before an address.
pub fn words_before(region: Range, from: Address) -> u32
    ensures { result ≡ (from.0 - start_of region) / 4 }
{
    from.0.saturating_sub(region.start.0) / 4
}

// The first word of a range, or the word that an empty one would begin with.
pub fn first_word(a: Range) -> Range
    ensures { result ≡ first_of a }
{
    Range { words: 1, ..a }
}

// Whether what was found has the dump right.
pub fn can_dump(found: Result<Spot, Miss>) -> bool
    ensures { result ≡ can_dump found }
{
    found.is_ok_and(|spot| spot.dump)
}

// A TABLE

// Sixteen regions. An entry not in use may hold anything.
pub trait Table {
    // The regions as a list.
    ghost entries: { Self → List Region };

    // Entry i of the sixteen.
    fn entry(&self, i: usize) -> Region
        requires { i < 16 }
        ensures { result ≡ region_at (entries self.now) i };
}

// The table of a State.
impl Table for [Region; 16] {
    ghost entries = { λ regions. regions };

    fn entry(&self, i: usize) -> Region {
        self[i]
    }
}

// The words of the image of the first n regions, or 0 where the table breaks a rule. Kept: a table has a word, and the definition says 0 so.
pub fn table_words<T: Table>(rs: &T, n: usize) -> usize
    ensures { result ≡ table_words (T.entries rs.now) n }
{
    if (n == 0) | (16 < n) {
        return 0;
    }
    let mut total: usize = 0;
    let mut before: u64 = 0;
    for i in 0..n {
        let region = rs.entry(i).range;
        if !region_rules(region, before) {
            return 0;
        }
        before = end_of(region);
        total += region.words as usize;
    }
    total
}

// The region that holds the range whole, by halving. Right for a table by the rules, since that is in order.
fn region_of<T: Table>(rs: &T, n: usize, a: Range) -> Searched
    ensures { (result.region ≡ region_by_halving (T.entries rs.now) (min n 16) a) × (result.compared ≡ length (compared (T.entries rs.now) (min n 16) a)) × AtMostFive (T.entries rs.now) (min n 16) a }
{
    let used = n.min(16);
    let mut first: usize = 0;
    let mut left = used;
    let mut compared: usize = 1;
    // kept: what is left is halved
    while 1 < left {
        let half = left / 2;
        let middle = rs.entry(first + half - 1).range;
        compared += 1;
        if end_of(middle) < end_of(a) {
            first += half;
        }
        left -= half;
    }
    if is_holding(rs.entry(first).range, a.start, end_of(a)) {
        return Searched {
            region: first,
            compared,
        };
    }
    Searched {
        region: used,
        compared,
    }
}

// The words of the first k regions.
fn words_below<T: Table>(rs: &T, k: usize) -> usize
    requires { k ≤ 16 }
    ensures { (result ≡ words_below (T.entries rs.now) k) × (result ≤ 4294967296 * k) }
{
    let mut total: usize = 0;
    for i in 0..k {
        total += rs.entry(i).range.words as usize;
    }
    total
}

// The region that holds the range whole, or how it missed. The search is for its first word.
pub fn find_region<T: Table>(rs: &T, n: usize, a: Range) -> Result<Spot, Miss>
    ensures { (result ≡ find_by_halving (T.entries rs.now) (min n 16) a) × (table_rules (T.entries rs.now) n ≡ true → FoundWhen (T.entries rs.now) n a result) }
{
    let k = region_of(rs, n, first_word(a)).region;
    if n.min(16) <= k {
        return Err(Miss::StartsOutside);
    }
    let r = rs.entry(k);
    if end_of(r.range) < end_of(a) {
        return Err(Miss::EndsOutside);
    }
    Ok(Spot {
        region: k as u8,
        load: r.load,
        dump: r.dump,
    })
}

// The index in the image of the first word of a range that region k holds. Only this makes an index from an address, and only those ask it that
// read or write the range's words.
pub fn word_index<T: Table>(rs: &T, k: u8, a: Range) -> WordIndex
    ensures { (result ≡ word_index (T.entries rs.now) k a) × ((n : ℕ) → table_rules (T.entries rs.now) n ≡ true → IndexWhen (T.entries rs.now) n k a result) }
{
    let i = k as usize;
    if 16 <= i {
        return WordIndex(0);
    }
    let below = words_below(rs, i);
    let before = words_before(rs.entry(i).range, a.start) as usize;
    WordIndex(below + before)
}

// THE LAWS, and examples. These functions do nothing: the contract of each is what is proved.

// The regions compared, at most five, settle the number of the lookup's answer.
pub fn number_is_settled()
    ensures { (rs : List Region) (n : ℕ) (a : Range) → NumberSettled rs n a }
{}

// In a table by the rules the search by halving finds the region of paper 01.
pub fn search_is_right()
    ensures { RightInOrder }
{}

pub fn search_examples()
    ensures { SearchExamples }
{}
