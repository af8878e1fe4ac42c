// The state in a block of 80 words, in the caller's memory. Its regions, pools and places are read where they stand.
ghost use Rattle.std.specs.Prelude.{◌≡◌, ◌&&◌, length};
ghost use Rattle.rules.specs.States.{good_state, count_rules};
ghost use Rattle.block.specs.Blocks.{state_of, is_block, places_bounds};
ghost use Rattle.state.specs.Counts.{block_changes};

use crate::{Store, places_rules, start_words};
use block::{raise, range_in};
use lent_places::{LentPlaces, first_with, place_bounds, put_context};
use lent_regions::TableWords;
use places::{Seat, first_idle, next_turn};
use regions::{Miss, Spot, find_region, word_index};
use rules::{Context, Range, WordIndex};

// What the type says of a block's words, as a fact for proofs.
fn eighty_words(b: &[u32; 80])
    ensures { length b.now ≡ 80 }
{}

// Whether the last place served and the counts are by the rules.
fn count_rules(b: &[u32; 80]) -> bool
    ensures { result ≡ count_rules (state_of b.now) }
{
    (b[74] <= 3)
        & (b[75] <= 16383)
        & (b[79] <= 16383)
        & (b[76] <= 16383)
        & (b[77] <= 65535)
        & (b[78] <= 65535)
}

// Whether each place is five zeros, or busy with a transaction number of 16 bits.
fn places_bounds(b: &[u32; 80]) -> bool
    ensures { result ≡ places_bounds b.now }
{
    let places = &b[54..74];
    place_bounds(places, 0)
        & place_bounds(places, 1)
        & place_bounds(places, 2)
        & place_bounds(places, 3)
}

impl Store for [u32; 80] {
    ghost state = { state_of };

    ghost is_good = { λ b. is_block b && good_state (state_of b) };

    ghost changes = { block_changes };

    fn good_words(&self) -> usize {
        eighty_words(self);
        let n = self[0] as usize;
        let table = TableWords::new(&self[1..49]);
        let pools = [range_in(self, 49), range_in(self, 51)];
        let words = start_words(&table, n, pools, (self[53] % 256) as u8);
        if words == 0 {
            return 0;
        }
        if !(table.rights_bounds(n) & (self[53] <= 255) & count_rules(self)) {
            return 0;
        }
        if !places_bounds(self) {
            return 0;
        }
        if !places_rules(&table, n, &LentPlaces(&self[54..74])) {
            return 0;
        }
        words
    }

    fn unit(&self) -> u8 {
        (self[53] % 256) as u8
    }

    fn replies(&self) -> u16 {
        (self[75] % 65536) as u16
    }

    fn values(&self) -> u16 {
        (self[79] % 65536) as u16
    }

    fn packets(&self) -> u16 {
        (self[76] % 65536) as u16
    }

    fn pool(&self, i: u16) -> Range {
        range_in(&self[49..53], 2 * i as usize)
    }

    fn find(&self, a: Range) -> Result<Spot, Miss> {
        find_region(&TableWords::new(&self[1..49]), self[0] as usize, a)
    }

    // With the match in `word_index` a load takes 2 ns more.
    fn index(&self, a: Range, found: Result<Spot, Miss>) -> WordIndex {
        match found {
            Err(_) => WordIndex(0),
            Ok(spot) => word_index(&TableWords::new(&self[1..49]), spot.region, a),
        }
    }

    fn busy_place(&self, t: u16) -> usize {
        first_with(&self[54..74], t, 4)
    }

    fn idle_place(&self) -> usize {
        first_idle(&LentPlaces(&self[54..74]))
    }

    fn turn(&self) -> Option<Seat> {
        next_turn(&LentPlaces(&self[54..74]), self[74])
    }

    fn set_place(&mut self, i: usize, c: Context) {
        put_context(self, i, c);
    }

    fn count_accepted(&mut self) {
        raise(self, 77, 65535);
    }

    fn count_refused(&mut self) {
        raise(self, 78, 65535);
    }

    fn count_reply(&mut self) {
        raise(self, 75, 16383);
    }

    fn count_value(&mut self) {
        raise(self, 79, 16383);
    }

    fn serve(&mut self, i: usize, c: Context) {
        self.set_place(i, c);
        self[74] = (i % 4) as u32;
        raise(self, 76, 16383);
    }
}
