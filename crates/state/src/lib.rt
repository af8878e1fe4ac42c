// The good state, start-up, and a store of the state: what a call asks of one, and how a call changes it.
#![tactic(auto)]

ghost use Rattle.std.specs.Prelude.{◌≡◌, Bool, true, cond, ℕ, ◌≤◌, ◌<◌, ◌+◌, ◌%◌, length};
ghost use Rattle.rules.specs.Regions.{table_rules, image_length};
ghost use Rattle.rules.specs.States.{pool_at, pool_rules, start_rules, entries_used, fresh_state, no_state, start_up, dump_rules, place_rules, places_rules, count_rules, good_state};
ghost use Rattle.rules.specs.Commands.{first_idle, first_with};
ghost use Rattle.regions.specs.Lookup.{find_region, found_index};
ghost use Rattle.places.specs.Turns.{next_turn};
ghost use Rattle.state.specs.Changes.{Changes, state_changes};
ghost use Rattle.rules.specs.declared.State.{State};

mod words;

use places::{Places, Seat, dump_fields, first_idle, first_with, next_turn, set_context};
use regions::{Miss, Spot, Table, can_dump, find_region, table_words, word_index};
use rules::{
    ActiveDump, Address, Context, Place, Range, Refusal, Region, Started, State, WordIndex,
};

// THE RULES, for a table by its own

// Whether a pool is none, or by the rules.
fn pool_rules<T: Table>(rs: &T, n: usize, p: Range) -> bool
    ensures { table_rules (T.entries rs.now) n ≡ true → result ≡ pool_rules (T.entries rs.now) n p }
{
    if p.words == 0 {
        return p.start.0 == 0;
    }
    (p.start.0 % 4 == 0) && can_dump(find_region(rs, n, p))
}

// The words of the image where start-up takes the table, the pools and the unit, else 0. Kept: 0 as in `table_words`.
// It goes into start-up and the good test: as a call it takes more of the stack, and of the time of a short call.
#[inline(always)]
pub fn start_words<T: Table>(rs: &T, n: usize, ps: [Range; 2], unit: u8) -> usize
    ensures { result ≡ cond (start_rules (T.entries rs.now) n ps unit) (image_length (T.entries rs.now) n) 0 }
{
    let words = table_words(rs, n);
    if words == 0 {
        return 0;
    }
    if !(pool_rules(rs, n, ps[0]) & pool_rules(rs, n, ps[1]) & (unit <= 15)) {
        return 0;
    }
    words
}

// Whether a busy dump is by the rules: its own fields first.
fn dump_rules<T: Table>(rs: &T, n: usize, d: ActiveDump) -> bool
    ensures { table_rules (T.entries rs.now) n ≡ true → result ≡ dump_rules (T.entries rs.now) n d }
{
    dump_fields(d) && can_dump(find_region(rs, n, d.range))
}

fn place_rules<T: Table, P: Places>(rs: &T, n: usize, ps: &P, i: usize) -> bool
    ensures { table_rules (T.entries rs.now) n ≡ true → result ≡ place_rules (T.entries rs.now) n (P.places ps.now) i }
{
    let context = ps.context(i);
    match context {
        Context::Idle => true,
        Context::Busy(d) => dump_rules(rs, n, d) & (first_with(ps, d.transaction, i) == i),
    }
}

// Whether each of four places is by the rules: no place after the first that breaks one is looked at.
pub fn places_rules<T: Table, P: Places>(rs: &T, n: usize, ps: &P) -> bool
    ensures { table_rules (T.entries rs.now) n ≡ true → length (P.places ps.now) ≡ 4 → result ≡ places_rules (T.entries rs.now) n (P.places ps.now) }
{
    for i in 0..4 {
        if !place_rules(rs, n, ps, i) {
            return false;
        }
    }
    true
}

// Kept beside the one of words: six fields against six words, and one function would ask the store for each.
fn count_rules(s: &State) -> bool
    ensures { result ≡ count_rules s.now }
{
    (s.last <= 3)
        & (s.replies <= 16383)
        & (s.values <= 16383)
        & (s.packets <= 16383)
        & (s.accepted <= 65535)
        & (s.refused <= 65535)
}

// START-UP

// The first n entries, and the rest unused.
fn entries_used(rs: [Region; 16], n: usize) -> [Region; 16]
    requires { n ≤ 16 }
    ensures { result ≡ entries_used rs n }
{
    let none = Region {
        range: Range {
            start: Address(0),
            words: 0,
        },
        load: false,
        dump: false,
    };
    let mut out = [none; 16];
    for i in 0..n {
        out[i] = rs[i];
    }
    out
}

fn fresh_state(rs: [Region; 16], n: usize, ps: [Range; 2], unit: u8) -> State
    ensures { result ≡ fresh_state rs n ps unit }
{
    let idle = Place {
        context: Context::Idle,
    };
    State {
        regions: rs,
        count: n,
        pools: ps,
        unit,
        places: [idle; 4],
        last: 3,
        replies: 0,
        values: 0,
        packets: 0,
        accepted: 0,
        refused: 0,
    }
}

fn no_state() -> State
    ensures { result ≡ no_state }
{
    let range = Range {
        start: Address(0),
        words: 0,
    };
    let none = Region {
        range,
        load: false,
        dump: false,
    };
    let rs = [none; 16];
    let ps = [range; 2];
    fresh_state(rs, 0, ps, 0)
}

// Start-up with the first n entries of a table, the pools and the unit: the state, or 17.
pub fn start_up(rs: [Region; 16], n: usize, ps: [Range; 2], unit: u8) -> Started
    ensures { result ≡ start_up rs n ps unit }
{
    if start_words(&rs, n, ps, unit) == 0 {
        let state = no_state();
        return Started {
            verdict: Err(Refusal::BadTable),
            state,
        };
    }
    let used = entries_used(rs, n);
    let state = fresh_state(used, n, ps, unit);
    Started {
        verdict: Ok(()),
        state,
    }
}

// A STORE

// What keeps a state. A call asks it for facts, which hold where the state is good, and tells it what changes.
pub trait Store {
    // The state that it says, and whether that is a good one.
    ghost state: { Self → State };

    ghost is_good: { Self → Bool };

    // What each change makes of it.
    ghost changes: { Changes Self };

    // The words of the image of a good state, which has at least one; else 0. Kept: 0 as in `table_words`.
    fn good_words(&self) -> usize
        ensures { result ≡ cond (is_good self.now) (image_length (state self.now).regions (state self.now).count) 0 };

    fn unit(&self) -> u8
        ensures { is_good self.now ≡ true → result ≡ (state self.now).unit };

    // The packet counts of APID 785, 786 and 788.
    fn replies(&self) -> u16
        ensures { is_good self.now ≡ true → result ≡ (state self.now).replies };

    fn values(&self) -> u16
        ensures { is_good self.now ≡ true → result ≡ (state self.now).values };

    fn packets(&self) -> u16
        ensures { is_good self.now ≡ true → result ≡ (state self.now).packets };

    // The range of pool i; there is none past the second.
    fn pool(&self, i: u16) -> Range
        ensures { result ≡ pool_at (state self.now).pools i };

    // The region that holds a range, or how it missed.
    fn find(&self, a: Range) -> Result<Spot, Miss>
        ensures { is_good self.now ≡ true → result ≡ find_region (state self.now).regions (state self.now).count a };

    // Where a range that was found begins in the image.
    fn index(&self, a: Range, found: Result<Spot, Miss>) -> WordIndex
        ensures { result ≡ found_index (state self.now).regions a found };

    // The lowest place busy with a transaction, the lowest idle one, 4 where there is none; and whose packet is next. Kept: 4 for none, as in `places`.
    fn busy_place(&self, t: u16) -> usize
        ensures { is_good self.now ≡ true → result ≡ first_with t (state self.now).places };

    fn idle_place(&self) -> usize
        ensures { is_good self.now ≡ true → result ≡ first_idle (state self.now).places };

    fn turn(&self) -> Option<Seat>
        ensures { is_good self.now ≡ true → result ≡ next_turn (state self.now).places (state self.now).last };

    // One of the four places changed.
    fn set_place(&mut self, i: usize, c: Context)
        ensures { self.new ≡ changes.place self.old i c };

    // One more accepted, refused, replied to with pool figures, told a value.
    fn count_accepted(&mut self)
        ensures { self.new ≡ changes.accepted self.old };

    fn count_refused(&mut self)
        ensures { self.new ≡ changes.refused self.old };

    fn count_reply(&mut self)
        ensures { self.new ≡ changes.reply self.old };

    fn count_value(&mut self)
        ensures { self.new ≡ changes.value self.old };

    // One of the four places served: what it does now, the last place and the packet count.
    fn serve(&mut self, i: usize, c: Context)
        ensures { i < 4 → self.new ≡ changes.served self.old i c };
}

// One more of a count that runs modulo n.
fn raised(count: u16, n: u32) -> u16
    requires { (0 < n) × (n ≤ 65536) }
    ensures { result ≡ (count + 1) % n }
{
    ((u32::from(count) + 1) % n) as u16
}

// What the type says of a State's places, as a fact for the proof of its good test.
fn four_places(ps: &[Place; 4])
    ensures { length ps.now ≡ 4 }
{}

impl Store for State {
    ghost state = { λ s. s };

    ghost is_good = { good_state };

    ghost changes = { state_changes };

    fn good_words(&self) -> usize {
        let words = start_words(&self.regions, self.count, self.pools, self.unit);
        if words == 0 {
            return 0;
        }
        four_places(&self.places);
        if !(count_rules(self) & places_rules(&self.regions, self.count, &self.places)) {
            return 0;
        }
        words
    }

    fn unit(&self) -> u8 {
        self.unit
    }

    fn replies(&self) -> u16 {
        self.replies
    }

    fn values(&self) -> u16 {
        self.values
    }

    fn packets(&self) -> u16 {
        self.packets
    }

    fn pool(&self, i: u16) -> Range {
        match self.pools.get(i as usize) {
            Some(pool) => *pool,
            None => Range {
                start: Address(0),
                words: 0,
            },
        }
    }

    fn find(&self, a: Range) -> Result<Spot, Miss> {
        find_region(&self.regions, self.count, a)
    }

    fn index(&self, a: Range, found: Result<Spot, Miss>) -> WordIndex {
        match found {
            Err(_) => WordIndex(0),
            Ok(spot) => word_index(&self.regions, spot.region, a),
        }
    }

    fn busy_place(&self, t: u16) -> usize {
        first_with(&self.places, t, 4)
    }

    fn idle_place(&self) -> usize {
        first_idle(&self.places)
    }

    fn turn(&self) -> Option<Seat> {
        next_turn(&self.places, u32::from(self.last))
    }

    fn set_place(&mut self, i: usize, c: Context) {
        self.places = set_context(self.places, i, c);
    }

    fn count_accepted(&mut self) {
        self.accepted = raised(self.accepted, 65536);
    }

    fn count_refused(&mut self) {
        self.refused = raised(self.refused, 65536);
    }

    fn count_reply(&mut self) {
        self.replies = raised(self.replies, 16384);
    }

    fn count_value(&mut self) {
        self.values = raised(self.values, 16384);
    }

    fn serve(&mut self, i: usize, c: Context) {
        self.set_place(i, c);
        self.last = (i % 256) as u8;
        self.packets = raised(self.packets, 16384);
    }
}
