// Dump places: what one does, and the searches over the four of a store. The four of a State are here, those of a block of words in lent_places.
#![tactic(auto)]

ghost use Rattle.std.specs.Prelude.{◌≡◌, List, ℕ, ◌≤◌};
ghost use Rattle.rules.specs.States.{context_at, busy_with};
ghost use Rattle.rules.specs.Commands.{is_idle, first_idle, set_context};
ghost use Rattle.rules.specs.Slots.{after_packet};
ghost use Rattle.places.specs.Turns.{next_turn, first_within, dump_fields, TurnNumbers};
ghost use Rattle.rules.specs.declared.Place.{Place};

use rules::{ActiveDump, Context, Place};

// A dump and its place.
#[derive(Clone, Copy)]
pub struct Seat {
    pub place: usize,
    pub dump: ActiveDump,
}

// ONE PLACE

// Whether a place is busy with transaction t.
pub fn busy_with(t: u16, a: Context) -> bool
    ensures { result ≡ busy_with t a }
{
    matches!(a, Context::Busy(d) if d.transaction == t)
}

pub fn is_idle(a: Context) -> bool
    ensures { result ≡ is_idle a }
{
    matches!(a, Context::Idle)
}

// The rules of a busy dump, but for its region.
pub fn dump_fields(d: ActiveDump) -> bool
    ensures { result ≡ dump_fields d }
{
    let words = d.range.words;
    (d.transaction <= 4095)
        & (1 <= words)
        & (words <= 65535)
        & (d.range.start.0 % 4 == 0)
        & (d.sent % 1016 == 0)
        & (d.sent < words)
}

// What the place of a dump does after its next packet: after the last it is freed.
pub fn after_packet(d: ActiveDump) -> Context
    ensures { result ≡ after_packet d }
{
    match d.sent.checked_add(1016) {
        Some(sent) if sent < d.range.words => Context::Busy(ActiveDump { sent, ..d }),
        _ => Context::Idle,
    }
}

// FOUR PLACES

// The four places of a store.
pub trait Places {
    ghost places: { Self → List Place };

    // What place i does; there is nothing past the last.
    fn context(&self, i: usize) -> Context
        ensures { result ≡ context_at (places self.now) i };
}

impl Places for [Place; 4] {
    ghost places = { λ ps. ps };

    fn context(&self, i: usize) -> Context {
        match self.get(i) {
            Some(place) => place.context,
            None => Context::Idle,
        }
    }
}

// The lowest of the first k places that is busy with transaction t, and k where there is none. Kept: k for none, as the definition counts.
pub fn first_with<P: Places>(ps: &P, t: u16, k: usize) -> usize
    ensures { result ≡ first_within (P.places ps.now) t k }
{
    (0..k).find(|i| busy_with(t, ps.context(*i))).unwrap_or(k)
}

// The lowest-numbered idle place, and 4 where there is none. Kept: 4 as the k above.
pub fn first_idle<P: Places>(ps: &P) -> usize
    ensures { result ≡ first_idle (P.places ps.now) }
{
    (0..4).find(|i| is_idle(ps.context(*i))).unwrap_or(4)
}

// Whose packet is next: the dump of the busy place that comes next after the one served last, place 0 again after place 3.
pub fn next_turn<P: Places>(ps: &P, last: u32) -> Option<Seat>
    ensures { result ≡ next_turn (P.places ps.now) last }
{
    for k in 0..4 {
        let place = (last as usize + 1 + k) % 4;
        if let Context::Busy(dump) = ps.context(place) {
            return Some(Seat { place, dump });
        }
    }
    None
}

// The places with what place i does changed.
pub fn set_context(mut ps: [Place; 4], i: usize, a: Context) -> [Place; 4]
    ensures { result ≡ set_context ps i a }
{
    if i < 4 {
        ps[i] = Place { context: a };
    }
    ps
}

// The number of whose turn it is, exactly in its case. This function does nothing: its contract is what is proved.
pub fn numbers_of_turns()
    ensures { (ps : List Place) (last : ℕ) → last ≤ 3 → TurnNumbers ps last (next_turn ps last) }
{}
