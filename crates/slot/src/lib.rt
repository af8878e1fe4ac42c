// The slot call on what keeps a state: the next packet of the dump whose turn it is, or 1, 2, 3 or 16. On a State it is `slot`.
#![tactic(auto)]

ghost use Rattle.std.specs.Prelude.{◌≡◌, true, cond, List, ℕ, length};
ghost use Rattle.rules.specs.Regions.{image_length};
ghost use Rattle.rules.specs.Commands.{returned};
ghost use Rattle.rules.specs.Slots.{slot_call};
ghost use Rattle.places.specs.Turns.{next_turn};
ghost use Rattle.sending.specs.Sendings.{by_turn, send_answer, buffer_after, PlaceFits};
ghost use Rattle.slot.specs.OnStore.{sending_in, sent};

use opening::lent_verdict;
use rules::{Refusal, Returned, State, Written};
use sending::{Piece, send, send_out};
use state::Store;

// The decision on a slot of a good state.
fn by_turn<S: Store>(s: &S, tick: u32) -> Result<Piece, Refusal>
    ensures { S.is_good s.now ≡ true → result ≡ by_turn (S.state s.now) tick (next_turn (S.state s.now).places (S.state s.now).last) }
{
    let seat = s.turn().ok_or(Refusal::NothingToSend)?;
    let range = seat.dump.range;
    let found = s.find(range);
    let first = s.index(range, found);
    send(seat, found, first, s.packets(), s.unit(), tick)
}

// The decision on a slot: what the call would send. `words` is what the good test answers.
fn decide<S: Store>(
    s: &S,
    words: usize,
    tick: u32,
    image: usize,
    buffer: usize,
) -> Result<Piece, Refusal>
    ensures { (lent bytes : List ℕ) → words ≡ cond (S.is_good s.now) (image_length (S.state s.now).regions (S.state s.now).count) 0 → length lent ≡ image → length bytes ≡ buffer → result ≡ sending_in (S.is_good s.now) (S.state s.now) (record { tick = tick; image = lent; buffer = bytes }) }
{
    lent_verdict(words, image, 4092, buffer)?;
    by_turn(s, tick)
}

// What a packet that was sent changes: its place, the last place and the packet count.
fn apply<S: Store>(s: &mut S, d: Result<Piece, Refusal>)
    ensures { PlaceFits d → s.new ≡ sent S.changes s.old d }
{
    if let Ok(p) = d {
        s.serve(p.place, p.after);
    }
}

// The slot call on a store. The image stays as it is.
pub fn call<S: Store>(
    s: &mut S,
    tick: u32,
    image: &[u32],
    buffer: &mut [u8],
) -> Result<Written, Refusal>
    ensures { let d = sending_in (S.is_good s.old) (S.state s.old) (record { tick = tick; image = image.now; buffer = buffer.old }) in
        (result ≡ send_answer d) × (PlaceFits d → s.new ≡ sent S.changes s.old d) × (buffer.new ≡ buffer_after d image.now buffer.old) }
{
    let d = decide(s, s.good_words(), tick, image.len(), buffer.len());
    apply(s, d);
    send_out(d, image, buffer)
}

// The slot call on a State.
pub fn slot(s: State, tick: u32, image: &[u32], buffer: &mut [u8]) -> Returned
    ensures { (result ≡ returned (slot_call s (record { tick = tick; image = image.now; buffer = buffer.old }))) × (buffer.new ≡ (slot_call s (record { tick = tick; image = image.now; buffer = buffer.old })).buffer) }
{
    let mut state = s;
    let answer = call(&mut state, tick, image, buffer);
    Returned { answer, state }
}
