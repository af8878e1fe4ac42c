// The dump places of a block: 20 words, five to a place (busy, transaction, start, words, sent), read and written in the caller's memory.
// Words past the end read as 0. What one place does, and the searches, are in places.
#![tactic(auto)]

ghost use Rattle.std.specs.Prelude.{◌≡◌, ◌||◌, ◌*◌, ◌<◌, leb};
ghost use Rattle.rules.specs.States.{context_at, busy_with};
ghost use Rattle.rules.specs.Commands.{first_idle};
ghost use Rattle.places.specs.Turns.{first_within};
ghost use Rattle.block.specs.Blocks.{context_words, places_in, place_bounds};
ghost use Rattle.lent_places.specs.Reading.{places_read};
ghost use Rattle.lent_places.specs.Writing.{placed};

use block::{put_run, range_in, word_at};
use places::Places;
use rules::{ActiveDump, Context};

// READ

// The four places in 20 words of a block.
#[derive(Clone, Copy)]
pub struct LentPlaces<'a>(pub &'a [u32]);

impl<'a> Places for LentPlaces<'a> {
    ghost places = { λ ps. places_read ps.0.now };

    fn context(&self, i: usize) -> Context {
        let ps = self.0;
        if 4 <= i || word_at(ps, 5 * i) != 1 {
            return Context::Idle;
        }
        let at = 5 * i;
        Context::Busy(ActiveDump {
            transaction: (word_at(ps, at + 1) % 65536) as u16,
            range: range_in(ps, at + 2),
            sent: word_at(ps, at + 4),
        })
    }
}

fn with_at(ps: &[u32], t: u16, i: usize) -> bool
    requires { i < 4 }
    ensures { result ≡ busy_with t (context_at (places_in ps.now 0) i) }
{
    (word_at(ps, 5 * i) == 1) & (word_at(ps, 5 * i + 1) == u32::from(t))
}

// The lowest of the first k places that is busy with transaction t, and k where there is none. Kept beside the search in `places`: on any words the
// number is compared whole, and a Context's has 16 bits.
pub fn first_with(ps: &[u32], t: u16, k: usize) -> usize
    ensures { result ≡ first_within (places_in ps.now 0) t k }
{
    (0..k.min(4)).find(|i| with_at(ps, t, *i)).unwrap_or(k)
}

// The lowest-numbered idle place, and 4 where there is none.
pub fn first_idle(ps: &[u32]) -> usize
    ensures { result ≡ first_idle (places_in ps.now 0) }
{
    places::first_idle(&LentPlaces(ps))
}

// Whether place i is five zeros, or busy with a transaction number of 16 bits. There is nothing past the last place.
pub fn place_bounds(ps: &[u32], i: usize) -> bool
    ensures { result ≡ (leb 4 i || place_bounds ps.now (5 * i)) }
{
    if 4 <= i {
        return true;
    }
    let at = 5 * i;
    match word_at(ps, at) {
        0 => (word_at(ps, at + 1) == 0)
            & (word_at(ps, at + 2) == 0)
            & (word_at(ps, at + 3) == 0)
            & (word_at(ps, at + 4) == 0),
        1 => word_at(ps, at + 1) <= 65535,
        _ => false,
    }
}

// WRITTEN

fn context_words(c: Context) -> [u32; 5]
    ensures { result ≡ context_words c }
{
    match c {
        Context::Idle => [0; 5],
        Context::Busy(d) => [
            1,
            u32::from(d.transaction),
            d.range.start.0,
            d.range.words,
            d.sent,
        ],
    }
}

// What place i does, written to a state's block. Nothing is written to a block of another length, or past the last place.
pub fn put_context(b: &mut [u32], i: usize, c: Context)
    ensures { b.new ≡ placed b.old i c }
{
    if b.len() == 80 && i < 4 {
        put_run(b, 54 + 5 * i, &context_words(c));
    }
}
