// The decisions of the command call: pure functions on facts. A store of the state supplies the facts and carries the decision out.
#![tactic(auto)]

ghost use Rattle.std.specs.Prelude.{◌≡◌};
ghost use Rattle.decide.specs.Decisions.{decide_dump, decide_cancel, decide_load, decide_pool, answer_of, image_after, reply_after, Decided};

use bulk::{store_words, words_at};
use places::Seat;
use pool::{Figures, put_reply, walk_pool};
use regions::{Miss, Spot};
use rules::{ActiveDump, Header, Range, Refusal, WordIndex, Written};
use tasks::put_value;

// WHAT CAN BE DECIDED

// A cancelled dump's place.
#[derive(Clone, Copy)]
pub struct Freed {
    pub place: usize,
}

// Where a load's words go, and how many there are.
#[derive(Clone, Copy)]
pub struct Stored {
    pub at: WordIndex,
    pub words: usize,
}

// What a reply to pool statistics tells.
#[derive(Clone, Copy)]
pub struct Report {
    pub header: Header,
    pub pool: u16,
    pub figures: Figures,
}

// What a reply tells of a symbol.
#[derive(Clone, Copy)]
pub struct Told {
    pub header: Header,
    pub value: u32,
}

// What an accepted command does.
#[derive(Clone, Copy)]
pub enum Decision {
    Dump(Seat),
    Cancel(Freed),
    Load(Stored),
    Reply(Report),
    Tell(Told),
}

// NUMBERS 10 TO 15, AND 19

// A dump: `busy` is the lowest place busy with its number, `idle` the lowest idle one; 4 where there is none.
pub fn dump(
    t: u16,
    range: Range,
    found: Result<Spot, Miss>,
    busy: usize,
    idle: usize,
) -> Result<Decision, Refusal>
    ensures { result ≡ decide_dump t range found busy idle }
{
    let spot = found?;
    if !spot.dump {
        return Err(Refusal::NoRight);
    }
    if busy < 4 {
        return Err(Refusal::TransactionBusy);
    }
    if 4 <= idle {
        return Err(Refusal::PlacesBusy);
    }
    let dump = ActiveDump {
        transaction: t,
        range,
        sent: 0,
    };
    Ok(Decision::Dump(Seat { place: idle, dump }))
}

// A cancel: `busy` is the lowest place busy with its number, or 4.
pub fn cancel(busy: usize) -> Result<Decision, Refusal>
    ensures { result ≡ decide_cancel busy }
{
    if 4 <= busy {
        return Err(Refusal::NotBusy);
    }
    Ok(Decision::Cancel(Freed { place: busy }))
}

// A load: `at` is the index in the image of the first word of its range, where that was found.
pub fn load(range: Range, found: Result<Spot, Miss>, at: WordIndex) -> Result<Decision, Refusal>
    ensures { result ≡ decide_load range found at }
{
    let spot = found?;
    if !spot.load {
        return Err(Refusal::NoRight);
    }
    Ok(Decision::Load(Stored {
        at,
        words: range.words as usize,
    }))
}

// Pool statistics of pool i, to be answered with this header; `at` as for a load. A pool of a good state lies in a region.
pub fn pool_statistics(
    header: Header,
    i: u16,
    pool: Range,
    found: Result<Spot, Miss>,
    at: WordIndex,
    image: &[u32],
) -> Result<Decision, Refusal>
    ensures { result ≡ decide_pool header i pool found at image.now }
{
    if pool.words == 0 {
        return Err(Refusal::OutsideRegions);
    }
    found?;
    let walked = walk_pool(words_at(image, at, pool.words as usize));
    let figures = walked.ok_or(Refusal::PoolDamaged)?;
    Ok(Decision::Reply(Report {
        header,
        pool: i,
        figures,
    }))
}

// WHAT A DECISION MEANS OUTSIDE THE STATE

// The answer to a command.
pub fn answer_of(d: Result<Decision, Refusal>) -> Result<Written, Refusal>
    ensures { result ≡ answer_of d }
{
    let length = match d? {
        Decision::Dump(_) | Decision::Cancel(_) | Decision::Load(_) => 0,
        Decision::Reply(_) => 32,
        Decision::Tell(_) => 12,
    };
    Ok(Written { length })
}

// The image and the reply after a command.
pub fn write_out(d: Result<Decision, Refusal>, packet: &[u8], image: &mut [u32], reply: &mut [u8])
    ensures { (image.new ≡ image_after d packet.now image.old) × (reply.new ≡ reply_after d reply.old) }
{
    let Ok(decision) = d else {
        return;
    };
    match decision {
        Decision::Dump(_) | Decision::Cancel(_) => {}
        Decision::Load(l) => store_words(image, l.at, packet, l.words),
        Decision::Reply(r) => put_reply(reply, r.header, r.pool, r.figures),
        Decision::Tell(t) => put_value(reply, t.header, t.value),
    }
}

// THE LAW. This function does nothing: its contract is what is proved.

// The command call is the decision, carried out.
pub fn command_is_decided()
    ensures { Decided }
{}
