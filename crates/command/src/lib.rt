// The command call on what keeps a state: the facts, the decision, and what it changes. On a State it is `command`.
#![tactic(auto)]

ghost use Rattle.std.specs.Prelude.{◌≡◌, true, cond, List, ℕ, length};
ghost use Rattle.rules.specs.Regions.{image_length};
ghost use Rattle.rules.specs.Commands.{returned, command_call};
ghost use Rattle.decide.specs.Decisions.{by_task, answer_of, image_after, reply_after};
ghost use Rattle.command.specs.OnStore.{decision_in, after};

use decide::{Decision, Told, answer_of, cancel, dump, load, pool_statistics, write_out};
use opening::lent_verdict;
use packet::transaction_of;
use rules::{Context, Header, Refusal, Returned, State, Task, Written};
use state::Store;
use symbols::Symbols;
use tasks::asked;

// The decision on a task, by the facts that this task asks for.
fn by_task<S: Store>(s: &S, t: u16, k: Task, image: &[u32]) -> Result<Decision, Refusal>
    ensures { S.is_good s.now ≡ true → result ≡ by_task (S.state s.now) image.now t k }
{
    match k {
        Task::Nothing => Err(Refusal::UnknownCode),
        Task::DumpRange(a) => dump(t, a, s.find(a), s.busy_place(t), s.idle_place()),
        Task::CancelDump => cancel(s.busy_place(t)),
        Task::LoadRange(a) => {
            let found = s.find(a);
            load(a, found, s.index(a, found))
        }
        Task::CountPool(i) => {
            let pool = s.pool(i);
            let header = Header {
                count: s.replies(),
                unit: s.unit(),
                transaction: t,
            };
            let found = s.find(pool);
            pool_statistics(header, i, pool, found, s.index(pool, found), image)
        }
        Task::TellValue(value) => {
            let header = Header {
                count: s.values(),
                unit: s.unit(),
                transaction: t,
            };
            Ok(Decision::Tell(Told { header, value }))
        }
    }
}

// The decision on a packet: what the call would do. `words` is what the good test answers.
fn decide<S: Store>(
    s: &S,
    words: usize,
    packet: &[u8],
    symbols: &Symbols,
    image: &[u32],
    reply: usize,
) -> Result<Decision, Refusal>
    ensures { (bytes : List ℕ) → words ≡ cond (S.is_good s.now) (image_length (S.state s.now).regions (S.state s.now).count) 0 → length bytes ≡ reply → result ≡ decision_in (S.is_good s.now) (S.state s.now) (record { packet = packet.now; symbols = symbols.now.bytes.now; image = image.now; reply = bytes }) }
{
    lent_verdict(words, image.len(), 32, reply)?;
    let task = asked(packet, s.unit(), symbols)?;
    by_task(s, transaction_of(packet), task, image)
}

// What a decision changes: the places and counts of an accepted command, the refused count of a refused one.
fn apply<S: Store>(s: &mut S, d: Result<Decision, Refusal>)
    ensures { s.new ≡ after S.changes s.old d }
{
    match d {
        Err(r) => {
            if r.is_counted() {
                s.count_refused();
            }
            return;
        }
        Ok(Decision::Dump(x)) => s.set_place(x.place, Context::Busy(x.dump)),
        Ok(Decision::Cancel(f)) => s.set_place(f.place, Context::Idle),
        Ok(Decision::Load(_)) => {}
        Ok(Decision::Reply(_)) => s.count_reply(),
        Ok(Decision::Tell(_)) => s.count_value(),
    }
    s.count_accepted();
}

// The command call on a store that was tested.
pub fn call<S: Store>(
    s: &mut S,
    words: usize,
    packet: &[u8],
    symbols: &Symbols,
    image: &mut [u32],
    reply: &mut [u8],
) -> Result<Written, Refusal>
    requires { words ≡ cond (S.is_good s.old) (image_length (S.state s.old).regions (S.state s.old).count) 0 }
    ensures { let d = decision_in (S.is_good s.old) (S.state s.old) (record { packet = packet.entry.now; symbols = symbols.now.bytes.now; image = image.old; reply = reply.old }) in
        (result ≡ answer_of d) × (s.new ≡ after S.changes s.old d) × (image.new ≡ image_after d packet.entry.now image.old) × (reply.new ≡ reply_after d reply.old) }
{
    let d = decide(s, words, packet, symbols, image, reply.len());
    write_out(d, packet, image, reply);
    apply(s, d);
    answer_of(d)
}

// The command call on a State.
pub fn command(
    s: State,
    packet: &[u8],
    symbols: &[u8],
    image: &mut [u32],
    reply: &mut [u8],
) -> Returned
    ensures { (result ≡ returned (command_call s (record { packet = packet.entry.now; symbols = symbols.now; image = image.old; reply = reply.old })))
        × (image.new ≡ (command_call s (record { packet = packet.entry.now; symbols = symbols.now; image = image.old; reply = reply.old })).image)
        × (reply.new ≡ (command_call s (record { packet = packet.entry.now; symbols = symbols.now; image = image.old; reply = reply.old })).buffer) }
{
    let mut state = s;
    let words = state.good_words();
    let answer = call(
        &mut state,
        words,
        packet,
        &Symbols::untested(symbols),
        image,
        reply,
    );
    Returned { answer, state }
}
