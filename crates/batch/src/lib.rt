// Many commands in one call (paper 02, A1): the single calls in order, on what keeps a state. On a State they are the batch. The store is tested once;
// and so is the symbol table, which no command writes.
#![tactic(auto)]

ghost use Rattle.std.specs.Prelude.{◌≡◌, false, ◌+◌, ◌*◌, ◌≤◌, ◌<◌, min, length, set, take, drop};
ghost use Rattle.lists.specs.Splice.{splice};
ghost use Rattle.rules.specs.Results.{verdict_number};
ghost use Rattle.batches.specs.Batch.{lends, on_state, unfit_by, left_by, batch, LeftAs, filled, numbers_of, lengths_of, Answers};
ghost use Rattle.batch.specs.OnStore.{single_in, words_in, WordsStay};

use answers::{Answered, ItemAnswer, put_records};
use batches::{BatchReturned, batch_verdict, bytes_from};
use command::call;
use packet::{checked, code, function_code, headed, lengths};
use results::{answer_length, number_of};
use rules::{Refusal, State};
use state::Store;
use symbols::Symbols;

// Item i on a store that was tested; its number and reply length go to the two lists.
fn item<S: Store>(
    s: &mut S,
    words: usize,
    packet: &[u8],
    symbols: &Symbols,
    image: &mut [u32],
    replies: &mut [u8],
    numbers: &mut [u8],
    sizes: &mut [u8],
    i: usize,
)
    requires { (words ≡ words_in S.is_good S.state S.changes s.old) × (32 * i + 32 ≤ length replies.old) × (i < length numbers.old) × (i < length sizes.old)
        × WordsStay S.is_good S.state S.changes }
    ensures { let o = single_in S.is_good S.state S.changes s.old (record { packet = packet.entry.now; symbols = symbols.now.bytes.now; image = image.old; reply = take 32 (drop (32 * i) replies.old) }) in
        (s.new ≡ o.state) × (image.new ≡ o.image) × (replies.new ≡ splice replies.old (32 * i) o.reply) × (numbers.new ≡ set numbers.old i o.number) × (sizes.new ≡ set sizes.old i o.length)
        × (words ≡ words_in S.is_good S.state S.changes s.new) }
{
    let from = 32 * i;
    let end = from + 32;
    let answer = call(s, words, packet, symbols, image, &mut replies[from..end]);
    numbers[i] = (number_of(&answer) % 256) as u8;
    sizes[i] = (answer_length(answer) % 256) as u8;
}

// Whether a command comes as far as the symbol table: it names a symbol, and passes numbers 4 to 8.
fn asks_symbols(packet: &[u8], unit: u8) -> bool {
    let bytes = match function_code(packet) {
        code::VALUE => lengths::VALUE,
        code::NAMED_DUMP => lengths::NAMED_DUMP,
        _ => return false,
    };
    checked(packet, unit, bytes).is_ok() && headed(packet).is_ok()
}

// The symbol table is tested once for all items, and only if one comes as far as it. `lent` says whether numbers 1 and 2 are passed.
fn symbols_for<'a>(
    lent: bool,
    unit: u8,
    bytes: &[u8],
    starts: &[u32],
    sizes: &[u32],
    symbols: &'a [u8],
) -> Symbols<'a>
    ensures { result.bytes.now ≡ symbols.now }
{
    let asked = lent
        && starts.iter().zip(sizes).any(|(start, size)| asks_symbols(
            bytes_from(bytes, *start, *size),
            unit,
        ));
    if asked {
        return Symbols::tested(symbols);
    }
    Symbols::untested(symbols)
}

// The items in order. The store is tested once, since a command leaves a good state good and any other as it was.
fn run<S: Store>(
    s: &mut S,
    bytes: &[u8],
    starts: &[u32],
    lengths: &[u32],
    symbols: &[u8],
    image: &mut [u32],
    replies: &mut [u8],
    numbers: &mut [u8],
    sizes: &mut [u8],
)
    requires { (unfit_by (length starts.now) (length lengths.now) (min (length numbers.old) (length sizes.old)) (length replies.old) ≡ false) × WordsStay S.is_good S.state S.changes }
    ensures { let left = left_by (single_in S.is_good S.state S.changes) (lends bytes.now starts.now lengths.now symbols.now image.old replies.old) s.old (length starts.now) in
        (s.new ≡ left.state) × (image.new ≡ left.image) × (replies.new ≡ left.replies) × (numbers.new ≡ filled numbers.old (numbers_of left.answers))
        × (sizes.new ≡ filled sizes.old (lengths_of left.answers)) }
{
    let words = s.good_words();
    let lent = words != 0 && image.len() == words;
    let table = symbols_for(lent, s.unit(), bytes, starts, lengths, symbols);
    for i in 0..starts.len() {
        let packet = bytes_from(bytes, starts[i], lengths[i]);
        item(s, words, packet, &table, image, replies, numbers, sizes, i);
    }
}

// The batch on a store, with each item's number and reply length in two lists. Kept: lists in step, as C lends them.
pub fn numbered<S: Store>(
    s: &mut S,
    bytes: &[u8],
    starts: &[u32],
    lengths: &[u32],
    symbols: &[u8],
    image: &mut [u32],
    replies: &mut [u8],
    numbers: &mut [u8],
    sizes: &mut [u8],
) -> Result<(), Refusal>
    requires { WordsStay S.is_good S.state S.changes }
    ensures { let o = batch (single_in S.is_good S.state S.changes) s.old (lends bytes.now starts.now lengths.now symbols.now image.old replies.old) (min (length numbers.old) (length sizes.old)) in
        (result ≡ o.verdict) × LeftAs o s.new image.new replies.new × (numbers.new ≡ filled numbers.old (numbers_of o.left.answers)) × (sizes.new ≡ filled sizes.old (lengths_of o.left.answers)) }
{
    let records = numbers.len().min(sizes.len());
    batch_verdict(starts.len(), lengths.len(), records, replies.len())?;
    run(
        s, bytes, starts, lengths, symbols, image, replies, numbers, sizes,
    );
    Ok(())
}

// The batch on a store, with the answers by value for a list of so many records.
pub fn answered<S: Store>(
    s: &mut S,
    bytes: &[u8],
    starts: &[u32],
    lengths: &[u32],
    symbols: &[u8],
    image: &mut [u32],
    replies: &mut [u8],
    records: usize,
) -> Answered
    requires { WordsStay S.is_good S.state S.changes }
    ensures { let o = batch (single_in S.is_good S.state S.changes) s.old (lends bytes.now starts.now lengths.now symbols.now image.old replies.old) records in
        (result.number ≡ verdict_number o.verdict) × Answers result records o.left.answers × LeftAs o s.new image.new replies.new }
{
    let mut numbers: [u8; 64] = [0; 64];
    let mut sizes: [u8; 64] = [0; 64];
    let room = records.min(64);
    let verdict = numbered(
        s,
        bytes,
        starts,
        lengths,
        symbols,
        image,
        replies,
        &mut numbers[..room],
        &mut sizes[..room],
    );
    let number = number_of(&verdict);
    let filled = if number == 0 { starts.len() } else { 0 };
    Answered {
        number,
        numbers,
        lengths: sizes,
        filled,
    }
}

// The batch on a State, with each item's number and reply length in two lists.
pub fn batch_numbers(
    s: State,
    bytes: &[u8],
    starts: &[u32],
    lengths: &[u32],
    symbols: &[u8],
    image: &mut [u32],
    replies: &mut [u8],
    numbers: &mut [u8],
    sizes: &mut [u8],
) -> BatchReturned
    ensures { (result.verdict ≡ (batch on_state s (lends bytes.now starts.now lengths.now symbols.now image.old replies.old) (min (length numbers.old) (length sizes.old))).verdict)
        × LeftAs (batch on_state s (lends bytes.now starts.now lengths.now symbols.now image.old replies.old) (min (length numbers.old) (length sizes.old))) result.state image.new replies.new
        × (numbers.new ≡ filled numbers.old (numbers_of (batch on_state s (lends bytes.now starts.now lengths.now symbols.now image.old replies.old) (min (length numbers.old) (length sizes.old))).left.answers))
        × (sizes.new ≡ filled sizes.old (lengths_of (batch on_state s (lends bytes.now starts.now lengths.now symbols.now image.old replies.old) (min (length numbers.old) (length sizes.old))).left.answers)) }
{
    let mut state = s;
    let verdict = numbered(
        &mut state, bytes, starts, lengths, symbols, image, replies, numbers, sizes,
    );
    BatchReturned { verdict, state }
}

// The batch on a State, with an answer record for each item in the lent list.
pub fn batch(
    s: State,
    bytes: &[u8],
    starts: &[u32],
    lengths: &[u32],
    symbols: &[u8],
    image: &mut [u32],
    replies: &mut [u8],
    answers: &mut [ItemAnswer],
) -> BatchReturned
    ensures { (result.verdict ≡ (batch on_state s (lends bytes.now starts.now lengths.now symbols.now image.old replies.old) (length answers.old)).verdict)
        × LeftAs (batch on_state s (lends bytes.now starts.now lengths.now symbols.now image.old replies.old) (length answers.old)) result.state image.new replies.new
        × (answers.new ≡ filled answers.old (batch on_state s (lends bytes.now starts.now lengths.now symbols.now image.old replies.old) (length answers.old)).left.answers) }
{
    let mut state = s;
    let records = answers.len();
    let verdict = batch_verdict(starts.len(), lengths.len(), records, replies.len());
    let given = answered(
        &mut state, bytes, starts, lengths, symbols, image, replies, records,
    );
    put_records(answers, given);
    BatchReturned { verdict, state }
}
