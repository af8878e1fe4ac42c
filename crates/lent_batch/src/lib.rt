// Many commands in one call on a block of words (paper 02, A1): the batch on the state that the block keeps. Kept beside it: C lends words.
#![tactic(auto)]

ghost use Rattle.std.specs.Prelude.{◌≡◌, cond, min, length, replicate};
ghost use Rattle.rules.specs.Results.{verdict_number};
ghost use Rattle.rules.specs.declared.Refusal.TheVariants.{BufferLength};
ghost use Rattle.batches.specs.Batch.{lends, unfit_by, LeftAs, filled, numbers_of, lengths_of, Answers};
ghost use Rattle.lent_batch.specs.Batches.{lg_commands};

use answers::Answered;
use batch::numbered;
use batches::batch_verdict;
use results::number_of;
use rules::Refusal;

// The batch on a block of another length, which is no state: each item is refused with 1.
fn refuse_each(
    starts: usize,
    lengths: usize,
    replies: usize,
    numbers: &mut [u8],
    sizes: &mut [u8],
) -> Result<(), Refusal>
    ensures { let unfit = unfit_by starts lengths (min (length numbers.old) (length sizes.old)) replies in
        (result ≡ cond unfit (Err BufferLength) (Ok tt)) × (numbers.new ≡ filled numbers.old (replicate (cond unfit 0 starts) 1)) × (sizes.new ≡ filled sizes.old (replicate (cond unfit 0 starts) 0)) }
{
    let records = numbers.len().min(sizes.len());
    batch_verdict(starts, lengths, records, replies)?;
    numbers[..starts].fill(1);
    sizes[..starts].fill(0);
    Ok(())
}

// The same, with the answers by value for a list of so many records.
fn refused_answers(starts: usize, lengths: usize, replies: usize, records: usize) -> Answered
    ensures { let unfit = unfit_by starts lengths records replies in
        (result.number ≡ verdict_number (cond unfit (Err BufferLength) (Ok tt))) × Answers result records (replicate (cond unfit 0 starts) (record { number = 1; length = 0 })) }
{
    let number = number_of(&batch_verdict(starts, lengths, records, replies));
    let filled = if number == 0 { starts } else { 0 };
    Answered {
        number,
        numbers: [1; 64],
        lengths: [0; 64],
        filled,
    }
}

// The batch, with each item's number and reply length in two lists.
pub fn commands(
    b: &mut [u32],
    bytes: &[u8],
    starts: &[u32],
    lengths: &[u32],
    symbols: &[u8],
    image: &mut [u32],
    replies: &mut [u8],
    numbers: &mut [u8],
    sizes: &mut [u8],
) -> Result<(), Refusal>
    ensures { (result ≡ (lg_commands b.old (lends bytes.now starts.now lengths.now symbols.now image.old replies.old) (min (length numbers.old) (length sizes.old))).verdict)
        × LeftAs (lg_commands b.old (lends bytes.now starts.now lengths.now symbols.now image.old replies.old) (min (length numbers.old) (length sizes.old))) b.new image.new replies.new
        × (numbers.new ≡ filled numbers.old (numbers_of (lg_commands b.old (lends bytes.now starts.now lengths.now symbols.now image.old replies.old) (min (length numbers.old) (length sizes.old))).left.answers))
        × (sizes.new ≡ filled sizes.old (lengths_of (lg_commands b.old (lends bytes.now starts.now lengths.now symbols.now image.old replies.old) (min (length numbers.old) (length sizes.old))).left.answers)) }
{
    match b.as_mut_array::<80>() {
        Some(state) => numbered(
            state, bytes, starts, lengths, symbols, image, replies, numbers, sizes,
        ),
        None => refuse_each(starts.len(), lengths.len(), replies.len(), numbers, sizes),
    }
}

// The batch, with the answers by value for a list of so many records.
pub fn answered(
    b: &mut [u32],
    bytes: &[u8],
    starts: &[u32],
    lengths: &[u32],
    symbols: &[u8],
    image: &mut [u32],
    replies: &mut [u8],
    records: usize,
) -> Answered
    ensures { (result.number ≡ verdict_number (lg_commands b.old (lends bytes.now starts.now lengths.now symbols.now image.old replies.old) records).verdict)
        × Answers result records (lg_commands b.old (lends bytes.now starts.now lengths.now symbols.now image.old replies.old) records).left.answers
        × LeftAs (lg_commands b.old (lends bytes.now starts.now lengths.now symbols.now image.old replies.old) records) b.new image.new replies.new }
{
    match b.as_mut_array::<80>() {
        Some(state) => batch::answered(
            state, bytes, starts, lengths, symbols, image, replies, records,
        ),
        None => refused_answers(starts.len(), lengths.len(), replies.len(), records),
    }
}
