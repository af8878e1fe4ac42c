// Many commands in one call (paper 02, A1): its definition, the theorems about it, and what both stores do alike.
#![tactic(auto)]

ghost use Rattle.std.specs.Prelude.{◌≡◌, cond};
ghost use Rattle.rules.specs.declared.Refusal.TheVariants.{BufferLength};
ghost use Rattle.batches.specs.AnItem.{AnItem};
ghost use Rattle.batches.specs.Batch.{bytes_from, unfit_by};
ghost use Rattle.batches.specs.Examples.{BatchExamples};
ghost use Rattle.batches.specs.InOrder.{Promises};
ghost use Rattle.batches.specs.Lists.{Demand3WithBatches, ItemsAreCalls, StaysGood};

use rules::{Refusal, State};

// What a batch returns beside the image, the buffer and the answers that it leaves. Kept: a refusal too leaves a state.
#[derive(Clone, Copy)]
pub struct BatchReturned {
    pub verdict: Result<(), Refusal>,
    pub state: State,
}

// 3, or no refusal, for so many starts and lengths, answer records and bytes of the reply buffer.
pub fn batch_verdict(
    starts: usize,
    lengths: usize,
    records: usize,
    replies: usize,
) -> Result<(), Refusal>
    ensures { result ≡ cond (unfit_by starts lengths records replies) (Err BufferLength) (Ok tt) }
{
    if 64 < starts {
        return Err(Refusal::BufferLength);
    }
    if (lengths != starts) | (records < starts) | (replies < 32 * starts) {
        return Err(Refusal::BufferLength);
    }
    Ok(())
}

// The packet of an item: n bytes from `start` on. Where they are not all there, it is empty.
pub fn bytes_from(bytes: &[u8], start: u32, n: u32) -> &[u8]
    ensures { result.now ≡ bytes_from bytes.now start n }
{
    let from = start as usize;
    let end = from + n as usize;
    if bytes.len() < end {
        return &bytes[0..0];
    }
    &bytes[from..end]
}

// The theorems. These functions do nothing: the contract of each is what is proved.

// A batch is the single calls made in order.
pub fn batch_in_order()
    ensures { Promises }
{}

// No dump waits for ever, in a list where a batch may stand among the calls.
pub fn demand_3_with_batches()
    ensures { Demand3WithBatches × ItemsAreCalls × StaysGood }
{}

// Batches on literal bytes and words.
pub fn batch_examples()
    ensures { BatchExamples }
{}

// A packet anywhere in the buffer, of any length, is the packet of its single call.
pub fn item_is_its_bytes()
    ensures { AnItem }
{}
