// The slot call on a block of words: that on the store which a block of 80 words is. Any other block is no state. Kept beside the call on a State: C lends words.
#![tactic(auto)]

ghost use Rattle.std.specs.Prelude.{◌≡◌};
ghost use Rattle.rules.specs.Results.{number_of, answer_length};
ghost use Rattle.block.specs.Calls.{lg_slot};

use rules::{Refusal, Written};
use slot::call;

pub fn slot(b: &mut [u32], tick: u32, image: &[u32], buffer: &mut [u8]) -> Result<Written, Refusal>
    ensures { (number_of result ≡ (lg_slot b.old tick image.now buffer.old).number)
        × (b.new ≡ (lg_slot b.old tick image.now buffer.old).state)
        × (buffer.new ≡ (lg_slot b.old tick image.now buffer.old).buffer)
        × (answer_length result ≡ (lg_slot b.old tick image.now buffer.old).bytes) }
{
    let Some(block) = b.as_mut_array::<80>() else {
        return Err(Refusal::BadState);
    };
    call(block, tick, image, buffer)
}
