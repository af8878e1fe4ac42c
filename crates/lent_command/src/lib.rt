// The command call on a block of words: that on the store which a block of 80 words is. Any other block is no state. Kept beside the call on a State: C lends words.
#![tactic(auto)]

ghost use Rattle.std.specs.Prelude.{◌≡◌};
ghost use Rattle.rules.specs.Results.{number_of, answer_length};
ghost use Rattle.block.specs.Calls.{good_words, lg_command};

use command::call;
use lent_state::good_words;
use rules::{Refusal, Written};
use symbols::Symbols;

// The command call on a block that was tested: `words` is what the good test says of it. The symbols may have been tested too.
pub fn tested(
    b: &mut [u32],
    words: usize,
    packet: &[u8],
    symbols: &Symbols,
    image: &mut [u32],
    reply: &mut [u8],
) -> Result<Written, Refusal>
    requires { words ≡ good_words b.old }
    ensures { (number_of result ≡ (lg_command b.old (record { packet = packet.entry.now; symbols = symbols.now.bytes.now; image = image.old; reply = reply.old })).number)
        × (b.new ≡ (lg_command b.old (record { packet = packet.entry.now; symbols = symbols.now.bytes.now; image = image.old; reply = reply.old })).state)
        × (image.new ≡ (lg_command b.old (record { packet = packet.entry.now; symbols = symbols.now.bytes.now; image = image.old; reply = reply.old })).image)
        × (reply.new ≡ (lg_command b.old (record { packet = packet.entry.now; symbols = symbols.now.bytes.now; image = image.old; reply = reply.old })).buffer)
        × (answer_length result ≡ (lg_command b.old (record { packet = packet.entry.now; symbols = symbols.now.bytes.now; image = image.old; reply = reply.old })).bytes) }
{
    let Some(block) = b.as_mut_array::<80>() else {
        return Err(Refusal::BadState);
    };
    call(block, words, packet, symbols, image, reply)
}

// The command call.
pub fn command(
    b: &mut [u32],
    packet: &[u8],
    symbols: &[u8],
    image: &mut [u32],
    reply: &mut [u8],
) -> Result<Written, Refusal>
    ensures { (number_of result ≡ (lg_command b.old (record { packet = packet.entry.now; symbols = symbols.now; image = image.old; reply = reply.old })).number)
        × (b.new ≡ (lg_command b.old (record { packet = packet.entry.now; symbols = symbols.now; image = image.old; reply = reply.old })).state)
        × (image.new ≡ (lg_command b.old (record { packet = packet.entry.now; symbols = symbols.now; image = image.old; reply = reply.old })).image)
        × (reply.new ≡ (lg_command b.old (record { packet = packet.entry.now; symbols = symbols.now; image = image.old; reply = reply.old })).buffer)
        × (answer_length result ≡ (lg_command b.old (record { packet = packet.entry.now; symbols = symbols.now; image = image.old; reply = reply.old })).bytes) }
{
    let words = good_words(b);
    tested(b, words, packet, &Symbols::untested(symbols), image, reply)
}
