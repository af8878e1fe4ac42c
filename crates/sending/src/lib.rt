// The decisions of the slot call: pure functions on facts. A store of the state supplies the facts and carries the decision out.
#![tactic(auto)]

ghost use Rattle.std.specs.Prelude.{◌≡◌, ◌+◌, ◌*◌, ◌-◌, ◌%◌, min};
ghost use Rattle.sending.specs.Sendings.{decide_send, send_answer, buffer_after, SlotDecided};

use bulk::{put_packet, word_after, words_at};
use places::{Seat, after_packet};
use regions::{Miss, Spot};
use rules::{Address, Context, DumpPacket, Header, Refusal, WordIndex, Written};

// WHAT CAN BE DECIDED

// A dump's next packet, where its words are, and what its place does then.
#[derive(Clone, Copy)]
pub struct Piece {
    pub packet: DumpPacket,
    pub from: WordIndex,
    pub place: usize,
    pub after: Context,
}

// A SLOT

// The words of the next packet of a dump of so many words, of which some were sent.
fn packet_words(words: u32, sent: u32) -> u32
    ensures { result ≡ min 1016 (words - sent) }
{
    words.saturating_sub(sent).min(1016)
}

// The address `sent` words on, modulo 2^32.
fn address_after(start: Address, sent: u32) -> Address
    ensures { result.0 ≡ (start.0 + 4 * sent) % 4294967296 }
{
    let at = u64::from(start.0) + 4 * u64::from(sent);
    Address((at % 4294967296) as u32)
}

// The next packet of the dump whose turn it is: `first` is the index in the image of its range's first word, `count` the packet count of the dumps.
// A dump of a good state lies in a region.
pub fn send(
    seat: Seat,
    found: Result<Spot, Miss>,
    first: WordIndex,
    count: u16,
    unit: u8,
    tick: u32,
) -> Result<Piece, Refusal>
    ensures { result ≡ decide_send seat found first count unit tick }
{
    if found.is_err() {
        return Err(Refusal::NothingToSend);
    }
    let d = seat.dump;
    let range = d.range;
    let packet = DumpPacket {
        header: Header {
            count,
            unit,
            transaction: d.transaction,
        },
        tick,
        range,
        here: address_after(range.start, d.sent),
        words: packet_words(range.words, d.sent),
    };
    Ok(Piece {
        packet,
        from: word_after(first, d.sent as usize),
        place: seat.place,
        after: after_packet(d),
    })
}

// The answer to a slot, with the packet in the buffer.
pub fn send_out(
    d: Result<Piece, Refusal>,
    image: &[u32],
    buffer: &mut [u8],
) -> Result<Written, Refusal>
    ensures { (result ≡ send_answer d) × (buffer.new ≡ buffer_after d image.now buffer.old) }
{
    let p = d?;
    let words = p.packet.words as usize;
    put_packet(buffer, p.packet, words_at(image, p.from, words));
    Ok(Written {
        length: 28 + 4 * words,
    })
}

// THE LAW. This function does nothing: its contract is what is proved.

// The slot call is the decision, carried out.
pub fn slot_is_decided()
    ensures { SlotDecided }
{}
