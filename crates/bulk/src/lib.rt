// The bulk work: a dump packet written into a buffer, a load written into the image, and words cut out of it.
#![tactic(auto)]

ghost use Rattle.std.specs.Prelude.{◌≡◌, true, false, [], ◌+◌, ◌*◌, ◌≤◌, ◌<◌, min, length, take, drop};
ghost use Rattle.lists.specs.Splice.{splice};
ghost use Rattle.wire.specs.Bytes.{be_at, word_bytes, words_at};
ghost use Rattle.rules.specs.Packets.{data_words, name_words};
ghost use Rattle.bulk.specs.DumpBytes.{head_bytes, dump_packet_bytes, PacketFits, packet_fits};

use rules::{DumpPacket, WordIndex};
use wire::{get32, put_words, read32};

// The header of a dump packet, as seven words.
fn head_words(f: DumpPacket) -> [u32; 7]
    requires { (f.header.count ≤ 16383) × (f.header.unit ≤ 15) × (f.header.transaction ≤ 4095) × (f.words ≤ 1016) }
    ensures { word_bytes result ≡ head_bytes f f.words }
{
    let count = 49152 + u32::from(f.header.count);
    let size = 28 + 4 * f.words - 7;
    let id = 4096 * u32::from(f.header.unit) + u32::from(f.header.transaction);
    let start = f.range.start.0;
    let here = f.here.0;
    [
        788 * 65536 + count,
        size * 65536 + id,
        f.tick,
        start,
        f.range.words,
        here,
        f.words,
    ]
}

// Whether each field fits its bits, and the packet holds n words and fits a buffer of `room` bytes.
fn packet_fits(f: DumpPacket, n: usize, room: usize) -> bool
    ensures { result ≡ packet_fits f n room }
{
    let words = f.words as usize;
    (f.header.count <= 16383)
        & (f.header.unit <= 15)
        & (f.header.transaction <= 4095)
        & (n <= 1016)
        & (words == n)
        & (28 + 4 * words <= room)
}

// A dump packet at the start of the buffer. Where it does not fit, nothing is written.
pub fn put_packet(buffer: &mut [u8], f: DumpPacket, words: &[u32])
    ensures { (PacketFits f words.now buffer.old → buffer.new ≡ splice buffer.old 0 (dump_packet_bytes f words.now))
        × ((PacketFits f words.now buffer.old → ⊥) → buffer.new ≡ buffer.old) }
{
    if !packet_fits(f, words.len(), buffer.len()) {
        return;
    }
    let head = head_words(f);
    put_words(buffer, 0, &head);
    put_words(buffer, 28, words);
}

// The word in four bytes of a load or of a name. The test is the same for every word of a packet, so the compiler takes it out of the loop,
// and what is left there is one load and one swap.
fn word_at(packet: &[u8], at: usize) -> u32
    requires { at + 4 ≤ 60 }
    ensures { result ≡ be_at 4 packet.now at }
{
    if packet.len() < 60 {
        return get32(packet, at as u16);
    }
    read32(packet, at)
}

// Whether an image of that length has n words from index `at` on.
fn has_words(length: usize, at: WordIndex, n: usize) -> bool
    ensures { (result ≡ true → at.0 + n ≤ length) × (result ≡ false → length < at.0 + n) }
{
    at.0 <= length && n <= length - at.0
}

// The n words of a packet from byte `at` on, from index `from` of a slice of words on.
fn store_run(words: &mut [u32], from: usize, packet: &[u8], at: usize, n: usize)
    requires { (at + 4 * n ≤ 60) × (from + n ≤ length words.old) }
    ensures { words.new ≡ splice words.old from (words_at n packet.now at) }
{
    for i in 0..n {
        words[from + i] = word_at(packet, at + 4 * i);
    }
}

// The first n words of a load packet's data, from index `at` of the image on. Where they do not fit, nothing is written.
pub fn store_words(image: &mut [u32], at: WordIndex, packet: &[u8], n: usize)
    ensures { (n ≤ 11 → at.0 + n ≤ length image.old → image.new ≡ splice image.old at.0 (take n (data_words packet.now)))
        × ((n ≤ 11 → at.0 + n ≤ length image.old → ⊥) → image.new ≡ image.old) }
{
    if 11 < n {
        return;
    }
    if !has_words(image.len(), at, n) {
        return;
    }
    store_run(image, at.0, packet, 16, n);
}

// The same at the start of a slice of words.
pub fn load_words(words: &mut [u32], packet: &[u8], n: usize)
    ensures { (n ≤ 11 → n ≤ length words.old → words.new ≡ splice words.old 0 (take n (data_words packet.now)))
        × ((n ≤ 11 → n ≤ length words.old → ⊥) → words.new ≡ words.old) }
{
    store_words(words, WordIndex(0), packet, n);
}

// The twelve words of a packet's name field, at the start of a slice of words. Where it has fewer, nothing is written.
pub fn name_words(words: &mut [u32], packet: &[u8])
    ensures { (12 ≤ length words.old → words.new ≡ splice words.old 0 (name_words packet.now))
        × (length words.old < 12 → words.new ≡ words.old) }
{
    if words.len() < 12 {
        return;
    }
    store_run(words, 0, packet, 12, 12);
}

// The word n words on. Where there is none, the last index: no image has a word there.
pub fn word_after(at: WordIndex, n: usize) -> WordIndex
    ensures { result.0 ≡ min (at.0 + n) 18446744073709551615 }
{
    WordIndex(at.0.saturating_add(n))
}

// The n words of the image from index `at` on. Where it does not have them all, none.
pub fn words_at(image: &[u32], at: WordIndex, n: usize) -> &[u32]
    ensures { (at.0 + n ≤ length image.now → result.now ≡ take n (drop at.0 image.now))
        × ((at.0 + n ≤ length image.now → ⊥) → result.now ≡ []) }
{
    if !has_words(image.len(), at, n) {
        return &image[0..0];
    }
    let start = at.0;
    &image[start..start + n]
}
