// The command writer: 3, 9, or the packet at the start of the buffer. Later bytes stay, and after a refusal all do.
#![tactic(auto)]

ghost use Rattle.std.specs.Prelude.{◌≡◌, ◌++◌, ◌*◌, ◌≤◌, ◌<◌, length, get_or, set, take, drop, replicate};
ghost use Rattle.std.specs.Int.Bits.{bit_xor};
ghost use Rattle.lists.specs.Splice.{splice};
ghost use Rattle.wire.specs.Bytes.{be, word_bytes};
ghost use Rattle.wire.specs.Xor.{xor_all};
ghost use Rattle.rules.specs.Packets.{packet_length, used_words, name_bytes, name_field, request_bytes, body_bytes};
ghost use Rattle.rules.specs.Ground.{header_rules, write_command};
ghost use Rattle.command_writer.specs.Start.{start_bytes};
ghost use Rattle.rules.specs.declared.Command.TheVariants.{DumpSymbol};

use packet::{code_of, field_rules, packet_length};
use rules::{Command, Header, Refusal, Request, SymbolRequest, Written};
use wire::{put_words, xor_word};

fn header_rules(h: Header) -> bool
    ensures { result ≡ header_rules h }
{
    (h.unit <= 15) & (h.transaction <= 4095) & (h.count <= 16383)
}

// The first two words of a packet of `n` bytes. The check byte makes the exclusive or of all bytes FF hex, where the bytes after these
// words come to that of `rest`.
fn put_start(b: &mut [u8], count: u16, code: u8, n: usize, rest: u32)
    requires { (count ≤ 16383) × (7 ≤ n) × (n ≤ 68) × (8 ≤ length b.old) }
    ensures { b.new ≡ splice b.old 0 (set (start_bytes count code n) 7 (bit_xor (bit_xor (xor_all (start_bytes count code n)) (xor_all (be 4 rest))) 255)) }
{
    // type 1, second-header flag 1, APID 1604; sequence flags 3
    let first = 7748 * 65536 + (49152 + u32::from(count));
    let second = (n - 7) as u32 * 65536 + u32::from(code) * 256;
    let check = u32::from(xor_word(first ^ second ^ rest) ^ 255);
    put_words(b, 0, &[first, second + check]);
}

// Unit and transaction alone.
fn put_identity(b: &mut [u8], id: u32) -> u32
    requires { (id < 65536) × (10 ≤ length b.old) }
    ensures { (b.new ≡ splice b.old 8 (be 2 id)) × (xor_all (be 4 result) ≡ xor_all (be 2 id)) }
{
    b[8] = (id / 256) as u8;
    b[9] = (id % 256) as u8;
    id
}

fn put_pool(b: &mut [u8], id: u32, pool: u16) -> u32
    requires { (id < 65536) × (12 ≤ length b.old) }
    ensures { (b.new ≡ splice b.old 8 (be 2 id ++ be 2 pool)) × (xor_all (be 4 result) ≡ xor_all (be 2 id ++ be 2 pool)) }
{
    let third = id * 65536 + u32::from(pool);
    put_words(b, 8, &[third]);
    third
}

fn put_request(b: &mut [u8], id: u32, q: Request) -> u32
    requires { (id < 65536) × (16 ≤ length b.old) }
    ensures { (b.new ≡ splice b.old 8 (be 2 id ++ request_bytes q)) × (xor_all (be 4 result) ≡ xor_all (be 2 id ++ request_bytes q)) }
{
    let third = id * 65536 + u32::from(q.size);
    let address = q.address.0;
    put_words(b, 8, &[third, address]);
    third ^ address
}

// A load's word `i` as it is written: a word beyond the size is 0, and so is one that was not given.
fn used_word(words: &[u32], size: u16, i: usize) -> u32
    requires { i < 11 }
    ensures { result ≡ get_or (used_words size words.now) i 0 }
{
    if size as usize <= i {
        return 0;
    }
    if words.len() <= i {
        return 0;
    }
    words[i]
}

// A load's eleven words. With the one test here the compiler leaves out those of each word.
fn put_data(b: &mut [u8], size: u16, words: &[u32]) -> u32
    requires { 60 ≤ length b.old }
    ensures { (b.new ≡ splice b.old 16 (word_bytes (used_words size words.now))) × (xor_all (be 4 result) ≡ xor_all (word_bytes (used_words size words.now))) }
{
    if b.len() < 60 {
        return 0;
    }
    let mut all: u32 = 0;
    for i in 0..11 {
        let w = used_word(words, size, i);
        put_words(b, 16 + 4 * i, &[w]);
        all ^= w;
    }
    all
}

// A word of which only the first n bytes are kept.
fn kept(w: u32, n: usize) -> u32
    ensures { be 4 result ≡ take 4 (take n (be 4 w) ++ replicate 4 0) }
{
    match n {
        0 => 0,
        1 => w / 16777216 * 16777216,
        2 => w / 65536 * 65536,
        3 => w / 256 * 256,
        _ => w,
    }
}

// Word `i` of a name of n bytes as it is written: bytes beyond its size are 0, and so are those that were not given.
fn name_word(words: &[u32], n: u8, i: usize) -> u32
    requires { i < 12 }
    ensures { be 4 result ≡ take 4 (drop (4 * i) (name_bytes n words.now)) }
{
    if words.len() <= i {
        return 0;
    }
    let size = n as usize;
    if 4 * i + 4 <= size {
        return words[i];
    }
    if size <= 4 * i {
        return 0;
    }
    kept(words[i], size - 4 * i)
}

// Unit and transaction, and the name of a symbol in its field of twelve words. The one test is as in put_data.
fn put_name(b: &mut [u8], id: u32, n: u8, words: &[u32]) -> u32
    requires { (id < 65536) × (60 ≤ length b.old) }
    ensures { (b.new ≡ splice b.old 8 (be 2 id ++ name_field n words.now)) × (xor_all (be 4 result) ≡ xor_all (be 2 id ++ name_field n words.now)) }
{
    if b.len() < 60 {
        return 0;
    }
    let third = id * 65536 + u32::from(n) * 256;
    put_words(b, 8, &[third]);
    let mut all: u32 = third;
    for i in 0..12 {
        let w = name_word(words, n, i);
        put_words(b, 12 + 4 * i, &[w]);
        all ^= w;
    }
    all
}

fn put_symbol_request(b: &mut [u8], id: u32, q: SymbolRequest, words: &[u32]) -> u32
    requires { (id < 65536) × (68 ≤ length b.old) }
    ensures { (b.new ≡ splice b.old 8 (be 2 id ++ body_bytes (DumpSymbol q) words.now)) × (xor_all (be 4 result) ≡ xor_all (be 2 id ++ body_bytes (DumpSymbol q) words.now)) }
{
    let name = put_name(b, id, q.name, words);
    let offset = q.offset;
    let last = u32::from(q.size) * 65536;
    put_words(b, 60, &[offset, last]);
    name ^ offset ^ last
}

// The bytes from unit and transaction on. The answer is a word whose bytes have their exclusive or.
fn put_rest(b: &mut [u8], id: u32, k: Command, words: &[u32]) -> u32
    requires { (id < 65536) × (packet_length k ≤ length b.old) }
    ensures { (b.new ≡ splice b.old 8 (be 2 id ++ body_bytes k words.now)) × (xor_all (be 4 result) ≡ xor_all (be 2 id ++ body_bytes k words.now)) }
{
    match k {
        Command::Dump(q) => put_request(b, id, q),
        Command::Cancel => put_identity(b, id),
        Command::Load(q) => {
            let request = put_request(b, id, q);
            request ^ put_data(b, q.size, words)
        }
        Command::PoolStatistics(i) => put_pool(b, id, i),
        Command::SymbolValue(n) => put_name(b, id, n, words),
        Command::DumpSymbol(q) => put_symbol_request(b, id, q, words),
    }
}

// Writes a command's packet. Of `words`, which are a load's or hold a name, what is beyond its size is not written, and one that is not there is 0.
pub fn write_packet(
    h: Header,
    k: Command,
    words: &[u32],
    buffer: &mut [u8],
) -> Result<Written, Refusal>
    ensures { (result ≡ (write_command h k words.now buffer.old).answer) × (buffer.new ≡ (write_command h k words.now buffer.old).buffer) }
{
    let n = packet_length(k);
    if buffer.len() < n {
        return Err(Refusal::BufferLength);
    }
    if !(header_rules(h) & field_rules(k)) {
        return Err(Refusal::BadField);
    }
    let id = 4096 * u32::from(h.unit) + u32::from(h.transaction);
    let rest = put_rest(buffer, id, k, words);
    put_start(buffer, h.count, code_of(k), n, rest);
    Ok(Written { length: n })
}

// The same of twelve words.
pub fn write_command(
    h: Header,
    k: Command,
    words: &[u32; 12],
    buffer: &mut [u8],
) -> Result<Written, Refusal>
    ensures { (result ≡ (write_command h k words.now buffer.old).answer) × (buffer.new ≡ (write_command h k words.now buffer.old).buffer) }
{
    write_packet(h, k, words, buffer)
}
