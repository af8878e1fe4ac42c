// Numbers in bytes, big-endian, and the exclusive or. Every public function but `read16`, `read32` and `read64` is total: a byte past the end reads as 0, and words that do not all fit are not written.
#![tactic(auto)]

ghost use Rattle.std.specs.Prelude.{◌≡◌, ◌+◌, ◌*◌, ◌≤◌, ◌<◌, length, get_or};
ghost use Rattle.lists.specs.Splice.{splice};
ghost use Rattle.wire.specs.Bytes.{be, be_at, word_bytes};
ghost use Rattle.wire.specs.Xor.{xor_all};
ghost use Rattle.wire.specs.ByByte.{ByByte};

pub fn byte_at(p: &[u8], at: usize) -> u8
    ensures { result ≡ get_or p.now at 0 }
{
    p.get(at).copied().unwrap_or(0)
}

// The number in two bytes that are there. Kept by size, here and below: one for every size would answer 64 bits, which each caller cuts.
pub fn read16(p: &[u8], at: usize) -> u16
    requires { at + 2 ≤ length p.now }
    ensures { result ≡ be_at 2 p.now at }
{
    u16::from_be_bytes([p[at], p[at + 1]])
}

// The number in four bytes that are there.
pub fn read32(p: &[u8], at: usize) -> u32
    requires { at + 4 ≤ length p.now }
    ensures { result ≡ be_at 4 p.now at }
{
    u32::from_be_bytes([p[at], p[at + 1], p[at + 2], p[at + 3]])
}

// The number in eight bytes that are there.
pub fn read64(p: &[u8], at: usize) -> u64
    requires { at + 8 ≤ length p.now }
    ensures { result ≡ be_at 8 p.now at }
{
    u64::from_be_bytes([
        p[at],
        p[at + 1],
        p[at + 2],
        p[at + 3],
        p[at + 4],
        p[at + 5],
        p[at + 6],
        p[at + 7],
    ])
}

// The number in two bytes from index `at` on.
pub fn get16(p: &[u8], at: u16) -> u16
    ensures { result ≡ be_at 2 p.now at }
{
    let i = usize::from(at);
    if i + 2 <= p.len() {
        return read16(p, i);
    }
    u16::from_be_bytes([byte_at(p, i), byte_at(p, i + 1)])
}

// The number in four bytes from index `at` on.
pub fn get32(p: &[u8], at: u16) -> u32
    ensures { result ≡ be_at 4 p.now at }
{
    let i = usize::from(at);
    if i + 4 <= p.len() {
        return read32(p, i);
    }
    u32::from_be_bytes([
        byte_at(p, i),
        byte_at(p, i + 1),
        byte_at(p, i + 2),
        byte_at(p, i + 3),
    ])
}

// One word.
fn put_word(b: &mut [u8], at: usize, word: u32)
    requires { at + 4 ≤ length b.old }
    ensures { b.new ≡ splice b.old at (be 4 word) }
{
    b[at..at + 4].copy_from_slice(&word.to_be_bytes());
}

fn put_run(b: &mut [u8], at: usize, words: &[u32])
    requires { at + 4 * length words.now ≤ length b.old }
    ensures { b.new ≡ splice b.old at (word_bytes words.now) }
{
    for (i, word) in words.iter().enumerate() {
        put_word(b, at + 4 * i, *word);
    }
}

// The bytes of the words from index `at` on. Where they do not all fit, nothing is written.
pub fn put_words(b: &mut [u8], at: usize, words: &[u32])
    ensures { (at + 4 * length words.now ≤ length b.old → b.new ≡ splice b.old at (word_bytes words.now))
        × (length b.old < at + 4 * length words.now → b.new ≡ b.old) }
{
    if b.len() < at {
        return;
    }
    if (b.len() - at) / 4 < words.len() {
        return;
    }
    put_run(b, at, words);
}

// The exclusive or of the four bytes of a word.
pub fn xor_word(x: u32) -> u8
    ensures { result ≡ xor_all (be 4 x) }
{
    let [first, second, third, last] = x.to_be_bytes();
    first ^ second ^ third ^ last
}

// The exclusive or of all bytes: eight at a time as one number, so that they are read at once, and then of those that are left.
pub fn xor_all(s: &[u8]) -> u8
    ensures { result ≡ xor_all s.now }
{
    let eights = s.len() / 8;
    let mut all: u64 = 0;
    for i in 0..eights {
        all ^= read64(s, 8 * i);
    }
    let mut x = xor_word((all / 4294967296) as u32 ^ (all % 4294967296) as u32);
    for b in &s[8 * eights..] {
        x ^= *b;
    }
    x
}

// The definitions byte by byte. This function does nothing: its contract is what is proved.
pub fn by_byte()
    ensures { ByByte }
{}
