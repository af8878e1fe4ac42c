// The ground desk's check of a whole dump (paper 02, A6). It reads the packets' headers, and no data word.
#![tactic(auto)]

ghost use Rattle.std.specs.Prelude.{◌≡◌, ◌*◌, ◌/◌, ◌≤◌, ◌<◌, eqb, length, get_or, replicate, MatchOption};
ghost use Rattle.lists.specs.Below.{first_below};
ghost use Rattle.rules.specs.Ground.{packet_fields};
ghost use Rattle.whole_dump.specs.Check.{bytes_before, unfit, agree, first_bad, check_dump};
ghost use Rattle.dump_check.specs.Marks.{piece_in, Marked};

use packet_reader::packet_verdict;
use wire::{read16, read32};

// The bytes of the first n packets.
fn bytes_listed(lengths: &[u8], n: usize) -> usize
    requires { (n ≤ 65) × (2 * n ≤ length lengths.now) }
    ensures { result ≡ bytes_before lengths.now n }
{
    let mut total: u32 = 0;
    for i in 0..n {
        total += u32::from(read16(lengths, 2 * i));
    }
    total as usize
}

// Number 3.
fn is_unfit(bytes: &[u8], lengths: &[u8]) -> bool
    ensures { result ≡ unfit bytes.now lengths.now }
{
    let n = lengths.len() / 2;
    if lengths.len() % 2 != 0 || 65 < n {
        return true;
    }
    bytes_listed(lengths, n) < bytes.len()
}

// Whether two packets have the same unit, transaction, requested address and requested words.
fn agreeing(p: &[u8], q: &[u8]) -> bool
    requires { (28 ≤ length p.now) × (28 ≤ length q.now) }
    ensures { result ≡ agree (packet_fields p.now) (packet_fields q.now) }
{
    (read16(p, 6) == read16(q, 6))
        & (read32(p, 12) == read32(q, 12))
        & (read32(p, 16) == read32(q, 16))
}

// The piece that packet p has, if it is accepted and agrees with the first.
fn piece_in(first: &[u8], p: &[u8]) -> Option<usize>
    requires { length p.now ≤ length first.now }
    ensures { MatchOption result (65 ≡ piece_in first.now p.now) (λ k. (k < 65) × (k ≡ piece_in first.now p.now)) }
{
    match packet_verdict(p) {
        Ok(()) if agreeing(first, p) => Some(((read32(p, 20) - read32(p, 12)) / 4 / 1016) as usize),
        _ => None,
    }
}

// How many packets come before the first bad one. Their pieces are marked.
fn sound_packets(bytes: &[u8], lengths: &[u8], seen: &mut [u8]) -> usize
    requires { (length lengths.now / 2 ≤ 65) × (seen.old ≡ replicate 65 0) }
    ensures { (result ≡ first_bad bytes.now lengths.now) × Marked bytes.now lengths.now result seen.new }
{
    let n = lengths.len() / 2;
    let mut at = 0;
    for i in 0..n {
        let length = usize::from(read16(lengths, 2 * i));
        if bytes.len() - at < length {
            return i;
        }
        let Some(k) = piece_in(bytes, &bytes[at..at + length]) else {
            return i;
        };
        if seen[k] != 0 {
            return i;
        }
        seen[k] = 1;
        at += length;
    }
    n
}

// The lowest of m pieces that is not marked; m where all are.
fn first_unmarked(seen: &[u8], m: usize) -> usize
    requires { m ≤ length seen.now }
    ensures { result ≡ first_below (λ j. eqb (get_or seen.now j 0) 0) m }
{
    seen[..m].iter().position(|mark| *mark == 0).unwrap_or(m)
}

// 3; 65,536 and the number of the first bad packet; 131,072 and the lowest missing piece; or 0. Kept: numbers are all that the paper has here.
pub fn check_dump(bytes: &[u8], lengths: &[u8]) -> u32
    ensures { result ≡ check_dump bytes.now lengths.now }
{
    if is_unfit(bytes, lengths) {
        return 3;
    }
    let n = lengths.len() / 2;
    if n == 0 {
        return 131072;
    }
    let mut seen = [0u8; 65];
    let i = sound_packets(bytes, lengths, &mut seen);
    if i < n {
        return 65536 + i as u32;
    }
    let m = (read32(bytes, 16) as usize + 1015) / 1016;
    let k = first_unmarked(&seen, m);
    if k < m {
        return 131072 + k as u32;
    }
    0
}
