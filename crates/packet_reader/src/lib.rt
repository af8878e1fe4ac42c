// The dump packet reader: 4, 5, 7, 9 or the fields, for any bytes of any length, and the data part of the caller's own packet.
#![tactic(auto)]

ghost use Rattle.std.specs.Prelude.{◌≡◌, ◌≤◌, length};
ghost use Rattle.rules.specs.Ground.{packet_fields, could_be_dumped, is_cut, cut_rules, packet_rows, read_packet};
ghost use Rattle.rules.specs.Results.{lowest};

use packet::{header_at, primary_rules};
use rules::{Address, DumpPacket, Range, Refusal};
use wire::{read16, read32};

// The fields after the primary header, as they stand.
fn packet_fields(p: &[u8]) -> DumpPacket
    requires { 28 ≤ length p.now }
    ensures { result ≡ packet_fields p.now }
{
    let header = header_at(p, 6);
    let tick = read32(p, 8);
    let start = Address(read32(p, 12));
    let range = Range {
        start,
        words: read32(p, 16),
    };
    let here = Address(read32(p, 20));
    let words = read32(p, 24);
    DumpPacket {
        header,
        tick,
        range,
        here,
        words,
    }
}

// Whether the requested range could be a dump.
fn could_be_dumped(r: Range) -> bool
    ensures { result ≡ could_be_dumped r }
{
    let start = u64::from(r.start.0);
    let words = u64::from(r.words);
    (start % 4 == 0) & (1 <= words) & (words <= 65535) & (start + 4 * words <= 4294967296)
}

// Whether `words` words from word `sent` on are one of the range's cuts.
fn is_cut(r: Range, sent: u32, words: u32) -> bool
    ensures { result ≡ is_cut r sent words }
{
    if r.words <= sent {
        return false;
    }
    let left = r.words - sent;
    (sent % 1016 == 0) & (words == left.min(1016))
}

// What number 9 tests in a dump packet.
fn cut_rules(f: DumpPacket) -> bool
    ensures { result ≡ cut_rules f }
{
    let range = f.range;
    let start = range.start.0;
    let here = f.here.0;
    if here < start {
        return false;
    }
    let offset = here - start;
    could_be_dumped(range) & (offset % 4 == 0) & is_cut(range, offset / 4, f.words)
}

// Numbers 4, 5, 7 and 9 of a dump packet. It goes into both of its callers, the packet reader and the check of a whole dump.
#[inline(always)]
pub fn packet_verdict(p: &[u8]) -> Result<(), Refusal>
    ensures { result ≡ lowest (packet_rows p.now) }
{
    if p.len() < 28 {
        return Err(Refusal::Malformed);
    }
    if !primary_rules(p, 0, 0) {
        return Err(Refusal::Malformed);
    }
    if read16(p, 0) % 2048 != 788 {
        return Err(Refusal::OtherApid);
    }
    let f = packet_fields(p);
    let words = f.words as usize;
    let sized = (1 <= words) & (words <= 1016) & (p.len() == 28 + 4 * words);
    if !sized {
        return Err(Refusal::PacketLength);
    }
    if !cut_rules(f) {
        return Err(Refusal::BadField);
    }
    Ok(())
}

// The fields of a dump packet.
pub fn read_packet(p: &[u8]) -> Result<DumpPacket, Refusal>
    ensures { result ≡ (read_packet p.now).reading }
{
    packet_verdict(p)?;
    Ok(packet_fields(p))
}

// The data part of a dump packet, which is part of the caller's own packet; empty where the packet is refused.
pub fn packet_data(p: &[u8]) -> &[u8]
    ensures { result.now ≡ (read_packet p.now).part }
{
    let reading = read_packet(p);
    match reading {
        Err(_) => &p[0..0],
        Ok(_) => &p[28..],
    }
}
