// What the demonstration program prints. Every line but the first starts with its line feed.
#![tactic(auto)]

ghost use Rattle.std.specs.Prelude.{◌≡◌, take};

mod fields;

use command_reader::reading_of;
use fields::{dump_fields, figures, telecommand, value};
use packet_reader::read_packet;
use rules::{Refusal, Written};
use std::io;

// The first n bytes, or all where there are fewer.
pub fn front(p: &[u8], n: usize) -> &[u8]
    ensures { result.now ≡ take n p.now }
{
    if n < p.len() { &p[..n] } else { p }
}

// Bytes in hex, sixteen to a line.
fn bytes(rt: &impl Print, p: &[u8]) -> io::Result<()> {
    for line in p.chunks(16) {
        print!(rt; "\n   ")?;
        for b in line {
            print!(rt; " {b:02x}")?;
        }
    }
    Ok(())
}

// The first 48 bytes, and how many more there are.
fn first_bytes(rt: &impl Print, p: &[u8]) -> io::Result<()> {
    let (first, more) = p.split_at(p.len().min(48));
    bytes(rt, first)?;
    if !more.is_empty() {
        print!(rt; "\n    and {} bytes more", more.len())?;
    }
    Ok(())
}

// The number of what a call answered, 0 or that of its refusal, and what the number means.
pub fn show_result<T>(rt: &impl Print, answer: &Result<T, Refusal>) -> io::Result<()> {
    match answer {
        Ok(_) => print!(rt; "\n  0 done"),
        Err(r) => print!(rt; "\n  {} {r}", u32::from(*r)),
    }
}

// A command packet: its fields as they are read back, and its bytes.
pub fn show_command(rt: &impl Print, p: &[u8]) -> io::Result<()> {
    let reading = reading_of(p);
    match reading {
        Ok(f) => telecommand(rt, f, p)?,
        Err(_) => show_result(rt, &reading)?,
    }
    bytes(rt, p)
}

// What a reply tells: a symbol's value in 12 bytes, or a pool's figures.
fn tells(rt: &impl Print, reply: &[u8]) -> io::Result<()> {
    if reply.len() == 12 {
        value(rt, reply)
    } else {
        figures(rt, reply)
    }
}

// A dump packet's fields and first bytes, or a reply's bytes and what it tells.
fn show_packet(rt: &impl Print, p: &[u8]) -> io::Result<()> {
    match read_packet(p) {
        Ok(f) => {
            dump_fields(rt, f)?;
            first_bytes(rt, p)
        }
        Err(_) => {
            first_bytes(rt, p)?;
            tells(rt, p)
        }
    }
}

// What a call answered, and the packet that it left in the buffer.
pub fn show_answer(
    rt: &impl Print,
    answer: Result<Written, Refusal>,
    buffer: &[u8],
) -> io::Result<()> {
    show_result(rt, &answer)?;
    if let Ok(Written { length }) = answer {
        print!(rt; ", {length} bytes written")?;
        if 0 < length {
            show_packet(rt, front(buffer, length))?;
        }
    }
    Ok(())
}
