// The fields of packets.
use rules::{Command, DumpPacket, Header, Range, Request, Telecommand};
use std::{fmt, io};
use wire::get32;

// How many words.
#[derive(Clone, Copy)]
struct Words(u32);

impl fmt::Display for Words {
    fn fmt<W: fmt::Write>(&self, f: &mut fmt::Formatter<W>) -> fmt::Result {
        match self.0 {
            1 => write!(f, "1 word"),
            n => write!(f, "{n} words"),
        }
    }
}

// A range: how many words, and the address of the first.
#[derive(Clone, Copy)]
struct Span(Range);

impl fmt::Display for Span {
    fn fmt<W: fmt::Write>(&self, f: &mut fmt::Formatter<W>) -> fmt::Result {
        let words = Words(self.0.words);
        write!(f, "{words} at {:08x}", self.0.start.0)
    }
}

// What every packet carries.
#[derive(Clone, Copy)]
struct Identity(Header);

impl fmt::Display for Identity {
    fn fmt<W: fmt::Write>(&self, f: &mut fmt::Formatter<W>) -> fmt::Result {
        let Header {
            count,
            unit,
            transaction,
        } = self.0;
        write!(
            f,
            "unit {unit}, transaction {transaction:03x}, count {count}"
        )
    }
}

// The range that a dump or a load asks for.
fn asked(q: Request) -> Span {
    Span(Range {
        start: q.address,
        words: u32::from(q.size),
    })
}

// The name of n bytes of a symbol, which stands in the packet from byte 12 on.
fn name_in(p: &[u8], n: u8) -> &[u8] {
    p.get(12..12 + usize::from(n)).unwrap_or(&[])
}

// A command and its fields. A name may hold any bytes, and they are written as they are.
fn command(rt: &impl Print, k: Command, p: &[u8]) -> io::Result<()> {
    match k {
        Command::Dump(q) => print!(rt; "\ndump {}", asked(q)),
        Command::Cancel => print!(rt; "\ncancel"),
        Command::Load(q) => print!(rt; "\nload {}", asked(q)),
        Command::PoolStatistics(i) => print!(rt; "\npool statistics of pool {i}"),
        Command::SymbolValue(n) => {
            print!(rt; "\nvalue of symbol ")?;
            rt.write_all(name_in(p, n))
        }
        Command::DumpSymbol(q) => {
            let words = Words(u32::from(q.size));
            print!(rt; "\ndump {words} at offset {:08x} from symbol ", q.offset)?;
            rt.write_all(name_in(p, q.name))
        }
    }
}

// A command packet's fields.
pub fn telecommand(rt: &impl Print, f: Telecommand, p: &[u8]) -> io::Result<()> {
    command(rt, f.command, p)?;
    print!(rt; ", {}", Identity(f.header))
}

// A dump packet's fields.
pub fn dump_fields(rt: &impl Print, f: DumpPacket) -> io::Result<()> {
    let all = Span(f.range);
    let here = Span(Range {
        start: f.here,
        words: f.words,
    });
    print!(rt;
        "\n  of {all} here {here}, tick {}, {}",
        f.tick,
        Identity(f.header)
    )
}

// The value that a reply tells.
pub fn value(rt: &impl Print, reply: &[u8]) -> io::Result<()> {
    print!(rt; "\n  value {:08x}", get32(reply, 8))
}

// The five figures of a reply.
pub fn figures(rt: &impl Print, reply: &[u8]) -> io::Result<()> {
    print!(rt;
        "\n  free words {}, free blocks {}, usable in the largest free block {}, used words {}, used blocks {}",
        get32(reply, 12),
        get32(reply, 16),
        get32(reply, 20),
        get32(reply, 24),
        get32(reply, 28),
    )
}
