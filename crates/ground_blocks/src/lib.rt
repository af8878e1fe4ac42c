// The command block and the dump packet block of the C interface: fields read from words, and words made of fields.
#![tactic(auto)]

ghost use Rattle.std.specs.Prelude.{◌≡◌, min};
ghost use Rattle.ground_blocks.specs.Fields.{header_in, size_in, request_in, symbol_request_in, command_in, body_words, head_words, tail_words, field_words};
ghost use Rattle.ground_blocks.specs.RoundTrip.{CommandRoundTrip};

use block::word_at;
use packet::{code, code_of};
use rules::{Address, Command, DumpPacket, Header, Request, SymbolRequest, Telecommand};

// A COMMAND READ FROM WORDS

// Kept by size, here and below: one for both would need a trait for the largest of a type.
fn at_most_16(w: u32) -> u16
    ensures { result ≡ min 65535 w }
{
    u16::try_from(w).unwrap_or(u16::MAX)
}

fn at_most_8(w: u32) -> u8
    ensures { result ≡ min 255 w }
{
    u8::try_from(w).unwrap_or(u8::MAX)
}

fn size_in(w: u32) -> u16
    ensures { result ≡ size_in w }
{
    u16::try_from(w).unwrap_or(0)
}

pub fn header_in(b: &[u32]) -> Header
    ensures { result ≡ header_in b.now }
{
    let count = at_most_16(word_at(b, 1));
    let unit = at_most_8(word_at(b, 2));
    let transaction = at_most_16(word_at(b, 3));
    Header {
        count,
        unit,
        transaction,
    }
}

fn request_in(b: &[u32]) -> Request
    ensures { result ≡ request_in b.now }
{
    let size = size_in(word_at(b, 4));
    let address = Address(word_at(b, 5));
    Request { size, address }
}

fn symbol_request_in(b: &[u32]) -> SymbolRequest
    ensures { result ≡ symbol_request_in b.now }
{
    let name = at_most_8(word_at(b, 19));
    let offset = word_at(b, 20);
    let size = size_in(word_at(b, 4));
    SymbolRequest { name, offset, size }
}

pub fn command_in(b: &[u32]) -> Option<Command>
    ensures { result ≡ command_in b.now }
{
    let word = word_at(b, 0);
    if 255 < word {
        return None;
    }
    match word as u8 {
        code::DUMP => Some(Command::Dump(request_in(b))),
        code::CANCEL => Some(Command::Cancel),
        code::LOAD => Some(Command::Load(request_in(b))),
        code::POOL => Some(Command::PoolStatistics(at_most_16(word_at(b, 6)))),
        code::VALUE => Some(Command::SymbolValue(at_most_8(word_at(b, 19)))),
        code::NAMED_DUMP => Some(Command::DumpSymbol(symbol_request_in(b))),
        _ => None,
    }
}

// A COMMAND AS WORDS

fn body_words(k: Command) -> [u32; 3]
    ensures { result ≡ body_words k }
{
    match k {
        Command::Dump(q) | Command::Load(q) => [u32::from(q.size), q.address.0, 0],
        Command::Cancel | Command::SymbolValue(_) => [0; 3],
        Command::PoolStatistics(i) => [0, 0, u32::from(i)],
        Command::DumpSymbol(q) => [u32::from(q.size), 0, 0],
    }
}

pub fn head_words(f: Telecommand) -> [u32; 7]
    ensures { result ≡ head_words f }
{
    let k = f.command;
    let code = u32::from(code_of(k));
    let body = body_words(k);
    [
        code,
        u32::from(f.header.count),
        u32::from(f.header.unit),
        u32::from(f.header.transaction),
        body[0],
        body[1],
        body[2],
    ]
}

// The words after the twelve beside a command: name size and offset.
pub fn tail_words(k: Command) -> [u32; 2]
    ensures { result ≡ tail_words k }
{
    match k {
        Command::SymbolValue(n) => [u32::from(n), 0],
        Command::DumpSymbol(q) => [u32::from(q.name), q.offset],
        _ => [0; 2],
    }
}

// A DUMP PACKET AS WORDS

pub fn field_words(f: DumpPacket) -> [u32; 8]
    ensures { result ≡ field_words f }
{
    [
        u32::from(f.header.count),
        u32::from(f.header.unit),
        u32::from(f.header.transaction),
        f.tick,
        f.range.start.0,
        f.range.words,
        f.here.0,
        f.words,
    ]
}

// The words of a command give the command back.
pub fn command_round_trip()
    ensures { CommandRoundTrip }
{}
