// Fields of packets, and the rules on them, that more than one call needs.
#![tactic(auto)]

ghost use Rattle.std.specs.Prelude.{◌≡◌, ◌&&◌, ◌%◌, leb, eqb, get_or};
ghost use Rattle.wire.specs.Bytes.{be_at};
ghost use Rattle.rules.specs.Packets.{primary_rules, header_at, well_formed, function_code_of, command_unit, command_transaction, request_of, symbol_request_of, name_fits, field_rules, code_of, packet_length};
ghost use Rattle.packet.specs.Frame.{headed_of, checked_by};

pub mod code;
pub mod lengths;

use rules::{Address, Command, Header, Refusal, Request, SymbolRequest};
use wire::{byte_at, get16, get32, read16, read32, xor_all};

// Whether a packet has a primary header of this type and second-header flag, with the right version, sequence flags and length field.
pub fn primary_rules(p: &[u8], kind: u16, second: u16) -> bool
    ensures { result ≡ primary_rules kind second p.now }
{
    if p.len() < 6 {
        return false;
    }
    let w = read32(p, 0);
    (w / 536870912 == 0)
        & (w / 268435456 % 2 == u32::from(kind))
        & (w / 134217728 % 2 == u32::from(second))
        & (w / 16384 % 4 == 3)
        & (read16(p, 4) as usize + 7 == p.len())
}

// Sequence count, unit and transaction, where the last two stand at byte `at`.
pub fn header_at(p: &[u8], at: u16) -> Header
    ensures { result ≡ header_at p.now at }
{
    let identity = get16(p, at);
    Header {
        count: get16(p, 2) % 16384,
        unit: (identity / 4096) as u8,
        transaction: identity % 4096,
    }
}

// What number 4 tests in a command. The bytes are gone through only where the header is right, and the header is read without a test of
// each byte once eight are known to be there.
pub fn well_formed(p: &[u8]) -> bool
    ensures { result ≡ well_formed p.now }
{
    if p.len() < 8 {
        return false;
    }
    let header = primary_rules(p, 1, 1) & (byte_at(p, 6) / 128 == 0);
    if !header {
        return false;
    }
    xor_all(p) == 255
}

pub fn name_fits(n: u8) -> bool
    ensures { result ≡ name_fits n }
{
    (1 <= n) & (n <= 48)
}

// What number 9 tests of a dump, of a load and of pool statistics.
pub fn dump_rules(size: u16, address: u32) -> bool
    ensures { result ≡ (eqb (address % 4) 0 && leb 1 size) }
{
    (address % 4 == 0) & (1 <= size)
}

pub fn load_rules(size: u16, address: u32) -> bool
    ensures { result ≡ (eqb (address % 4) 0 && leb 1 size && leb size 11) }
{
    dump_rules(size, address) & (size <= 11)
}

pub fn pool_rules(i: u16) -> bool
    ensures { result ≡ leb i 1 }
{
    i <= 1
}

// What number 9 tests of a command's fields.
pub fn field_rules(k: Command) -> bool
    ensures { result ≡ field_rules k }
{
    match k {
        Command::Dump(q) => dump_rules(q.size, q.address.0),
        Command::Cancel => true,
        Command::Load(q) => load_rules(q.size, q.address.0),
        Command::PoolStatistics(i) => pool_rules(i),
        Command::SymbolValue(n) => name_fits(n),
        Command::DumpSymbol(q) => name_fits(q.name) & (1 <= q.size),
    }
}

// What number 9 tests of the bits that hold no field: after a name's size, and at the end of a dump by name.
pub fn pad_is_zero(p: &[u8]) -> bool
    ensures { result ≡ eqb (get_or p.now 11 0) 0 }
{
    byte_at(p, 11) == 0
}

pub fn end_is_zero(p: &[u8]) -> bool
    ensures { result ≡ eqb (be_at 2 p.now 66) 0 }
{
    get16(p, 66) == 0
}

// A command's function code, and how many bytes its packet has.
pub fn code_of(k: Command) -> u8
    ensures { result ≡ code_of k }
{
    match k {
        Command::Dump(_) => code::DUMP,
        Command::Cancel => code::CANCEL,
        Command::Load(_) => code::LOAD,
        Command::PoolStatistics(_) => code::POOL,
        Command::SymbolValue(_) => code::VALUE,
        Command::DumpSymbol(_) => code::NAMED_DUMP,
    }
}

pub fn packet_length(k: Command) -> usize
    ensures { result ≡ packet_length k }
{
    match k {
        Command::Dump(_) => lengths::DUMP,
        Command::Cancel => lengths::CANCEL,
        Command::Load(_) => lengths::LOAD,
        Command::PoolStatistics(_) => lengths::POOL,
        Command::SymbolValue(_) => lengths::VALUE,
        Command::DumpSymbol(_) => lengths::NAMED_DUMP,
    }
}

// A COMMAND PACKET, test by test

// Numbers 4 and 5. The compiler takes this into its callers: the service, the command reader and the batch that looks for symbols.
pub fn headed(p: &[u8]) -> Result<(), Refusal>
    ensures { result ≡ headed_of p.now }
{
    if !well_formed(p) {
        return Err(Refusal::Malformed);
    }
    if get16(p, 0) % 2048 != 1604 {
        return Err(Refusal::OtherApid);
    }
    Ok(())
}

// The 7-bit function code.
pub fn function_code(p: &[u8]) -> u8
    ensures { result ≡ function_code_of p.now }
{
    byte_at(p, 6) % 128
}

// The unit and the transaction that a command packet names.
pub fn unit_of(p: &[u8]) -> u8
    ensures { result ≡ command_unit p.now }
{
    (get16(p, 8) / 4096) as u8
}

pub fn transaction_of(p: &[u8]) -> u16
    ensures { result ≡ command_transaction p.now }
{
    get16(p, 8) % 4096
}

// Numbers 7 and 8 of a packet for this unit that must have so many bytes.
pub fn checked(p: &[u8], unit: u8, bytes: usize) -> Result<(), Refusal>
    ensures { result ≡ checked_by p.now unit bytes }
{
    if p.len() != bytes {
        return Err(Refusal::PacketLength);
    }
    if unit_of(p) != unit {
        return Err(Refusal::OtherUnit);
    }
    Ok(())
}

// The fields of a dump and of a load.
pub fn request_in(p: &[u8]) -> Request
    ensures { result ≡ request_of p.now }
{
    let size = get16(p, 10);
    let address = Address(get32(p, 12));
    Request { size, address }
}

pub fn symbol_request_in(p: &[u8]) -> SymbolRequest
    ensures { result ≡ symbol_request_of p.now }
{
    let name = byte_at(p, 10);
    let offset = get32(p, 60);
    let size = get16(p, 64);
    SymbolRequest { name, offset, size }
}
