// What a command asks the service to do, once its symbol is resolved; and the reply that tells a symbol's value.
#![tactic(auto)]

ghost use Rattle.std.specs.Prelude.{◌≡◌, ℕ, ◌%◌, ◌≤◌, ◌<◌, length, List};
ghost use Rattle.lists.specs.Splice.{splice};
ghost use Rattle.wire.specs.Bytes.{word_bytes};
ghost use Rattle.wire.specs.Bytes.{be_at};
ghost use Rattle.rules.specs.Packets.{name_in, name_size_of, request_of, symbol_request_of, decode, requested};
ghost use Rattle.rules.specs.Values.{moved_up, value_bytes};
ghost use Rattle.rules.specs.declared.Command.TheVariants.{Dump, Cancel, Load, PoolStatistics, SymbolValue, DumpSymbol};
ghost use Rattle.tasks.specs.Asked.{asked_of, if_passed, picked_by, sought_in, named_by, named_if, dump_from, if_right};

use packet::{
    checked, code, dump_rules, end_is_zero, function_code, headed, lengths, load_rules, name_fits,
    pad_is_zero, pool_rules, request_in, symbol_request_in,
};
use rules::{Address, Header, Range, Refusal, Request, Task};
use symbols::{Symbols, Unresolved};
use wire::{byte_at, get16, put_words};

fn range_of(q: Request) -> Range
    ensures { result ≡ requested q }
{
    let start = q.address;
    Range {
        start,
        words: u32::from(q.size),
    }
}

// The name in a packet: as many bytes as its size says, or as there are.
fn name_in(p: &[u8]) -> &[u8]
    ensures { result.now ≡ name_in p.now }
{
    if p.len() < 12 {
        return &p[0..0];
    }
    let end = 12 + p[10] as usize;
    if p.len() < end {
        return &p[12..];
    }
    &p[12..end]
}

// What a name resolves to in a packet whose layout is right, or 9.
fn named_if(right: bool, named: Result<u32, Refusal>) -> Result<u32, Refusal>
    ensures { result ≡ named_if right named }
{
    if right { named } else { Err(Refusal::BadField) }
}

// The value of the symbol that a packet names. `right` says whether the name's size and the zero bits are as laid down.
fn resolved(symbols: &Symbols, p: &[u8], right: bool) -> Result<u32, Refusal>
    ensures { result ≡ named_by symbols.now.bytes.now (name_in p.now) right }
{
    let symbol = symbols.resolve(name_in(p));
    match symbol {
        Err(Unresolved::NoTable) => Err(Refusal::BadTable),
        Err(Unresolved::Unknown) => named_if(right, Err(Refusal::UnknownSymbol)),
        Ok(v) => named_if(right, Ok(v)),
    }
}

// Value plus signed offset, with 2^32 added.
fn moved_up(value: u32, offset: u32) -> u64
    ensures { result ≡ moved_up value offset }
{
    let sum = u64::from(value) + u64::from(offset);
    if offset < 2147483648 {
        return sum + 4294967296;
    }
    sum
}

// The dump of `size` words from an address that has 2^32 added, or 9.
fn dump_from(moved: u64, size: u16) -> Result<Task, Refusal>
    ensures { result ≡ dump_from moved size }
{
    if moved < 4294967296 {
        return Err(Refusal::BadField);
    }
    if 8589934592 <= moved {
        return Err(Refusal::BadField);
    }
    let address = (moved - 4294967296) as u32;
    if address % 4 != 0 {
        return Err(Refusal::BadField);
    }
    if size == 0 {
        return Err(Refusal::BadField);
    }
    let start = Address(address);
    Ok(Task::DumpRange(Range {
        start,
        words: u32::from(size),
    }))
}

fn if_right(right: bool, task: Task) -> Result<Task, Refusal>
    ensures { result ≡ if_right right task }
{
    if right {
        Ok(task)
    } else {
        Err(Refusal::BadField)
    }
}

// THE HANDLERS: the task of a packet that passed numbers 4 to 8, or the number that it gets.

fn dump(p: &[u8]) -> Result<Task, Refusal>
    ensures { (symbols : List ℕ) → result ≡ asked_of symbols p.now (Dump (request_of p.now)) }
{
    let q = request_in(p);
    if_right(
        dump_rules(q.size, q.address.0),
        Task::DumpRange(range_of(q)),
    )
}

fn load(p: &[u8]) -> Result<Task, Refusal>
    ensures { (symbols : List ℕ) → result ≡ asked_of symbols p.now (Load (request_of p.now)) }
{
    let q = request_in(p);
    if_right(
        load_rules(q.size, q.address.0),
        Task::LoadRange(range_of(q)),
    )
}

fn pool_statistics(p: &[u8]) -> Result<Task, Refusal>
    ensures { (symbols : List ℕ) → result ≡ asked_of symbols p.now (PoolStatistics (be_at 2 p.now 10)) }
{
    let i = get16(p, 10);
    if_right(pool_rules(i), Task::CountPool(i))
}

fn symbol_value(p: &[u8], symbols: &Symbols) -> Result<Task, Refusal>
    ensures { result ≡ asked_of symbols.now.bytes.now p.now (SymbolValue (name_size_of p.now)) }
{
    let right = name_fits(byte_at(p, 10)) & pad_is_zero(p);
    let value = resolved(symbols, p, right)?;
    Ok(Task::TellValue(value))
}

fn named_dump(p: &[u8], symbols: &Symbols) -> Result<Task, Refusal>
    ensures { result ≡ asked_of symbols.now.bytes.now p.now (DumpSymbol (symbol_request_of p.now)) }
{
    let q = symbol_request_in(p);
    let right = name_fits(q.name) & (pad_is_zero(p) & end_is_zero(p));
    let value = resolved(symbols, p, right)?;
    dump_from(moved_up(value, q.offset), q.size)
}

// THE MATCH: the function code picks the command, its packet's length and its handler.
fn by_code(p: &[u8], unit: u8, symbols: &Symbols) -> Result<Task, Refusal>
    ensures { result ≡ picked_by p.now unit symbols.now.bytes.now (decode p.now) }
{
    match function_code(p) {
        code::DUMP => {
            checked(p, unit, lengths::DUMP)?;
            dump(p)
        }
        code::CANCEL => {
            checked(p, unit, lengths::CANCEL)?;
            Ok(Task::CancelDump)
        }
        code::LOAD => {
            checked(p, unit, lengths::LOAD)?;
            load(p)
        }
        code::POOL => {
            checked(p, unit, lengths::POOL)?;
            pool_statistics(p)
        }
        code::VALUE => {
            checked(p, unit, lengths::VALUE)?;
            symbol_value(p, symbols)
        }
        code::NAMED_DUMP => {
            checked(p, unit, lengths::NAMED_DUMP)?;
            named_dump(p, symbols)
        }
        _ => Err(Refusal::UnknownCode),
    }
}

// Numbers 4 to 9, 17 and 18 of a packet for this unit, or its task.
pub fn asked(p: &[u8], unit: u8, symbols: &Symbols) -> Result<Task, Refusal>
    ensures { result ≡ sought_in p.now unit symbols.now.bytes.now }
{
    headed(p)?;
    by_code(p, unit, symbols)
}

// The reply that tells a value, as three words, each number cut to its field.
fn value_words(h: Header, value: u32) -> [u32; 3]
    ensures { word_bytes result ≡ value_bytes (h.count % 16384) (h.unit % 16) (h.transaction % 4096) value }
{
    let sequence = 49152 + u32::from(h.count % 16384);
    let identity = 4096 * u32::from(h.unit % 16) + u32::from(h.transaction % 4096);
    [786 * 65536 + sequence, 5 * 65536 + identity, value]
}

// The reply at the start of the buffer, each number cut to its field. Where it does not fit, nothing is written.
pub fn put_value(reply: &mut [u8], h: Header, value: u32)
    ensures { (12 ≤ length reply.old → reply.new ≡ splice reply.old 0 (value_bytes (h.count % 16384) (h.unit % 16) (h.transaction % 4096) value))
        × (length reply.old < 12 → reply.new ≡ reply.old) }
{
    put_words(reply, 0, &value_words(h, value));
}
