// The command reader: 4, 5, 6, 7, 9 or the fields, for any bytes of any length.
#![tactic(auto)]

ghost use Rattle.std.specs.Prelude.{◌≡◌, ◌≤◌, ◌<◌, length};
ghost use Rattle.lists.specs.Splice.{splice};
ghost use Rattle.rules.specs.Ground.{no_words, words_beside, read_command};
ghost use Rattle.rules.specs.Packets.{decode};
ghost use Rattle.command_reader.specs.Beside.{words_with};
ghost use Rattle.command_reader.specs.Read.{given_as, read_as};

use bulk::{load_words, name_words};
use packet::{
    code, end_is_zero, field_rules, function_code, headed, header_at, lengths, pad_is_zero,
    request_in, symbol_request_in,
};
use rules::{Command, CommandRead, Refusal, Telecommand};
use wire::{byte_at, get16};

// Numbers 7 and 9 of a command whose packet must have so many bytes, or its fields. `zeros` says whether the bits that hold no field are zero.
fn given(p: &[u8], bytes: usize, zeros: bool, command: Command) -> Result<Telecommand, Refusal>
    ensures { result ≡ given_as p.now bytes zeros command }
{
    if p.len() != bytes {
        return Err(Refusal::PacketLength);
    }
    if !(field_rules(command) & zeros) {
        return Err(Refusal::BadField);
    }
    let header = header_at(p, 8);
    Ok(Telecommand { header, command })
}

// The function code picks the command and its packet's length.
fn by_code(p: &[u8]) -> Result<Telecommand, Refusal>
    ensures { result ≡ read_as p.now (decode p.now) }
{
    match function_code(p) {
        code::DUMP => given(p, lengths::DUMP, true, Command::Dump(request_in(p))),
        code::CANCEL => given(p, lengths::CANCEL, true, Command::Cancel),
        code::LOAD => given(p, lengths::LOAD, true, Command::Load(request_in(p))),
        code::POOL => given(
            p,
            lengths::POOL,
            true,
            Command::PoolStatistics(get16(p, 10)),
        ),
        code::VALUE => given(
            p,
            lengths::VALUE,
            pad_is_zero(p),
            Command::SymbolValue(byte_at(p, 10)),
        ),
        code::NAMED_DUMP => given(
            p,
            lengths::NAMED_DUMP,
            pad_is_zero(p) & end_is_zero(p),
            Command::DumpSymbol(symbol_request_in(p)),
        ),
        _ => Err(Refusal::UnknownCode),
    }
}

// Numbers 4 to 7 and 9, or the fields.
pub fn reading_of(p: &[u8]) -> Result<Telecommand, Refusal>
    ensures { result ≡ (read_command p.now).reading }
{
    headed(p)?;
    by_code(p)
}

fn put_zeros(words: &mut [u32])
    requires { 12 ≤ length words.old }
    ensures { words.new ≡ splice words.old 0 no_words }
{
    words[..12].fill(0);
}

// The twelve words beside a command, at the start of a slice of words. Where it has fewer, nothing is written.
pub fn put_beside(words: &mut [u32], p: &[u8], k: Command)
    ensures { (12 ≤ length words.old → words.new ≡ splice words.old 0 (words_beside p.now k))
        × (length words.old < 12 → words.new ≡ words.old) }
{
    if words.len() < 12 {
        return;
    }
    match k {
        Command::Dump(_) | Command::Cancel | Command::PoolStatistics(_) => put_zeros(words),
        Command::Load(_) => {
            put_zeros(words);
            load_words(words, p, 11);
        }
        Command::SymbolValue(_) | Command::DumpSymbol(_) => name_words(words, p),
    }
}

fn words_with(p: &[u8], reading: Result<Telecommand, Refusal>) -> [u32; 12]
    ensures { result ≡ words_with p.now reading }
{
    let mut words = [0u32; 12];
    if let Ok(f) = reading {
        put_beside(&mut words, p, f.command);
    }
    words
}

// The fields of a command packet, with the words of a load or of a name beside them.
pub fn read_command(p: &[u8]) -> CommandRead
    ensures { result ≡ read_command p.now }
{
    let reading = reading_of(p);
    let words = words_with(p, reading);
    CommandRead { reading, words }
}
