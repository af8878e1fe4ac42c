// What C calls: each function of capi under its own name, with its clauses. The header is c/leatgarnet.h.
#![tactic(auto)]

ghost use Rattle.std.specs.Prelude.{◌≡◌, length};
ghost use Rattle.block.specs.Calls.{lg_start_up, lg_slot, lg_command};
ghost use Rattle.rules.specs.Results.{verdict_number};
ghost use Rattle.batches.specs.Batch.{lends, LeftAs, filled};
ghost use Rattle.lent_batch.specs.Batches.{lg_commands};
ghost use Rattle.whole_dump.specs.Check.{check_dump};
ghost use Rattle.capi.specs.Commands.{lg_write_command, lg_read_command, lg_read_packet};

use answers::ItemAnswer;

// START-UP

#[unsafe(no_mangle)]
pub extern "C" fn lg_start_up(table: &[u32], state: &mut [u32]) -> u32
    ensures { (result ≡ (lg_start_up table.now state.old).number) × (state.new ≡ (lg_start_up table.now state.old).state) }
{
    capi::lg_start_up(table, state)
}

// CALLS ON A STATE

#[unsafe(no_mangle)]
pub extern "C" fn lg_slot(
    state: &mut [u32],
    tick: u32,
    image: &[u32],
    buffer: &mut [u8],
    bytes: &mut u32,
) -> u32
    ensures { (result ≡ (lg_slot state.old tick image.now buffer.old).number) × (state.new ≡ (lg_slot state.old tick image.now buffer.old).state) × (buffer.new ≡ (lg_slot state.old tick image.now buffer.old).buffer) × (bytes.new ≡ (lg_slot state.old tick image.now buffer.old).bytes) }
{
    capi::lg_slot(state, tick, image, buffer, bytes)
}

#[unsafe(no_mangle)]
pub extern "C" fn lg_command(
    state: &mut [u32],
    packet: &[u8],
    symbols: &[u8],
    image: &mut [u32],
    reply: &mut [u8],
    bytes: &mut u32,
) -> u32
    ensures { (result ≡ (lg_command state.old (record { packet = packet.entry.now; symbols = symbols.now; image = image.old; reply = reply.old })).number) × (state.new ≡ (lg_command state.old (record { packet = packet.entry.now; symbols = symbols.now; image = image.old; reply = reply.old })).state) × (image.new ≡ (lg_command state.old (record { packet = packet.entry.now; symbols = symbols.now; image = image.old; reply = reply.old })).image) × (reply.new ≡ (lg_command state.old (record { packet = packet.entry.now; symbols = symbols.now; image = image.old; reply = reply.old })).buffer) × (bytes.new ≡ (lg_command state.old (record { packet = packet.entry.now; symbols = symbols.now; image = image.old; reply = reply.old })).bytes) }
{
    capi::lg_command(state, packet, symbols, image, reply, bytes)
}

#[unsafe(no_mangle)]
pub extern "C" fn lg_commands(
    state: &mut [u32],
    bytes: &[u8],
    starts: &[u32],
    lengths: &[u32],
    symbols: &[u8],
    image: &mut [u32],
    replies: &mut [u8],
    answers: &mut [ItemAnswer],
) -> u32
    ensures { (result ≡ verdict_number (lg_commands state.old (lends bytes.now starts.now lengths.now symbols.now image.old replies.old) (length answers.old)).verdict)
        × LeftAs (lg_commands state.old (lends bytes.now starts.now lengths.now symbols.now image.old replies.old) (length answers.old)) state.new image.new replies.new
        × (answers.new ≡ filled answers.old (lg_commands state.old (lends bytes.now starts.now lengths.now symbols.now image.old replies.old) (length answers.old)).left.answers) }
{
    capi::lg_commands(
        state, bytes, starts, lengths, symbols, image, replies, answers,
    )
}

// THE COMMAND WRITER

#[unsafe(no_mangle)]
pub extern "C" fn lg_write_command(command: &[u32], buffer: &mut [u8], bytes: &mut u32) -> u32
    ensures { (result ≡ (lg_write_command command.now buffer.old).number) × (buffer.new ≡ (lg_write_command command.now buffer.old).buffer) × (bytes.new ≡ (lg_write_command command.now buffer.old).bytes) }
{
    capi::lg_write_command(command, buffer, bytes)
}

// THE READERS

#[unsafe(no_mangle)]
pub extern "C" fn lg_read_command(packet: &[u8], command: &mut [u32]) -> u32
    ensures { (result ≡ (lg_read_command packet.now command.old).number) × (command.new ≡ (lg_read_command packet.now command.old).block) }
{
    capi::lg_read_command(packet, command)
}

#[unsafe(no_mangle)]
pub extern "C" fn lg_read_packet(packet: &[u8], fields: &mut [u32], bytes: &mut u32) -> u32
    ensures { (result ≡ (lg_read_packet packet.now fields.old).number) × (fields.new ≡ (lg_read_packet packet.now fields.old).block) × (bytes.new ≡ (lg_read_packet packet.now fields.old).bytes) }
{
    capi::lg_read_packet(packet, fields, bytes)
}

// THE CHECK OF A WHOLE DUMP

#[unsafe(no_mangle)]
pub extern "C" fn lg_check_dump(bytes: &[u8], lengths: &[u8]) -> u32
    ensures { result ≡ check_dump bytes.now lengths.now }
{
    capi::lg_check_dump(bytes, lengths)
}
