// The C interface: the calls of the service over blocks of words that a C caller lends. capi_c exports them; the header is c/leatgarnet.h.
#![tactic(auto)]

ghost use Rattle.std.specs.Prelude.{◌≡◌, length};
ghost use Rattle.block.specs.Calls.{lg_start_up, lg_slot, lg_command};
ghost use Rattle.rules.specs.Results.{verdict_number};
ghost use Rattle.batches.specs.Batch.{lends, LeftAs, filled};
ghost use Rattle.lent_batch.specs.Batches.{lg_commands};
ghost use Rattle.whole_dump.specs.Check.{check_dump};
ghost use Rattle.capi.specs.Commands.{lg_write_command, lg_read_command, lg_read_packet};

use answers::{ItemAnswer, put_records};
use block::put_run;
use command_reader::{put_beside, reading_of};
use command_writer::write_packet;
use dump_check::check_dump;
use ground_blocks::{command_in, field_words, head_words, header_in, tail_words};
use lent_batch::answered;
use lent_command::command;
use lent_slot::slot;
use lent_state::start_up;
use packet_reader::read_packet;
use results::{hand_over, number_of};

// START-UP

pub fn lg_start_up(table: &[u32], state: &mut [u32]) -> u32
    ensures { (result ≡ (lg_start_up table.now state.old).number) × (state.new ≡ (lg_start_up table.now state.old).state) }
{
    number_of(&start_up(table, state))
}

// CALLS ON A STATE

pub fn lg_slot(
    state: &mut [u32],
    tick: u32,
    image: &[u32],
    buffer: &mut [u8],
    bytes: &mut u32,
) -> u32
    ensures { (result ≡ (lg_slot state.old tick image.now buffer.old).number) × (state.new ≡ (lg_slot state.old tick image.now buffer.old).state) × (buffer.new ≡ (lg_slot state.old tick image.now buffer.old).buffer) × (bytes.new ≡ (lg_slot state.old tick image.now buffer.old).bytes) }
{
    hand_over(slot(state, tick, image, buffer), bytes)
}

pub fn lg_command(
    state: &mut [u32],
    packet: &[u8],
    symbols: &[u8],
    image: &mut [u32],
    reply: &mut [u8],
    bytes: &mut u32,
) -> u32
    ensures { (result ≡ (lg_command state.old (record { packet = packet.entry.now; symbols = symbols.now; image = image.old; reply = reply.old })).number) × (state.new ≡ (lg_command state.old (record { packet = packet.entry.now; symbols = symbols.now; image = image.old; reply = reply.old })).state) × (image.new ≡ (lg_command state.old (record { packet = packet.entry.now; symbols = symbols.now; image = image.old; reply = reply.old })).image) × (reply.new ≡ (lg_command state.old (record { packet = packet.entry.now; symbols = symbols.now; image = image.old; reply = reply.old })).buffer) × (bytes.new ≡ (lg_command state.old (record { packet = packet.entry.now; symbols = symbols.now; image = image.old; reply = reply.old })).bytes) }
{
    hand_over(command(state, packet, symbols, image, reply), bytes)
}

pub fn lg_commands(
    state: &mut [u32],
    bytes: &[u8],
    starts: &[u32],
    lengths: &[u32],
    symbols: &[u8],
    image: &mut [u32],
    replies: &mut [u8],
    answers: &mut [ItemAnswer],
) -> u32
    ensures { (result ≡ verdict_number (lg_commands state.old (lends bytes.now starts.now lengths.now symbols.now image.old replies.old) (length answers.old)).verdict)
        × LeftAs (lg_commands state.old (lends bytes.now starts.now lengths.now symbols.now image.old replies.old) (length answers.old)) state.new image.new replies.new
        × (answers.new ≡ filled answers.old (lg_commands state.old (lends bytes.now starts.now lengths.now symbols.now image.old replies.old) (length answers.old)).left.answers) }
{
    let a = answered(
        state,
        bytes,
        starts,
        lengths,
        symbols,
        image,
        replies,
        answers.len(),
    );
    put_records(answers, a);
    a.number
}

// THE COMMAND WRITER

pub fn lg_write_command(command: &[u32], buffer: &mut [u8], bytes: &mut u32) -> u32
    ensures { (result ≡ (lg_write_command command.now buffer.old).number) × (buffer.new ≡ (lg_write_command command.now buffer.old).buffer) × (bytes.new ≡ (lg_write_command command.now buffer.old).bytes) }
{
    *bytes = 0;
    if command.len() != 21 {
        return 3;
    }
    let Some(k) = command_in(command) else {
        return 6;
    };
    let h = header_in(command);
    hand_over(write_packet(h, k, &command[7..19], buffer), bytes)
}

// THE READERS

pub fn lg_read_command(packet: &[u8], command: &mut [u32]) -> u32
    ensures { (result ≡ (lg_read_command packet.now command.old).number) × (command.new ≡ (lg_read_command packet.now command.old).block) }
{
    if command.len() != 21 {
        return 3;
    }
    match reading_of(packet) {
        Err(r) => u32::from(r),
        Ok(f) => {
            put_run(command, 0, &head_words(f));
            put_beside(&mut command[7..19], packet, f.command);
            put_run(command, 19, &tail_words(f.command));
            0
        }
    }
}

pub fn lg_read_packet(packet: &[u8], fields: &mut [u32], bytes: &mut u32) -> u32
    ensures { (result ≡ (lg_read_packet packet.now fields.old).number) × (fields.new ≡ (lg_read_packet packet.now fields.old).block) × (bytes.new ≡ (lg_read_packet packet.now fields.old).bytes) }
{
    *bytes = 0;
    if fields.len() != 8 {
        return 3;
    }
    match read_packet(packet) {
        Err(r) => u32::from(r),
        Ok(f) => {
            put_run(fields, 0, &field_words(f));
            *bytes = 4 * f.words;
            0
        }
    }
}

// THE CHECK OF A WHOLE DUMP

pub fn lg_check_dump(bytes: &[u8], lengths: &[u8]) -> u32
    ensures { result ≡ check_dump bytes.now lengths.now }
{
    check_dump(bytes, lengths)
}
