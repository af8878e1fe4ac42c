// A pass of the memory service that a person can follow: start-up, a dump, a load, pool statistics, slots until the dump is whole,
// commands that are refused, a symbol's value and a dump by its name. Each packet is printed in hex with its fields named, each answer with what its number means.
#![tactic(auto)]

use command_writer::write_command;
use report::{front, show_answer, show_command, show_result};
use results::answer_length;
use rules::{Address, Command, Header, Range, Region, Request, Returned, State, SymbolRequest};
use std::io;

// The unit of the service and of each command.
const UNIT: u8 = 2;

// The words of the first region.
const FIRST: Range = Range {
    start: Address(0x1000),
    words: 1017,
};

// The words of the second region, which are pool 1.
const POOL: Range = Range {
    start: Address(0x8000),
    words: 6,
};

const NO_POOL: Range = Range {
    start: Address(0),
    words: 0,
};

fn region(range: Range) -> Region {
    Region {
        range,
        load: true,
        dump: true,
    }
}

// Two regions with both rights. The other entries are not in use.
fn table() -> [Region; 16] {
    let mut regions = [region(FIRST); 16];
    regions[1] = region(POOL);
    regions
}

fn start(rt: &impl Print) -> io::Result<State> {
    print!(rt;
        "start-up: unit {UNIT}, {} words at {:08x}, {} words at {:08x}, which are pool 1",
        FIRST.words, FIRST.start.0, POOL.words, POOL.start.0,
    )?;
    let started = state::start_up(table(), 2, [NO_POOL, POOL], UNIT);
    show_result(rt, &started.verdict)?;
    Ok(started.state)
}

// The first region's words count up from 11111111 hex; the pool has a used block of two words and a free one of four.
fn memory() -> [u32; 1023] {
    let mut image = [0; 1023];
    for (word, n) in image[..1017].iter_mut().zip(0x1111_1111..) {
        *word = n;
    }
    image[1017..].copy_from_slice(&[0x8000_0002, 0, 4, 0, 0, 0]);
    image
}

// The symbols "HEAT", at the first region's start, and "H", its alias. A record is its kind, its name's length, two zeros, the name in 48 bytes, and a number.
fn symbols() -> [u8; 112] {
    let mut table = [0; 112];
    table[..8].copy_from_slice(b"\x00\x04\x00\x00HEAT");
    table[52..56].copy_from_slice(&FIRST.start.0.to_be_bytes());
    table[56..61].copy_from_slice(b"\x01\x01\x00\x00H");
    table
}

// What a step calls: the slot call, or the command call with the packet of a command. `word` is the first word beside the command: the load's,
// or the first four bytes of a name.
#[derive(Clone, Copy)]
enum Step {
    Slot,
    Send {
        header: Header,
        command: Command,
        word: u32,
    },
}

fn send(count: u16, transaction: u16, command: Command, word: u32) -> Step {
    let header = Header {
        count,
        unit: UNIT,
        transaction,
    };
    Step::Send {
        header,
        command,
        word,
    }
}

fn request(size: u16, address: u32) -> Request {
    Request {
        size,
        address: Address(address),
    }
}

// Three commands, three slots, four commands, a slot, a command. The second dump runs out of its region, the dump that is cancelled is over, and
// the last dump starts in no region.
fn steps() -> [Step; 12] {
    let named = SymbolRequest {
        name: 4,
        offset: 0xfe0,
        size: 1,
    };
    let heat = u32::from_be_bytes(*b"HEAT");
    [
        send(0, 0x123, Command::Dump(request(1017, 0x1000)), 0),
        send(1, 0xabc, Command::Load(request(1, 0x1fe0)), 0x0102_0304),
        send(2, 0x124, Command::PoolStatistics(1), 0),
        Step::Slot,
        Step::Slot,
        Step::Slot,
        send(3, 0x125, Command::Dump(request(2, 0x1fe0)), 0),
        send(4, 0x123, Command::Cancel, 0),
        send(5, 0x126, Command::SymbolValue(1), heat),
        send(6, 0x127, Command::DumpSymbol(named), heat),
        Step::Slot,
        send(7, 0x128, Command::Dump(request(2, 0x1fe4)), 0),
    ]
}

// Shows what a step calls, and calls it.
fn turn(
    rt: &impl Print,
    s: State,
    step: Step,
    tick: u32,
    image: &mut [u32; 1023],
    buffer: &mut [u8; 4092],
) -> io::Result<Returned> {
    match step {
        Step::Slot => {
            print!(rt; "\nslot, tick {tick}")?;
            Ok(slot::slot(s, tick, image, buffer))
        }
        Step::Send {
            header,
            command,
            word,
        } => {
            let mut words = [0; 12];
            words[0] = word;
            let mut packet = [0; 68];
            let n = answer_length(write_command(header, command, &words, &mut packet));
            let packet = front(&packet, n);
            show_command(rt, packet)?;
            Ok(command::command(s, packet, &symbols(), image, buffer))
        }
    }
}

// The twelve steps, at ticks from 2 on.
fn pass(rt: &impl Print, image: &mut [u32; 1023], buffer: &mut [u8; 4092]) -> io::Result<()> {
    let mut s = start(rt)?;
    for (tick, step) in (2..).zip(steps()) {
        let done = turn(rt, s, step, tick, image, buffer)?;
        show_answer(rt, done.answer, buffer)?;
        s = done.state;
    }
    println!(rt; "\naccepted {}, refused {}", s.accepted, s.refused)
}

fn main(rt: HostRuntime) -> io::Result<()> {
    let mut image = memory();
    let mut buffer = [0u8; 4092];
    pass(&rt, &mut image, &mut buffer)
}
