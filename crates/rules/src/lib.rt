// The types of the memory service, and paper 01's examples and demands as theorems over the definitions in specs/.
#![tactic(auto)]

ghost use Rattle.std.specs.Prelude.{◌≡◌};
ghost use Rattle.rules.specs.Results.{number, counted};
ghost use Rattle.rules.specs.Examples.{Examples};
ghost use Rattle.rules.specs.FurtherExamples.{FurtherExamples};
ghost use Rattle.rules.specs.NumberExamples.{NumberExamples};
ghost use Rattle.rules.specs.EdgeExamples.{EdgeExamples};
ghost use Rattle.rules.specs.BoundExamples.{BoundExamples};
ghost use Rattle.rules.specs.SymbolExamples.{SymbolExamples};
ghost use Rattle.rules.specs.Demand1.{Demand1};
ghost use Rattle.rules.specs.Demand2.{Demand2};
ghost use Rattle.rules.specs.Demand3.{Demand3};
ghost use Rattle.rules.specs.ReadBack.{ReadBack};
ghost use Rattle.rules.specs.PlainBytes.{PlainBytes};
ghost use Rattle.rules.specs.PlainWords.{PlainWords};
ghost use Rattle.rules.specs.OneFault.{OneFault};
ghost use Rattle.rules.specs.Silence.{Silence};
ghost use Rattle.rules.specs.LoadBack.{LoadBack};
ghost use Rattle.rules.specs.Replies.{Replies};
ghost use Rattle.rules.specs.PoolsApart.{PoolsApart};

use std::error::Error;
use std::fmt;

// A byte address.
#[derive(Clone, Copy)]
pub struct Address(pub u32);

// A word's index in the image. Only the region lookup makes one from an Address.
#[derive(Clone, Copy)]
pub struct WordIndex(pub usize);

// Words from a byte address on.
#[derive(Clone, Copy)]
pub struct Range {
    pub start: Address,
    pub words: u32,
}

// A region of the table, with its load right and its dump right.
#[derive(Clone, Copy)]
pub struct Region {
    pub range: Range,
    pub load: bool,
    pub dump: bool,
}

// A dump under way: its transaction number, what was requested, and how many words were sent.
#[derive(Clone, Copy)]
pub struct ActiveDump {
    pub transaction: u16,
    pub range: Range,
    pub sent: u32,
}

// What a dump place does. Idle is first: it is what an unset element of an array holds. Kept: an Option would lose the two names that the scope gives.
#[derive(Clone, Copy)]
pub enum Context {
    Idle,
    Busy(ActiveDump),
}

// One of the four dump places.
#[derive(Clone, Copy)]
pub struct Place {
    pub context: Context,
}

// The state of the service, handed in and returned by value. Of the sixteen regions the first `count` are in use.
// Kept: an array and a count, in fixed memory.
// `last` is the place served last; `replies`, `values` and `packets` are the packet counts of APID 785, 786 and 788.
#[derive(Clone, Copy)]
pub struct State {
    pub regions: [Region; 16],
    pub count: usize,
    pub pools: [Range; 2],
    pub unit: u8,
    pub places: [Place; 4],
    pub last: u8,
    pub replies: u16,
    pub values: u16,
    pub packets: u16,
    pub accepted: u16,
    pub refused: u16,
}

// What every packet carries: sequence count, unit and transaction.
#[derive(Clone, Copy)]
pub struct Header {
    pub count: u16,
    pub unit: u8,
    pub transaction: u16,
}

// The size in words and the address of a dump or a load, as their packets carry them.
#[derive(Clone, Copy)]
pub struct Request {
    pub size: u16,
    pub address: Address,
}

// What a dump by name asks for: how many bytes its symbol's name has, the offset in bytes from the symbol's value (two's complement), and
// the size in words.
#[derive(Clone, Copy)]
pub struct SymbolRequest {
    pub name: u8,
    pub offset: u32,
    pub size: u16,
}

// The commands. Twelve words stand beside a command, since an enum holds no array: the eleven data words of a load, or the 48 bytes of a
// symbol's name, of which the command holds the size.
#[derive(Clone, Copy)]
pub enum Command {
    Dump(Request),
    Cancel,
    Load(Request),
    PoolStatistics(u16),
    SymbolValue(u8),
    DumpSymbol(SymbolRequest),
}

// What a command asks the service to do, once its symbol is resolved: a dump by name is the dump of a range, and the value of a symbol is a
// number to tell.
#[derive(Clone, Copy)]
pub enum Task {
    Nothing,
    DumpRange(Range),
    CancelDump,
    LoadRange(Range),
    CountPool(u16),
    TellValue(u32),
}

// Why a call is refused: one variant for each number from 1 to 19, in that order.
#[derive(Clone, Copy, Debug, PartialEq, Eq)]
pub enum Refusal {
    BadState,
    ImageLength,
    BufferLength,
    Malformed,
    OtherApid,
    UnknownCode,
    PacketLength,
    OtherUnit,
    BadField,
    OutsideRegions,
    NoRight,
    TransactionBusy,
    PlacesBusy,
    NotBusy,
    PoolDamaged,
    NothingToSend,
    BadTable,
    UnknownSymbol,
    RunsOut,
}

// The paper's number of a refusal.
impl From<Refusal> for u32 {
    ghost from_gives = { λ r n. n ≡ number r };

    fn from(r: Refusal) -> u32 {
        match r {
            Refusal::BadState => 1,
            Refusal::ImageLength => 2,
            Refusal::BufferLength => 3,
            Refusal::Malformed => 4,
            Refusal::OtherApid => 5,
            Refusal::UnknownCode => 6,
            Refusal::PacketLength => 7,
            Refusal::OtherUnit => 8,
            Refusal::BadField => 9,
            Refusal::OutsideRegions => 10,
            Refusal::NoRight => 11,
            Refusal::TransactionBusy => 12,
            Refusal::PlacesBusy => 13,
            Refusal::NotBusy => 14,
            Refusal::PoolDamaged => 15,
            Refusal::NothingToSend => 16,
            Refusal::BadTable => 17,
            Refusal::UnknownSymbol => 18,
            Refusal::RunsOut => 19,
        }
    }
}

// What a refusal means, in a few words.
impl fmt::Display for Refusal {
    fn fmt<W: fmt::Write>(&self, f: &mut fmt::Formatter<W>) -> fmt::Result {
        f.write_str(match self {
            Refusal::BadState => "state not good",
            Refusal::ImageLength => "image length differs from the table's sum",
            Refusal::BufferLength => "lent output buffer too short",
            Refusal::Malformed => "malformed packet",
            Refusal::OtherApid => "another APID",
            Refusal::UnknownCode => "unknown function code",
            Refusal::PacketLength => "packet length wrong for its code",
            Refusal::OtherUnit => "another unit",
            Refusal::BadField => "field out of its bounds",
            Refusal::OutsideRegions => "first word in no region, or no such pool",
            Refusal::NoRight => "region lacks the right",
            Refusal::TransactionBusy => "transaction number already busy",
            Refusal::PlacesBusy => "four places busy",
            Refusal::NotBusy => "no busy dump has that number",
            Refusal::PoolDamaged => "pool blocks damaged",
            Refusal::NothingToSend => "no dump is busy",
            Refusal::BadTable => "table, pools or unit break a rule, or no symbol table",
            Refusal::UnknownSymbol => "no such symbol",
            Refusal::RunsOut => "range starts inside a region and runs out of it",
        })
    }
}

impl Error for Refusal {}

impl Refusal {
    // Whether a command that is refused so adds one to the refused count.
    pub fn is_counted(self) -> bool
        ensures { result ≡ counted self }
    {
        !matches!(
            self,
            Refusal::BadState
                | Refusal::ImageLength
                | Refusal::BufferLength
                | Refusal::OtherApid
                | Refusal::OtherUnit
                | Refusal::NothingToSend
        )
    }
}

// What start-up gives. Kept: on a refusal too there is a state beside it, which a Result would drop.
#[derive(Clone, Copy)]
pub struct Started {
    pub verdict: Result<(), Refusal>,
    pub state: State,
}

// How many bytes a call wrote to the buffer that it was lent.
#[derive(Clone, Copy)]
pub struct Written {
    pub length: usize,
}

// What a command call and a slot call return beside the image and the buffer that they leave. Kept: a refusal too leaves a state.
#[derive(Clone, Copy)]
pub struct Returned {
    pub answer: Result<Written, Refusal>,
    pub state: State,
}

// A command packet's fields. The words of a load or of a name stand beside it.
#[derive(Clone, Copy)]
pub struct Telecommand {
    pub header: Header,
    pub command: Command,
}

// What the command reader gives: its answer, and twelve words beside it: a load's eleven and 0, a symbol's name, or zeros.
// Kept: on a refusal too the words are there, as C gets them.
#[derive(Clone, Copy)]
pub struct CommandRead {
    pub reading: Result<Telecommand, Refusal>,
    pub words: [u32; 12],
}

// A dump packet's fields: what was requested, the address of this packet's data, and how many words it has.
#[derive(Clone, Copy)]
pub struct DumpPacket {
    pub header: Header,
    pub tick: u32,
    pub range: Range,
    pub here: Address,
    pub words: u32,
}

// The theorems. These functions do nothing: the contract of each is what is proved.

// E1 to E12.
pub fn checked_examples()
    ensures { Examples }
{}

// Cases that E1 to E12 leave out.
pub fn further_cases()
    ensures { FurtherExamples }
{}

// Every number that those leave out, on literal bytes, with the refused count.
pub fn number_examples()
    ensures { NumberExamples }
{}

// Where rules meet: two faults at once, what stays of lent buffers and states, what the paper allows in so many words.
pub fn edge_examples()
    ensures { EdgeExamples }
{}

// Start-up, good states, counts and places at each of their bounds and one past it.
pub fn bound_examples()
    ensures { BoundExamples }
{}

// Codes 8 and 9: symbols, their values, and dumps by name.
pub fn symbol_examples()
    ensures { SymbolExamples }
{}

// Safe, exact refusals.
pub fn demand_1()
    ensures { Demand1 }
{}

// Exact effect.
pub fn demand_2()
    ensures { Demand2 }
{}

// No dump waits for ever.
pub fn demand_3()
    ensures { Demand3 }
{}

// Packets are written and read back as laid down.
pub fn packets_read_back()
    ensures { ReadBack }
{}

// What the shared definitions say of a packet's bytes, by their offset.
pub fn plain_bytes()
    ensures { PlainBytes }
{}

// What the shared definitions say of tables, places and the image's words, by their index.
pub fn plain_words()
    ensures { PlainWords }
{}

// After a cancel no slot writes a packet with its number until a dump with it is accepted again.
pub fn silence_after_a_cancel()
    ensures { Silence }
{}

// What a load wrote comes back in the packet of a dump, byte for byte.
pub fn load_comes_back()
    ensures { LoadBack }
{}

// An accepted packet with one thing changed gets exactly the number of that thing.
pub fn one_fault()
    ensures { OneFault }
{}

// The words of the two replies, from the words and bytes that were lent.
pub fn replies_from_the_lent()
    ensures { Replies }
{}

// Each pool is judged as if the other were none.
pub fn pools_apart()
    ensures { PoolsApart }
{}
