// The answer record of an item of a batch, and a lent list of such records.
#![tactic(auto)]

ghost use Rattle.std.specs.Prelude.{◌≡◌, ◌≤◌, min, length, get_or};
ghost use Rattle.answers.specs.Records.{answers_of, record_at, put_records};

// What an item got: its number, and the length of its reply.
#[repr(C)]
#[derive(Clone, Copy)]
pub struct ItemAnswer {
    pub number: u32,
    pub length: u32,
}

// The answers of up to 64 items: the first `filled` numbers and lengths. Kept: arrays and a count, since there is no heap and C gets bytes.
#[derive(Clone, Copy)]
pub struct Answered {
    pub number: u32,
    pub numbers: [u8; 64],
    pub lengths: [u8; 64],
    pub filled: usize,
}

// Byte i; past the end, zero.
fn entry(bytes: &[u8], i: usize) -> u32
    ensures { result ≡ get_or bytes.now i 0 }
{
    u32::from(bytes.get(i).copied().unwrap_or(0))
}

// Record i of these numbers and lengths; past their end, zeros.
fn record_at(numbers: &[u8], lengths: &[u8], i: usize) -> ItemAnswer
    ensures { result ≡ record_at (answers_of numbers.now lengths.now) i }
{
    ItemAnswer {
        number: entry(numbers, i),
        length: entry(lengths, i),
    }
}

// The number of the whole.
pub fn number_of(a: Answered) -> u32
    ensures { result ≡ a.number }
{
    a.number
}

// How many records are written: what is filled, but no more than there is room for.
pub fn written(a: Answered, room: usize) -> usize
    ensures { result ≡ min a.filled room }
{
    a.filled.min(room)
}

// The first records of a lent list. Kept: the two lists as values of their own, since a batch then has them once on its stack, and not in `a` too.
pub fn put_records(answers: &mut [ItemAnswer], a: Answered)
    ensures { answers.new ≡ put_records answers.old a (min a.filled (length answers.old)) }
{
    let numbers = a.numbers;
    let lengths = a.lengths;
    for i in 0..written(a, answers.len()) {
        answers[i] = record_at(&numbers, &lengths, i);
    }
}
