// Start-up in a block of the caller's memory, with the table in another, and the good test on words of any length. What a call asks of the state's block is in state.
// Kept beside these of a State: C lends words.
#![tactic(auto)]

ghost use Rattle.std.specs.Prelude.{◌≡◌, ◌≤◌, length};
ghost use Rattle.rules.specs.Results.{verdict_number};
ghost use Rattle.rules.specs.States.{no_state};
ghost use Rattle.block.specs.Blocks.{word, block_of};
ghost use Rattle.block.specs.Calls.{good_words, lg_start_up};
ghost use Rattle.lent_state.specs.Tests.{good_table};
ghost use Rattle.lent_state.specs.Writing.{table_written};

use block::{put_run, range_in, set_word, word_at};
use lent_regions::TableWords;
use rules::Refusal;
use state::{Store, start_words};

// The words of the image of a block that is a good state, else 0, as for words of another length.
pub fn good_words(b: &[u32]) -> usize
    ensures { result ≡ good_words b.now }
{
    match b.as_array::<80>() {
        Some(block) => block.good_words(),
        None => 0,
    }
}

// Whether a block of 54 words is a table that start-up takes.
fn table_good(t: &[u32]) -> bool
    requires { length t.now ≡ 54 }
    ensures { result ≡ good_table t.now }
{
    let unit = t[0];
    let n = t[1] as usize;
    let table = TableWords::new(&t[6..54]);
    let pools = [range_in(t, 2), range_in(t, 4)];
    if start_words(&table, n, pools, (unit % 256) as u8) == 0 {
        return false;
    }
    (unit <= 255) & table.rights_bounds(n)
}

// The state of zero regions.
fn put_none(b: &mut [u32])
    requires { length b.old ≡ 80 }
    ensures { b.new ≡ block_of no_state }
{
    b.fill(0);
    b[74] = 3;
}

// The regions in use, the pools and the unit of a table.
fn put_table(t: &[u32], b: &mut [u32])
    requires { (length t.now ≡ 54) × (length b.old ≡ 80) × (word t.now 1 ≤ 16) }
    ensures { b.new ≡ table_written t.now b.old }
{
    let n = word_at(t, 1);
    let unit = word_at(t, 0);
    let end = 6 + 3 * n as usize;
    set_word(b, 0, n);
    put_run(b, 1, &t[6..end]);
    put_run(b, 49, &t[2..6]);
    set_word(b, 53, unit);
}

// Start-up with the table in a block: the state's block, and 17 for a table that breaks a rule or has another length. To a state block of another
// length nothing is written.
pub fn start_up(t: &[u32], b: &mut [u32]) -> Result<(), Refusal>
    ensures { (verdict_number result ≡ (lg_start_up t.now b.old).number) × (b.new ≡ (lg_start_up t.now b.old).state) }
{
    if b.len() != 80 {
        return Err(Refusal::BadTable);
    }
    put_none(b);
    if t.len() != 54 {
        return Err(Refusal::BadTable);
    }
    if !table_good(t) {
        return Err(Refusal::BadTable);
    }
    put_table(t, b);
    Ok(())
}
