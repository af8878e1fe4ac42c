// The symbol table lent to a command call: whether bytes are one, and what a name resolves to in it.
#![tactic(auto)]

ghost use Rattle.std.specs.Prelude.{◌≡◌, Bool, Some, true, not, List, ℕ, ◌<◌, length};
ghost use Rattle.std.specs.List.{All, concat, list_all, list_any};
ghost use Rattle.wire.specs.Bytes.{AreBytes};
ghost use Rattle.symbols.specs.Table.{same_name, name_at, number_at, padded, symbol_table, value_at};
ghost use Rattle.symbols.specs.Answers.{found_in, symbol_of, SymbolNumbers};
ghost use Rattle.symbols.specs.Record.{HoldsName, own_rules};
ghost use Rattle.symbols.specs.RecordByRecord.{RecordByRecord};
ghost use Rattle.symbols.specs.Words.{word, name_words, has_first, has_words};

use wire::{read16, read32, read64};

// Why a name has no value: the table is none, or has no such name.
#[derive(Clone, Copy)]
pub enum Unresolved {
    NoTable,
    Unknown,
}

// A symbol, as the bytes of a record. They are a table of one record, so that what holds of a symbol is said of record 0.
type Symbol = [u8; 56];

// The name in a symbol.
fn name_of(symbol: &Symbol) -> &[u8]
    requires { HoldsName symbol.now }
    ensures { result.now ≡ name_at symbol.now 0 }
{
    &symbol[4..4 + usize::from(symbol[1])]
}

// The number in a symbol: the value, or of an alias the symbol that it names.
fn number_of(symbol: &Symbol) -> u32
    ensures { result ≡ number_at symbol.now 0 }
{
    read32(symbol, 52)
}

// THE RULES

fn is_padded(symbol: &Symbol) -> bool
    ensures { result ≡ padded symbol.now 0 }
{
    let n = usize::from(symbol[1]);
    let mut padded = true;
    for (j, byte) in symbol[4..52].iter().enumerate() {
        padded &= (j < n) | (*byte == 0);
    }
    padded
}

// What is asked by itself of a symbol that is record i.
fn is_symbol(symbol: &Symbol, i: usize) -> bool
    ensures { result ≡ own_rules symbol.now i }
{
    let kind = symbol[0];
    let n = symbol[1];
    (kind <= 1)
        & (1 <= n)
        & (n <= 48)
        & (read16(symbol, 2) == 0)
        & is_padded(symbol)
        & ((kind == 0) | ((number_of(symbol) as usize) < i))
}

// The length byte of a symbol, and its name field as six numbers.
#[derive(Clone, Copy)]
struct NameWords {
    n: u8,
    words: [u64; 6],
}

// Word k of the name field: eight bytes as one number.
#[tactic(auto, unfolding(crate::specs::Words::word))]
fn word(symbol: &Symbol, k: usize) -> u64
    requires { k < 6 }
    ensures { result ≡ word symbol.now k }
{
    read64(symbol, 4 + 8 * k)
}

fn words_of(symbol: &Symbol) -> NameWords
    ensures { result ≡ name_words symbol.now }
{
    NameWords {
        n: symbol[1],
        words: [
            word(symbol, 0),
            word(symbol, 1),
            word(symbol, 2),
            word(symbol, 3),
            word(symbol, 4),
            word(symbol, 5),
        ],
    }
}

// Whether a symbol has these. Kept: the six are compared with no branch between them, which a derived `==` would have.
fn has_words(symbol: &Symbol, w: NameWords) -> bool
    ensures { result ≡ has_words w symbol.now }
{
    if word(symbol, 0) != w.words[0] {
        return false;
    }
    let mut same = true;
    for (k, other) in w.words.iter().enumerate() {
        same &= word(symbol, k) == *other;
    }
    same & (symbol[1] == w.n)
}

// Whether some symbol has this first word.
fn any_first(symbols: &[Symbol], first: u64) -> bool
    ensures { result ≡ list_any (has_first first) symbols.now }
{
    symbols.iter().any(|symbol| word(symbol, 0) == first)
}

// Whether some symbol has these words.
fn any_words(symbols: &[Symbol], w: NameWords) -> bool
    ensures { result ≡ list_any (has_words w) symbols.now }
{
    symbols.iter().any(|symbol| has_words(symbol, w))
}

// Whether no symbol before this one has its name. Names are padded with zeros, so the whole fields are compared, eight bytes at a time,
// and first the first eight bytes alone, in which most names differ.
fn is_new(symbol: &Symbol, before: &[Symbol]) -> bool
    requires { HoldsName symbol.now × All HoldsName before.now × All AreBytes before.now }
    ensures { result ≡ list_all (λ r. not (same_name (name_at symbol.now 0) (name_at r 0))) before.now }
{
    let w = words_of(symbol);
    !any_first(before, w.words[0]) || !any_words(before, w)
}

fn is_table(t: &[u8]) -> bool
    ensures { result ≡ symbol_table t.now }
{
    let (symbols, rest) = t.as_chunks::<56>();
    if !rest.is_empty() {
        return false;
    }
    if 256 < symbols.len() {
        return false;
    }
    for (i, symbol) in symbols.iter().enumerate() {
        if !is_symbol(symbol, i) {
            return false;
        }
        if !is_new(symbol, &symbols[..i]) {
            return false;
        }
    }
    true
}

// RESOLVING

// Whether a symbol has this name. The last byte is compared first, since names of one table tend to begin alike.
fn is_named(symbol: &Symbol, name: &[u8]) -> bool
    requires { HoldsName symbol.now }
    ensures { result ≡ same_name (name_at symbol.now 0) name.now }
{
    let own = name_of(symbol);
    if own.len() != name.len() {
        return false;
    }
    let last = name.len() - 1;
    if own[last] != name[last] {
        return false;
    }
    own == name
}

// The value of record i. An alias has the value of the lower-numbered symbol that it names.
fn value_at(symbols: &[Symbol], i: usize) -> u32
    requires { (symbol_table (concat symbols.now) ≡ true) × (i < length symbols.now) }
    ensures { result ≡ value_at (concat symbols.now) i }
{
    let symbol = &symbols[i];
    let number = number_of(symbol);
    if symbol[0] == 0 {
        return number;
    }
    value_at(symbols, number as usize)
}

fn resolve(symbols: &[Symbol], name: &[u8]) -> Result<u32, Unresolved>
    requires { symbol_table (concat symbols.now) ≡ true }
    ensures { result ≡ found_in (concat symbols.now) name.now }
{
    for (i, symbol) in symbols.iter().enumerate() {
        if is_named(symbol, name) {
            return Ok(value_at(symbols, i));
        }
    }
    Err(Unresolved::Unknown)
}

// THE LENT TABLE

// The bytes lent as a symbol table, and whether they are one, if that was tested.
#[derive(Clone, Copy)]
pub struct Symbols<'a> {
    bytes: &'a [u8],
    known: Option<bool>,
    ghost so: { (b : Bool) → known ≡ Some b → b ≡ symbol_table bytes.now },
}

impl<'a> Symbols<'a> {
    pub fn untested(bytes: &'a [u8]) -> Symbols<'a>
        ensures { result.bytes.now ≡ bytes.now }
    {
        Symbols { bytes, known: None }
    }

    pub fn tested(bytes: &'a [u8]) -> Symbols<'a>
        ensures { (result.bytes.now ≡ bytes.now) × (result.known ≡ Some (symbol_table bytes.now)) }
    {
        let known = Some(is_table(bytes));
        Symbols { bytes, known }
    }

    // Whether the bytes are a table.
    pub fn is_table(&self) -> bool
        ensures { result ≡ symbol_table self.now.bytes.now }
    {
        match self.known {
            Some(known) => known,
            None => is_table(self.bytes),
        }
    }

    // What a name resolves to in the table, if it is one.
    pub fn resolve(&self, name: &[u8]) -> Result<u32, Unresolved>
        ensures { result ≡ symbol_of self.now.bytes.now name.now }
    {
        if !self.is_table() {
            return Err(Unresolved::NoTable);
        }
        let (symbols, _) = self.bytes.as_chunks::<56>();
        resolve(symbols, name)
    }
}

// A table record by record. This function does nothing: its contract is what is proved.
pub fn record_by_record()
    ensures { RecordByRecord }
{}

// The number of a name's lookup, exactly in its case. This function does nothing: its contract is what is proved.
pub fn numbers_of_symbols()
    ensures { (t name : List ℕ) → SymbolNumbers t name (symbol_of t name) }
{}
