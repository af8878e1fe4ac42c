// The number and the length of an answer, and both handed over to C.
#![tactic(auto)]

ghost use Rattle.std.specs.Prelude.{◌≡◌, ◌%◌};
ghost use Rattle.rules.specs.Results.{number_of, answer_length};

use rules::{Refusal, Written};

// The paper's number of what a call answers: 0, or that of its refusal.
pub fn number_of<T>(a: &Result<T, Refusal>) -> u32
    ensures { result ≡ number_of a.now }
{
    match a {
        Ok(_) => 0,
        Err(r) => u32::from(*r),
    }
}

// How many bytes the call wrote; 0 for a refusal.
pub fn answer_length(a: Result<Written, Refusal>) -> usize
    ensures { result ≡ answer_length a }
{
    a.map_or(0, |w| w.length)
}

// Hands an answer over to C: the bytes written, and the number.
pub fn hand_over(a: Result<Written, Refusal>, bytes: &mut u32) -> u32
    ensures { (result ≡ number_of a) × (bytes.new ≡ answer_length a % 4294967296) }
{
    *bytes = (answer_length(a) % 4294967296) as u32;
    number_of(&a)
}
