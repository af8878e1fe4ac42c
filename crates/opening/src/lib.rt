// Numbers 1 to 3 of a call: a pure function on facts, for the decisions of both calls.
#![tactic(auto)]

ghost use Rattle.std.specs.Prelude.{◌≡◌};
ghost use Rattle.opening.specs.Opening.{lent_by};

use rules::Refusal;

// Numbers 1 to 3 of a call that needs `size` bytes of its buffer. `words` is the length of a good state's image, and 0 where the state is not good.
pub fn lent_verdict(words: usize, image: usize, size: usize, buffer: usize) -> Result<(), Refusal>
    ensures { result ≡ lent_by words image size buffer }
{
    if words == 0 {
        return Err(Refusal::BadState);
    }
    if image != words {
        return Err(Refusal::ImageLength);
    }
    if buffer < size {
        return Err(Refusal::BufferLength);
    }
    Ok(())
}
