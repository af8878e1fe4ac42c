// Lists, indices and tests: definitions in specs/ and their laws in proofs/. There is no code here.
#![tactic(auto)]

ghost use Rattle.lists.specs.ByIndex.{ByIndex};

// The definitions index by index. This function does nothing: its contract is what is proved.
pub fn by_index()
    ensures { ByIndex }
{}
