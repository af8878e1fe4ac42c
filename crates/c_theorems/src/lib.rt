// Theorems about the C interface. These functions do nothing: the contract of each is what is proved.
#![tactic(auto)]

ghost use Rattle.c_theorems.specs.BatchesFromC.{BatchesFromC};
ghost use Rattle.c_theorems.specs.Examples.{Examples};
ghost use Rattle.c_theorems.specs.FromC.{FromC};
ghost use Rattle.c_theorems.specs.GroundFromC.{GroundFromC};

// The layouts by example.
pub fn examples()
    ensures { Examples }
{}

// A call from C on a state's block is the call on the state, and start-up with a table's block is start-up with the table.
pub fn from_c()
    ensures { FromC }
{}

// The command writer and the two readers from C are those of the ground.
pub fn ground_from_c()
    ensures { GroundFromC }
{}

// A batch from C is the single calls from C in order, and on a state's block the batch on the state.
pub fn batches_from_c()
    ensures { BatchesFromC }
{}
