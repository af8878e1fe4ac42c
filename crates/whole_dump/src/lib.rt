// The ground desk's check of a whole dump (paper 02, A6): its definition and the theorems about it. The code is in `dump_check`.
#![tactic(auto)]

ghost use Rattle.whole_dump.specs.Examples.{CheckExamples};
ghost use Rattle.whole_dump.specs.FromCalls.{OwnDumpsPass, OwnDumpsPassWithBatches};
ghost use Rattle.whole_dump.specs.HeadersAlone.{HeadersAlone};
ghost use Rattle.whole_dump.specs.Numbers.{Numbers};
ghost use Rattle.whole_dump.specs.OverPackets.{OverPackets};
ghost use Rattle.whole_dump.specs.Whole.{ZeroMeans};

// The theorems. These functions do nothing: the contract of each is what is proved.

// Each number exactly in its case.
pub fn number_when()
    ensures { Numbers }
{}

// 0: in some order, one packet for each piece of one dump.
pub fn zero_means()
    ensures { ZeroMeans }
{}

// The numbers over packets, by the fields that the reader gives.
pub fn over_packets()
    ensures { OverPackets }
{}

// The packets of a dump from any list of calls, in which a batch may stand, pass in any order.
pub fn own_dumps_pass()
    ensures { OwnDumpsPass × OwnDumpsPassWithBatches }
{}

// Sequence counts, ticks and data do not decide.
pub fn headers_alone()
    ensures { HeadersAlone }
{}

// Checks on literal bytes.
pub fn check_examples()
    ensures { CheckExamples }
{}
