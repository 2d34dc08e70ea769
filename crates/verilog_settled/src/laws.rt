//! The laws, each the contract of a function without code.
ghost use Rattle.verilog_settled.specs.Laws.{ValuesAreLocal, SelfValuesAreLocal, AssignedValuesAreLocal, CopiedBitsAreLocal, CopiedBitsAreThere, WrittenBitsAreLocal, AssignedBitsAreLocal, RunBitsAreLocal, BlockBitsAreLocal};

/// An expression has one value under two valuations, or they differ at a bit that it reads: in a context, by itself, and where it is
/// assigned.
pub fn a_value_rests_on_what_is_read()
    ensures in_context { ValuesAreLocal }
    ensures alone { SelfValuesAreLocal }
    ensures assigned { AssignedValuesAreLocal }
{}

/// Each bit of a plain right side is the same under two valuations, or they differ at the bit that is copied to it; and where a bit
/// is copied, the value has it.
pub fn a_plain_bit_rests_on_the_bit_that_is_copied()
    ensures one { CopiedBitsAreLocal }
    ensures there { CopiedBitsAreThere }
{}

/// After numbers were written to a target each of its bits is the same, or one of the causes is found that the definitions name.
pub fn a_written_bit_has_one_of_its_causes()
    ensures { WrittenBitsAreLocal }
{}

/// A bit that an assignment or a connection drives is the same under two valuations, or they differ at a bit that gives it its value.
pub fn an_assigned_bit_rests_on_what_gives_it()
    ensures { AssignedBitsAreLocal }
{}

/// A bit after a run of a statement is the same under two valuations, or they differ at a bit on which it depends; and so it is where
/// runs of a block give both valuations back.
pub fn a_bit_of_a_block_rests_on_its_dependences()
    ensures after { RunBitsAreLocal }
    ensures given_back { BlockBitsAreLocal }
{}
