//! The laws, each the contract of a function without code.
ghost use Rattle.verilog_renamed.specs.Laws.{ExpressionsMeanTheSame, PartsDoMeanTheSame, TargetsNameTheSame, WritesChangeTheSame, UpdatesChangeTheSame, RunsDoTheSame, EdgesChangeTheSame, ConstantsAreTheSame, OtherNamesHaveNoBits, AssignedBitsAreTheSame, EquationsHoldTheSame, TargetsAreRenamed, ConstantTargetsAreTheSame, ReadBitsAreTheSame, SurelyAssignedBitsAreTheSame, GivenBitsAreTheSame, DependencesAreTheSame};

/// An expression with other names has the sign, width and value of the expression; so do parts side by side, and selects.
pub fn a_renamed_expression_means_the_same()
    ensures expressions { ExpressionsMeanTheSame }
    ensures parts { PartsDoMeanTheSame }
{}

/// A target with other names means the same places, and a statement with other names does the same to them: what it writes, and the
/// updates that wait. Under names that are no new ones all stays as it was.
pub fn a_renamed_statement_does_the_same()
    ensures targets { TargetsNameTheSame }
    ensures writes { WritesChangeTheSame }
    ensures updates { UpdatesChangeTheSame }
    ensures runs { RunsDoTheSame }
{}

/// The clock's edge does the same, and the same bits count as registers: what is constant is so under other names, and the same bits
/// may be assigned, those of new names alone.
pub fn renamed_blocks_have_the_same_registers()
    ensures edges { EdgesChangeTheSame }
    ensures constants { ConstantsAreTheSame }
    ensures bits { AssignedBitsAreTheSame }
    ensures others { OtherNamesHaveNoBits }
{}

/// A valuation is settled by renamed assignments and blocks where the valuation of the old names is by the others.
pub fn renamed_equations_hold_where_the_others_do()
    ensures equations { EquationsHoldTheSame }
    ensures targets { TargetsAreRenamed }
    ensures constant_targets { ConstantTargetsAreTheSame }
{}

/// What is read, what is assigned on each path and what is read from outside are the same bits under the new names, and no others.
pub fn renamed_trees_read_the_same()
    ensures read { ReadBitsAreTheSame }
    ensures surely { SurelyAssignedBitsAreTheSame }
{}

/// Bits rest on the same bits under the new names: by an assignment or a connection, and after a block. A bit of another name rests
/// on itself alone.
pub fn renamed_bits_rest_on_the_same()
    ensures assignments { GivenBitsAreTheSame }
    ensures blocks { DependencesAreTheSame }
{}
