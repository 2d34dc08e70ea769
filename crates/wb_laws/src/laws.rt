//! The laws, each the contract of a function without code.
ghost use Rattle.wb_laws.specs.Instructions.{InstructionWithoutChildIsItsUpdate};
ghost use Rattle.wb_laws.specs.Runs.{RunShorterThanTheResetRefines, PrefixRefines, IdleCycleHasOneCount, IdleCycleHasOneState};
ghost use Rattle.wb_laws.specs.Settled.{SettledValueFitsItsWidth};
ghost use Rattle.wb_laws.specs.Simulations.{OutcomeIsUnique, OutcomeExists, SimulationIsUnique, SimulationExists, SimulationIsARun};
ghost use Rattle.wb_laws.specs.Terms.{TermFitsItsSort};
ghost use Rattle.wb_laws.specs.Written.{TermsSortIsTheWritten, SortsAreTheSame};
ghost use Rattle.wb_laws.specs.Widths.{ValueFitsItsWidth, ValueFitsItsContext};

/// An instruction without a child leads to the state that its updates alone give, and to no other.
pub fn an_instruction_without_child_is_its_update()
    ensures { InstructionWithoutChildIsItsUpdate }
{}

/// A run that is over before its reset refines every model.
pub fn a_run_shorter_than_the_reset_refines()
    ensures { RunShorterThanTheResetRefines }
{}

/// Where a run refines the model, so do its first cycles by themselves.
pub fn a_prefix_refines()
    ensures { PrefixRefines }
{}

/// Before an idle cycle one number of commands has ended.
pub fn an_idle_cycle_has_one_count()
    ensures { IdleCycleHasOneCount }
{}

/// At an idle cycle the model has one state.
pub fn an_idle_cycle_has_one_state()
    ensures { IdleCycleHasOneState }
{}

/// Where each name stands for a value of its sort, the value of a term that has a sort is of that sort.
pub fn a_term_fits_its_sort()
    ensures { TermFitsItsSort }
{}

/// In a model file the sort of a written term is that of the term that it stands for, and the other way round where constants fit.
pub fn a_written_term_has_the_sort_of_its_term()
    ensures upward { TermsSortIsTheWritten }
    ensures same { SortsAreTheSame }
{}

/// The value of a Verilog expression is a number of its width; in a wider context it is one of the context's.
pub fn a_value_fits_its_width()
    ensures alone { ValueFitsItsWidth }
    ensures in_context { ValueFitsItsContext }
{}

/// In a settled valuation of a design the value of each expression is a number of its width, where the text's numbers are.
pub fn a_settled_value_fits_its_width()
    ensures { SettledValueFitsItsWidth }
{}

/// At a state under inputs a model has one outcome: the causes of the outcomes exclude each other.
pub fn an_outcome_is_unique()
    ensures { OutcomeIsUnique }
{}

/// At each state under inputs a model has an outcome: with the law above, what a step answers is a function of both.
pub fn a_model_has_an_outcome()
    ensures { OutcomeExists }
{}

/// Each script has a simulation.
pub fn a_script_has_a_simulation()
    ensures { SimulationExists }
{}

/// A script has one simulation, and its states are those of a run of the model.
pub fn a_simulation_is_one_run()
    ensures one { SimulationIsUnique }
    ensures run { SimulationIsARun }
{}
