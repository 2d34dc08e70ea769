//! Laws on emitted designs and their maps, each the contract of a function without code.
ghost use Rattle.emitted_designs.specs.Laws.{BenchModelsHaveNoChildren, BenchModelsHaveTheirObligations, BenchModelsHaveTheirSize, BenchModelsKeepTheRules, BenchTextsAreShort, EmittedObligationsHold, EmittedRunsRefine, ModelsWithoutChildrenAreTotal, SmallModelsHaveShortTexts};
ghost use Rattle.emitted_designs.specs.Worked.{ChildRuns, CounterHasItsMap, CounterHasItsSize, InnerChildEndsAlone, LastStoreStands, MultiplierHasItsBound, MultiplierHasItsMap, ResetEndsNothing, SwitchIsEmitted};

/// Of a model without child programs each run of an emitted design from reset has one command in flight and refines the model.
pub fn emitted_runs_refine()
    ensures { EmittedRunsRefine }
{}

/// Of a model without child programs each obligation of an emitted design holds.
pub fn emitted_obligations_hold()
    ensures { EmittedObligationsHold }
{}

/// A model without child programs is total.
pub fn models_without_children_are_total()
    ensures { ModelsWithoutChildrenAreTotal }
{}

/// An emitted text of a model of size 1,000 or less is no longer than a file may be.
pub fn small_models_have_short_texts()
    ensures { SmallModelsHaveShortTexts }
{}

/// The models of `bench` that can be asked for keep the rules on models, have no child programs, and have texts that are read.
pub fn bench_models_are_models()
    ensures rules { BenchModelsKeepTheRules }
    ensures childless { BenchModelsHaveNoChildren }
    ensures size { BenchModelsHaveTheirSize }
    ensures texts { BenchTextsAreShort }
{}

/// How many obligations the models of `bench` have.
pub fn bench_models_have_their_obligations()
    ensures { BenchModelsHaveTheirObligations }
{}

/// A switch, a model of one state that its one instruction turns, has an emitted module.
pub fn the_switch_is_emitted()
    ensures { SwitchIsEmitted }
{}

/// Of two stores at one address in the update of a memory the last one stands.
pub fn the_last_store_stands()
    ensures { LastStoreStands }
{}

/// A child program takes its step after the start of its instruction, and its end is that of the instruction.
pub fn a_child_runs()
    ensures { ChildRuns }
{}

/// A reset where a child program would end is no end: nothing commits, and the states take their initial values.
pub fn a_reset_ends_nothing()
    ensures { ResetEndsNothing }
{}

/// A child program in a child program ends without a commit, and the one around it with one.
pub fn an_inner_child_ends_alone()
    ensures { InnerChildEndsAlone }
{}

/// The text of the counter's map.
pub fn the_counter_has_its_map()
    ensures { CounterHasItsMap }
{}

/// The text of the map of a multiplier whose child may take 254 steps, and the bound where it may take 255.
pub fn the_multiplier_has_its_map()
    ensures text { MultiplierHasItsMap }
    ensures bound { MultiplierHasItsBound }
{}

/// The size of the counter.
pub fn the_counter_has_its_size()
    ensures { CounterHasItsSize }
{}
