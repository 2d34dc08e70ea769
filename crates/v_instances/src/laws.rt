//! What the rules say of a whole module, from its parts, as laws without code.
ghost use Rattle.std.specs.Prelude.{◌≡◌, List};
ghost use Rattle.verilog_trees.specs.Syntax.{Item, Module, Source};
ghost use Rattle.verilog_meaning.specs.Expression.{Scope};
ghost use Rattle.verilog_meaning.specs.Hierarchy.{all_parameters, body_parameters};
ghost use Rattle.verilog_rules.specs.Expression.{also};
ghost use Rattle.verilog_designs.specs.Expressions.{broken_header, broken_module_items};
ghost use Rattle.v_size.specs.Rule.{coded, both};
ghost use Rattle.v_rules.specs.Judging.{none};
ghost use Rattle.v_rules.specs.Items.{module_items_from};
ghost use Rattle.v_instances.specs.Rules.{broken_instance_items};

/// What items break is what those break that are neither parameters nor instances, what the parameters break, and what the instances
/// break.
pub fn rules_of_items()
    ensures { (source : Source) (s : Scope) (items : List Item) → coded (broken_module_items source s items)
        ≡ both (module_items_from s none items) (both (coded (broken_header s (body_parameters items))) (coded (broken_instance_items source s items))) }
{}

/// The same with the parameters of the header.
pub fn rules_of_module()
    ensures { (source : Source) (s : Scope) (m : Module) → coded (also (broken_header s m.parameters) (broken_module_items source s m.items))
        ≡ both (module_items_from s none m.items) (both (coded (broken_header s (all_parameters m))) (coded (broken_instance_items source s m.items))) }
{}
