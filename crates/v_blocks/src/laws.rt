//! What the items that are found mean for the blocks of a module, as laws without code.

ghost use Rattle.std.specs.Prelude.{◌≡◌, List};
ghost use Rattle.std.specs.List.{list_any};
ghost use Rattle.verilog_trees.specs.Syntax.{Item};
ghost use Rattle.verilog_meaning.specs.Register.{clocked_blocks, combinational_blocks};
ghost use Rattle.verilog_designs.specs.Paths.{has_blocking, has_nonblocking};
ghost use Rattle.v_blocks.specs.Blocks.{is_blocking_in_clocked, is_nonblocking_in_combinational};

/// Some clocked block of a module has a blocking assignment exactly where some item is such a block.
pub fn blocking_in_clocked_blocks()
    ensures { (items : List Item) → list_any has_blocking (clocked_blocks items) ≡ list_any is_blocking_in_clocked items }
{}

/// Some combinational block has a nonblocking assignment exactly where some item is such a block.
pub fn nonblocking_in_combinational_blocks()
    ensures { (items : List Item) → list_any has_nonblocking (combinational_blocks items) ≡ list_any is_nonblocking_in_combinational items }
{}
