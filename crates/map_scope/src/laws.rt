//! What the scope of names says, as laws without code.

ghost use Rattle.map_scope.specs.Laws.{ScopesAgreeWithDesigns, ScopesAreNarrow};

/// The scope of names gives each of them what it means in the design; and all that it gives fits words where all that the modules name does.
pub fn scopes_of_names_are_those_of_the_design()
    ensures agree { ScopesAgreeWithDesigns }
    ensures narrow { ScopesAreNarrow }
{}
