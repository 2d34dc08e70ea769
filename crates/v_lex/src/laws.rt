//! What holds of the places of tokens, as laws without code.

ghost use Rattle.std.specs.Prelude.{◌≡◌, ℕ, List, [], ◌∷◌, codes};
ghost use Rattle.std.specs.List.{AllPairs};
ghost use Rattle.verilog_text.specs.Text.{with_files};
ghost use Rattle.v_lex.specs.Spots.{EndsBefore, parts_of, placed_parts, spot, spots_in, spots_outside};

/// The parts that have places are the parts of the files after expansion.
pub fn each_part_has_a_place()
    ensures { (files : List (List ℕ)) → parts_of (placed_parts files) ≡ with_files files [] }
{}

/// Of two tokens that are read outside the texts of macros the first ends before the second begins, the files in order.
pub fn places_ascend_outside_macros()
    ensures { (files : List (List ℕ)) → AllPairs (λ s t. EndsBefore s t.site) (spots_outside (placed_parts files)) }
{}

/// The second `a` of a text with a comment between; tokens of a macro stand in its definition, in another file too.
pub fn worked_places()
    ensures behind_a_comment { spots_in (codes "a /* a */ a" ∷ []) ≡ spot 0 0 ∷ spot 0 10 ∷ [] }
    ensures of_a_macro { spots_in (codes "`define X b a" ∷ codes "a `X b" ∷ []) ≡ spot 1 0 ∷ spot 0 10 ∷ spot 0 12 ∷ spot 1 5 ∷ [] }
    ensures outside_macros { spots_outside (placed_parts (codes "`define X b a" ∷ codes "a `X b" ∷ [])) ≡ spot 1 0 ∷ spot 1 5 ∷ [] }
{}
