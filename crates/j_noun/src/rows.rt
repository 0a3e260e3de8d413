// Nouns worked out by hand.
ghost use Rattle.std.specs.Prelude.{◌≡◌, ◌∷◌, [], true, false, pos, negsuc, codes, Ok, Err};
ghost use Rattle.j_definitions.specs.Array.{number, byte, boxed, atom_array, fill_atom, weight, level, arrays_match};
ghost use Rattle.j_definitions.specs.Limits.{limited};
ghost use Rattle.j_definitions.specs.declared.Fault.TheVariants.{Limit};
ghost use Rattle.j_definitions.specs.declared.Kind.TheVariants.{Number, Character, Boxed};
ghost use Rattle.j_noun.specs.Rows.{nothing, numbers, characters, boxes, five_in, axes_of_0};
ghost use Rattle.j_noun.specs.Viewed.{match_bit};

/// Laws: nouns that match and nouns that don't.
pub fn match_rows()
    ensures empty_lists { arrays_match (nothing Character (0 ∷ [])) (nothing Number (0 ∷ [])) ≡ true }
    ensures empty_tables { arrays_match (nothing Boxed (0 ∷ 3 ∷ [])) (nothing Number (3 ∷ 0 ∷ [])) ≡ false }
    ensures texts { arrays_match (characters (codes "ab")) (characters (codes "ab")) ≡ true }
    ensures other_text { arrays_match (characters (codes "ab")) (characters (codes "ac")) ≡ false }
    ensures shapes { arrays_match (numbers (pos 5 ∷ [])) (atom_array Number (number (pos 5))) ≡ false }
    ensures kinds { arrays_match (numbers (pos 97 ∷ [])) (characters (97 ∷ [])) ≡ false }
    ensures empty_in_boxes { arrays_match (boxes (characters [] ∷ [])) (boxes (numbers [] ∷ [])) ≡ true }
    ensures last_box { arrays_match (boxes (numbers [] ∷ numbers (pos 1 ∷ []) ∷ [])) (boxes (numbers [] ∷ numbers (pos 2 ∷ []) ∷ [])) ≡ false }
    ensures bit_as_number { match_bit (pos 1) 1 ≡ true }
    ensures other_bit { match_bit (pos 1) 0 ≡ false }
    ensures no_bit { match_bit (negsuc 0) 1 ≡ false }
{}

/// Laws: fills, weights and levels.
pub fn measure_rows()
    ensures zero { fill_atom Number ≡ number (pos 0) }
    ensures blank { fill_atom Character ≡ byte 32 }
    ensures empty_box { fill_atom Boxed ≡ boxed (nothing Number (0 ∷ [])) }
    ensures no_atoms { weight (nothing Number (0 ∷ 3 ∷ [])) ≡ 0 }
    ensures list { weight (numbers (pos 7 ∷ pos 8 ∷ [])) ≡ 2 }
    ensures boxed_lists { weight (boxes (numbers (pos 7 ∷ pos 8 ∷ []) ∷ numbers [] ∷ [])) ≡ 4 }
    ensures number_level { level (five_in 0) ≡ 0 }
    ensures box_level { level (five_in 2) ≡ 2 }
    ensures empty_box_level { level (boxes (nothing Number (0 ∷ []) ∷ five_in 1 ∷ [])) ≡ 2 }
    ensures no_boxes { level (nothing Boxed (0 ∷ [])) ≡ 0 }
{}

/// Laws: nouns at the limits, and beyond them.
pub fn limit_rows()
    ensures axes { limited (axes_of_0 32) ≡ Ok (axes_of_0 32) }
    ensures too_many_axes { limited (axes_of_0 33) ≡ Err Limit }
    ensures longest_axis { limited (nothing Number (4194304 ∷ 0 ∷ [])) ≡ Ok (nothing Number (4194304 ∷ 0 ∷ [])) }
    ensures too_long { limited (nothing Number (0 ∷ 4194305 ∷ [])) ≡ Err Limit }
    ensures deepest { limited (five_in 64) ≡ Ok (five_in 64) }
    ensures too_deep { limited (five_in 65) ≡ Err Limit }
{}
