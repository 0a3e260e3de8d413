// Nouns as characters, worked out by hand.
ghost use Rattle.std.specs.Prelude.{◌≡◌, ◌∷◌, [], codes, pos, negsuc, Ok, Err};
ghost use Rattle.j_definitions.specs.declared.Fault.TheVariants.{Nonce};
ghost use Rattle.j_display.specs.Formatted.{formatted};
ghost use Rattle.j_display.specs.Samples.{whole_numbers, numbers, characters, boxes, box};

/// Laws: what nouns are formatted as.
pub fn rows_of_formats()
    ensures atom { formatted (numbers [] (5 ∷ [])) ≡ Ok (characters (1 ∷ []) (codes "5")) }
    ensures negative_atom { formatted (whole_numbers [] (negsuc 41 ∷ [])) ≡ Ok (characters (3 ∷ []) (codes "_42")) }
    ensures list { formatted (whole_numbers (3 ∷ []) (pos 1 ∷ negsuc 1 ∷ pos 30 ∷ [])) ≡ Ok (characters (7 ∷ []) (codes "1 _2 30")) }
    ensures list_of_one { formatted (numbers (1 ∷ []) (7 ∷ [])) ≡ Ok (characters (1 ∷ []) (codes "7")) }
    ensures table { formatted (whole_numbers (2 ∷ 2 ∷ []) (pos 0 ∷ negsuc 0 ∷ pos 20 ∷ pos 3 ∷ [])) ≡ Ok (characters (2 ∷ 5 ∷ []) (codes " 0 _120  3")) }
    ensures cube_without_empty_rows { formatted (numbers (2 ∷ 1 ∷ 2 ∷ []) (1 ∷ 2 ∷ 30 ∷ 4 ∷ [])) ≡ Ok (characters (2 ∷ 1 ∷ 4 ∷ []) (codes " 1 230 4")) }
    ensures empty_list { formatted (numbers (0 ∷ []) []) ≡ Ok (characters (0 ∷ []) []) }
    ensures no_rows { formatted (numbers (0 ∷ 3 ∷ []) []) ≡ Ok (characters (0 ∷ 0 ∷ []) []) }
    ensures no_columns { formatted (numbers (3 ∷ 0 ∷ []) []) ≡ Ok (characters (3 ∷ 0 ∷ []) []) }
    ensures no_tables { formatted (numbers (2 ∷ 0 ∷ 3 ∷ []) []) ≡ Ok (characters (2 ∷ 0 ∷ 0 ∷ []) []) }
    ensures character { formatted (characters [] (codes "a")) ≡ Ok (characters [] (codes "a")) }
    ensures text { formatted (characters (2 ∷ 2 ∷ []) (codes "abcd")) ≡ Ok (characters (2 ∷ 2 ∷ []) (codes "abcd")) }
    ensures no_characters { formatted (characters (2 ∷ 0 ∷ []) []) ≡ Ok (characters (2 ∷ 0 ∷ []) []) }
    ensures box_refused { formatted (box (numbers [] (1 ∷ []))) ≡ Err Nonce }
    ensures no_boxes_refused { formatted (boxes (0 ∷ []) []) ≡ Err Nonce }
    ensures column { formatted (whole_numbers (3 ∷ 1 ∷ []) (pos 5 ∷ negsuc 11 ∷ pos 0 ∷ [])) ≡ Ok (characters (3 ∷ 3 ∷ []) (codes "  5_12  0")) }
    ensures no_atoms_of_rank_four { formatted (numbers (2 ∷ 1 ∷ 0 ∷ 3 ∷ []) []) ≡ Ok (characters (2 ∷ 1 ∷ 0 ∷ 0 ∷ []) []) }
    ensures table_of_boxes_refused { formatted (boxes (2 ∷ 1 ∷ []) (numbers [] (1 ∷ []) ∷ characters [] (codes "a") ∷ [])) ≡ Err Nonce }
    ensures table_without_boxes_refused { formatted (boxes (2 ∷ 0 ∷ []) []) ≡ Err Nonce }
{}
