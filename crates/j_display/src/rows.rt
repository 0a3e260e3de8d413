// Rows worked out by hand.
ghost use Rattle.std.specs.Prelude.{◌≡◌, ◌++◌, ◌∷◌, [], ℕ, codes, pos, negsuc};
ghost use Rattle.j_definitions.specs.Array.{Array};
ghost use Rattle.j_entity.specs.Tree.{VerbTree, OperatorTree, a_noun, a_verb, an_adverb, a_conjunction};
ghost use Rattle.j_display.specs.Display.{entity_rows};
ghost use Rattle.j_display.specs.Rows.{noun_rows, joined};
ghost use Rattle.j_display.specs.Samples.{whole_numbers, numbers, characters};

/// Laws: a verb, an adverb and a conjunction are one row each.
pub fn rows_of_words()
    ensures verb { (v : VerbTree) → entity_rows (a_verb v) ≡ codes "verb" ∷ [] }
    ensures adverb { (a : OperatorTree) → entity_rows (an_adverb a) ≡ codes "adverb" ∷ [] }
    ensures conjunction { (c : OperatorTree) → joined (entity_rows (a_conjunction c)) ≡ codes "conjunction" ++ 10 ∷ [] }
    ensures noun { (y : Array) → entity_rows (a_noun y) ≡ noun_rows y }
{}

/// Laws: rows of atoms and of lists.
pub fn rows_of_lists()
    ensures atom { noun_rows (numbers [] (5 ∷ [])) ≡ codes "5" ∷ [] }
    ensures negative_atom { noun_rows (whole_numbers [] (negsuc 4 ∷ [])) ≡ codes "_5" ∷ [] }
    ensures least { noun_rows (whole_numbers [] (negsuc 9223372036854775807 ∷ [])) ≡ codes "_9223372036854775808" ∷ [] }
    ensures list { noun_rows (whole_numbers (3 ∷ []) (pos 1 ∷ negsuc 1 ∷ pos 30 ∷ [])) ≡ codes "1 _2 30" ∷ [] }
    ensures list_of_one { noun_rows (numbers (1 ∷ []) (7 ∷ [])) ≡ codes "7" ∷ [] }
    ensures empty_list { joined (noun_rows (numbers (0 ∷ []) [])) ≡ 10 ∷ [] }
    ensures empty_text { noun_rows (characters (0 ∷ []) []) ≡ [] ∷ [] }
    ensures character { noun_rows (characters [] (codes "a")) ≡ codes "a" ∷ [] }
    ensures text { noun_rows (characters (6 ∷ []) (codes " it's ")) ≡ codes " it's " ∷ [] }
    ensures line_feed { joined (noun_rows (characters (3 ∷ []) (97 ∷ 10 ∷ 98 ∷ []))) ≡ 97 ∷ 10 ∷ 98 ∷ 10 ∷ [] }
{}

/// Laws: rows of tables.
pub fn rows_of_tables()
    ensures table { noun_rows (numbers (2 ∷ 3 ∷ []) (0 ∷ 1 ∷ 2 ∷ 3 ∷ 4 ∷ 5 ∷ [])) ≡ codes "0 1 2" ∷ codes "3 4 5" ∷ [] }
    ensures unequal { noun_rows (whole_numbers (2 ∷ 2 ∷ []) (negsuc 0 ∷ pos 10 ∷ pos 100 ∷ negsuc 999 ∷ [])) ≡ codes " _1    10" ∷ codes "100 _1000" ∷ [] }
    ensures column { noun_rows (whole_numbers (3 ∷ 1 ∷ []) (pos 5 ∷ negsuc 11 ∷ pos 0 ∷ [])) ≡ codes "  5" ∷ codes "_12" ∷ codes "  0" ∷ [] }
    ensures one_row { noun_rows (numbers (1 ∷ 2 ∷ []) (8 ∷ 9 ∷ [])) ≡ codes "8 9" ∷ [] }
    ensures no_rows { joined (noun_rows (numbers (0 ∷ 3 ∷ []) [])) ≡ [] }
    ensures no_columns { noun_rows (numbers (3 ∷ 0 ∷ []) []) ≡ [] }
    ensures characters { noun_rows (characters (2 ∷ 3 ∷ []) (codes "a b  c")) ≡ codes "a b" ∷ codes "  c" ∷ [] }
    ensures no_characters { noun_rows (characters (2 ∷ 0 ∷ []) []) ≡ [] }
{}

/// Laws: rows of nouns above rank 2.
pub fn rows_of_cubes()
    ensures cube { noun_rows (numbers (2 ∷ 1 ∷ 2 ∷ []) (0 ∷ 1 ∷ 2 ∷ 3 ∷ [])) ≡ codes "0 1" ∷ [] ∷ codes "2 3" ∷ [] }
    ensures two_by_two { noun_rows (numbers (2 ∷ 2 ∷ 2 ∷ []) (0 ∷ 1 ∷ 2 ∷ 3 ∷ 4 ∷ 5 ∷ 6 ∷ 7 ∷ [])) ≡ codes "0 1" ∷ codes "2 3" ∷ [] ∷ codes "4 5" ∷ codes "6 7" ∷ [] }
    ensures as_wide_in_each_table { noun_rows (whole_numbers (2 ∷ 1 ∷ 2 ∷ []) (pos 1 ∷ negsuc 1 ∷ pos 300 ∷ pos 4 ∷ [])) ≡ codes "  1 _2" ∷ [] ∷ codes "300  4" ∷ [] }
    ensures one_table { noun_rows (numbers (1 ∷ 1 ∷ 1 ∷ []) (5 ∷ [])) ≡ codes "5" ∷ [] }
    ensures characters { noun_rows (characters (2 ∷ 1 ∷ 2 ∷ []) (codes "ab d")) ≡ codes "ab" ∷ [] ∷ codes " d" ∷ [] }
    ensures no_tables { noun_rows (numbers (2 ∷ 0 ∷ 3 ∷ []) []) ≡ [] }
    ensures no_tables_of_rank_four { noun_rows (characters (2 ∷ 1 ∷ 0 ∷ 2 ∷ []) []) ≡ [] }
    ensures first_axis_of_one { noun_rows (numbers (1 ∷ 2 ∷ 1 ∷ 2 ∷ []) (0 ∷ 1 ∷ 2 ∷ 3 ∷ [])) ≡ codes "0 1" ∷ [] ∷ codes "2 3" ∷ [] }
    ensures axis_of_one_begins_again { noun_rows (numbers (2 ∷ 1 ∷ 1 ∷ 1 ∷ []) (7 ∷ 8 ∷ [])) ≡ codes "7" ∷ [] ∷ [] ∷ codes "8" ∷ [] }
    ensures rank_four { noun_rows (numbers (2 ∷ 2 ∷ 2 ∷ 2 ∷ []) (0 ∷ 1 ∷ 2 ∷ 3 ∷ 4 ∷ 5 ∷ 6 ∷ 7 ∷ 8 ∷ 9 ∷ 0 ∷ 1 ∷ 2 ∷ 3 ∷ 4 ∷ 5 ∷ [])) ≡ codes "0 1" ∷ codes "2 3" ∷ [] ∷ codes "4 5" ∷ codes "6 7" ∷ [] ∷ [] ∷ codes "8 9" ∷ codes "0 1" ∷ [] ∷ codes "2 3" ∷ codes "4 5" ∷ [] }
    ensures characters_of_rank_four { joined (noun_rows (characters (2 ∷ 2 ∷ 1 ∷ 2 ∷ []) (codes "abcdefgh"))) ≡ codes "ab" ++ 10 ∷ 10 ∷ codes "cd" ++ 10 ∷ 10 ∷ 10 ∷ codes "ef" ++ 10 ∷ 10 ∷ codes "gh" ++ 10 ∷ [] }
{}
