// Choices and amended nouns, worked out by hand.
ghost use Rattle.std.specs.Prelude.{◌≡◌, [], ◌∷◌, pos, negsuc, Ok as OkValue, Err as ErrValue};
ghost use Rattle.j_definitions.specs.declared.Fault.TheVariants as fault;
ghost use Rattle.j_noun.specs.Rows.{numbers};
ghost use Rattle.j_rank.specs.Rows.{numbers_in, bytes_in, boxes_in};
ghost use Rattle.j_select.specs.Catalogue.{catalogue};
ghost use Rattle.j_select.specs.Amending.{amend};

/// Laws: all choices, worked out by hand.
pub fn worked_catalogues()
    ensures two_lists { catalogue (boxes_in (2 ∷ []) (numbers_in (2 ∷ []) (1 ∷ 2 ∷ []) ∷ numbers_in (2 ∷ []) (3 ∷ 4 ∷ []) ∷ [])) ≡ OkValue (boxes_in (2 ∷ 2 ∷ []) (numbers_in (2 ∷ []) (1 ∷ 3 ∷ []) ∷ numbers_in (2 ∷ []) (1 ∷ 4 ∷ []) ∷ numbers_in (2 ∷ []) (2 ∷ 3 ∷ []) ∷ numbers_in (2 ∷ []) (2 ∷ 4 ∷ []) ∷ [])) }
    ensures shapes_joined { catalogue (boxes_in (2 ∷ []) (bytes_in [] (65 ∷ []) ∷ bytes_in (1 ∷ 2 ∷ []) (66 ∷ 67 ∷ []) ∷ [])) ≡ OkValue (boxes_in (1 ∷ 2 ∷ []) (bytes_in (2 ∷ []) (65 ∷ 66 ∷ []) ∷ bytes_in (2 ∷ []) (65 ∷ 67 ∷ []) ∷ [])) }
    ensures one_content { catalogue (boxes_in [] (numbers_in (2 ∷ []) (1 ∷ 0 ∷ []) ∷ [])) ≡ OkValue (boxes_in (2 ∷ []) (numbers_in (1 ∷ []) (1 ∷ []) ∷ numbers_in (1 ∷ []) (0 ∷ []) ∷ [])) }
    ensures numbers_as_contents { catalogue (numbers_in (3 ∷ []) (1 ∷ 2 ∷ 3 ∷ [])) ≡ OkValue (boxes_in [] (numbers_in (3 ∷ []) (1 ∷ 2 ∷ 3 ∷ []) ∷ [])) }
    ensures atom_as_content { catalogue (bytes_in [] (65 ∷ [])) ≡ OkValue (boxes_in [] (bytes_in (1 ∷ []) (65 ∷ []) ∷ [])) }
    ensures no_numbers { catalogue (numbers_in (0 ∷ []) []) ≡ OkValue (boxes_in [] (numbers_in (0 ∷ []) [] ∷ [])) }
    ensures no_characters { catalogue (bytes_in (0 ∷ []) []) ≡ OkValue (boxes_in [] (bytes_in (0 ∷ []) [] ∷ [])) }
    ensures no_boxes { catalogue (boxes_in (0 ∷ []) []) ≡ OkValue (boxes_in [] (numbers_in (0 ∷ []) [] ∷ [])) }
    ensures no_choices { catalogue (boxes_in (2 ∷ []) (numbers_in [] (1 ∷ []) ∷ bytes_in (0 ∷ []) [] ∷ [])) ≡ OkValue (boxes_in (0 ∷ []) []) }
    ensures two_kinds { catalogue (boxes_in (2 ∷ []) (numbers_in [] (1 ∷ []) ∷ bytes_in [] (65 ∷ []) ∷ [])) ≡ ErrValue fault.Domain }
{}

/// Laws: nouns amended, worked out by hand.
pub fn worked_amendments()
    ensures one { amend (numbers_in [] (1 ∷ [])) (numbers_in [] (9 ∷ [])) (numbers_in (3 ∷ []) (5 ∷ 6 ∷ 7 ∷ [])) ≡ OkValue (numbers_in (3 ∷ []) (5 ∷ 9 ∷ 7 ∷ [])) }
    ensures list { amend (numbers_in (2 ∷ []) (0 ∷ 2 ∷ [])) (numbers_in (2 ∷ []) (8 ∷ 9 ∷ [])) (numbers_in (3 ∷ []) (5 ∷ 6 ∷ 7 ∷ [])) ≡ OkValue (numbers_in (3 ∷ []) (8 ∷ 6 ∷ 9 ∷ [])) }
    ensures atom_repeated { amend (numbers_in (2 ∷ []) (0 ∷ 2 ∷ [])) (numbers_in [] (9 ∷ [])) (numbers_in (3 ∷ []) (5 ∷ 6 ∷ 7 ∷ [])) ≡ OkValue (numbers_in (3 ∷ []) (9 ∷ 6 ∷ 9 ∷ [])) }
    ensures from_the_end { amend (numbers (negsuc 0 ∷ negsuc 2 ∷ [])) (numbers_in (2 ∷ []) (8 ∷ 9 ∷ [])) (numbers_in (3 ∷ []) (5 ∷ 6 ∷ 7 ∷ [])) ≡ OkValue (numbers_in (3 ∷ []) (9 ∷ 6 ∷ 8 ∷ [])) }
    ensures later_places_win { amend (numbers_in (3 ∷ []) (1 ∷ 2 ∷ 1 ∷ [])) (numbers_in (3 ∷ []) (7 ∷ 8 ∷ 9 ∷ [])) (numbers_in (3 ∷ []) (5 ∷ 6 ∷ 7 ∷ [])) ≡ OkValue (numbers_in (3 ∷ []) (5 ∷ 9 ∷ 8 ∷ [])) }
    ensures row_of_atom { amend (numbers_in [] (1 ∷ [])) (numbers_in [] (9 ∷ [])) (numbers_in (2 ∷ 3 ∷ []) (1 ∷ 2 ∷ 3 ∷ 4 ∷ 5 ∷ 6 ∷ [])) ≡ OkValue (numbers_in (2 ∷ 3 ∷ []) (1 ∷ 2 ∷ 3 ∷ 9 ∷ 9 ∷ 9 ∷ [])) }
    ensures row { amend (numbers_in [] (1 ∷ [])) (numbers_in (3 ∷ []) (7 ∷ 8 ∷ 9 ∷ [])) (numbers_in (2 ∷ 3 ∷ []) (1 ∷ 2 ∷ 3 ∷ 4 ∷ 5 ∷ 6 ∷ [])) ≡ OkValue (numbers_in (2 ∷ 3 ∷ []) (1 ∷ 2 ∷ 3 ∷ 7 ∷ 8 ∷ 9 ∷ [])) }
    ensures row_repeated { amend (numbers_in (2 ∷ []) (1 ∷ 0 ∷ [])) (numbers_in (3 ∷ []) (7 ∷ 8 ∷ 9 ∷ [])) (numbers_in (2 ∷ 3 ∷ []) (1 ∷ 2 ∷ 3 ∷ 4 ∷ 5 ∷ 6 ∷ [])) ≡ OkValue (numbers_in (2 ∷ 3 ∷ []) (7 ∷ 8 ∷ 9 ∷ 7 ∷ 8 ∷ 9 ∷ [])) }
    ensures rows { amend (numbers_in (2 ∷ []) (1 ∷ 0 ∷ [])) (numbers_in (2 ∷ 3 ∷ []) (11 ∷ 12 ∷ 13 ∷ 14 ∷ 15 ∷ 16 ∷ [])) (numbers_in (2 ∷ 3 ∷ []) (1 ∷ 2 ∷ 3 ∷ 4 ∷ 5 ∷ 6 ∷ [])) ≡ OkValue (numbers_in (2 ∷ 3 ∷ []) (14 ∷ 15 ∷ 16 ∷ 11 ∷ 12 ∷ 13 ∷ [])) }
    ensures table_of_indices { amend (numbers_in (2 ∷ 1 ∷ []) (2 ∷ 0 ∷ [])) (numbers_in (1 ∷ []) (9 ∷ [])) (numbers_in (3 ∷ []) (5 ∷ 6 ∷ 7 ∷ [])) ≡ OkValue (numbers_in (3 ∷ []) (9 ∷ 6 ∷ 9 ∷ [])) }
    ensures atom_as_one_item { amend (numbers_in [] (0 ∷ [])) (numbers_in [] (9 ∷ [])) (numbers_in [] (5 ∷ [])) ≡ OkValue (numbers_in [] (9 ∷ [])) }
    ensures one_box { amend (boxes_in [] ((numbers_in (2 ∷ []) (1 ∷ 2 ∷ [])) ∷ [])) (numbers_in [] (9 ∷ [])) (numbers_in (2 ∷ 3 ∷ []) (1 ∷ 2 ∷ 3 ∷ 4 ∷ 5 ∷ 6 ∷ [])) ≡ OkValue (numbers_in (2 ∷ 3 ∷ []) (1 ∷ 2 ∷ 3 ∷ 4 ∷ 5 ∷ 9 ∷ [])) }
    ensures box_of_fewer { amend (boxes_in [] ((numbers_in (1 ∷ []) (0 ∷ [])) ∷ [])) (numbers_in (3 ∷ []) (7 ∷ 8 ∷ 9 ∷ [])) (numbers_in (2 ∷ 3 ∷ []) (1 ∷ 2 ∷ 3 ∷ 4 ∷ 5 ∷ 6 ∷ [])) ≡ OkValue (numbers_in (2 ∷ 3 ∷ []) (7 ∷ 8 ∷ 9 ∷ 4 ∷ 5 ∷ 6 ∷ [])) }
    ensures box_of_nouns { amend (boxes_in [] ((boxes_in (2 ∷ []) ((numbers_in (2 ∷ []) (1 ∷ 0 ∷ [])) ∷ (numbers_in [] (2 ∷ [])) ∷ [])) ∷ [])) (numbers_in (2 ∷ []) (8 ∷ 9 ∷ [])) (numbers_in (2 ∷ 3 ∷ []) (1 ∷ 2 ∷ 3 ∷ 4 ∷ 5 ∷ 6 ∷ [])) ≡ OkValue (numbers_in (2 ∷ 3 ∷ []) (1 ∷ 2 ∷ 9 ∷ 4 ∷ 5 ∷ 8 ∷ [])) }
    ensures whole { amend (boxes_in [] ((numbers_in (0 ∷ []) []) ∷ [])) (numbers_in (3 ∷ []) (7 ∷ 8 ∷ 9 ∷ [])) (numbers_in (2 ∷ 3 ∷ []) (1 ∷ 2 ∷ 3 ∷ 4 ∷ 5 ∷ 6 ∷ [])) ≡ OkValue (numbers_in (2 ∷ 3 ∷ []) (7 ∷ 8 ∷ 9 ∷ 7 ∷ 8 ∷ 9 ∷ [])) }
    ensures boxes { amend (boxes_in (2 ∷ []) ((numbers_in (2 ∷ []) (0 ∷ 1 ∷ [])) ∷ (numbers_in (2 ∷ []) (1 ∷ 1 ∷ [])) ∷ [])) (numbers_in (2 ∷ []) (8 ∷ 9 ∷ [])) (numbers_in (2 ∷ 3 ∷ []) (1 ∷ 2 ∷ 3 ∷ 4 ∷ 5 ∷ 6 ∷ [])) ≡ OkValue (numbers_in (2 ∷ 3 ∷ []) (1 ∷ 8 ∷ 3 ∷ 4 ∷ 9 ∷ 6 ∷ [])) }
    ensures fills_are_no_places { amend (boxes_in (2 ∷ []) ((numbers_in (1 ∷ []) (1 ∷ [])) ∷ (numbers_in (2 ∷ []) (1 ∷ 2 ∷ [])) ∷ [])) (numbers_in (2 ∷ 3 ∷ []) (11 ∷ 12 ∷ 13 ∷ 14 ∷ 15 ∷ 16 ∷ [])) (numbers_in (2 ∷ 3 ∷ []) (1 ∷ 2 ∷ 3 ∷ 4 ∷ 5 ∷ 6 ∷ [])) ≡ OkValue (numbers_in (2 ∷ 3 ∷ []) (1 ∷ 2 ∷ 3 ∷ 11 ∷ 12 ∷ 14 ∷ [])) }
    ensures characters { amend (numbers_in [] (1 ∷ [])) (bytes_in [] (90 ∷ [])) (bytes_in (3 ∷ []) (65 ∷ 66 ∷ 67 ∷ [])) ≡ OkValue (bytes_in (3 ∷ []) (65 ∷ 90 ∷ 67 ∷ [])) }
    ensures boxed_atoms { amend (numbers_in [] (0 ∷ [])) (boxes_in [] ((bytes_in [] (65 ∷ [])) ∷ [])) (boxes_in (2 ∷ []) ((numbers_in [] (7 ∷ [])) ∷ (numbers_in [] (8 ∷ [])) ∷ [])) ≡ OkValue (boxes_in (2 ∷ []) ((bytes_in [] (65 ∷ [])) ∷ (numbers_in [] (8 ∷ [])) ∷ [])) }
    ensures no_indices { amend (numbers_in (0 ∷ []) []) (numbers_in [] (9 ∷ [])) (numbers_in (3 ∷ []) (5 ∷ 6 ∷ 7 ∷ [])) ≡ OkValue (numbers_in (3 ∷ []) (5 ∷ 6 ∷ 7 ∷ [])) }
    ensures no_indices_and_nothing { amend (numbers_in (0 ∷ []) []) (numbers_in (0 ∷ []) []) (numbers_in (3 ∷ []) (5 ∷ 6 ∷ 7 ∷ [])) ≡ OkValue (numbers_in (3 ∷ []) (5 ∷ 6 ∷ 7 ∷ [])) }
    ensures no_indices_and_a_row { amend (numbers_in (0 ∷ []) []) (numbers_in (3 ∷ []) (7 ∷ 8 ∷ 9 ∷ [])) (numbers_in (2 ∷ 3 ∷ []) (1 ∷ 2 ∷ 3 ∷ 4 ∷ 5 ∷ 6 ∷ [])) ≡ OkValue (numbers_in (2 ∷ 3 ∷ []) (1 ∷ 2 ∷ 3 ∷ 4 ∷ 5 ∷ 6 ∷ [])) }
    ensures no_boxes_take_the_whole { amend (boxes_in (0 ∷ []) []) (numbers_in (2 ∷ 3 ∷ []) (1 ∷ 2 ∷ 3 ∷ 4 ∷ 5 ∷ 6 ∷ [])) (numbers_in (2 ∷ 3 ∷ []) (1 ∷ 2 ∷ 3 ∷ 4 ∷ 5 ∷ 6 ∷ [])) ≡ OkValue (numbers_in (2 ∷ 3 ∷ []) (1 ∷ 2 ∷ 3 ∷ 4 ∷ 5 ∷ 6 ∷ [])) }
    ensures no_characters_take_a_number { amend (bytes_in (0 ∷ []) []) (numbers_in [] (9 ∷ [])) (numbers_in (2 ∷ 3 ∷ []) (1 ∷ 2 ∷ 3 ∷ 4 ∷ 5 ∷ 6 ∷ [])) ≡ OkValue (numbers_in (2 ∷ 3 ∷ []) (1 ∷ 2 ∷ 3 ∷ 4 ∷ 5 ∷ 6 ∷ [])) }
    ensures no_atoms_take_the_kind { amend (numbers_in (0 ∷ []) []) (numbers_in [] (9 ∷ [])) (boxes_in (0 ∷ []) []) ≡ OkValue (numbers_in (0 ∷ []) []) }
    ensures no_atoms_keep_the_kind { amend (numbers_in (0 ∷ []) []) (numbers_in (0 ∷ []) []) (bytes_in (0 ∷ []) []) ≡ OkValue (bytes_in (0 ∷ []) []) }
    ensures nothing_counts_as_each_kind { amend (boxes_in [] ((numbers_in (1 ∷ []) (0 ∷ [])) ∷ [])) (boxes_in (0 ∷ []) []) (numbers_in (2 ∷ 0 ∷ []) []) ≡ OkValue (numbers_in (2 ∷ 0 ∷ []) []) }
    ensures nonce_before_kinds { amend (boxes_in [] ((boxes_in [] ((boxes_in [] ((numbers_in [] (0 ∷ [])) ∷ [])) ∷ [])) ∷ [])) (bytes_in [] (65 ∷ [])) (numbers_in (3 ∷ []) (5 ∷ 6 ∷ 7 ∷ [])) ≡ ErrValue fault.Nonce }
    ensures kinds_before_index { amend (numbers_in [] (5 ∷ [])) (bytes_in [] (65 ∷ [])) (numbers_in (3 ∷ []) (5 ∷ 6 ∷ 7 ∷ [])) ≡ ErrValue fault.Domain }
    ensures kinds_before_rank { amend (boxes_in [] ((numbers_in (1 ∷ 1 ∷ []) (0 ∷ [])) ∷ [])) (bytes_in [] (65 ∷ [])) (numbers_in (3 ∷ []) (5 ∷ 6 ∷ 7 ∷ [])) ≡ ErrValue fault.Domain }
    ensures kinds_before_length { amend (numbers_in [] (1 ∷ [])) (bytes_in (2 ∷ []) (65 ∷ 66 ∷ [])) (numbers_in (3 ∷ []) (5 ∷ 6 ∷ 7 ∷ [])) ≡ ErrValue fault.Domain }
    ensures character_as_index { amend (bytes_in [] (65 ∷ [])) (numbers_in [] (9 ∷ [])) (numbers_in (3 ∷ []) (5 ∷ 6 ∷ 7 ∷ [])) ≡ ErrValue fault.Domain }
    ensures characters_in_box { amend (boxes_in [] ((bytes_in (1 ∷ []) (65 ∷ [])) ∷ [])) (numbers_in (2 ∷ []) (8 ∷ 9 ∷ [])) (numbers_in (3 ∷ []) (5 ∷ 6 ∷ 7 ∷ [])) ≡ ErrValue fault.Domain }
    ensures first_box_that_errs { amend (boxes_in (2 ∷ []) ((numbers_in (2 ∷ []) (0 ∷ 0 ∷ [])) ∷ (numbers_in (1 ∷ 1 ∷ []) (0 ∷ [])) ∷ [])) (numbers_in [] (9 ∷ [])) (numbers_in (3 ∷ []) (5 ∷ 6 ∷ 7 ∷ [])) ≡ ErrValue fault.Length }
    ensures rank_before_length { amend (boxes_in [] ((numbers_in (1 ∷ 1 ∷ []) (0 ∷ [])) ∷ [])) (numbers_in (2 ∷ []) (8 ∷ 9 ∷ [])) (numbers_in (3 ∷ []) (5 ∷ 6 ∷ 7 ∷ [])) ≡ ErrValue fault.Rank }
    ensures more_than_axes { amend (boxes_in [] ((numbers_in (2 ∷ []) (0 ∷ 0 ∷ [])) ∷ [])) (numbers_in [] (9 ∷ [])) (numbers_in (3 ∷ []) (5 ∷ 6 ∷ 7 ∷ [])) ≡ ErrValue fault.Length }
    ensures box_into_atom { amend (boxes_in [] ((numbers_in [] (0 ∷ [])) ∷ [])) (numbers_in [] (9 ∷ [])) (numbers_in [] (5 ∷ [])) ≡ ErrValue fault.Length }
    ensures length_before_index { amend (numbers_in [] (5 ∷ [])) (numbers_in (2 ∷ []) (1 ∷ 2 ∷ [])) (numbers_in (3 ∷ []) (5 ∷ 6 ∷ 7 ∷ [])) ≡ ErrValue fault.Length }
    ensures list_of_one_for_an_atom { amend (numbers_in [] (1 ∷ [])) (numbers_in (1 ∷ []) (9 ∷ [])) (numbers_in (3 ∷ []) (5 ∷ 6 ∷ 7 ∷ [])) ≡ ErrValue fault.Length }
    ensures front_of_the_shape { amend (numbers_in (2 ∷ []) (0 ∷ 1 ∷ [])) (numbers_in (2 ∷ []) (8 ∷ 9 ∷ [])) (numbers_in (2 ∷ 3 ∷ []) (1 ∷ 2 ∷ 3 ∷ 4 ∷ 5 ∷ 6 ∷ [])) ≡ ErrValue fault.Length }
    ensures no_characters_and_a_row { amend (bytes_in (0 ∷ []) []) (numbers_in (3 ∷ []) (7 ∷ 8 ∷ 9 ∷ [])) (numbers_in (2 ∷ 3 ∷ []) (1 ∷ 2 ∷ 3 ∷ 4 ∷ 5 ∷ 6 ∷ [])) ≡ ErrValue fault.Length }
    ensures no_indices_and_no_items { amend (numbers_in (0 ∷ []) []) (numbers_in (3 ∷ []) (7 ∷ 8 ∷ 9 ∷ [])) (numbers_in (0 ∷ 3 ∷ []) []) ≡ ErrValue fault.Length }
    ensures shapes_of_boxes_before_index { amend (boxes_in (2 ∷ []) ((numbers_in (1 ∷ []) (5 ∷ [])) ∷ (numbers_in (2 ∷ []) (1 ∷ 2 ∷ [])) ∷ [])) (numbers_in (2 ∷ []) (8 ∷ 9 ∷ [])) (numbers_in (2 ∷ 3 ∷ []) (1 ∷ 2 ∷ 3 ∷ 4 ∷ 5 ∷ 6 ∷ [])) ≡ ErrValue fault.Length }
    ensures too_great { amend (numbers_in [] (3 ∷ [])) (numbers_in [] (9 ∷ [])) (numbers_in (3 ∷ []) (5 ∷ 6 ∷ 7 ∷ [])) ≡ ErrValue fault.Index }
    ensures too_small { amend (numbers (negsuc 3 ∷ [])) (numbers_in [] (9 ∷ [])) (numbers_in (3 ∷ []) (5 ∷ 6 ∷ 7 ∷ [])) ≡ ErrValue fault.Index }
    ensures second_index { amend (numbers_in (2 ∷ []) (0 ∷ 5 ∷ [])) (numbers_in (2 ∷ []) (1 ∷ 2 ∷ [])) (numbers_in (3 ∷ []) (5 ∷ 6 ∷ 7 ∷ [])) ≡ ErrValue fault.Index }
    ensures index_in_box { amend (boxes_in [] ((numbers_in (2 ∷ []) (2 ∷ 0 ∷ [])) ∷ [])) (numbers_in [] (9 ∷ [])) (numbers_in (2 ∷ 3 ∷ []) (1 ∷ 2 ∷ 3 ∷ 4 ∷ 5 ∷ 6 ∷ [])) ≡ ErrValue fault.Index }
    ensures no_such_item { amend (numbers_in [] (0 ∷ [])) (numbers_in [] (9 ∷ [])) (numbers_in (0 ∷ []) []) ≡ ErrValue fault.Index }
    ensures index_before_limit { amend (numbers_in (1 ∷ 1 ∷ 1 ∷ 1 ∷ 1 ∷ 1 ∷ 1 ∷ 1 ∷ 1 ∷ 1 ∷ 1 ∷ 1 ∷ 1 ∷ 1 ∷ 1 ∷ 1 ∷ 1 ∷ 1 ∷ 1 ∷ 1 ∷ 1 ∷ 1 ∷ 1 ∷ 1 ∷ 1 ∷ 1 ∷ 1 ∷ 1 ∷ 1 ∷ 1 ∷ 1 ∷ 1 ∷ []) (5 ∷ [])) (numbers_in [] (9 ∷ [])) (numbers_in (2 ∷ 3 ∷ []) (1 ∷ 2 ∷ 3 ∷ 4 ∷ 5 ∷ 6 ∷ [])) ≡ ErrValue fault.Index }
    ensures too_many_axes { amend (numbers_in (1 ∷ 1 ∷ 1 ∷ 1 ∷ 1 ∷ 1 ∷ 1 ∷ 1 ∷ 1 ∷ 1 ∷ 1 ∷ 1 ∷ 1 ∷ 1 ∷ 1 ∷ 1 ∷ 1 ∷ 1 ∷ 1 ∷ 1 ∷ 1 ∷ 1 ∷ 1 ∷ 1 ∷ 1 ∷ 1 ∷ 1 ∷ 1 ∷ 1 ∷ 1 ∷ 1 ∷ 1 ∷ []) (1 ∷ [])) (numbers_in [] (9 ∷ [])) (numbers_in (2 ∷ 3 ∷ []) (1 ∷ 2 ∷ 3 ∷ 4 ∷ 5 ∷ 6 ∷ [])) ≡ ErrValue fault.Limit }
    ensures too_many_axes_of_none { amend (numbers_in (0 ∷ 1 ∷ 1 ∷ 1 ∷ 1 ∷ 1 ∷ 1 ∷ 1 ∷ 1 ∷ 1 ∷ 1 ∷ 1 ∷ 1 ∷ 1 ∷ 1 ∷ 1 ∷ 1 ∷ 1 ∷ 1 ∷ 1 ∷ 1 ∷ 1 ∷ 1 ∷ 1 ∷ 1 ∷ 1 ∷ 1 ∷ 1 ∷ 1 ∷ 1 ∷ 1 ∷ 1 ∷ []) []) (numbers_in [] (9 ∷ [])) (numbers_in (2 ∷ 3 ∷ []) (1 ∷ 2 ∷ 3 ∷ 4 ∷ 5 ∷ 6 ∷ [])) ≡ ErrValue fault.Limit }
{}
