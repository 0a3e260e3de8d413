// Integers, copies and items at indices, worked out by hand.
ghost use Rattle.std.specs.Prelude.{◌≡◌, [], ◌∷◌, pos, negsuc, Ok as OkValue, Err as ErrValue};
ghost use Rattle.j_definitions.specs.Array.{number, atom_array};
ghost use Rattle.j_definitions.specs.declared.Kind.TheVariants.{Number as NumberKind};
ghost use Rattle.j_definitions.specs.declared.Fault.TheVariants as fault;
ghost use Rattle.j_noun.specs.Rows.{numbers};
ghost use Rattle.j_rank.specs.Rows.{numbers_in, bytes_in, boxes_in};
ghost use Rattle.j_indices.specs.Selecting.{copy};
ghost use Rattle.j_indices.specs.Indexing.{from, from_list};
ghost use Rattle.j_indices.specs.Counting.{integers, steps_around, indices_of_ones};

/// Laws: numbers in order, worked out by hand.
pub fn worked_counting()
    ensures integers_of_atom { integers (numbers_in [] (5 ∷ [])) ≡ OkValue (numbers_in (5 ∷ []) (0 ∷ 1 ∷ 2 ∷ 3 ∷ 4 ∷ [])) }
    ensures integers_of_one { integers (numbers_in (1 ∷ []) (3 ∷ [])) ≡ OkValue (numbers_in (3 ∷ []) (0 ∷ 1 ∷ 2 ∷ [])) }
    ensures integers_of_two { integers (numbers (pos 2 ∷ pos 3 ∷ [])) ≡ OkValue (numbers_in (2 ∷ 3 ∷ []) (0 ∷ 1 ∷ 2 ∷ 3 ∷ 4 ∷ 5 ∷ [])) }
    ensures integers_of_three { integers (numbers (pos 2 ∷ pos 1 ∷ pos 2 ∷ [])) ≡ OkValue (numbers_in (2 ∷ 1 ∷ 2 ∷ []) (0 ∷ 1 ∷ 2 ∷ 3 ∷ [])) }
    ensures last_axis_reversed { integers (numbers (pos 2 ∷ negsuc 2 ∷ [])) ≡ OkValue (numbers_in (2 ∷ 3 ∷ []) (2 ∷ 1 ∷ 0 ∷ 5 ∷ 4 ∷ 3 ∷ [])) }
    ensures first_axis_reversed { integers (numbers (negsuc 1 ∷ pos 3 ∷ [])) ≡ OkValue (numbers_in (2 ∷ 3 ∷ []) (3 ∷ 4 ∷ 5 ∷ 0 ∷ 1 ∷ 2 ∷ [])) }
    ensures both_axes_reversed { integers (numbers (negsuc 1 ∷ negsuc 1 ∷ [])) ≡ OkValue (numbers_in (2 ∷ 2 ∷ []) (3 ∷ 2 ∷ 1 ∷ 0 ∷ [])) }
    ensures integers_of_minus_one { integers (numbers (negsuc 0 ∷ [])) ≡ OkValue (numbers_in (1 ∷ []) (0 ∷ [])) }
    ensures integers_of_zero { integers (numbers_in [] (0 ∷ [])) ≡ OkValue (numbers_in (0 ∷ []) []) }
    ensures integers_without_rows { integers (numbers (pos 0 ∷ pos 3 ∷ [])) ≡ OkValue (numbers_in (0 ∷ 3 ∷ []) []) }
    ensures integers_without_columns { integers (numbers (pos 3 ∷ pos 0 ∷ [])) ≡ OkValue (numbers_in (3 ∷ 0 ∷ []) []) }
    ensures integers_of_nothing { integers (numbers_in (0 ∷ []) []) ≡ OkValue (numbers_in [] (0 ∷ [])) }
    ensures integers_of_no_characters { integers (bytes_in (0 ∷ []) []) ≡ OkValue (numbers_in [] (0 ∷ [])) }
    ensures integers_of_no_boxes { integers (boxes_in (0 ∷ []) []) ≡ OkValue (numbers_in [] (0 ∷ [])) }
    ensures integers_of_characters { integers (bytes_in (2 ∷ []) (65 ∷ 66 ∷ [])) ≡ ErrValue fault.Domain }
    ensures integers_of_boxes { integers (boxes_in [] (numbers_in [] (1 ∷ []) ∷ [])) ≡ ErrValue fault.Domain }
    ensures integers_beyond { integers (numbers (pos 4194305 ∷ pos 0 ∷ [])) ≡ ErrValue fault.Limit }
    ensures integers_of_least { integers (numbers (pos 0 ∷ negsuc 9223372036854775807 ∷ [])) ≡ ErrValue fault.Limit }
    ensures steps { steps_around (numbers_in [] (2 ∷ [])) ≡ OkValue (numbers (negsuc 1 ∷ negsuc 0 ∷ pos 0 ∷ pos 1 ∷ pos 2 ∷ [])) }
    ensures steps_of_zero { steps_around (numbers_in [] (0 ∷ [])) ≡ OkValue (numbers_in (1 ∷ []) (0 ∷ [])) }
    ensures steps_down { steps_around (atom_array NumberKind (number (negsuc 1))) ≡ OkValue (numbers (pos 2 ∷ pos 1 ∷ pos 0 ∷ negsuc 0 ∷ negsuc 1 ∷ [])) }
    ensures steps_of_least { steps_around (atom_array NumberKind (number (negsuc 9223372036854775807))) ≡ ErrValue fault.Overflow }
    ensures steps_of_character { steps_around (bytes_in [] (65 ∷ [])) ≡ ErrValue fault.Domain }
    ensures steps_of_box { steps_around (boxes_in [] (numbers_in [] (1 ∷ []) ∷ [])) ≡ ErrValue fault.Domain }
    ensures indices { indices_of_ones (numbers_in (4 ∷ []) (0 ∷ 1 ∷ 0 ∷ 1 ∷ [])) ≡ OkValue (numbers_in (2 ∷ []) (1 ∷ 3 ∷ [])) }
    ensures indices_repeated { indices_of_ones (numbers_in (3 ∷ []) (2 ∷ 0 ∷ 3 ∷ [])) ≡ OkValue (numbers_in (5 ∷ []) (0 ∷ 0 ∷ 2 ∷ 2 ∷ 2 ∷ [])) }
    ensures indices_of_atom { indices_of_ones (numbers_in [] (2 ∷ [])) ≡ OkValue (numbers_in (2 ∷ []) (0 ∷ 0 ∷ [])) }
    ensures indices_of_nothing { indices_of_ones (bytes_in (0 ∷ []) []) ≡ OkValue (numbers_in (0 ∷ []) []) }
    ensures indices_of_negative { indices_of_ones (numbers (pos 9223372036854775807 ∷ negsuc 0 ∷ [])) ≡ ErrValue fault.Domain }
    ensures indices_of_characters { indices_of_ones (bytes_in (1 ∷ []) (65 ∷ [])) ≡ ErrValue fault.Domain }
    ensures indices_of_boxes { indices_of_ones (boxes_in (1 ∷ []) (numbers_in [] (1 ∷ []) ∷ [])) ≡ ErrValue fault.Domain }
{}

/// Laws: items that counts copy, worked out by hand.
pub fn worked_copies()
    ensures mask { copy (numbers_in (3 ∷ []) (0 ∷ 1 ∷ 1 ∷ [])) (numbers_in (3 ∷ []) (7 ∷ 8 ∷ 9 ∷ [])) ≡ OkValue (numbers_in (2 ∷ []) (8 ∷ 9 ∷ [])) }
    ensures counts { copy (numbers_in (3 ∷ []) (2 ∷ 0 ∷ 3 ∷ [])) (bytes_in (3 ∷ []) (65 ∷ 66 ∷ 67 ∷ [])) ≡ OkValue (bytes_in (5 ∷ []) (65 ∷ 65 ∷ 67 ∷ 67 ∷ 67 ∷ [])) }
    ensures boxes { copy (numbers_in (2 ∷ []) (1 ∷ 2 ∷ [])) (boxes_in (2 ∷ []) (numbers_in [] (7 ∷ []) ∷ bytes_in [] (65 ∷ []) ∷ [])) ≡ OkValue (boxes_in (3 ∷ []) (numbers_in [] (7 ∷ []) ∷ bytes_in [] (65 ∷ []) ∷ bytes_in [] (65 ∷ []) ∷ [])) }
    ensures rows { copy (numbers_in (2 ∷ []) (0 ∷ 2 ∷ [])) (numbers_in (2 ∷ 3 ∷ []) (1 ∷ 2 ∷ 3 ∷ 4 ∷ 5 ∷ 6 ∷ [])) ≡ OkValue (numbers_in (2 ∷ 3 ∷ []) (4 ∷ 5 ∷ 6 ∷ 4 ∷ 5 ∷ 6 ∷ [])) }
    ensures tables { copy (numbers_in (2 ∷ []) (1 ∷ 0 ∷ [])) (numbers_in (2 ∷ 3 ∷ 2 ∷ []) (1 ∷ 2 ∷ 3 ∷ 4 ∷ 5 ∷ 6 ∷ 7 ∷ 8 ∷ 9 ∷ 10 ∷ 11 ∷ 12 ∷ [])) ≡ OkValue (numbers_in (1 ∷ 3 ∷ 2 ∷ []) (1 ∷ 2 ∷ 3 ∷ 4 ∷ 5 ∷ 6 ∷ [])) }
    ensures one_count_for_all { copy (numbers_in [] (2 ∷ [])) (numbers_in (2 ∷ []) (7 ∷ 8 ∷ [])) ≡ OkValue (numbers_in (4 ∷ []) (7 ∷ 7 ∷ 8 ∷ 8 ∷ [])) }
    ensures one_item_for_all { copy (numbers_in (2 ∷ []) (1 ∷ 2 ∷ [])) (numbers_in [] (5 ∷ [])) ≡ OkValue (numbers_in (3 ∷ []) (5 ∷ 5 ∷ 5 ∷ [])) }
    ensures two_atoms { copy (numbers_in [] (3 ∷ [])) (bytes_in [] (65 ∷ [])) ≡ OkValue (bytes_in (3 ∷ []) (65 ∷ 65 ∷ 65 ∷ [])) }
    ensures no_counts_for_an_atom { copy (numbers_in (0 ∷ []) []) (numbers_in [] (5 ∷ [])) ≡ OkValue (numbers_in (0 ∷ []) []) }
    ensures no_characters_as_counts { copy (bytes_in (0 ∷ []) []) (boxes_in (0 ∷ 3 ∷ []) []) ≡ OkValue (boxes_in (0 ∷ 3 ∷ []) []) }
    ensures items_without_atoms { copy (numbers_in (3 ∷ []) (1 ∷ 0 ∷ 1 ∷ [])) (numbers_in (3 ∷ 0 ∷ []) []) ≡ OkValue (numbers_in (2 ∷ 0 ∷ []) []) }
    ensures no_items { copy (numbers_in [] (2 ∷ [])) (numbers_in (0 ∷ 3 ∷ []) []) ≡ OkValue (numbers_in (0 ∷ 3 ∷ []) []) }
    ensures unequal { copy (numbers_in (2 ∷ []) (1 ∷ 1 ∷ [])) (numbers_in (3 ∷ []) (7 ∷ 8 ∷ 9 ∷ [])) ≡ ErrValue fault.Length }
    ensures a_list_of_one_serves_no_others { copy (numbers_in (1 ∷ []) (2 ∷ [])) (numbers_in (3 ∷ []) (7 ∷ 8 ∷ 9 ∷ [])) ≡ ErrValue fault.Length }
    ensures one_item_of_a_list_serves_no_others { copy (numbers_in (2 ∷ []) (1 ∷ 1 ∷ [])) (numbers_in (1 ∷ []) (7 ∷ [])) ≡ ErrValue fault.Length }
    ensures negative_before_length { copy (numbers (pos 1 ∷ negsuc 0 ∷ [])) (numbers_in (3 ∷ []) (7 ∷ 8 ∷ 9 ∷ [])) ≡ ErrValue fault.Domain }
    ensures characters { copy (bytes_in (1 ∷ []) (65 ∷ [])) (numbers_in (1 ∷ []) (7 ∷ [])) ≡ ErrValue fault.Domain }
    ensures boxed_counts { copy (boxes_in (1 ∷ []) (numbers_in [] (1 ∷ []) ∷ [])) (numbers_in (1 ∷ []) (7 ∷ [])) ≡ ErrValue fault.Domain }
{}

/// Laws: items at indices, worked out by hand.
pub fn worked_indices()
    ensures items { from_list (numbers_in (3 ∷ []) (2 ∷ 0 ∷ 1 ∷ [])) (bytes_in (3 ∷ []) (65 ∷ 66 ∷ 67 ∷ [])) ≡ OkValue (bytes_in (3 ∷ []) (67 ∷ 65 ∷ 66 ∷ [])) }
    ensures from_the_end { from_list (numbers (negsuc 0 ∷ negsuc 2 ∷ [])) (numbers_in (3 ∷ []) (7 ∷ 8 ∷ 9 ∷ [])) ≡ OkValue (numbers_in (2 ∷ []) (9 ∷ 7 ∷ [])) }
    ensures one_item { from_list (numbers_in [] (1 ∷ [])) (numbers_in (2 ∷ 3 ∷ []) (1 ∷ 2 ∷ 3 ∷ 4 ∷ 5 ∷ 6 ∷ [])) ≡ OkValue (numbers_in (3 ∷ []) (4 ∷ 5 ∷ 6 ∷ [])) }
    ensures item_of_atom { from_list (numbers_in [] (0 ∷ [])) (numbers_in [] (5 ∷ [])) ≡ OkValue (numbers_in [] (5 ∷ [])) }
    ensures boxed_item { from_list (numbers_in [] (1 ∷ [])) (boxes_in (2 ∷ []) (numbers_in [] (7 ∷ []) ∷ bytes_in [] (65 ∷ []) ∷ [])) ≡ OkValue (boxes_in [] (bytes_in [] (65 ∷ []) ∷ [])) }
    ensures frame_and_item { from_list (numbers_in (1 ∷ 2 ∷ []) (1 ∷ 1 ∷ [])) (numbers_in (2 ∷ 2 ∷ []) (1 ∷ 2 ∷ 3 ∷ 4 ∷ [])) ≡ OkValue (numbers_in (1 ∷ 2 ∷ 2 ∷ []) (3 ∷ 4 ∷ 3 ∷ 4 ∷ [])) }
    ensures items_without_atoms { from_list (numbers_in (2 ∷ []) (2 ∷ 0 ∷ [])) (numbers_in (3 ∷ 0 ∷ []) []) ≡ OkValue (numbers_in (2 ∷ 0 ∷ []) []) }
    ensures no_indices { from_list (numbers_in (0 ∷ []) []) (numbers_in (2 ∷ 3 ∷ []) (1 ∷ 2 ∷ 3 ∷ 4 ∷ 5 ∷ 6 ∷ [])) ≡ OkValue (numbers_in (0 ∷ 3 ∷ []) []) }
    ensures no_indices_and_characters { from_list (numbers_in (3 ∷ 0 ∷ []) []) (bytes_in (1 ∷ []) (65 ∷ [])) ≡ OkValue (bytes_in (3 ∷ 0 ∷ []) []) }
    ensures no_indices_and_no_items { from_list (numbers_in (0 ∷ []) []) (bytes_in (0 ∷ 3 ∷ []) []) ≡ OkValue (numbers_in (0 ∷ []) []) }
    ensures too_great { from_list (numbers_in (2 ∷ []) (0 ∷ 3 ∷ [])) (numbers_in (3 ∷ []) (7 ∷ 8 ∷ 9 ∷ [])) ≡ ErrValue fault.Index }
    ensures too_small { from_list (numbers (negsuc 3 ∷ [])) (numbers_in (3 ∷ []) (7 ∷ 8 ∷ 9 ∷ [])) ≡ ErrValue fault.Index }
    ensures no_such_item { from_list (numbers_in [] (0 ∷ [])) (numbers_in (0 ∷ 3 ∷ []) []) ≡ ErrValue fault.Index }
    ensures index_before_limit { from_list (numbers_in (1 ∷ []) (9223372036854775807 ∷ [])) (numbers_in (2 ∷ []) (1 ∷ 2 ∷ [])) ≡ ErrValue fault.Index }
    ensures characters_as_indices { from_list (bytes_in [] (65 ∷ [])) (numbers_in (2 ∷ []) (1 ∷ 2 ∷ [])) ≡ ErrValue fault.Domain }
{}

/// Laws: one index, worked out by hand.
pub fn worked_index()
    ensures number { from (numbers_in [] (1 ∷ [])) (numbers_in (2 ∷ 3 ∷ []) (1 ∷ 2 ∷ 3 ∷ 4 ∷ 5 ∷ 6 ∷ [])) ≡ OkValue (numbers_in (3 ∷ []) (4 ∷ 5 ∷ 6 ∷ [])) }
    ensures list { from (boxes_in [] (numbers_in (2 ∷ []) (1 ∷ 2 ∷ []) ∷ [])) (numbers_in (2 ∷ 3 ∷ []) (1 ∷ 2 ∷ 3 ∷ 4 ∷ 5 ∷ 6 ∷ [])) ≡ OkValue (numbers_in [] (6 ∷ [])) }
    ensures fewer_than_axes { from (boxes_in [] (numbers_in (1 ∷ []) (1 ∷ []) ∷ [])) (numbers_in (2 ∷ 3 ∷ []) (1 ∷ 2 ∷ 3 ∷ 4 ∷ 5 ∷ 6 ∷ [])) ≡ OkValue (numbers_in (3 ∷ []) (4 ∷ 5 ∷ 6 ∷ [])) }
    ensures number_in_box { from (boxes_in [] (numbers_in [] (0 ∷ []) ∷ [])) (bytes_in (2 ∷ []) (65 ∷ 66 ∷ [])) ≡ OkValue (bytes_in [] (65 ∷ [])) }
    ensures nothing_in_box { from (boxes_in [] (bytes_in (0 ∷ []) [] ∷ [])) (numbers_in (2 ∷ []) (7 ∷ 8 ∷ [])) ≡ OkValue (numbers_in (2 ∷ []) (7 ∷ 8 ∷ [])) }
    ensures nouns { from (boxes_in [] (boxes_in (2 ∷ []) (numbers_in (2 ∷ []) (1 ∷ 0 ∷ []) ∷ numbers_in (2 ∷ []) (0 ∷ 2 ∷ []) ∷ []) ∷ [])) (numbers_in (2 ∷ 3 ∷ []) (1 ∷ 2 ∷ 3 ∷ 4 ∷ 5 ∷ 6 ∷ [])) ≡ OkValue (numbers_in (2 ∷ 2 ∷ []) (4 ∷ 6 ∷ 1 ∷ 3 ∷ [])) }
    ensures shapes_joined { from (boxes_in [] (boxes_in (2 ∷ []) (numbers_in [] (1 ∷ []) ∷ numbers_in (1 ∷ 2 ∷ []) (2 ∷ 0 ∷ []) ∷ []) ∷ [])) (numbers_in (2 ∷ 3 ∷ []) (1 ∷ 2 ∷ 3 ∷ 4 ∷ 5 ∷ 6 ∷ [])) ≡ OkValue (numbers_in (1 ∷ 2 ∷ []) (6 ∷ 4 ∷ [])) }
    ensures one_noun { from (boxes_in [] (boxes_in [] (numbers_in (2 ∷ []) (1 ∷ 1 ∷ []) ∷ []) ∷ [])) (bytes_in (2 ∷ 2 ∷ []) (65 ∷ 66 ∷ 67 ∷ 68 ∷ [])) ≡ OkValue (bytes_in (2 ∷ 2 ∷ []) (67 ∷ 68 ∷ 67 ∷ 68 ∷ [])) }
    ensures no_indices { from (boxes_in [] (boxes_in (1 ∷ []) (bytes_in (0 ∷ []) [] ∷ []) ∷ [])) (numbers_in (2 ∷ 3 ∷ []) (1 ∷ 2 ∷ 3 ∷ 4 ∷ 5 ∷ 6 ∷ [])) ≡ OkValue (numbers_in (0 ∷ 3 ∷ []) []) }
    ensures item_of_atom { from (numbers_in [] (0 ∷ [])) (numbers_in [] (5 ∷ [])) ≡ OkValue (numbers_in [] (5 ∷ [])) }
    ensures box_into_atom { from (boxes_in [] (numbers_in [] (0 ∷ []) ∷ [])) (numbers_in [] (5 ∷ [])) ≡ ErrValue fault.Length }
    ensures more_than_axes { from (boxes_in [] (numbers_in (3 ∷ []) (0 ∷ 0 ∷ 0 ∷ []) ∷ [])) (numbers_in (2 ∷ 3 ∷ []) (1 ∷ 2 ∷ 3 ∷ 4 ∷ 5 ∷ 6 ∷ [])) ≡ ErrValue fault.Length }
    ensures length_before_index { from (boxes_in [] (numbers_in (3 ∷ []) (9 ∷ 0 ∷ 0 ∷ []) ∷ [])) (numbers_in (2 ∷ 3 ∷ []) (1 ∷ 2 ∷ 3 ∷ 4 ∷ 5 ∷ 6 ∷ [])) ≡ ErrValue fault.Length }
    ensures second_index { from (boxes_in [] (numbers_in (2 ∷ []) (1 ∷ 3 ∷ []) ∷ [])) (numbers_in (2 ∷ 3 ∷ []) (1 ∷ 2 ∷ 3 ∷ 4 ∷ 5 ∷ 6 ∷ [])) ≡ ErrValue fault.Index }
    ensures table_in_box { from (boxes_in [] (numbers_in (1 ∷ 1 ∷ []) (0 ∷ []) ∷ [])) (numbers_in (2 ∷ []) (7 ∷ 8 ∷ [])) ≡ ErrValue fault.Rank }
    ensures characters_in_box { from (boxes_in [] (bytes_in (1 ∷ []) (65 ∷ []) ∷ [])) (numbers_in (2 ∷ []) (7 ∷ 8 ∷ [])) ≡ ErrValue fault.Domain }
    ensures character { from (bytes_in [] (65 ∷ [])) (numbers_in (2 ∷ []) (7 ∷ 8 ∷ [])) ≡ ErrValue fault.Domain }
    ensures box_in_boxes_before_characters { from (boxes_in [] (boxes_in (2 ∷ []) (bytes_in [] (65 ∷ []) ∷ boxes_in [] (numbers_in [] (0 ∷ []) ∷ []) ∷ []) ∷ [])) (numbers_in (2 ∷ []) (7 ∷ 8 ∷ [])) ≡ ErrValue fault.Nonce }
{}
