// Shapes and axes worked out by hand.
ghost use Rattle.std.specs.Prelude.{◌≡◌, ℕ, List, [], ◌∷◌, ◌++◌, drop, map, replicate, pos, negsuc};
ghost use Rattle.j_definitions.specs.Array.{Array};
ghost use Rattle.j_definitions.specs.Cells.{in_order};
ghost use Rattle.j_definitions.specs.declared.Fault.TheVariants as fault;
ghost use Rattle.j_rank.specs.Rows.{numbers_in, bytes_in, boxes_in};
ghost use Rattle.j_reshaping.specs.AxisRows.{integers_in};
ghost use Rattle.j_reshaping.specs.Axes.{places, transpose, transpose_by};
ghost use Rattle.j_reshaping.specs.Reshaping.{length_of, reshape};

/// Laws: the dyad of `$` worked out by hand.
pub fn worked_reshapes()
    ensures list_by_atom { reshape (numbers_in [] (3 ∷ [])) (numbers_in (2 ∷ []) (7 ∷ 8 ∷ [])) ≡ Ok (numbers_in (3 ∷ []) (7 ∷ 8 ∷ 7 ∷ [])) }
    ensures list_by_one { reshape (numbers_in (1 ∷ []) (3 ∷ [])) (numbers_in (2 ∷ []) (7 ∷ 8 ∷ [])) ≡ Ok (numbers_in (3 ∷ []) (7 ∷ 8 ∷ 7 ∷ [])) }
    ensures table { reshape (numbers_in (2 ∷ []) (2 ∷ 3 ∷ [])) (numbers_in (4 ∷ []) (1 ∷ 2 ∷ 3 ∷ 4 ∷ [])) ≡ Ok (numbers_in (2 ∷ 3 ∷ []) (1 ∷ 2 ∷ 3 ∷ 4 ∷ 1 ∷ 2 ∷ [])) }
    ensures fewer { reshape (numbers_in [] (2 ∷ [])) (bytes_in (3 ∷ []) (97 ∷ 98 ∷ 99 ∷ [])) ≡ Ok (bytes_in (2 ∷ []) (97 ∷ 98 ∷ [])) }
    ensures atom { reshape (numbers_in (2 ∷ []) (2 ∷ 2 ∷ [])) (numbers_in [] (5 ∷ [])) ≡ Ok (numbers_in (2 ∷ 2 ∷ []) (5 ∷ 5 ∷ 5 ∷ 5 ∷ [])) }
    ensures items_of_table { reshape (numbers_in [] (3 ∷ [])) (numbers_in (2 ∷ 3 ∷ []) (1 ∷ 2 ∷ 3 ∷ 4 ∷ 5 ∷ 6 ∷ [])) ≡ Ok (numbers_in (3 ∷ 3 ∷ []) (1 ∷ 2 ∷ 3 ∷ 4 ∷ 5 ∷ 6 ∷ 1 ∷ 2 ∷ 3 ∷ [])) }
    ensures items_of_rank_two { reshape (numbers_in (2 ∷ []) (1 ∷ 1 ∷ [])) (numbers_in (2 ∷ 3 ∷ 2 ∷ []) (1 ∷ 2 ∷ 3 ∷ 4 ∷ 5 ∷ 6 ∷ 7 ∷ 8 ∷ 9 ∷ 10 ∷ 11 ∷ 12 ∷ [])) ≡ Ok (numbers_in (1 ∷ 1 ∷ 3 ∷ 2 ∷ []) (1 ∷ 2 ∷ 3 ∷ 4 ∷ 5 ∷ 6 ∷ [])) }
    ensures boxes { reshape (numbers_in [] (3 ∷ [])) (boxes_in (2 ∷ []) (numbers_in [] (1 ∷ []) ∷ bytes_in (1 ∷ []) (65 ∷ []) ∷ [])) ≡ Ok (boxes_in (3 ∷ []) (numbers_in [] (1 ∷ []) ∷ bytes_in (1 ∷ []) (65 ∷ []) ∷ numbers_in [] (1 ∷ []) ∷ [])) }
    ensures no_lengths { reshape (numbers_in (0 ∷ []) []) (numbers_in (2 ∷ []) (7 ∷ 8 ∷ [])) ≡ Ok (numbers_in [] (7 ∷ [])) }
    ensures no_lengths_of_characters { reshape (bytes_in (0 ∷ []) []) (numbers_in (2 ∷ 2 ∷ []) (1 ∷ 2 ∷ 3 ∷ 4 ∷ [])) ≡ Ok (numbers_in (2 ∷ []) (1 ∷ 2 ∷ [])) }
    ensures no_lengths_of_boxes { reshape (boxes_in (0 ∷ []) []) (bytes_in [] (65 ∷ [])) ≡ Ok (bytes_in [] (65 ∷ [])) }
    ensures none_needed { reshape (numbers_in (2 ∷ []) (2 ∷ 0 ∷ [])) (bytes_in (0 ∷ 3 ∷ []) []) ≡ Ok (bytes_in (2 ∷ 0 ∷ 3 ∷ []) []) }
    ensures none_taken { reshape (numbers_in [] (0 ∷ [])) (numbers_in (2 ∷ []) (7 ∷ 8 ∷ [])) ≡ Ok (numbers_in (0 ∷ []) []) }
    ensures items_without_atoms { reshape (numbers_in [] (4 ∷ [])) (numbers_in (3 ∷ 0 ∷ []) []) ≡ Ok (numbers_in (4 ∷ 0 ∷ []) []) }
    ensures no_items { reshape (numbers_in [] (2 ∷ [])) (numbers_in (0 ∷ []) []) ≡ Err fault.Length }
    ensures no_items_of_no_atoms { reshape (numbers_in [] (2 ∷ [])) (numbers_in (0 ∷ 0 ∷ []) []) ≡ Err fault.Length }
    ensures no_first_item { reshape (numbers_in (0 ∷ []) []) (bytes_in (0 ∷ []) []) ≡ Err fault.Length }
    ensures minus { reshape (integers_in (2 ∷ []) (pos 2 ∷ negsuc 0 ∷ [])) (numbers_in [] (5 ∷ [])) ≡ Err fault.Domain }
    ensures minus_before_length { reshape (integers_in (2 ∷ []) (pos 2 ∷ negsuc 4 ∷ [])) (numbers_in (0 ∷ []) []) ≡ Err fault.Domain }
    ensures characters { reshape (bytes_in (1 ∷ []) (50 ∷ [])) (numbers_in [] (5 ∷ [])) ≡ Err fault.Domain }
    ensures boxed { reshape (boxes_in [] (numbers_in [] (2 ∷ []) ∷ [])) (numbers_in [] (5 ∷ [])) ≡ Err fault.Domain }
    ensures length_before_limit { reshape (numbers_in (2 ∷ []) (9223372036854775807 ∷ 9223372036854775807 ∷ [])) (numbers_in (0 ∷ []) []) ≡ Err fault.Length }
    ensures many_axes { reshape (numbers_in (33 ∷ []) (replicate 33 1)) (numbers_in [] (5 ∷ [])) ≡ Err fault.Limit }
    ensures most_axes { reshape (numbers_in (32 ∷ []) (replicate 32 1)) (numbers_in [] (5 ∷ [])) ≡ Ok (numbers_in (replicate 32 1) (5 ∷ [])) }
    ensures long_axis_without_atoms { reshape (numbers_in (2 ∷ []) (0 ∷ 4194305 ∷ [])) (numbers_in [] (5 ∷ [])) ≡ Err fault.Limit }
    ensures longest_axis_without_atoms { reshape (numbers_in (2 ∷ []) (0 ∷ 4194304 ∷ [])) (numbers_in [] (5 ∷ [])) ≡ Ok (numbers_in (0 ∷ 4194304 ∷ []) []) }
{}

/// Law: the shape of `x $ y` is x, followed by the item's shape.
pub fn reshaping_laws()
    ensures { (x y r : Array) (s : List ℕ) → in_order (map length_of x.atoms) ≡ Ok s → reshape x y ≡ Ok r → r.shape ≡ s ++ drop 1 y.shape }
{}

/// Laws: `|:` worked out by hand.
pub fn worked_transpositions()
    ensures table { transpose (numbers_in (2 ∷ 3 ∷ []) (1 ∷ 2 ∷ 3 ∷ 4 ∷ 5 ∷ 6 ∷ [])) ≡ Ok (numbers_in (3 ∷ 2 ∷ []) (1 ∷ 4 ∷ 2 ∷ 5 ∷ 3 ∷ 6 ∷ [])) }
    ensures rank_three { transpose (numbers_in (2 ∷ 3 ∷ 2 ∷ []) (1 ∷ 2 ∷ 3 ∷ 4 ∷ 5 ∷ 6 ∷ 7 ∷ 8 ∷ 9 ∷ 10 ∷ 11 ∷ 12 ∷ [])) ≡ Ok (numbers_in (2 ∷ 3 ∷ 2 ∷ []) (1 ∷ 7 ∷ 3 ∷ 9 ∷ 5 ∷ 11 ∷ 2 ∷ 8 ∷ 4 ∷ 10 ∷ 6 ∷ 12 ∷ [])) }
    ensures list { transpose (bytes_in (3 ∷ []) (97 ∷ 98 ∷ 99 ∷ [])) ≡ Ok (bytes_in (3 ∷ []) (97 ∷ 98 ∷ 99 ∷ [])) }
    ensures atom { transpose (numbers_in [] (5 ∷ [])) ≡ Ok (numbers_in [] (5 ∷ [])) }
    ensures no_rows { transpose (bytes_in (0 ∷ 3 ∷ []) []) ≡ Ok (bytes_in (3 ∷ 0 ∷ []) []) }
    ensures no_columns { transpose (numbers_in (3 ∷ 0 ∷ []) []) ≡ Ok (numbers_in (0 ∷ 3 ∷ []) []) }
    ensures boxes { transpose (boxes_in (1 ∷ 2 ∷ []) (numbers_in [] (1 ∷ []) ∷ bytes_in (1 ∷ []) (65 ∷ []) ∷ [])) ≡ Ok (boxes_in (2 ∷ 1 ∷ []) (numbers_in [] (1 ∷ []) ∷ bytes_in (1 ∷ []) (65 ∷ []) ∷ [])) }
    ensures first_last { transpose_by (numbers_in [] (0 ∷ [])) (numbers_in (2 ∷ 3 ∷ []) (1 ∷ 2 ∷ 3 ∷ 4 ∷ 5 ∷ 6 ∷ [])) ≡ Ok (numbers_in (3 ∷ 2 ∷ []) (1 ∷ 4 ∷ 2 ∷ 5 ∷ 3 ∷ 6 ∷ [])) }
    ensures last_as_it_is { transpose_by (numbers_in (1 ∷ []) (1 ∷ [])) (numbers_in (2 ∷ 3 ∷ []) (1 ∷ 2 ∷ 3 ∷ 4 ∷ 5 ∷ 6 ∷ [])) ≡ Ok (numbers_in (2 ∷ 3 ∷ []) (1 ∷ 2 ∷ 3 ∷ 4 ∷ 5 ∷ 6 ∷ [])) }
    ensures in_their_order { transpose_by (numbers_in (2 ∷ []) (2 ∷ 0 ∷ [])) (numbers_in (2 ∷ 3 ∷ 1 ∷ []) (1 ∷ 2 ∷ 3 ∷ 4 ∷ 5 ∷ 6 ∷ [])) ≡ Ok (numbers_in (3 ∷ 1 ∷ 2 ∷ []) (1 ∷ 4 ∷ 2 ∷ 5 ∷ 3 ∷ 6 ∷ [])) }
    ensures middle_last { transpose_by (numbers_in [] (1 ∷ [])) (numbers_in (2 ∷ 3 ∷ 2 ∷ []) (1 ∷ 2 ∷ 3 ∷ 4 ∷ 5 ∷ 6 ∷ 7 ∷ 8 ∷ 9 ∷ 10 ∷ 11 ∷ 12 ∷ [])) ≡ Ok (numbers_in (2 ∷ 2 ∷ 3 ∷ []) (1 ∷ 3 ∷ 5 ∷ 2 ∷ 4 ∷ 6 ∷ 7 ∷ 9 ∷ 11 ∷ 8 ∷ 10 ∷ 12 ∷ [])) }
    ensures from_the_end { transpose_by (integers_in [] (negsuc 1 ∷ [])) (numbers_in (2 ∷ 3 ∷ []) (1 ∷ 2 ∷ 3 ∷ 4 ∷ 5 ∷ 6 ∷ [])) ≡ Ok (numbers_in (3 ∷ 2 ∷ []) (1 ∷ 4 ∷ 2 ∷ 5 ∷ 3 ∷ 6 ∷ [])) }
    ensures none_moved { transpose_by (bytes_in (0 ∷ []) []) (numbers_in (2 ∷ 3 ∷ []) (1 ∷ 2 ∷ 3 ∷ 4 ∷ 5 ∷ 6 ∷ [])) ≡ Ok (numbers_in (2 ∷ 3 ∷ []) (1 ∷ 2 ∷ 3 ∷ 4 ∷ 5 ∷ 6 ∷ [])) }
    ensures no_rows_by { transpose_by (numbers_in [] (0 ∷ [])) (bytes_in (0 ∷ 3 ∷ []) []) ≡ Ok (bytes_in (3 ∷ 0 ∷ []) []) }
    ensures repeated { transpose_by (numbers_in (2 ∷ []) (1 ∷ 1 ∷ [])) (numbers_in (2 ∷ 3 ∷ []) (1 ∷ 2 ∷ 3 ∷ 4 ∷ 5 ∷ 6 ∷ [])) ≡ Err fault.Domain }
    ensures repeated_from_the_end { transpose_by (integers_in (2 ∷ []) (pos 0 ∷ negsuc 1 ∷ [])) (numbers_in (2 ∷ 3 ∷ []) (1 ∷ 2 ∷ 3 ∷ 4 ∷ 5 ∷ 6 ∷ [])) ≡ Err fault.Domain }
    ensures repeated_before_missing { transpose_by (numbers_in (3 ∷ []) (0 ∷ 5 ∷ 5 ∷ [])) (numbers_in (2 ∷ 3 ∷ []) (1 ∷ 2 ∷ 3 ∷ 4 ∷ 5 ∷ 6 ∷ [])) ≡ Err fault.Domain }
    ensures missing { transpose_by (numbers_in [] (2 ∷ [])) (numbers_in (2 ∷ 3 ∷ []) (1 ∷ 2 ∷ 3 ∷ 4 ∷ 5 ∷ 6 ∷ [])) ≡ Err fault.Index }
    ensures missing_from_the_end { transpose_by (integers_in [] (negsuc 2 ∷ [])) (numbers_in (2 ∷ 3 ∷ []) (1 ∷ 2 ∷ 3 ∷ 4 ∷ 5 ∷ 6 ∷ [])) ≡ Err fault.Index }
    ensures least_from_the_end { transpose_by (integers_in [] (negsuc 9223372036854775807 ∷ [])) (numbers_in (2 ∷ []) (1 ∷ 2 ∷ [])) ≡ Err fault.Index }
    ensures no_axes { transpose_by (numbers_in [] (0 ∷ [])) (numbers_in [] (5 ∷ [])) ≡ Err fault.Index }
    ensures characters { transpose_by (bytes_in [] (48 ∷ [])) (numbers_in (2 ∷ []) (1 ∷ 2 ∷ [])) ≡ Err fault.Domain }
    ensures boxed { transpose_by (boxes_in [] (numbers_in [] (0 ∷ []) ∷ [])) (numbers_in (2 ∷ []) (1 ∷ 2 ∷ [])) ≡ Err fault.Domain }
{}
