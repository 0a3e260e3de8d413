// Verbs that keep items and axes in other places, worked out by hand.
ghost use Rattle.std.specs.Prelude.{◌≡◌, ◌<◌, ◌≤◌, ◌∷◌, ◌++◌, [], ℕ, ℤ, List, length, pos, Ok as OkValue, Err as ErrValue};
ghost use Rattle.j_definitions.specs.Array.{Array, Atom, IsNoun};
ghost use Rattle.j_definitions.specs.declared.Fault.TheVariants.{Domain, Length, Limit};
ghost use Rattle.j_rank.specs.Rows.{numbers_in, bytes_in, boxes_in};
ghost use Rattle.j_places.specs.ItemPlaces as item;
ghost use Rattle.j_places.specs.AxisPlaces as axis;
ghost use Rattle.j_places.specs.PlaceRows.{list_of, minus, table, block, list, text, no_items, no_rows, no_columns};

/// Laws: shapes, tallies and ravels, worked out by hand.
pub fn worked_ravels()
    ensures shape_of_atom { item.shape_of (numbers_in [] (5 ∷ [])) ≡ OkValue no_items }
    ensures shape_of_list { item.shape_of text ≡ OkValue (list_of (pos 3 ∷ [])) }
    ensures shape_of_block { item.shape_of block ≡ OkValue (list_of (pos 2 ∷ pos 3 ∷ pos 2 ∷ [])) }
    ensures shape_without_rows { item.shape_of no_rows ≡ OkValue (list_of (pos 0 ∷ pos 3 ∷ [])) }
    ensures tally_of_atom { item.tally_of (bytes_in [] (65 ∷ [])) ≡ OkValue (numbers_in [] (1 ∷ [])) }
    ensures tally_of_block { item.tally_of block ≡ OkValue (numbers_in [] (2 ∷ [])) }
    ensures tally_without_items { item.tally_of no_rows ≡ OkValue (numbers_in [] (0 ∷ [])) }
    ensures tally_without_columns { item.tally_of no_columns ≡ OkValue (numbers_in [] (3 ∷ [])) }
    ensures ravel_of_atom { item.ravel (numbers_in [] (5 ∷ [])) ≡ OkValue (numbers_in (1 ∷ []) (5 ∷ [])) }
    ensures ravel_of_table { item.ravel table ≡ OkValue (numbers_in (6 ∷ []) (0 ∷ 1 ∷ 2 ∷ 3 ∷ 4 ∷ 5 ∷ [])) }
    ensures ravel_of_list { item.ravel text ≡ OkValue text }
    ensures ravel_without_atoms { item.ravel no_columns ≡ OkValue (bytes_in (0 ∷ []) []) }
    ensures ravel_of_boxes { item.ravel (boxes_in (1 ∷ 2 ∷ []) (list ∷ text ∷ [])) ≡ OkValue (boxes_in (2 ∷ []) (list ∷ text ∷ [])) }
    ensures items_of_atom { item.ravel_items (numbers_in [] (5 ∷ [])) ≡ OkValue (numbers_in (1 ∷ 1 ∷ []) (5 ∷ [])) }
    ensures items_of_list { item.ravel_items text ≡ OkValue (bytes_in (3 ∷ 1 ∷ []) (97 ∷ 98 ∷ 99 ∷ [])) }
    ensures items_of_block { item.ravel_items block ≡ OkValue (numbers_in (2 ∷ 6 ∷ []) (0 ∷ 1 ∷ 2 ∷ 3 ∷ 4 ∷ 5 ∷ 6 ∷ 7 ∷ 8 ∷ 9 ∷ 10 ∷ 11 ∷ [])) }
    ensures items_without_rows { item.ravel_items no_rows ≡ OkValue no_rows }
    ensures items_without_columns { item.ravel_items no_columns ≡ OkValue no_columns }
    ensures items_too_long { item.ravel_items (numbers_in (0 ∷ 4194304 ∷ 2 ∷ []) []) ≡ ErrValue Limit }
    ensures itemized_atom { item.itemize (numbers_in [] (5 ∷ [])) ≡ OkValue (numbers_in (1 ∷ []) (5 ∷ [])) }
    ensures itemized_text { item.itemize text ≡ OkValue (bytes_in (1 ∷ 3 ∷ []) (97 ∷ 98 ∷ 99 ∷ [])) }
    ensures itemized_rows { item.itemize no_rows ≡ OkValue (bytes_in (1 ∷ 0 ∷ 3 ∷ []) []) }
{}

/// Laws: items in reverse, and items that are left out, worked out by hand.
pub fn worked_items()
    ensures atom_reversed { item.reversed (numbers_in [] (5 ∷ [])) ≡ OkValue (numbers_in (1 ∷ []) (5 ∷ [])) }
    ensures list_reversed { item.reversed list ≡ OkValue (numbers_in (3 ∷ []) (3 ∷ 2 ∷ 1 ∷ [])) }
    ensures rows_reversed { item.reversed table ≡ OkValue (numbers_in (2 ∷ 3 ∷ []) (3 ∷ 4 ∷ 5 ∷ 0 ∷ 1 ∷ 2 ∷ [])) }
    ensures tables_reversed { item.reversed block ≡ OkValue (numbers_in (2 ∷ 3 ∷ 2 ∷ []) (6 ∷ 7 ∷ 8 ∷ 9 ∷ 10 ∷ 11 ∷ 0 ∷ 1 ∷ 2 ∷ 3 ∷ 4 ∷ 5 ∷ [])) }
    ensures no_rows_reversed { item.reversed no_rows ≡ OkValue no_rows }
    ensures no_columns_reversed { item.reversed no_columns ≡ OkValue no_columns }
    ensures boxes_reversed { item.reversed (boxes_in (2 ∷ []) (list ∷ text ∷ [])) ≡ OkValue (boxes_in (2 ∷ []) (text ∷ list ∷ [])) }
    ensures first_of_atom { item.head (bytes_in [] (65 ∷ [])) ≡ OkValue (bytes_in [] (65 ∷ [])) }
    ensures first_of_list { item.head list ≡ OkValue (numbers_in [] (1 ∷ [])) }
    ensures first_row { item.head table ≡ OkValue (numbers_in (3 ∷ []) (0 ∷ 1 ∷ 2 ∷ [])) }
    ensures first_box { item.head (boxes_in (2 ∷ []) (list ∷ text ∷ [])) ≡ OkValue (boxes_in [] (list ∷ [])) }
    ensures first_of_none { item.head no_items ≡ OkValue (numbers_in [] (0 ∷ [])) }
    ensures first_of_no_rows { item.head no_rows ≡ OkValue (bytes_in (3 ∷ []) (32 ∷ 32 ∷ 32 ∷ [])) }
    ensures first_of_no_columns { item.head no_columns ≡ OkValue (bytes_in (0 ∷ []) []) }
    ensures first_of_no_boxes { item.head (boxes_in (0 ∷ []) []) ≡ OkValue (boxes_in [] (no_items ∷ [])) }
    ensures last_of_atom { item.tail (numbers_in [] (5 ∷ [])) ≡ OkValue (numbers_in [] (5 ∷ [])) }
    ensures last_of_list { item.tail list ≡ OkValue (numbers_in [] (3 ∷ [])) }
    ensures last_row { item.tail table ≡ OkValue (numbers_in (3 ∷ []) (3 ∷ 4 ∷ 5 ∷ [])) }
    ensures last_of_no_rows { item.tail no_rows ≡ OkValue (bytes_in (3 ∷ []) (32 ∷ 32 ∷ 32 ∷ [])) }
    ensures last_of_none { item.tail no_items ≡ OkValue (numbers_in [] (0 ∷ [])) }
    ensures atom_beheaded { item.beheaded (numbers_in [] (5 ∷ [])) ≡ OkValue no_items }
    ensures list_beheaded { item.beheaded text ≡ OkValue (bytes_in (2 ∷ []) (98 ∷ 99 ∷ [])) }
    ensures rows_beheaded { item.beheaded table ≡ OkValue (numbers_in (1 ∷ 3 ∷ []) (3 ∷ 4 ∷ 5 ∷ [])) }
    ensures none_beheaded { item.beheaded no_rows ≡ OkValue no_rows }
    ensures columns_beheaded { item.beheaded no_columns ≡ OkValue (bytes_in (2 ∷ 0 ∷ []) []) }
    ensures atom_curtailed { item.curtailed (bytes_in [] (65 ∷ [])) ≡ OkValue (bytes_in (0 ∷ []) []) }
    ensures list_curtailed { item.curtailed text ≡ OkValue (bytes_in (2 ∷ []) (97 ∷ 98 ∷ [])) }
    ensures rows_curtailed { item.curtailed table ≡ OkValue (numbers_in (1 ∷ 3 ∷ []) (0 ∷ 1 ∷ 2 ∷ [])) }
    ensures none_curtailed { item.curtailed no_rows ≡ OkValue no_rows }
    ensures columns_curtailed { item.curtailed no_columns ≡ OkValue (bytes_in (2 ∷ 0 ∷ []) []) }
{}

/// Laws: take, worked out by hand.
pub fn worked_takes()
    ensures first_two { axis.take_axes (numbers_in [] (2 ∷ [])) list ≡ OkValue (numbers_in (2 ∷ []) (1 ∷ 2 ∷ [])) }
    ensures last_two { axis.take_axes (list_of (minus 2 ∷ [])) list ≡ OkValue (numbers_in (2 ∷ []) (2 ∷ 3 ∷ [])) }
    ensures fills_behind { axis.take_axes (numbers_in [] (5 ∷ [])) list ≡ OkValue (numbers_in (5 ∷ []) (1 ∷ 2 ∷ 3 ∷ 0 ∷ 0 ∷ [])) }
    ensures fills_before { axis.take_axes (list_of (minus 5 ∷ [])) text ≡ OkValue (bytes_in (5 ∷ []) (32 ∷ 32 ∷ 97 ∷ 98 ∷ 99 ∷ [])) }
    ensures none { axis.take_axes (numbers_in [] (0 ∷ [])) text ≡ OkValue (bytes_in (0 ∷ []) []) }
    ensures one_row { axis.take_axes (numbers_in (1 ∷ []) (1 ∷ [])) table ≡ OkValue (numbers_in (1 ∷ 3 ∷ []) (0 ∷ 1 ∷ 2 ∷ [])) }
    ensures rows_of_fills { axis.take_axes (list_of (minus 3 ∷ [])) table ≡ OkValue (numbers_in (3 ∷ 3 ∷ []) (0 ∷ 0 ∷ 0 ∷ 0 ∷ 1 ∷ 2 ∷ 3 ∷ 4 ∷ 5 ∷ [])) }
    ensures both_axes { axis.take_axes (list_of (pos 3 ∷ minus 2 ∷ [])) table ≡ OkValue (numbers_in (3 ∷ 2 ∷ []) (1 ∷ 2 ∷ 4 ∷ 5 ∷ 0 ∷ 0 ∷ [])) }
    ensures wider { axis.take_axes (list_of (pos 1 ∷ pos 4 ∷ [])) table ≡ OkValue (numbers_in (1 ∷ 4 ∷ []) (0 ∷ 1 ∷ 2 ∷ 0 ∷ [])) }
    ensures of_a_block { axis.take_axes (list_of (minus 1 ∷ pos 2 ∷ [])) block ≡ OkValue (numbers_in (1 ∷ 2 ∷ 2 ∷ []) (6 ∷ 7 ∷ 8 ∷ 9 ∷ [])) }
    ensures of_an_atom { axis.take_axes (numbers_in [] (3 ∷ [])) (numbers_in [] (7 ∷ [])) ≡ OkValue (numbers_in (3 ∷ []) (7 ∷ 0 ∷ 0 ∷ [])) }
    ensures of_an_atom_in_two_axes { axis.take_axes (list_of (pos 2 ∷ minus 2 ∷ [])) (bytes_in [] (65 ∷ [])) ≡ OkValue (bytes_in (2 ∷ 2 ∷ []) (32 ∷ 65 ∷ 32 ∷ 32 ∷ [])) }
    ensures nothing_of_an_atom { axis.take_axes no_items (numbers_in [] (7 ∷ [])) ≡ OkValue (numbers_in [] (7 ∷ [])) }
    ensures by_no_characters { axis.take_axes (bytes_in (0 ∷ []) []) list ≡ OkValue list }
    ensures without_rows { axis.take_axes (numbers_in [] (1 ∷ [])) no_rows ≡ OkValue (bytes_in (1 ∷ 3 ∷ []) (32 ∷ 32 ∷ 32 ∷ [])) }
    ensures without_columns { axis.take_axes (numbers_in [] (1 ∷ [])) no_columns ≡ OkValue (bytes_in (1 ∷ 0 ∷ []) []) }
    ensures columns_of_fills { axis.take_axes (list_of (pos 2 ∷ pos 1 ∷ [])) no_columns ≡ OkValue (bytes_in (2 ∷ 1 ∷ []) (32 ∷ 32 ∷ [])) }
    ensures of_boxes { axis.take_axes (numbers_in [] (2 ∷ [])) (boxes_in (1 ∷ []) (text ∷ [])) ≡ OkValue (boxes_in (2 ∷ []) (text ∷ no_items ∷ [])) }
    ensures by_characters { axis.take_axes text list ≡ ErrValue Domain }
    ensures by_boxes { axis.take_axes (boxes_in [] (list ∷ [])) list ≡ ErrValue Domain }
    ensures too_many { axis.take_axes (list_of (pos 1 ∷ pos 1 ∷ [])) list ≡ ErrValue Length }
    ensures domain_before_length { axis.take_axes text (bytes_in (0 ∷ []) []) ≡ ErrValue Domain }
    ensures too_many_axes { axis.take_axes (numbers_in (33 ∷ []) (1 ∷ 1 ∷ 1 ∷ 1 ∷ 1 ∷ 1 ∷ 1 ∷ 1 ∷ 1 ∷ 1 ∷ 1 ∷ 1 ∷ 1 ∷ 1 ∷ 1 ∷ 1 ∷ 1 ∷ 1 ∷ 1 ∷ 1 ∷ 1 ∷ 1 ∷ 1 ∷ 1 ∷ 1 ∷ 1 ∷ 1 ∷ 1 ∷ 1 ∷ 1 ∷ 1 ∷ 1 ∷ 1 ∷ [])) (numbers_in [] (7 ∷ [])) ≡ ErrValue Limit }
{}

/// Laws: drop, worked out by hand.
pub fn worked_drops()
    ensures first_out { axis.drop_axes (numbers_in [] (1 ∷ [])) list ≡ OkValue (numbers_in (2 ∷ []) (2 ∷ 3 ∷ [])) }
    ensures last_two_out { axis.drop_axes (list_of (minus 2 ∷ [])) text ≡ OkValue (bytes_in (1 ∷ []) (97 ∷ [])) }
    ensures all_out { axis.drop_axes (numbers_in [] (9223372036854775807 ∷ [])) text ≡ OkValue (bytes_in (0 ∷ []) []) }
    ensures all_out_from_the_end { axis.drop_axes (list_of (minus 9223372036854775808 ∷ [])) list ≡ OkValue no_items }
    ensures both_axes { axis.drop_axes (list_of (pos 1 ∷ minus 1 ∷ [])) table ≡ OkValue (numbers_in (1 ∷ 2 ∷ []) (3 ∷ 4 ∷ [])) }
    ensures fewer_numbers { axis.drop_axes (numbers_in [] (1 ∷ [])) block ≡ OkValue (numbers_in (1 ∷ 3 ∷ 2 ∷ []) (6 ∷ 7 ∷ 8 ∷ 9 ∷ 10 ∷ 11 ∷ [])) }
    ensures second_axis { axis.drop_axes (list_of (pos 0 ∷ pos 2 ∷ [])) block ≡ OkValue (numbers_in (2 ∷ 1 ∷ 2 ∷ []) (4 ∷ 5 ∷ 10 ∷ 11 ∷ [])) }
    ensures an_atom_out { axis.drop_axes (numbers_in [] (1 ∷ [])) (numbers_in [] (7 ∷ [])) ≡ OkValue no_items }
    ensures an_atom_in { axis.drop_axes (list_of (pos 0 ∷ pos 0 ∷ [])) (numbers_in [] (7 ∷ [])) ≡ OkValue (numbers_in (1 ∷ 1 ∷ []) (7 ∷ [])) }
    ensures without_rows { axis.drop_axes (list_of (pos 1 ∷ pos 1 ∷ [])) no_rows ≡ OkValue (bytes_in (0 ∷ 2 ∷ []) []) }
    ensures without_columns { axis.drop_axes (numbers_in [] (1 ∷ [])) no_columns ≡ OkValue (bytes_in (2 ∷ 0 ∷ []) []) }
    ensures by_characters { axis.drop_axes text list ≡ ErrValue Domain }
    ensures too_many { axis.drop_axes (list_of (pos 1 ∷ pos 1 ∷ [])) list ≡ ErrValue Length }
{}

/// Laws: rotate, worked out by hand.
pub fn worked_rotations()
    ensures left { axis.rotate_axes (numbers_in [] (1 ∷ [])) text ≡ OkValue (bytes_in (3 ∷ []) (98 ∷ 99 ∷ 97 ∷ [])) }
    ensures right { axis.rotate_axes (list_of (minus 1 ∷ [])) text ≡ OkValue (bytes_in (3 ∷ []) (99 ∷ 97 ∷ 98 ∷ [])) }
    ensures round { axis.rotate_axes (numbers_in [] (9223372036854775807 ∷ [])) text ≡ OkValue (bytes_in (3 ∷ []) (98 ∷ 99 ∷ 97 ∷ [])) }
    ensures round_right { axis.rotate_axes (list_of (minus 9223372036854775808 ∷ [])) text ≡ OkValue (bytes_in (3 ∷ []) (98 ∷ 99 ∷ 97 ∷ [])) }
    ensures rows { axis.rotate_axes (numbers_in [] (1 ∷ [])) table ≡ OkValue (numbers_in (2 ∷ 3 ∷ []) (3 ∷ 4 ∷ 5 ∷ 0 ∷ 1 ∷ 2 ∷ [])) }
    ensures both_axes { axis.rotate_axes (list_of (pos 1 ∷ minus 1 ∷ [])) table ≡ OkValue (numbers_in (2 ∷ 3 ∷ []) (5 ∷ 3 ∷ 4 ∷ 2 ∷ 0 ∷ 1 ∷ [])) }
    ensures an_atom { axis.rotate_axes (numbers_in [] (1 ∷ [])) (numbers_in [] (5 ∷ [])) ≡ OkValue (numbers_in [] (5 ∷ [])) }
    ensures without_rows { axis.rotate_axes (list_of (pos 1 ∷ pos 1 ∷ [])) no_rows ≡ OkValue no_rows }
    ensures without_columns { axis.rotate_axes (numbers_in [] (1 ∷ [])) no_columns ≡ OkValue no_columns }
    ensures boxes { axis.rotate_axes (numbers_in [] (1 ∷ [])) (boxes_in (2 ∷ []) (list ∷ text ∷ [])) ≡ OkValue (boxes_in (2 ∷ []) (text ∷ list ∷ [])) }
    ensures too_many { axis.rotate_axes (list_of (pos 1 ∷ pos 1 ∷ [])) list ≡ ErrValue Length }
    ensures too_many_of_an_atom { axis.rotate_axes (list_of (pos 1 ∷ pos 1 ∷ [])) (numbers_in [] (5 ∷ [])) ≡ ErrValue Length }
    ensures by_characters { axis.rotate_axes text list ≡ ErrValue Domain }
{}

/// Laws: what is taken and what is dropped make the list, rotation keeps its length, and items turned twice are as they were.
pub fn place_laws()
    ensures taken_and_left { (k : ℕ) (z : Atom) (xs : List Atom) → k ≤ length xs → axis.taken (pos k) z xs ++ axis.dropped (pos k) xs ≡ xs }
    ensures rotated_length { (k : ℤ) (xs : List Atom) → length (axis.rotated k xs) ≡ length xs }
    ensures reversed_twice { (y r : Array) → IsNoun y → 0 < length y.shape → item.reversed y ≡ OkValue r → item.reversed r ≡ OkValue y }
{}
