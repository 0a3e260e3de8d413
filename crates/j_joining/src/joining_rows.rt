// Joined nouns worked out by hand.
ghost use Rattle.std.specs.Prelude.{◌≡◌, List, [], ◌∷◌, ◌++◌, replicate};
ghost use Rattle.j_definitions.specs.Array.{Atom};
ghost use Rattle.j_definitions.specs.Limits.{limited};
ghost use Rattle.j_definitions.specs.declared.Kind.{Kind};
ghost use Rattle.j_definitions.specs.declared.Fault.TheVariants as fault;
ghost use Rattle.j_rank.specs.Rows.{numbers_in, bytes_in, boxes_in};
ghost use Rattle.j_joining.specs.Brought.{list_of};
ghost use Rattle.j_joining.specs.JoiningRows.{in_boxes};
ghost use Rattle.j_joining.specs.Joining.{append, laminate, in_box, content, link, raze};
ghost use Rattle.j_joining.specs.Stitching.{stitch};

/// Laws: nouns joined by their items, worked out by hand.
pub fn worked_appends()
    ensures two_atoms { append (numbers_in [] (5 ∷ [])) (numbers_in [] (7 ∷ [])) ≡ Ok (numbers_in (2 ∷ []) (5 ∷ 7 ∷ [])) }
    ensures lists { append (numbers_in (2 ∷ []) (1 ∷ 2 ∷ [])) (numbers_in (1 ∷ []) (3 ∷ [])) ≡ Ok (numbers_in (3 ∷ []) (1 ∷ 2 ∷ 3 ∷ [])) }
    ensures texts { append (bytes_in (1 ∷ []) (65 ∷ [])) (bytes_in (2 ∷ []) (66 ∷ 67 ∷ [])) ≡ Ok (bytes_in (3 ∷ []) (65 ∷ 66 ∷ 67 ∷ [])) }
    ensures atom_before_list { append (numbers_in [] (5 ∷ [])) (numbers_in (2 ∷ []) (1 ∷ 2 ∷ [])) ≡ Ok (numbers_in (3 ∷ []) (5 ∷ 1 ∷ 2 ∷ [])) }
    ensures atom_behind_table { append (bytes_in (2 ∷ 2 ∷ []) (65 ∷ 66 ∷ 67 ∷ 68 ∷ [])) (bytes_in [] (69 ∷ [])) ≡ Ok (bytes_in (3 ∷ 2 ∷ []) (65 ∷ 66 ∷ 67 ∷ 68 ∷ 69 ∷ 69 ∷ [])) }
    ensures atom_before_table { append (numbers_in [] (5 ∷ [])) (numbers_in (2 ∷ 3 ∷ []) (0 ∷ 1 ∷ 1 ∷ 0 ∷ 1 ∷ 1 ∷ [])) ≡ Ok (numbers_in (3 ∷ 3 ∷ []) (5 ∷ 5 ∷ 5 ∷ 0 ∷ 1 ∷ 1 ∷ 0 ∷ 1 ∷ 1 ∷ [])) }
    ensures atom_before_three_axes { append (numbers_in [] (5 ∷ [])) (numbers_in (1 ∷ 2 ∷ 2 ∷ []) (1 ∷ 2 ∷ 3 ∷ 4 ∷ [])) ≡ Ok (numbers_in (2 ∷ 2 ∷ 2 ∷ []) (5 ∷ 5 ∷ 5 ∷ 5 ∷ 1 ∷ 2 ∷ 3 ∷ 4 ∷ [])) }
    ensures list_behind_table { append (numbers_in (2 ∷ 3 ∷ []) (1 ∷ 2 ∷ 3 ∷ 4 ∷ 5 ∷ 6 ∷ [])) (numbers_in (2 ∷ []) (7 ∷ 8 ∷ [])) ≡ Ok (numbers_in (3 ∷ 3 ∷ []) (1 ∷ 2 ∷ 3 ∷ 4 ∷ 5 ∷ 6 ∷ 7 ∷ 8 ∷ 0 ∷ [])) }
    ensures list_before_three_axes { append (numbers_in (2 ∷ []) (7 ∷ 8 ∷ [])) (numbers_in (1 ∷ 2 ∷ 2 ∷ []) (1 ∷ 2 ∷ 3 ∷ 4 ∷ [])) ≡ Ok (numbers_in (2 ∷ 2 ∷ 2 ∷ []) (7 ∷ 8 ∷ 0 ∷ 0 ∷ 1 ∷ 2 ∷ 3 ∷ 4 ∷ [])) }
    ensures longer_list_before_table { append (bytes_in (3 ∷ []) (65 ∷ 66 ∷ 67 ∷ [])) (bytes_in (1 ∷ 2 ∷ []) (68 ∷ 69 ∷ [])) ≡ Ok (bytes_in (2 ∷ 3 ∷ []) (65 ∷ 66 ∷ 67 ∷ 68 ∷ 69 ∷ 32 ∷ [])) }
    ensures table_of_one_beside_table { append (numbers_in (1 ∷ 1 ∷ []) (3 ∷ [])) (numbers_in (2 ∷ 3 ∷ []) (0 ∷ 1 ∷ 1 ∷ 0 ∷ 1 ∷ 1 ∷ [])) ≡ Ok (numbers_in (3 ∷ 3 ∷ []) (3 ∷ 0 ∷ 0 ∷ 0 ∷ 1 ∷ 1 ∷ 0 ∷ 1 ∷ 1 ∷ [])) }
    ensures items_of_two_axes { append (numbers_in (1 ∷ 2 ∷ 1 ∷ []) (1 ∷ 2 ∷ [])) (numbers_in (1 ∷ 1 ∷ 2 ∷ []) (3 ∷ 4 ∷ [])) ≡ Ok (numbers_in (2 ∷ 2 ∷ 2 ∷ []) (1 ∷ 0 ∷ 2 ∷ 0 ∷ 3 ∷ 4 ∷ 0 ∷ 0 ∷ [])) }
    ensures boxes_filled { append (boxes_in (1 ∷ 2 ∷ []) (numbers_in [] (8 ∷ []) ∷ numbers_in [] (9 ∷ []) ∷ [])) (boxes_in (1 ∷ []) (bytes_in [] (65 ∷ []) ∷ [])) ≡ Ok (boxes_in (2 ∷ 2 ∷ []) (numbers_in [] (8 ∷ []) ∷ numbers_in [] (9 ∷ []) ∷ bytes_in [] (65 ∷ []) ∷ numbers_in (0 ∷ []) [] ∷ [])) }
    ensures boxes_joined { append (boxes_in [] (numbers_in [] (8 ∷ []) ∷ [])) (boxes_in [] (bytes_in [] (65 ∷ []) ∷ [])) ≡ Ok (boxes_in (2 ∷ []) (numbers_in [] (8 ∷ []) ∷ bytes_in [] (65 ∷ []) ∷ [])) }
{}

/// Laws: nouns without atoms joined by their items, and kinds that don't join, worked out by hand.
pub fn worked_empty_appends()
    ensures empty_before_list { append (numbers_in (0 ∷ []) []) (numbers_in (2 ∷ []) (1 ∷ 2 ∷ [])) ≡ Ok (numbers_in (2 ∷ []) (1 ∷ 2 ∷ [])) }
    ensures empty_before_atom { append (bytes_in (0 ∷ []) []) (numbers_in [] (5 ∷ [])) ≡ Ok (numbers_in (1 ∷ []) (5 ∷ [])) }
    ensures empty_before_table { append (bytes_in (0 ∷ []) []) (bytes_in (2 ∷ 2 ∷ []) (65 ∷ 66 ∷ 67 ∷ 68 ∷ [])) ≡ Ok (bytes_in (3 ∷ 2 ∷ []) (32 ∷ 32 ∷ 65 ∷ 66 ∷ 67 ∷ 68 ∷ [])) }
    ensures no_rows_before_list { append (numbers_in (0 ∷ 3 ∷ []) []) (numbers_in (1 ∷ []) (7 ∷ [])) ≡ Ok (numbers_in (1 ∷ 3 ∷ []) (7 ∷ 0 ∷ 0 ∷ [])) }
    ensures no_rows_behind_atom { append (bytes_in [] (65 ∷ [])) (numbers_in (0 ∷ 3 ∷ []) []) ≡ Ok (bytes_in (1 ∷ 3 ∷ []) (65 ∷ 65 ∷ 65 ∷ [])) }
    ensures rows_without_atoms { append (numbers_in (2 ∷ 0 ∷ []) []) (bytes_in (1 ∷ 2 ∷ []) (65 ∷ 66 ∷ [])) ≡ Ok (bytes_in (3 ∷ 2 ∷ []) (32 ∷ 32 ∷ 32 ∷ 32 ∷ 65 ∷ 66 ∷ [])) }
    ensures no_rows_and_rows_without_atoms { append (numbers_in (0 ∷ 3 ∷ []) []) (numbers_in (2 ∷ 0 ∷ []) []) ≡ Ok (numbers_in (2 ∷ 3 ∷ []) (0 ∷ 0 ∷ 0 ∷ 0 ∷ 0 ∷ 0 ∷ [])) }
    ensures atom_before_items_without_atoms { append (numbers_in [] (5 ∷ [])) (bytes_in (3 ∷ 0 ∷ []) []) ≡ Ok (numbers_in (4 ∷ 0 ∷ []) []) }
    ensures atom_behind_items_without_atoms { append (bytes_in (3 ∷ 0 ∷ []) []) (numbers_in [] (5 ∷ [])) ≡ Ok (bytes_in (4 ∷ 0 ∷ []) []) }
    ensures first_kind_of_none { append (bytes_in (0 ∷ []) []) (numbers_in (0 ∷ []) []) ≡ Ok (bytes_in (0 ∷ []) []) }
    ensures boxes_without_atoms_yield { append (numbers_in (2 ∷ []) (1 ∷ 2 ∷ [])) (boxes_in (0 ∷ []) []) ≡ Ok (numbers_in (2 ∷ []) (1 ∷ 2 ∷ [])) }
    ensures number_and_characters { append (numbers_in [] (5 ∷ [])) (bytes_in (2 ∷ []) (65 ∷ 66 ∷ [])) ≡ Err fault.Domain }
    ensures box_and_number { append (boxes_in [] (numbers_in [] (5 ∷ []) ∷ [])) (numbers_in (2 ∷ 1 ∷ []) (1 ∷ 2 ∷ [])) ≡ Err fault.Domain }
    ensures box_and_character { append (bytes_in [] (65 ∷ [])) (boxes_in (1 ∷ []) (numbers_in [] (5 ∷ []) ∷ [])) ≡ Err fault.Domain }
{}

/// Laws: two nouns as two items, worked out by hand.
pub fn worked_laminates()
    ensures two_atoms { laminate (numbers_in [] (5 ∷ [])) (numbers_in [] (7 ∷ [])) ≡ Ok (numbers_in (2 ∷ []) (5 ∷ 7 ∷ [])) }
    ensures lists { laminate (bytes_in (2 ∷ []) (65 ∷ 66 ∷ [])) (bytes_in (2 ∷ []) (67 ∷ 68 ∷ [])) ≡ Ok (bytes_in (2 ∷ 2 ∷ []) (65 ∷ 66 ∷ 67 ∷ 68 ∷ [])) }
    ensures atom_and_list { laminate (numbers_in [] (5 ∷ [])) (numbers_in (3 ∷ []) (1 ∷ 2 ∷ 3 ∷ [])) ≡ Ok (numbers_in (2 ∷ 3 ∷ []) (5 ∷ 5 ∷ 5 ∷ 1 ∷ 2 ∷ 3 ∷ [])) }
    ensures table_and_atom { laminate (numbers_in (2 ∷ 2 ∷ []) (1 ∷ 2 ∷ 3 ∷ 4 ∷ [])) (numbers_in [] (5 ∷ [])) ≡ Ok (numbers_in (2 ∷ 2 ∷ 2 ∷ []) (1 ∷ 2 ∷ 3 ∷ 4 ∷ 5 ∷ 5 ∷ 5 ∷ 5 ∷ [])) }
    ensures unequal_lists { laminate (numbers_in (1 ∷ []) (7 ∷ [])) (numbers_in (3 ∷ []) (1 ∷ 2 ∷ 3 ∷ [])) ≡ Ok (numbers_in (2 ∷ 3 ∷ []) (7 ∷ 0 ∷ 0 ∷ 1 ∷ 2 ∷ 3 ∷ [])) }
    ensures list_and_table { laminate (numbers_in (2 ∷ []) (1 ∷ 2 ∷ [])) (numbers_in (2 ∷ 1 ∷ []) (3 ∷ 4 ∷ [])) ≡ Ok (numbers_in (2 ∷ 2 ∷ 2 ∷ []) (1 ∷ 2 ∷ 0 ∷ 0 ∷ 3 ∷ 0 ∷ 4 ∷ 0 ∷ [])) }
    ensures atom_and_empty_list { laminate (numbers_in [] (5 ∷ [])) (bytes_in (0 ∷ []) []) ≡ Ok (numbers_in (2 ∷ 0 ∷ []) []) }
    ensures empty_list_and_atom { laminate (bytes_in (0 ∷ []) []) (numbers_in [] (5 ∷ [])) ≡ Ok (bytes_in (2 ∷ 0 ∷ []) []) }
    ensures empty_list_and_list { laminate (bytes_in (0 ∷ []) []) (numbers_in (1 ∷ []) (5 ∷ [])) ≡ Ok (numbers_in (2 ∷ 1 ∷ []) (0 ∷ 5 ∷ [])) }
    ensures boxes { laminate (boxes_in [] (numbers_in [] (5 ∷ []) ∷ [])) (boxes_in (1 ∷ []) (bytes_in [] (65 ∷ []) ∷ [])) ≡ Ok (boxes_in (2 ∷ 1 ∷ []) (numbers_in [] (5 ∷ []) ∷ bytes_in [] (65 ∷ []) ∷ [])) }
    ensures two_kinds { laminate (numbers_in [] (5 ∷ [])) (bytes_in [] (65 ∷ [])) ≡ Err fault.Domain }
    ensures kinds_before_limit { laminate (boxes_in [] (numbers_in [] (5 ∷ []) ∷ [])) (numbers_in (1 ∷ []) (5 ∷ [])) ≡ Err fault.Domain }
{}

/// Laws: boxes, their contents, and nouns linked as boxes, worked out by hand.
pub fn worked_boxes()
    ensures box_of_list { in_box (numbers_in (2 ∷ []) (1 ∷ 2 ∷ [])) ≡ Ok (boxes_in [] (numbers_in (2 ∷ []) (1 ∷ 2 ∷ []) ∷ [])) }
    ensures box_of_box { in_box (boxes_in [] (bytes_in [] (65 ∷ []) ∷ [])) ≡ Ok (boxes_in [] (boxes_in [] (bytes_in [] (65 ∷ []) ∷ []) ∷ [])) }
    ensures content_of_box { content (boxes_in [] (bytes_in (0 ∷ 3 ∷ []) [] ∷ [])) ≡ Ok (bytes_in (0 ∷ 3 ∷ []) []) }
    ensures content_of_number { content (numbers_in [] (5 ∷ [])) ≡ Ok (numbers_in [] (5 ∷ [])) }
    ensures content_of_character { content (bytes_in [] (65 ∷ [])) ≡ Ok (bytes_in [] (65 ∷ [])) }
    ensures linked { link (numbers_in [] (5 ∷ [])) (bytes_in (2 ∷ []) (65 ∷ 66 ∷ [])) ≡ Ok (boxes_in (2 ∷ []) (numbers_in [] (5 ∷ []) ∷ bytes_in (2 ∷ []) (65 ∷ 66 ∷ []) ∷ [])) }
    ensures linked_to_boxes { link (numbers_in [] (5 ∷ [])) (boxes_in (1 ∷ []) (bytes_in [] (65 ∷ []) ∷ [])) ≡ Ok (boxes_in (2 ∷ []) (numbers_in [] (5 ∷ []) ∷ bytes_in [] (65 ∷ []) ∷ [])) }
    ensures boxes_linked { link (boxes_in [] (numbers_in [] (5 ∷ []) ∷ [])) (numbers_in [] (7 ∷ [])) ≡ Ok (boxes_in (2 ∷ []) (boxes_in [] (numbers_in [] (5 ∷ []) ∷ []) ∷ numbers_in [] (7 ∷ []) ∷ [])) }
    ensures linked_to_no_boxes { link (numbers_in [] (5 ∷ [])) (boxes_in (0 ∷ []) []) ≡ Ok (boxes_in (1 ∷ []) (numbers_in [] (5 ∷ []) ∷ [])) }
    ensures linked_to_nothing { link (numbers_in [] (5 ∷ [])) (bytes_in (0 ∷ []) []) ≡ Ok (boxes_in (2 ∷ []) (numbers_in [] (5 ∷ []) ∷ bytes_in (0 ∷ []) [] ∷ [])) }
    ensures linked_to_table { link (numbers_in [] (5 ∷ [])) (boxes_in (1 ∷ 2 ∷ []) (numbers_in [] (6 ∷ []) ∷ numbers_in [] (7 ∷ []) ∷ [])) ≡ Ok (boxes_in (2 ∷ 2 ∷ []) (numbers_in [] (5 ∷ []) ∷ numbers_in [] (5 ∷ []) ∷ numbers_in [] (6 ∷ []) ∷ numbers_in [] (7 ∷ []) ∷ [])) }
{}

/// Laws: the contents of boxes joined, worked out by hand.
pub fn worked_razes()
    ensures one_atom { raze (boxes_in [] (numbers_in [] (5 ∷ []) ∷ [])) ≡ Ok (numbers_in (1 ∷ []) (5 ∷ [])) }
    ensures one_table { raze (boxes_in (1 ∷ []) (bytes_in (1 ∷ 2 ∷ []) (65 ∷ 66 ∷ []) ∷ [])) ≡ Ok (bytes_in (1 ∷ 2 ∷ []) (65 ∷ 66 ∷ [])) }
    ensures none { raze (boxes_in (0 ∷ []) []) ≡ Ok (numbers_in (0 ∷ []) []) }
    ensures texts { raze (boxes_in (3 ∷ []) (bytes_in (1 ∷ []) (65 ∷ []) ∷ bytes_in [] (66 ∷ []) ∷ bytes_in (2 ∷ []) (67 ∷ 68 ∷ []) ∷ [])) ≡ Ok (bytes_in (4 ∷ []) (65 ∷ 66 ∷ 67 ∷ 68 ∷ [])) }
    ensures from_the_right { raze (boxes_in (3 ∷ []) (numbers_in (2 ∷ []) (1 ∷ 2 ∷ []) ∷ numbers_in [] (3 ∷ []) ∷ numbers_in (1 ∷ 3 ∷ []) (4 ∷ 5 ∷ 6 ∷ []) ∷ [])) ≡ Ok (numbers_in (3 ∷ 3 ∷ []) (1 ∷ 2 ∷ 0 ∷ 3 ∷ 3 ∷ 3 ∷ 4 ∷ 5 ∷ 6 ∷ [])) }
    ensures atom_behind_table { raze (boxes_in (2 ∷ []) (numbers_in (2 ∷ 3 ∷ []) (0 ∷ 1 ∷ 2 ∷ 3 ∷ 4 ∷ 5 ∷ []) ∷ numbers_in [] (5 ∷ []) ∷ [])) ≡ Ok (numbers_in (3 ∷ 3 ∷ []) (0 ∷ 1 ∷ 2 ∷ 3 ∷ 4 ∷ 5 ∷ 5 ∷ 5 ∷ 5 ∷ [])) }
    ensures atoms_behind_table { raze (boxes_in (3 ∷ []) (numbers_in (1 ∷ 3 ∷ []) (0 ∷ 1 ∷ 2 ∷ []) ∷ numbers_in [] (5 ∷ []) ∷ numbers_in [] (6 ∷ []) ∷ [])) ≡ Ok (numbers_in (2 ∷ 3 ∷ []) (0 ∷ 1 ∷ 2 ∷ 5 ∷ 6 ∷ 0 ∷ [])) }
    ensures one_level { raze (boxes_in (2 ∷ []) (boxes_in [] (numbers_in [] (5 ∷ []) ∷ []) ∷ boxes_in (1 ∷ []) (numbers_in [] (6 ∷ []) ∷ []) ∷ [])) ≡ Ok (boxes_in (2 ∷ []) (numbers_in [] (5 ∷ []) ∷ numbers_in [] (6 ∷ []) ∷ [])) }
    ensures table_of_boxes { raze (boxes_in (2 ∷ 1 ∷ []) (numbers_in [] (5 ∷ []) ∷ numbers_in [] (6 ∷ []) ∷ [])) ≡ Ok (numbers_in (2 ∷ []) (5 ∷ 6 ∷ [])) }
    ensures empty_contents { raze (boxes_in (2 ∷ []) (numbers_in (0 ∷ []) [] ∷ bytes_in (1 ∷ []) (65 ∷ []) ∷ [])) ≡ Ok (bytes_in (1 ∷ []) (65 ∷ [])) }
    ensures two_kinds { raze (boxes_in (2 ∷ []) (numbers_in [] (5 ∷ []) ∷ bytes_in [] (65 ∷ []) ∷ [])) ≡ Err fault.Domain }
    ensures not_boxed { raze (numbers_in (2 ∷ 2 ∷ []) (1 ∷ 2 ∷ 3 ∷ 4 ∷ [])) ≡ Ok (numbers_in (4 ∷ []) (1 ∷ 2 ∷ 3 ∷ 4 ∷ [])) }
    ensures atom { raze (bytes_in [] (65 ∷ [])) ≡ Ok (bytes_in (1 ∷ []) (65 ∷ [])) }
    ensures rows_without_atoms { raze (bytes_in (3 ∷ 0 ∷ []) []) ≡ Ok (bytes_in (0 ∷ []) []) }
{}

/// Laws: what joined nouns are beyond their limits.
#[tactic(auto, using(crate::proofs::Razed::lists_joined))]
pub fn joining_limits()
    ensures lists { (k : Kind) (xs : List Atom) (ys : List Atom) → append (list_of k xs) (list_of k ys) ≡ limited (list_of k (xs ++ ys)) }
    ensures most_axes { append (numbers_in (replicate 32 1) (7 ∷ [])) (numbers_in (replicate 32 1) (8 ∷ [])) ≡ Ok (numbers_in (2 ∷ replicate 31 1) (7 ∷ 8 ∷ [])) }
    ensures axis_too_many { laminate (numbers_in (replicate 32 1) (7 ∷ [])) (numbers_in [] (8 ∷ [])) ≡ Err fault.Limit }
    ensures kinds_first { laminate (numbers_in (replicate 32 1) (7 ∷ [])) (bytes_in [] (65 ∷ [])) ≡ Err fault.Domain }
    ensures deepest { in_box (in_boxes 63 (numbers_in [] (7 ∷ []))) ≡ Ok (in_boxes 64 (numbers_in [] (7 ∷ []))) }
    ensures too_deep { in_box (in_boxes 64 (numbers_in [] (7 ∷ []))) ≡ Err fault.Limit }
    ensures linked_too_deep { link (in_boxes 64 (numbers_in [] (7 ∷ []))) (boxes_in (3 ∷ 0 ∷ []) []) ≡ Err fault.Limit }
{}

/// Laws: nouns joined item by item, worked out by hand.
pub fn worked_stitches()
    ensures lists { stitch (numbers_in (3 ∷ []) (1 ∷ 2 ∷ 3 ∷ [])) (numbers_in (3 ∷ []) (4 ∷ 5 ∷ 6 ∷ [])) ≡ Ok (numbers_in (3 ∷ 2 ∷ []) (1 ∷ 4 ∷ 2 ∷ 5 ∷ 3 ∷ 6 ∷ [])) }
    ensures two_atoms { stitch (numbers_in [] (5 ∷ [])) (numbers_in [] (7 ∷ [])) ≡ Ok (numbers_in (2 ∷ []) (5 ∷ 7 ∷ [])) }
    ensures atom_before_each { stitch (bytes_in [] (65 ∷ [])) (bytes_in (2 ∷ []) (66 ∷ 67 ∷ [])) ≡ Ok (bytes_in (2 ∷ 2 ∷ []) (65 ∷ 66 ∷ 65 ∷ 67 ∷ [])) }
    ensures list_and_table { stitch (numbers_in (2 ∷ []) (7 ∷ 8 ∷ [])) (numbers_in (2 ∷ 2 ∷ []) (1 ∷ 2 ∷ 3 ∷ 4 ∷ [])) ≡ Ok (numbers_in (2 ∷ 3 ∷ []) (7 ∷ 1 ∷ 2 ∷ 8 ∷ 3 ∷ 4 ∷ [])) }
    ensures tables { stitch (numbers_in (2 ∷ 2 ∷ []) (1 ∷ 2 ∷ 3 ∷ 4 ∷ [])) (numbers_in (2 ∷ 1 ∷ []) (5 ∷ 6 ∷ [])) ≡ Ok (numbers_in (2 ∷ 3 ∷ []) (1 ∷ 2 ∷ 5 ∷ 3 ∷ 4 ∷ 6 ∷ [])) }
    ensures other_tally { stitch (numbers_in (2 ∷ []) (1 ∷ 2 ∷ [])) (numbers_in (3 ∷ []) (1 ∷ 2 ∷ 3 ∷ [])) ≡ Err fault.Length }
    ensures two_kinds { stitch (numbers_in (2 ∷ []) (1 ∷ 2 ∷ [])) (bytes_in (2 ∷ []) (65 ∷ 66 ∷ [])) ≡ Err fault.Domain }
    ensures no_items { stitch (numbers_in (0 ∷ 3 ∷ []) []) (numbers_in (0 ∷ []) []) ≡ Ok (numbers_in (0 ∷ 4 ∷ []) []) }
    ensures no_items_of_two_kinds { stitch (bytes_in (0 ∷ []) []) (numbers_in (0 ∷ []) []) ≡ Ok (numbers_in (0 ∷ []) []) }
{}
