// Searches worked out by hand.
ghost use Rattle.std.specs.Prelude.{◌≡◌, ℕ, List, [], ◌∷◌, pos, negsuc};
ghost use Rattle.j_rank.specs.Rows.{numbers_in, bytes_in, boxes_in};
ghost use Rattle.j_search.specs.Matching.{index_of, last_index_of, member, nub, nub_sieve, self_classify, less, match_of};
ghost use Rattle.j_definitions.specs.declared.Fault.TheVariants as fault;
ghost use Rattle.j_search.specs.declared.order.Direction.TheVariants as way;
ghost use Rattle.j_search.specs.Order.{grade, sort};
ghost use Rattle.j_search.specs.Rows.{integers};

/// Laws: places of items, worked out by hand.
pub fn worked_places()
    ensures first { index_of (numbers_in (4 ∷ []) (3 ∷ 1 ∷ 2 ∷ 1 ∷ [])) (numbers_in (3 ∷ []) (1 ∷ 9 ∷ 3 ∷ [])) ≡ Ok (numbers_in (3 ∷ []) (1 ∷ 4 ∷ 0 ∷ [])) }
    ensures last { last_index_of (numbers_in (4 ∷ []) (3 ∷ 1 ∷ 2 ∷ 1 ∷ [])) (numbers_in (3 ∷ []) (1 ∷ 9 ∷ 3 ∷ [])) ≡ Ok (numbers_in (3 ∷ []) (3 ∷ 4 ∷ 0 ∷ [])) }
    ensures all_equal { index_of (numbers_in (3 ∷ []) (7 ∷ 7 ∷ 7 ∷ [])) (numbers_in (2 ∷ []) (7 ∷ 8 ∷ [])) ≡ Ok (numbers_in (2 ∷ []) (0 ∷ 3 ∷ [])) }
    ensures last_of_equal { last_index_of (numbers_in (3 ∷ []) (7 ∷ 7 ∷ 7 ∷ [])) (numbers_in (2 ∷ []) (7 ∷ 8 ∷ [])) ≡ Ok (numbers_in (2 ∷ []) (2 ∷ 3 ∷ [])) }
    ensures negative { index_of (integers (negsuc 0 ∷ pos 1 ∷ negsuc 0 ∷ [])) (integers (pos 1 ∷ negsuc 0 ∷ negsuc 1 ∷ [])) ≡ Ok (numbers_in (3 ∷ []) (1 ∷ 0 ∷ 3 ∷ [])) }
    ensures last_negative { last_index_of (integers (negsuc 0 ∷ pos 1 ∷ negsuc 0 ∷ [])) (integers (pos 1 ∷ negsuc 0 ∷ negsuc 1 ∷ [])) ≡ Ok (numbers_in (3 ∷ []) (1 ∷ 2 ∷ 3 ∷ [])) }
    ensures atom { index_of (numbers_in (2 ∷ []) (5 ∷ 6 ∷ [])) (numbers_in [] (6 ∷ [])) ≡ Ok (numbers_in [] (1 ∷ [])) }
    ensures among_one { index_of (numbers_in [] (6 ∷ [])) (numbers_in (2 ∷ []) (6 ∷ 7 ∷ [])) ≡ Ok (numbers_in (2 ∷ []) (0 ∷ 1 ∷ [])) }
    ensures rows { index_of (numbers_in (3 ∷ 2 ∷ []) (0 ∷ 1 ∷ 2 ∷ 3 ∷ 0 ∷ 1 ∷ [])) (numbers_in (2 ∷ 2 ∷ []) (2 ∷ 3 ∷ 1 ∷ 0 ∷ [])) ≡ Ok (numbers_in (2 ∷ []) (1 ∷ 3 ∷ [])) }
    ensures last_row { last_index_of (numbers_in (3 ∷ 2 ∷ []) (0 ∷ 1 ∷ 2 ∷ 3 ∷ 0 ∷ 1 ∷ [])) (numbers_in (2 ∷ []) (0 ∷ 1 ∷ [])) ≡ Ok (numbers_in [] (2 ∷ [])) }
    ensures one_row { index_of (numbers_in (2 ∷ 2 ∷ []) (0 ∷ 1 ∷ 2 ∷ 3 ∷ [])) (numbers_in (2 ∷ []) (2 ∷ 3 ∷ [])) ≡ Ok (numbers_in [] (1 ∷ [])) }
    ensures lower_rank { index_of (numbers_in (2 ∷ 2 ∷ []) (0 ∷ 0 ∷ 0 ∷ 0 ∷ [])) (numbers_in [] (0 ∷ [])) ≡ Ok (numbers_in [] (2 ∷ [])) }
    ensures other_shape { index_of (numbers_in (2 ∷ 2 ∷ []) (0 ∷ 0 ∷ 0 ∷ 0 ∷ [])) (numbers_in (2 ∷ 3 ∷ []) (0 ∷ 0 ∷ 0 ∷ 0 ∷ 0 ∷ 0 ∷ [])) ≡ Ok (numbers_in (2 ∷ []) (2 ∷ 2 ∷ [])) }
    ensures table_of_cells { index_of (numbers_in (2 ∷ []) (4 ∷ 5 ∷ [])) (numbers_in (2 ∷ 2 ∷ []) (5 ∷ 4 ∷ 3 ∷ 5 ∷ [])) ≡ Ok (numbers_in (2 ∷ 2 ∷ []) (1 ∷ 0 ∷ 2 ∷ 1 ∷ [])) }
    ensures no_items { index_of (numbers_in (0 ∷ []) []) (numbers_in (2 ∷ []) (5 ∷ 6 ∷ [])) ≡ Ok (numbers_in (2 ∷ []) (0 ∷ 0 ∷ [])) }
    ensures no_cells { index_of (numbers_in (2 ∷ []) (5 ∷ 6 ∷ [])) (bytes_in (0 ∷ []) []) ≡ Ok (numbers_in (0 ∷ []) []) }
    ensures empty_items { index_of (numbers_in (2 ∷ 0 ∷ []) []) (bytes_in (3 ∷ 0 ∷ []) []) ≡ Ok (numbers_in (3 ∷ []) (0 ∷ 0 ∷ 0 ∷ [])) }
    ensures last_of_empty_items { last_index_of (numbers_in (2 ∷ 0 ∷ []) []) (bytes_in (0 ∷ []) []) ≡ Ok (numbers_in [] (1 ∷ [])) }
    ensures letters { index_of (bytes_in (4 ∷ []) (97 ∷ 98 ∷ 99 ∷ 97 ∷ [])) (bytes_in (2 ∷ []) (99 ∷ 97 ∷ [])) ≡ Ok (numbers_in (2 ∷ []) (2 ∷ 0 ∷ [])) }
    ensures last_letters { last_index_of (bytes_in (4 ∷ []) (97 ∷ 98 ∷ 99 ∷ 97 ∷ [])) (bytes_in (3 ∷ []) (99 ∷ 97 ∷ 120 ∷ [])) ≡ Ok (numbers_in (3 ∷ []) (2 ∷ 3 ∷ 4 ∷ [])) }
    ensures words { index_of (bytes_in (2 ∷ 2 ∷ []) (97 ∷ 98 ∷ 99 ∷ 97 ∷ [])) (bytes_in (3 ∷ 2 ∷ []) (99 ∷ 97 ∷ 97 ∷ 98 ∷ 98 ∷ 97 ∷ [])) ≡ Ok (numbers_in (3 ∷ []) (1 ∷ 0 ∷ 2 ∷ [])) }
    ensures kinds { index_of (bytes_in (1 ∷ []) (97 ∷ [])) (numbers_in (1 ∷ []) (97 ∷ [])) ≡ Ok (numbers_in (1 ∷ []) (1 ∷ [])) }
    ensures kinds_of_numbers { last_index_of (numbers_in (2 ∷ []) (97 ∷ 98 ∷ [])) (bytes_in [] (97 ∷ [])) ≡ Ok (numbers_in [] (2 ∷ [])) }
    ensures boxes { index_of (boxes_in (2 ∷ []) (bytes_in (0 ∷ []) [] ∷ numbers_in [] (7 ∷ []) ∷ [])) (boxes_in (2 ∷ []) (numbers_in [] (7 ∷ []) ∷ numbers_in (0 ∷ []) [] ∷ [])) ≡ Ok (numbers_in (2 ∷ []) (1 ∷ 0 ∷ [])) }
    ensures no_box { index_of (boxes_in (1 ∷ []) (numbers_in [] (7 ∷ []) ∷ [])) (numbers_in [] (7 ∷ [])) ≡ Ok (numbers_in [] (1 ∷ [])) }
    ensures last_box { last_index_of (boxes_in (3 ∷ []) (numbers_in [] (7 ∷ []) ∷ bytes_in [] (97 ∷ []) ∷ numbers_in [] (7 ∷ []) ∷ [])) (boxes_in (2 ∷ []) (numbers_in [] (7 ∷ []) ∷ numbers_in (1 ∷ []) (7 ∷ []) ∷ [])) ≡ Ok (numbers_in (2 ∷ []) (2 ∷ 3 ∷ [])) }
    ensures ends { index_of (integers (pos 9223372036854775807 ∷ negsuc 9223372036854775807 ∷ negsuc 0 ∷ [])) (integers (negsuc 0 ∷ negsuc 9223372036854775807 ∷ [])) ≡ Ok (numbers_in (2 ∷ []) (2 ∷ 1 ∷ [])) }
    ensures tables { index_of (numbers_in (2 ∷ 1 ∷ 2 ∷ []) (1 ∷ 2 ∷ 3 ∷ 4 ∷ [])) (numbers_in (1 ∷ 2 ∷ []) (3 ∷ 4 ∷ [])) ≡ Ok (numbers_in [] (1 ∷ [])) }
    ensures member { member (numbers_in (3 ∷ []) (1 ∷ 9 ∷ 3 ∷ [])) (numbers_in (2 ∷ []) (3 ∷ 1 ∷ [])) ≡ Ok (numbers_in (3 ∷ []) (1 ∷ 0 ∷ 1 ∷ [])) }
    ensures member_row { member (numbers_in (2 ∷ []) (2 ∷ 3 ∷ [])) (numbers_in (2 ∷ 2 ∷ []) (0 ∷ 1 ∷ 2 ∷ 3 ∷ [])) ≡ Ok (numbers_in [] (1 ∷ [])) }
    ensures member_letters { member (bytes_in (3 ∷ []) (97 ∷ 98 ∷ 97 ∷ [])) (bytes_in (2 ∷ []) (99 ∷ 97 ∷ [])) ≡ Ok (numbers_in (3 ∷ []) (1 ∷ 0 ∷ 1 ∷ [])) }
    ensures member_of_none { member (numbers_in (2 ∷ []) (2 ∷ 3 ∷ [])) (bytes_in (0 ∷ []) []) ≡ Ok (numbers_in (2 ∷ []) (0 ∷ 0 ∷ [])) }
    ensures member_of_atom { member (numbers_in (2 ∷ []) (2 ∷ 3 ∷ [])) (numbers_in [] (3 ∷ [])) ≡ Ok (numbers_in (2 ∷ []) (0 ∷ 1 ∷ [])) }
    ensures no_character { member (bytes_in [] (49 ∷ [])) (numbers_in (1 ∷ []) (49 ∷ [])) ≡ Ok (numbers_in [] (0 ∷ [])) }
{}

/// Laws: nubs, worked out by hand.
pub fn worked_nubs()
    ensures numbers { nub (numbers_in (4 ∷ []) (3 ∷ 1 ∷ 3 ∷ 1 ∷ [])) ≡ Ok (numbers_in (2 ∷ []) (3 ∷ 1 ∷ [])) }
    ensures all_equal { nub (numbers_in (3 ∷ []) (0 ∷ 0 ∷ 0 ∷ [])) ≡ Ok (numbers_in (1 ∷ []) (0 ∷ [])) }
    ensures atom { nub (numbers_in [] (5 ∷ [])) ≡ Ok (numbers_in (1 ∷ []) (5 ∷ [])) }
    ensures none { nub (bytes_in (0 ∷ []) []) ≡ Ok (bytes_in (0 ∷ []) []) }
    ensures no_rows { nub (numbers_in (0 ∷ 3 ∷ []) []) ≡ Ok (numbers_in (0 ∷ 3 ∷ []) []) }
    ensures empty_rows { nub (numbers_in (3 ∷ 0 ∷ []) []) ≡ Ok (numbers_in (1 ∷ 0 ∷ []) []) }
    ensures rows { nub (numbers_in (3 ∷ 2 ∷ []) (1 ∷ 2 ∷ 3 ∷ 4 ∷ 1 ∷ 2 ∷ [])) ≡ Ok (numbers_in (2 ∷ 2 ∷ []) (1 ∷ 2 ∷ 3 ∷ 4 ∷ [])) }
    ensures letters { nub (bytes_in (4 ∷ []) (97 ∷ 98 ∷ 99 ∷ 97 ∷ [])) ≡ Ok (bytes_in (3 ∷ []) (97 ∷ 98 ∷ 99 ∷ [])) }
    ensures negative { nub (integers (negsuc 0 ∷ pos 1 ∷ negsuc 0 ∷ negsuc 9223372036854775807 ∷ [])) ≡ Ok (integers (negsuc 0 ∷ pos 1 ∷ negsuc 9223372036854775807 ∷ [])) }
    ensures tables { nub (bytes_in (3 ∷ 1 ∷ 2 ∷ []) (97 ∷ 98 ∷ 98 ∷ 97 ∷ 97 ∷ 98 ∷ [])) ≡ Ok (bytes_in (2 ∷ 1 ∷ 2 ∷ []) (97 ∷ 98 ∷ 98 ∷ 97 ∷ [])) }
    ensures boxes { nub (boxes_in (3 ∷ []) (bytes_in (0 ∷ []) [] ∷ numbers_in [] (7 ∷ []) ∷ numbers_in (0 ∷ []) [] ∷ [])) ≡ Ok (boxes_in (2 ∷ []) (bytes_in (0 ∷ []) [] ∷ numbers_in [] (7 ∷ []) ∷ [])) }
    ensures sieve { nub_sieve (numbers_in (4 ∷ []) (3 ∷ 1 ∷ 3 ∷ 1 ∷ [])) ≡ Ok (numbers_in (4 ∷ []) (1 ∷ 1 ∷ 0 ∷ 0 ∷ [])) }
    ensures sieve_of_atom { nub_sieve (bytes_in [] (97 ∷ [])) ≡ Ok (numbers_in (1 ∷ []) (1 ∷ [])) }
    ensures sieve_of_none { nub_sieve (bytes_in (0 ∷ 3 ∷ []) []) ≡ Ok (numbers_in (0 ∷ []) []) }
    ensures sieve_of_empty_rows { nub_sieve (bytes_in (3 ∷ 0 ∷ []) []) ≡ Ok (numbers_in (3 ∷ []) (1 ∷ 0 ∷ 0 ∷ [])) }
    ensures sieve_of_rows { nub_sieve (numbers_in (3 ∷ 2 ∷ []) (1 ∷ 2 ∷ 3 ∷ 4 ∷ 1 ∷ 2 ∷ [])) ≡ Ok (numbers_in (3 ∷ []) (1 ∷ 1 ∷ 0 ∷ [])) }
    ensures same { match_of (numbers_in (0 ∷ []) []) (bytes_in (0 ∷ []) []) ≡ Ok (numbers_in [] (1 ∷ [])) }
    ensures shape { match_of (numbers_in (1 ∷ []) (5 ∷ [])) (numbers_in [] (5 ∷ [])) ≡ Ok (numbers_in [] (0 ∷ [])) }
    ensures value { match_of (numbers_in (2 ∷ []) (5 ∷ 6 ∷ [])) (numbers_in (2 ∷ []) (5 ∷ 7 ∷ [])) ≡ Ok (numbers_in [] (0 ∷ [])) }
{}

/// Laws: classes and differences, worked out by hand.
pub fn worked_classes()
    ensures classes { self_classify (numbers_in (4 ∷ []) (3 ∷ 1 ∷ 3 ∷ 2 ∷ [])) ≡ Ok (numbers_in (3 ∷ 4 ∷ []) (1 ∷ 0 ∷ 1 ∷ 0 ∷ 0 ∷ 1 ∷ 0 ∷ 0 ∷ 0 ∷ 0 ∷ 0 ∷ 1 ∷ [])) }
    ensures class_of_atom { self_classify (bytes_in [] (97 ∷ [])) ≡ Ok (numbers_in (1 ∷ 1 ∷ []) (1 ∷ [])) }
    ensures no_classes { self_classify (bytes_in (0 ∷ 3 ∷ []) []) ≡ Ok (numbers_in (0 ∷ 0 ∷ []) []) }
    ensures class_of_empty_rows { self_classify (bytes_in (2 ∷ 0 ∷ []) []) ≡ Ok (numbers_in (1 ∷ 2 ∷ []) (1 ∷ 1 ∷ [])) }
    ensures classes_of_rows { self_classify (numbers_in (3 ∷ 2 ∷ []) (1 ∷ 2 ∷ 3 ∷ 4 ∷ 1 ∷ 2 ∷ [])) ≡ Ok (numbers_in (2 ∷ 3 ∷ []) (1 ∷ 0 ∷ 1 ∷ 0 ∷ 1 ∷ 0 ∷ [])) }
    ensures less { less (numbers_in (4 ∷ []) (3 ∷ 1 ∷ 3 ∷ 2 ∷ [])) (numbers_in (2 ∷ []) (1 ∷ 9 ∷ [])) ≡ Ok (numbers_in (3 ∷ []) (3 ∷ 3 ∷ 2 ∷ [])) }
    ensures less_atom { less (numbers_in (3 ∷ []) (3 ∷ 1 ∷ 3 ∷ [])) (numbers_in [] (3 ∷ [])) ≡ Ok (numbers_in (1 ∷ []) (1 ∷ [])) }
    ensures atom_less { less (numbers_in [] (3 ∷ [])) (numbers_in [] (3 ∷ [])) ≡ Ok (numbers_in (0 ∷ []) []) }
    ensures atom_stays { less (bytes_in [] (97 ∷ [])) (numbers_in (1 ∷ []) (97 ∷ [])) ≡ Ok (bytes_in (1 ∷ []) (97 ∷ [])) }
    ensures less_row { less (numbers_in (2 ∷ 2 ∷ []) (1 ∷ 2 ∷ 3 ∷ 4 ∷ [])) (numbers_in (2 ∷ []) (3 ∷ 4 ∷ [])) ≡ Ok (numbers_in (1 ∷ 2 ∷ []) (1 ∷ 2 ∷ [])) }
    ensures less_lower_rank { less (numbers_in (1 ∷ 2 ∷ []) (1 ∷ 1 ∷ [])) (numbers_in [] (1 ∷ [])) ≡ Ok (numbers_in (1 ∷ 2 ∷ []) (1 ∷ 1 ∷ [])) }
    ensures less_nothing { less (bytes_in (2 ∷ []) (97 ∷ 98 ∷ [])) (numbers_in (0 ∷ []) []) ≡ Ok (bytes_in (2 ∷ []) (97 ∷ 98 ∷ [])) }
    ensures empty_less { less (bytes_in (2 ∷ 0 ∷ []) []) (numbers_in (3 ∷ 0 ∷ []) []) ≡ Ok (bytes_in (0 ∷ 0 ∷ []) []) }
    ensures less_boxes { less (boxes_in (2 ∷ []) (numbers_in [] (7 ∷ []) ∷ bytes_in (0 ∷ []) [] ∷ [])) (boxes_in [] (numbers_in (0 ∷ []) [] ∷ [])) ≡ Ok (boxes_in (1 ∷ []) (numbers_in [] (7 ∷ []) ∷ [])) }
{}

/// Laws: grades and sorts, worked out by hand.
pub fn worked_grades()
    ensures up { grade way.Up (numbers_in (5 ∷ []) (3 ∷ 1 ∷ 3 ∷ 0 ∷ 1 ∷ [])) ≡ Ok (numbers_in (5 ∷ []) (3 ∷ 1 ∷ 4 ∷ 0 ∷ 2 ∷ [])) }
    ensures down { grade way.Down (numbers_in (5 ∷ []) (3 ∷ 1 ∷ 3 ∷ 0 ∷ 1 ∷ [])) ≡ Ok (numbers_in (5 ∷ []) (0 ∷ 2 ∷ 1 ∷ 4 ∷ 3 ∷ [])) }
    ensures equal { grade way.Down (bytes_in (3 ∷ []) (97 ∷ 97 ∷ 97 ∷ [])) ≡ Ok (numbers_in (3 ∷ []) (0 ∷ 1 ∷ 2 ∷ [])) }
    ensures equal_up { grade way.Up (bytes_in (3 ∷ []) (98 ∷ 97 ∷ 98 ∷ [])) ≡ Ok (numbers_in (3 ∷ []) (1 ∷ 0 ∷ 2 ∷ [])) }
    ensures equal_rows { grade way.Down (numbers_in (3 ∷ 2 ∷ []) (0 ∷ 9 ∷ 1 ∷ 2 ∷ 0 ∷ 9 ∷ [])) ≡ Ok (numbers_in (3 ∷ []) (1 ∷ 0 ∷ 2 ∷ [])) }
    ensures ends { grade way.Up (integers (pos 9223372036854775807 ∷ negsuc 0 ∷ negsuc 9223372036854775807 ∷ pos 0 ∷ [])) ≡ Ok (numbers_in (4 ∷ []) (2 ∷ 1 ∷ 3 ∷ 0 ∷ [])) }
    ensures atom { grade way.Up (numbers_in [] (7 ∷ [])) ≡ Ok (numbers_in (1 ∷ []) (0 ∷ [])) }
    ensures rows { grade way.Up (numbers_in (3 ∷ 2 ∷ []) (1 ∷ 5 ∷ 1 ∷ 2 ∷ 0 ∷ 9 ∷ [])) ≡ Ok (numbers_in (3 ∷ []) (2 ∷ 1 ∷ 0 ∷ [])) }
    ensures empty_rows { grade way.Down (numbers_in (3 ∷ 0 ∷ []) []) ≡ Ok (numbers_in (3 ∷ []) (0 ∷ 1 ∷ 2 ∷ [])) }
    ensures none { grade way.Up (bytes_in (0 ∷ []) []) ≡ Ok (numbers_in (0 ∷ []) []) }
    ensures boxes { grade way.Up (boxes_in [] (numbers_in [] (7 ∷ []) ∷ [])) ≡ Err fault.Nonce }
    ensures no_boxes { grade way.Up (boxes_in (2 ∷ 0 ∷ []) []) ≡ Ok (numbers_in (2 ∷ []) (0 ∷ 1 ∷ [])) }
    ensures sort { sort way.Up (bytes_in (3 ∷ []) (97 ∷ 98 ∷ 99 ∷ [])) (numbers_in (3 ∷ []) (2 ∷ 0 ∷ 1 ∷ [])) ≡ Ok (bytes_in (3 ∷ []) (98 ∷ 99 ∷ 97 ∷ [])) }
    ensures sort_down { sort way.Down (bytes_in (3 ∷ []) (97 ∷ 98 ∷ 99 ∷ [])) (numbers_in (3 ∷ []) (2 ∷ 0 ∷ 1 ∷ [])) ≡ Ok (bytes_in (3 ∷ []) (97 ∷ 99 ∷ 98 ∷ [])) }
    ensures sort_fewer { sort way.Up (bytes_in (3 ∷ []) (97 ∷ 98 ∷ 99 ∷ [])) (numbers_in (2 ∷ []) (2 ∷ 0 ∷ [])) ≡ Ok (bytes_in (2 ∷ []) (98 ∷ 97 ∷ [])) }
    ensures sort_more { sort way.Up (bytes_in (1 ∷ []) (97 ∷ [])) (numbers_in (2 ∷ []) (2 ∷ 0 ∷ [])) ≡ Err fault.Index }
    ensures sort_boxes { sort way.Up (boxes_in (2 ∷ []) (numbers_in [] (7 ∷ []) ∷ numbers_in [] (8 ∷ []) ∷ [])) (numbers_in (2 ∷ []) (1 ∷ 0 ∷ [])) ≡ Ok (boxes_in (2 ∷ []) (numbers_in [] (8 ∷ []) ∷ numbers_in [] (7 ∷ []) ∷ [])) }
    ensures by_boxes { sort way.Up (bytes_in (0 ∷ []) []) (boxes_in (1 ∷ []) (numbers_in [] (7 ∷ []) ∷ [])) ≡ Err fault.Nonce }
    ensures sort_rows { sort way.Up (numbers_in (2 ∷ 2 ∷ []) (5 ∷ 6 ∷ 7 ∷ 8 ∷ [])) (numbers_in (2 ∷ []) (1 ∷ 0 ∷ [])) ≡ Ok (numbers_in (2 ∷ 2 ∷ []) (7 ∷ 8 ∷ 5 ∷ 6 ∷ [])) }
    ensures sort_atom { sort way.Up (numbers_in [] (5 ∷ [])) (numbers_in [] (3 ∷ [])) ≡ Ok (numbers_in (1 ∷ []) (5 ∷ [])) }
    ensures by_nothing { sort way.Up (bytes_in (2 ∷ []) (97 ∷ 98 ∷ [])) (numbers_in (0 ∷ []) []) ≡ Ok (bytes_in (0 ∷ []) []) }
    ensures no_items { sort way.Up (bytes_in (0 ∷ 3 ∷ []) []) (bytes_in (0 ∷ 3 ∷ []) []) ≡ Ok (numbers_in (0 ∷ []) []) }
{}
