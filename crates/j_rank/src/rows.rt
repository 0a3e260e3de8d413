// Plans and assemblies worked out by hand.
ghost use Rattle.std.specs.Prelude.{◌≡◌, ℕ, List, [], ◌∷◌, ◌++◌, length, replicate, true};
ghost use Rattle.j_definitions.specs.Array.{Array, Atom, product, IsWithin};
ghost use Rattle.j_definitions.specs.Cells.{pairs};
ghost use Rattle.j_definitions.specs.declared.Fault.TheVariants as fault;
ghost use Rattle.j_noun.specs.declared.ranks.Rank.TheVariants.{Infinite as InfiniteRank};
ghost use Rattle.j_definitions.specs.Limits.{is_within};
ghost use Rattle.j_rank.specs.Assembly.{assemble, padded};
ghost use Rattle.j_rank.specs.Cells.{frame_of, cell, cell_of_fills};
ghost use Rattle.j_rank.specs.Places.{IsUnder, is_inside, atom_in};
ghost use Rattle.j_rank.specs.Plans.{monad_plan, dyad_plan};
ghost use Rattle.j_rank.specs.Rows.{numbers_in, bytes_in, boxes_in, rank, minus_rank};

/// Laws: frames, cells and plans worked out by hand.
pub fn worked_plans()
    ensures atoms { frame_of (rank 0) (2 ∷ 3 ∷ []) ≡ 2 ∷ 3 ∷ [] }
    ensures lists { frame_of (rank 1) (2 ∷ 3 ∷ []) ≡ 2 ∷ [] }
    ensures whole { frame_of InfiniteRank (2 ∷ 3 ∷ []) ≡ [] }
    ensures greater { frame_of (rank 5) (2 ∷ 3 ∷ []) ≡ [] }
    ensures items { frame_of (minus_rank 1) (2 ∷ 3 ∷ []) ≡ 2 ∷ [] }
    ensures items_of_three { frame_of (minus_rank 1) (2 ∷ 3 ∷ 4 ∷ []) ≡ 2 ∷ [] }
    ensures no_axes_left { frame_of (minus_rank 5) (2 ∷ 3 ∷ []) ≡ 2 ∷ 3 ∷ [] }
    ensures greatest_rank { frame_of (rank 9223372036854775807) (2 ∷ 3 ∷ []) ≡ [] }
    ensures least_rank { frame_of (minus_rank 9223372036854775808) (2 ∷ 3 ∷ []) ≡ 2 ∷ 3 ∷ [] }
    ensures two_axes_left { frame_of (minus_rank 2) (2 ∷ 3 ∷ 4 ∷ []) ≡ 2 ∷ 3 ∷ [] }
    ensures second_row { cell 1 (numbers_in (2 ∷ 3 ∷ []) (1 ∷ 2 ∷ 3 ∷ 4 ∷ 5 ∷ 6 ∷ [])) 1 ≡ numbers_in (3 ∷ []) (4 ∷ 5 ∷ 6 ∷ []) }
    ensures row_of_fills { cell_of_fills 1 (bytes_in (0 ∷ 3 ∷ []) []) ≡ bytes_in (3 ∷ []) (32 ∷ 32 ∷ 32 ∷ []) }
    ensures second_box { cell 1 (boxes_in (2 ∷ []) (numbers_in [] (7 ∷ []) ∷ bytes_in (1 ∷ []) (65 ∷ []) ∷ [])) 1 ≡ boxes_in [] (bytes_in (1 ∷ []) (65 ∷ []) ∷ []) }
    ensures boxes_of_fills { cell_of_fills 1 (boxes_in (0 ∷ 2 ∷ []) []) ≡ boxes_in (2 ∷ []) (numbers_in (0 ∷ []) [] ∷ numbers_in (0 ∷ []) [] ∷ []) }
    ensures atoms_and_list { dyad_plan (rank 0) (rank 1) (2 ∷ []) (2 ∷ []) ≡ Ok (record { left = 1; right = 0; agreed = record { frame = 2 ∷ []; left = 1; right = 2 } }) }
    ensures met { pairs (record { frame = 2 ∷ 3 ∷ []; left = 3; right = 1 }) ≡ (0, 0) ∷ (0, 1) ∷ (0, 2) ∷ (1, 3) ∷ (1, 4) ∷ (1, 5) ∷ [] }
    ensures prefix { dyad_plan (rank 0) (rank 0) (2 ∷ []) (2 ∷ 3 ∷ []) ≡ Ok (record { left = 1; right = 2; agreed = record { frame = 2 ∷ 3 ∷ []; left = 3; right = 1 } }) }
    ensures prefix_right { dyad_plan (rank 1) (rank 1) (2 ∷ 3 ∷ 4 ∷ []) (2 ∷ 3 ∷ []) ≡ Ok (record { left = 2; right = 1; agreed = record { frame = 2 ∷ 3 ∷ []; left = 1; right = 3 } }) }
    ensures met_right { pairs (record { frame = 2 ∷ 3 ∷ []; left = 1; right = 3 }) ≡ (0, 0) ∷ (1, 0) ∷ (2, 0) ∷ (3, 1) ∷ (4, 1) ∷ (5, 1) ∷ [] }
    ensures met_nothing { pairs (record { frame = 3 ∷ 0 ∷ []; left = 1; right = 0 }) ≡ [] }
    ensures agreed_without_cells { dyad_plan (rank 0) (rank 1) (3 ∷ 0 ∷ []) (3 ∷ 4 ∷ []) ≡ Ok (record { left = 2; right = 1; agreed = record { frame = 3 ∷ 0 ∷ []; left = 1; right = 0 } }) }
    ensures without_cells_and_unequal { dyad_plan (rank 0) (rank 0) (0 ∷ []) (2 ∷ []) ≡ Err fault.Length }
    ensures length_before_limit { dyad_plan (rank 0) (rank 0) (4194304 ∷ 2 ∷ []) (3 ∷ []) ≡ Err fault.Length }
    ensures too_many_agreed { dyad_plan (rank 0) (rank 0) (4194304 ∷ []) (4194304 ∷ 2 ∷ []) ≡ Err fault.Limit }
    ensures unequal { dyad_plan (rank 0) (rank 0) (2 ∷ []) (3 ∷ []) ≡ Err fault.Length }
    ensures no_prefix { dyad_plan (rank 0) (rank 0) (3 ∷ []) (2 ∷ 3 ∷ []) ≡ Err fault.Length }
    ensures most { monad_plan (rank 1) (4194304 ∷ 0 ∷ []) ≡ Ok (record { left = 0; right = 1; agreed = record { frame = 4194304 ∷ []; left = 4194304; right = 1 } }) }
    ensures too_many { monad_plan (rank 1) (2 ∷ 2097153 ∷ 0 ∷ []) ≡ Err fault.Limit }
{}

/// Laws: assemblies worked out by hand.
pub fn worked_assemblies()
    ensures padded { assemble (2 ∷ []) (numbers_in (1 ∷ []) (7 ∷ []) ∷ numbers_in (3 ∷ []) (1 ∷ 2 ∷ 3 ∷ []) ∷ []) ≡ Ok (numbers_in (2 ∷ 3 ∷ []) (7 ∷ 0 ∷ 0 ∷ 1 ∷ 2 ∷ 3 ∷ [])) }
    ensures atom_beside_list { assemble (2 ∷ []) (numbers_in (2 ∷ []) (1 ∷ 2 ∷ []) ∷ numbers_in [] (5 ∷ []) ∷ []) ≡ Ok (numbers_in (2 ∷ 2 ∷ []) (1 ∷ 2 ∷ 5 ∷ 0 ∷ [])) }
    ensures list_beside_table { assemble (2 ∷ []) (numbers_in (2 ∷ []) (1 ∷ 2 ∷ []) ∷ numbers_in (2 ∷ 1 ∷ []) (3 ∷ 4 ∷ []) ∷ []) ≡ Ok (numbers_in (2 ∷ 2 ∷ 2 ∷ []) (1 ∷ 2 ∷ 0 ∷ 0 ∷ 3 ∷ 0 ∷ 4 ∷ 0 ∷ [])) }
    ensures characters { assemble (2 ∷ []) (bytes_in (1 ∷ []) (65 ∷ []) ∷ bytes_in (2 ∷ []) (66 ∷ 67 ∷ []) ∷ []) ≡ Ok (bytes_in (2 ∷ 2 ∷ []) (65 ∷ 32 ∷ 66 ∷ 67 ∷ [])) }
    ensures boxes { assemble (2 ∷ []) (boxes_in [] (bytes_in [] (65 ∷ []) ∷ []) ∷ boxes_in (2 ∷ []) (numbers_in [] (1 ∷ []) ∷ numbers_in [] (2 ∷ []) ∷ []) ∷ []) ≡ Ok (boxes_in (2 ∷ 2 ∷ []) (bytes_in [] (65 ∷ []) ∷ numbers_in (0 ∷ []) [] ∷ numbers_in [] (1 ∷ []) ∷ numbers_in [] (2 ∷ []) ∷ [])) }
    ensures boxed_and_number { assemble (2 ∷ []) (boxes_in [] (numbers_in [] (1 ∷ []) ∷ []) ∷ numbers_in [] (1 ∷ []) ∷ []) ≡ Err fault.Domain }
    ensures last_of_three { assemble (3 ∷ []) (bytes_in (0 ∷ []) [] ∷ numbers_in (1 ∷ []) (5 ∷ []) ∷ bytes_in (1 ∷ []) (65 ∷ []) ∷ []) ≡ Err fault.Domain }
    ensures no_boxes_yield { assemble (2 ∷ []) (numbers_in (1 ∷ []) (5 ∷ []) ∷ boxes_in (0 ∷ []) [] ∷ []) ≡ Ok (numbers_in (2 ∷ 1 ∷ []) (5 ∷ 0 ∷ [])) }
    ensures no_places_for_a_box { assemble (0 ∷ []) (boxes_in [] (numbers_in [] (1 ∷ []) ∷ []) ∷ []) ≡ Ok (boxes_in (0 ∷ []) []) }
    ensures one_place { assemble [] (numbers_in (2 ∷ []) (8 ∷ 9 ∷ []) ∷ []) ≡ Ok (numbers_in (2 ∷ []) (8 ∷ 9 ∷ [])) }
    ensures no_places { assemble (3 ∷ 0 ∷ []) (bytes_in (2 ∷ []) (65 ∷ 66 ∷ []) ∷ []) ≡ Ok (bytes_in (3 ∷ 0 ∷ 2 ∷ []) []) }
    ensures two_kinds { assemble (2 ∷ []) (numbers_in [] (1 ∷ []) ∷ bytes_in [] (65 ∷ []) ∷ []) ≡ Err fault.Domain }
    ensures no_atoms_yield { assemble (2 ∷ []) (numbers_in (0 ∷ []) [] ∷ bytes_in (1 ∷ []) (65 ∷ []) ∷ []) ≡ Ok (bytes_in (2 ∷ 1 ∷ []) (32 ∷ 65 ∷ [])) }
    ensures no_atoms { assemble (2 ∷ []) (bytes_in (0 ∷ []) [] ∷ numbers_in (0 ∷ []) [] ∷ []) ≡ Ok (bytes_in (2 ∷ 0 ∷ []) []) }
    ensures long_axis { assemble (4194305 ∷ 0 ∷ []) (numbers_in [] (1 ∷ []) ∷ []) ≡ Err fault.Limit }
{}

/// Laws: results of unequal ranks and shapes, worked out by hand.
pub fn worked_shapes()
    ensures atom_beside_table { assemble (2 ∷ []) (numbers_in [] (5 ∷ []) ∷ numbers_in (2 ∷ 2 ∷ []) (1 ∷ 2 ∷ 3 ∷ 4 ∷ []) ∷ []) ≡ Ok (numbers_in (2 ∷ 2 ∷ 2 ∷ []) (5 ∷ 0 ∷ 0 ∷ 0 ∷ 1 ∷ 2 ∷ 3 ∷ 4 ∷ [])) }
    ensures table_beside_atom { assemble (2 ∷ []) (numbers_in (2 ∷ 2 ∷ []) (1 ∷ 2 ∷ 3 ∷ 4 ∷ []) ∷ numbers_in [] (5 ∷ []) ∷ []) ≡ Ok (numbers_in (2 ∷ 2 ∷ 2 ∷ []) (1 ∷ 2 ∷ 3 ∷ 4 ∷ 5 ∷ 0 ∷ 0 ∷ 0 ∷ [])) }
    ensures tables { assemble (2 ∷ []) (numbers_in (2 ∷ 1 ∷ []) (1 ∷ 2 ∷ []) ∷ numbers_in (1 ∷ 3 ∷ []) (3 ∷ 4 ∷ 5 ∷ []) ∷ []) ≡ Ok (numbers_in (2 ∷ 2 ∷ 3 ∷ []) (1 ∷ 0 ∷ 0 ∷ 2 ∷ 0 ∷ 0 ∷ 3 ∷ 4 ∷ 5 ∷ 0 ∷ 0 ∷ 0 ∷ [])) }
    ensures three_ranks { assemble (3 ∷ []) (numbers_in [] (1 ∷ []) ∷ numbers_in (2 ∷ []) (2 ∷ 3 ∷ []) ∷ numbers_in (1 ∷ 2 ∷ []) (4 ∷ 5 ∷ []) ∷ []) ≡ Ok (numbers_in (3 ∷ 1 ∷ 2 ∷ []) (1 ∷ 0 ∷ 2 ∷ 3 ∷ 4 ∷ 5 ∷ [])) }
    ensures three_lengths { assemble (3 ∷ []) (numbers_in (1 ∷ []) (1 ∷ []) ∷ numbers_in (3 ∷ []) (2 ∷ 3 ∷ 4 ∷ []) ∷ numbers_in (2 ∷ []) (5 ∷ 6 ∷ []) ∷ []) ≡ Ok (numbers_in (3 ∷ 3 ∷ []) (1 ∷ 0 ∷ 0 ∷ 2 ∷ 3 ∷ 4 ∷ 5 ∷ 6 ∷ 0 ∷ [])) }
    ensures two_axes { assemble (2 ∷ 2 ∷ []) (numbers_in [] (1 ∷ []) ∷ numbers_in (2 ∷ []) (2 ∷ 3 ∷ []) ∷ numbers_in (0 ∷ []) [] ∷ numbers_in (1 ∷ []) (4 ∷ []) ∷ []) ≡ Ok (numbers_in (2 ∷ 2 ∷ 2 ∷ []) (1 ∷ 0 ∷ 2 ∷ 3 ∷ 0 ∷ 0 ∷ 4 ∷ 0 ∷ [])) }
    ensures empty_list_beside_atom { assemble (2 ∷ []) (numbers_in (0 ∷ []) [] ∷ numbers_in [] (5 ∷ []) ∷ []) ≡ Ok (numbers_in (2 ∷ 1 ∷ []) (0 ∷ 5 ∷ [])) }
    ensures empty_table_beside_list { assemble (2 ∷ []) (numbers_in (0 ∷ 3 ∷ []) [] ∷ numbers_in (2 ∷ []) (1 ∷ 2 ∷ []) ∷ []) ≡ Ok (numbers_in (2 ∷ 1 ∷ 3 ∷ []) (0 ∷ 0 ∷ 0 ∷ 1 ∷ 2 ∷ 0 ∷ [])) }
    ensures empty_items_beside_list { assemble (2 ∷ []) (numbers_in (3 ∷ 0 ∷ []) [] ∷ numbers_in (1 ∷ []) (7 ∷ []) ∷ []) ≡ Ok (numbers_in (2 ∷ 3 ∷ 1 ∷ []) (0 ∷ 0 ∷ 0 ∷ 7 ∷ 0 ∷ 0 ∷ [])) }
    ensures characters { assemble (2 ∷ []) (bytes_in [] (65 ∷ []) ∷ bytes_in (2 ∷ 2 ∷ []) (66 ∷ 67 ∷ 68 ∷ 69 ∷ []) ∷ []) ≡ Ok (bytes_in (2 ∷ 2 ∷ 2 ∷ []) (65 ∷ 32 ∷ 32 ∷ 32 ∷ 66 ∷ 67 ∷ 68 ∷ 69 ∷ [])) }
    ensures boxes { assemble (2 ∷ []) (boxes_in [] (numbers_in [] (7 ∷ []) ∷ []) ∷ boxes_in (1 ∷ 2 ∷ []) (numbers_in [] (8 ∷ []) ∷ numbers_in [] (9 ∷ []) ∷ []) ∷ []) ≡ Ok (boxes_in (2 ∷ 1 ∷ 2 ∷ []) (numbers_in [] (7 ∷ []) ∷ numbers_in (0 ∷ []) [] ∷ numbers_in [] (8 ∷ []) ∷ numbers_in [] (9 ∷ []) ∷ [])) }
    ensures no_places_for_a_table { assemble (0 ∷ []) (bytes_in (2 ∷ 3 ∷ []) (65 ∷ 66 ∷ 67 ∷ 68 ∷ 69 ∷ 70 ∷ []) ∷ []) ≡ Ok (bytes_in (0 ∷ 2 ∷ 3 ∷ []) []) }
    ensures no_places_for_a_number { assemble (0 ∷ 3 ∷ []) (numbers_in [] (0 ∷ []) ∷ []) ≡ Ok (numbers_in (0 ∷ 3 ∷ []) []) }
    ensures most_axes { assemble (replicate 31 1) (numbers_in (1 ∷ []) (7 ∷ []) ∷ []) ≡ Ok (numbers_in (replicate 32 1) (7 ∷ [])) }
    ensures too_many_axes { assemble (replicate 31 1) (numbers_in (1 ∷ 1 ∷ []) (7 ∷ []) ∷ []) ≡ Err fault.Limit }
    ensures too_many_after_padding { assemble (replicate 31 1 ++ 2 ∷ []) (numbers_in [] (7 ∷ []) ∷ numbers_in (1 ∷ []) (8 ∷ []) ∷ []) ≡ Err fault.Limit }
{}

/// Laws: results of unequal kinds, worked out by hand.
pub fn worked_kinds()
    ensures characters_and_numbers { assemble (2 ∷ []) (bytes_in [] (65 ∷ []) ∷ numbers_in [] (1 ∷ []) ∷ []) ≡ Err fault.Domain }
    ensures characters_and_boxes { assemble (2 ∷ []) (bytes_in [] (65 ∷ []) ∷ boxes_in [] (numbers_in [] (1 ∷ []) ∷ []) ∷ []) ≡ Err fault.Domain }
    ensures boxes_and_characters { assemble (2 ∷ []) (boxes_in [] (numbers_in [] (1 ∷ []) ∷ []) ∷ bytes_in [] (65 ∷ []) ∷ []) ≡ Err fault.Domain }
    ensures numbers_and_boxes { assemble (2 ∷ []) (numbers_in [] (1 ∷ []) ∷ boxes_in [] (numbers_in [] (1 ∷ []) ∷ []) ∷ []) ≡ Err fault.Domain }
    ensures third_of_three { assemble (3 ∷ []) (numbers_in [] (1 ∷ []) ∷ numbers_in [] (2 ∷ []) ∷ bytes_in [] (65 ∷ []) ∷ []) ≡ Err fault.Domain }
    ensures kinds_before_limits { assemble (replicate 31 1 ++ 2 ∷ []) (numbers_in [] (7 ∷ []) ∷ bytes_in (1 ∷ []) (65 ∷ []) ∷ []) ≡ Err fault.Domain }
    ensures no_numbers_yield_to_boxes { assemble (2 ∷ []) (numbers_in (0 ∷ []) [] ∷ boxes_in (1 ∷ []) (numbers_in [] (1 ∷ []) ∷ []) ∷ []) ≡ Ok (boxes_in (2 ∷ 1 ∷ []) (numbers_in (0 ∷ []) [] ∷ numbers_in [] (1 ∷ []) ∷ [])) }
    ensures no_boxes_yield_to_characters { assemble (2 ∷ []) (boxes_in (0 ∷ []) [] ∷ bytes_in (1 ∷ []) (65 ∷ []) ∷ []) ≡ Ok (bytes_in (2 ∷ 1 ∷ []) (32 ∷ 65 ∷ [])) }
    ensures no_characters_yield_to_boxes { assemble (2 ∷ []) (boxes_in (1 ∷ []) (numbers_in [] (1 ∷ []) ∷ []) ∷ bytes_in (0 ∷ []) [] ∷ []) ≡ Ok (boxes_in (2 ∷ 1 ∷ []) (numbers_in [] (1 ∷ []) ∷ numbers_in (0 ∷ []) [] ∷ [])) }
    ensures no_characters_yield_to_numbers { assemble (2 ∷ []) (numbers_in (1 ∷ []) (5 ∷ []) ∷ bytes_in (0 ∷ []) [] ∷ []) ≡ Ok (numbers_in (2 ∷ 1 ∷ []) (5 ∷ 0 ∷ [])) }
    ensures two_yield_to_one { assemble (3 ∷ []) (numbers_in (0 ∷ []) [] ∷ bytes_in (1 ∷ []) (65 ∷ []) ∷ boxes_in (0 ∷ []) [] ∷ []) ≡ Ok (bytes_in (3 ∷ 1 ∷ []) (32 ∷ 65 ∷ 32 ∷ [])) }
    ensures none_of_three_has_atoms { assemble (3 ∷ []) (boxes_in (0 ∷ []) [] ∷ numbers_in (0 ∷ []) [] ∷ bytes_in (0 ∷ []) [] ∷ []) ≡ Ok (boxes_in (3 ∷ 0 ∷ []) []) }
    ensures fills_of_the_first_kind { assemble (2 ∷ []) (numbers_in (0 ∷ []) [] ∷ boxes_in (0 ∷ 2 ∷ []) [] ∷ []) ≡ Ok (numbers_in (2 ∷ 1 ∷ 2 ∷ []) (0 ∷ 0 ∷ 0 ∷ 0 ∷ [])) }
    ensures none_of_two_ranks_has_atoms { assemble (2 ∷ []) (bytes_in (0 ∷ []) [] ∷ numbers_in (2 ∷ 0 ∷ []) [] ∷ []) ≡ Ok (bytes_in (2 ∷ 2 ∷ 0 ∷ []) []) }
{}

/// Laws: the test of the limits says whether they hold.
#[tactic(auto, using(j_definitions::proofs::Limits::within_true, j_definitions::proofs::Limits::true_within))]
pub fn limit_laws()
    ensures within { (a : Array) → IsWithin a.shape a.atoms → is_within a ≡ true }
    ensures is_within { (a : Array) → is_within a ≡ true → IsWithin a.shape a.atoms }
{}

/// Laws: padding keeps each atom at its indices, and fills stand at all others.
#[tactic(auto, using(crate::proofs::Placing::padded_at))]
pub fn placing_laws()
    ensures { (z : Atom) (t s indices : List ℕ) (xs : List Atom) → IsUnder t s → length xs ≡ product t → is_inside s indices ≡ true → atom_in z s (padded z t s xs) indices ≡ atom_in z t xs indices }
{}
