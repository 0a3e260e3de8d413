// Identities, items and digits worked out by hand.
ghost use Rattle.std.specs.Prelude.{◌≡◌, ◌<◌, ◌≤◌, ◌-◌, ◌^◌, ℤ, ◌-ℤ◌, ◌*ℤ◌, pos, negsuc, replicate, [], ◌∷◌, Some, None, Ok as OkValue, Err as ErrValue};
ghost use Rattle.std.specs.Int.RustNames.{unsigned_abs};
ghost use Rattle.j_definitions.specs.Array.{atom_array, number, byte, boxed};
ghost use Rattle.j_definitions.specs.declared.Fault.TheVariants as fault;
ghost use Rattle.j_definitions.specs.declared.Kind.TheVariants.{Number as NumberKind, Character as CharacterKind, Boxed as BoxedKind};
ghost use Rattle.j_kernels.specs.Scalars.{residue};
ghost use Rattle.j_leaves.specs.declared.primitive.Primitive.TheVariants as p;
ghost use Rattle.j_noun.specs.Rows.{nothing};
ghost use Rattle.j_rank.specs.Rows.{numbers_in, bytes_in, boxes_in};
ghost use Rattle.j_insert.specs.Bases.{base};
ghost use Rattle.j_insert.specs.Digits.{numbers, left_by, binary_length, antibase, antibase_two};
ghost use Rattle.j_insert.specs.Identities.{identity};
ghost use Rattle.j_insert.specs.Insertion.{all_items, items_from_right};

/// Laws: the identities.
pub fn worked_identities()
    ensures less { identity p.Less ≡ Some (pos 0) }
    ensures more { identity p.Greater ≡ Some (pos 0) }
    ensures sum { identity p.Plus ≡ Some (pos 0) }
    ensures difference { identity p.Minus ≡ Some (pos 0) }
    ensures divisor { identity p.Or ≡ Some (pos 0) }
    ensures unequal { identity p.NotEqual ≡ Some (pos 0) }
    ensures residue { identity p.Residue ≡ Some (pos 0) }
    ensures equal { identity p.Equal ≡ Some (pos 1) }
    ensures at_most { identity p.LessEqual ≡ Some (pos 1) }
    ensures at_least { identity p.GreaterEqual ≡ Some (pos 1) }
    ensures product { identity p.Times ≡ Some (pos 1) }
    ensures quotient { identity p.Divide ≡ Some (pos 1) }
    ensures multiple { identity p.And ≡ Some (pos 1) }
    ensures power { identity p.Power ≡ Some (pos 1) }
    ensures no_lesser { identity p.LesserOf ≡ None }
    ensures no_greater { identity p.GreaterOf ≡ None }
    ensures no_joining { identity p.Ravel ≡ None }
    ensures no_choice { identity p.From ≡ None }
    ensures no_constant { identity p.Zero ≡ None }
{}

/// Laws: the items of nouns, from the last to the first.
pub fn worked_items()
    ensures atom { items_from_right (all_items (numbers_in [] (5 ∷ []))) ≡ numbers_in [] (5 ∷ []) ∷ [] }
    ensures character { items_from_right (all_items (bytes_in [] (97 ∷ []))) ≡ bytes_in [] (97 ∷ []) ∷ [] }
    ensures one { items_from_right (all_items (numbers_in (1 ∷ []) (5 ∷ []))) ≡ numbers_in [] (5 ∷ []) ∷ [] }
    ensures list { items_from_right (all_items (numbers_in (3 ∷ []) (1 ∷ 2 ∷ 3 ∷ []))) ≡ numbers_in [] (3 ∷ []) ∷ numbers_in [] (2 ∷ []) ∷ numbers_in [] (1 ∷ []) ∷ [] }
    ensures characters { items_from_right (all_items (bytes_in (2 ∷ []) (97 ∷ 98 ∷ []))) ≡ bytes_in [] (98 ∷ []) ∷ bytes_in [] (97 ∷ []) ∷ [] }
    ensures boxes { items_from_right (all_items (boxes_in (2 ∷ []) (numbers_in [] (7 ∷ []) ∷ bytes_in [] (97 ∷ []) ∷ []))) ≡ boxes_in [] (bytes_in [] (97 ∷ []) ∷ []) ∷ boxes_in [] (numbers_in [] (7 ∷ []) ∷ []) ∷ [] }
    ensures empty { items_from_right (all_items (nothing NumberKind (0 ∷ []))) ≡ [] }
    ensures table { items_from_right (all_items (numbers_in (2 ∷ 3 ∷ []) (1 ∷ 2 ∷ 3 ∷ 4 ∷ 5 ∷ 6 ∷ []))) ≡ numbers_in (3 ∷ []) (4 ∷ 5 ∷ 6 ∷ []) ∷ numbers_in (3 ∷ []) (1 ∷ 2 ∷ 3 ∷ []) ∷ [] }
    ensures empty_table { items_from_right (all_items (nothing CharacterKind (0 ∷ 3 ∷ []))) ≡ [] }
    ensures empty_items { items_from_right (all_items (nothing CharacterKind (2 ∷ 0 ∷ []))) ≡ nothing CharacterKind (0 ∷ []) ∷ nothing CharacterKind (0 ∷ []) ∷ [] }
    ensures tables { items_from_right (all_items (numbers_in (2 ∷ 1 ∷ 2 ∷ []) (1 ∷ 2 ∷ 3 ∷ 4 ∷ []))) ≡ numbers_in (1 ∷ 2 ∷ []) (3 ∷ 4 ∷ []) ∷ numbers_in (1 ∷ 2 ∷ []) (1 ∷ 2 ∷ []) ∷ [] }
{}

/// Laws: what digits come to.
pub fn worked_bases()
    ensures atom_base { base (numbers_in [] (2 ∷ [])) (numbers_in (3 ∷ []) (1 ∷ 0 ∷ 1 ∷ [])) ≡ OkValue (numbers_in [] (5 ∷ [])) }
    ensures bases { base (numbers_in (3 ∷ []) (24 ∷ 60 ∷ 60 ∷ [])) (numbers_in (3 ∷ []) (1 ∷ 2 ∷ 3 ∷ [])) ≡ OkValue (numbers_in [] (3723 ∷ [])) }
    ensures first_base { base (numbers_in (2 ∷ []) (0 ∷ 10 ∷ [])) (numbers_in (2 ∷ []) (3 ∷ 4 ∷ [])) ≡ OkValue (numbers_in [] (34 ∷ [])) }
    ensures zero_base { base (numbers_in [] (0 ∷ [])) (numbers_in (2 ∷ []) (7 ∷ 8 ∷ [])) ≡ OkValue (numbers_in [] (8 ∷ [])) }
    ensures one_base { base (numbers_in (1 ∷ []) (2 ∷ [])) (numbers_in (1 ∷ []) (7 ∷ [])) ≡ OkValue (numbers_in [] (7 ∷ [])) }
    ensures atom_serves_bases { base (numbers_in (2 ∷ []) (10 ∷ 10 ∷ [])) (numbers_in [] (3 ∷ [])) ≡ OkValue (numbers_in [] (33 ∷ [])) }
    ensures atoms { base (numbers_in [] (10 ∷ [])) (numbers_in [] (3 ∷ [])) ≡ OkValue (numbers_in [] (3 ∷ [])) }
    ensures no_bases { base (nothing NumberKind (0 ∷ [])) (numbers_in [] (3 ∷ [])) ≡ OkValue (numbers_in [] (0 ∷ [])) }
    ensures no_digits { base (numbers_in [] (2 ∷ [])) (nothing NumberKind (0 ∷ [])) ≡ OkValue (numbers_in [] (0 ∷ [])) }
    ensures no_characters { base (numbers_in [] (2 ∷ [])) (nothing CharacterKind (0 ∷ [])) ≡ OkValue (numbers_in [] (0 ∷ [])) }
    ensures no_boxes { base (nothing BoxedKind (0 ∷ [])) (nothing NumberKind (0 ∷ [])) ≡ OkValue (numbers_in [] (0 ∷ [])) }
    ensures minus_digit { base (numbers_in [] (10 ∷ [])) (numbers (2 ∷ []) (pos 1 ∷ negsuc 1 ∷ [])) ≡ OkValue (numbers_in [] (8 ∷ [])) }
    ensures minus_base { base (numbers [] (negsuc 1 ∷ [])) (numbers_in (3 ∷ []) (1 ∷ 1 ∷ 0 ∷ [])) ≡ OkValue (numbers_in [] (2 ∷ [])) }
    ensures to_least { base (numbers_in [] (2 ∷ [])) (numbers (2 ∷ []) (negsuc 4611686018427387903 ∷ pos 0 ∷ [])) ≡ OkValue (numbers [] (negsuc 9223372036854775807 ∷ [])) }
    ensures unequal { base (numbers_in (2 ∷ []) (2 ∷ 2 ∷ [])) (numbers_in (3 ∷ []) (1 ∷ 0 ∷ 1 ∷ [])) ≡ ErrValue fault.Length }
    ensures list_of_one { base (numbers_in (1 ∷ []) (2 ∷ [])) (numbers_in (3 ∷ []) (1 ∷ 0 ∷ 1 ∷ [])) ≡ ErrValue fault.Length }
    ensures digits_without_bases { base (nothing NumberKind (0 ∷ [])) (numbers_in (1 ∷ []) (1 ∷ [])) ≡ ErrValue fault.Length }
    ensures product_beyond { base (numbers_in [] (2 ∷ [])) (numbers (2 ∷ []) (pos 4611686018427387904 ∷ negsuc 0 ∷ [])) ≡ ErrValue fault.Overflow }
    ensures sum_beyond { base (numbers_in [] (1 ∷ [])) (numbers_in (2 ∷ []) (9223372036854775807 ∷ 1 ∷ [])) ≡ ErrValue fault.Overflow }
    ensures character_digits { base (numbers_in [] (2 ∷ [])) (bytes_in (2 ∷ []) (49 ∷ 48 ∷ [])) ≡ ErrValue fault.Domain }
    ensures character_base { base (bytes_in [] (50 ∷ [])) (numbers_in (2 ∷ []) (1 ∷ 0 ∷ [])) ≡ ErrValue fault.Domain }
    ensures boxed_digits { base (numbers_in [] (2 ∷ [])) (boxes_in [] (numbers_in [] (7 ∷ []) ∷ [])) ≡ ErrValue fault.Domain }
    ensures domain_before_length { base (numbers_in (2 ∷ []) (2 ∷ 2 ∷ [])) (bytes_in (3 ∷ []) (49 ∷ 48 ∷ 49 ∷ [])) ≡ ErrValue fault.Domain }
    ensures character_base_without_digits { base (bytes_in [] (50 ∷ [])) (nothing NumberKind (0 ∷ [])) ≡ ErrValue fault.Domain }
{}

/// Laws: digits by bases.
pub fn worked_antibases()
    ensures bits { antibase (numbers_in (3 ∷ []) (2 ∷ 2 ∷ 2 ∷ [])) (numbers_in [] (5 ∷ [])) ≡ OkValue (numbers_in (3 ∷ []) (1 ∷ 0 ∷ 1 ∷ [])) }
    ensures mixed { antibase (numbers_in (3 ∷ []) (24 ∷ 60 ∷ 60 ∷ [])) (numbers_in [] (3723 ∷ [])) ≡ OkValue (numbers_in (3 ∷ []) (1 ∷ 2 ∷ 3 ∷ [])) }
    ensures last_digits { antibase (numbers_in (2 ∷ []) (2 ∷ 2 ∷ [])) (numbers_in [] (5 ∷ [])) ≡ OkValue (numbers_in (2 ∷ []) (0 ∷ 1 ∷ [])) }
    ensures of_minus { antibase (numbers_in (2 ∷ []) (10 ∷ 10 ∷ [])) (numbers [] (negsuc 0 ∷ [])) ≡ OkValue (numbers_in (2 ∷ []) (9 ∷ 9 ∷ [])) }
    ensures by_minus { antibase (numbers (2 ∷ []) (pos 10 ∷ negsuc 9 ∷ [])) (numbers_in [] (7 ∷ [])) ≡ OkValue (numbers (2 ∷ []) (pos 9 ∷ negsuc 2 ∷ [])) }
    ensures zero_first { antibase (numbers_in (2 ∷ []) (0 ∷ 10 ∷ [])) (numbers_in [] (345 ∷ [])) ≡ OkValue (numbers_in (2 ∷ []) (34 ∷ 5 ∷ [])) }
    ensures zero_last { antibase (numbers_in (2 ∷ []) (10 ∷ 0 ∷ [])) (numbers_in [] (7 ∷ [])) ≡ OkValue (numbers_in (2 ∷ []) (0 ∷ 7 ∷ [])) }
    ensures atom { antibase (numbers_in [] (10 ∷ [])) (numbers_in [] (345 ∷ [])) ≡ OkValue (numbers_in [] (5 ∷ [])) }
    ensures atom_of_minus { antibase (numbers [] (negsuc 9 ∷ [])) (numbers_in [] (7 ∷ [])) ≡ OkValue (numbers [] (negsuc 2 ∷ [])) }
    ensures one { antibase (numbers_in (1 ∷ []) (10 ∷ [])) (numbers_in [] (345 ∷ [])) ≡ OkValue (numbers_in (1 ∷ []) (5 ∷ [])) }
    ensures no_bases { antibase (nothing NumberKind (0 ∷ [])) (numbers_in [] (5 ∷ [])) ≡ OkValue (nothing NumberKind (0 ∷ [])) }
    ensures no_characters { antibase (nothing CharacterKind (0 ∷ [])) (numbers_in [] (5 ∷ [])) ≡ OkValue (nothing NumberKind (0 ∷ [])) }
    ensures rest_beyond { antibase (numbers (2 ∷ []) (pos 10 ∷ negsuc 0 ∷ [])) (numbers [] (negsuc 9223372036854775807 ∷ [])) ≡ OkValue (numbers_in (2 ∷ []) (8 ∷ 0 ∷ [])) }
    ensures digit_beyond { antibase (numbers (2 ∷ []) (pos 0 ∷ negsuc 0 ∷ [])) (numbers [] (negsuc 9223372036854775807 ∷ [])) ≡ ErrValue fault.Overflow }
    ensures least { antibase (numbers_in [] (0 ∷ [])) (numbers [] (negsuc 9223372036854775807 ∷ [])) ≡ OkValue (numbers [] (negsuc 9223372036854775807 ∷ [])) }
    ensures character { antibase (numbers_in [] (10 ∷ [])) (bytes_in [] (97 ∷ [])) ≡ ErrValue fault.Domain }
    ensures character_bases { antibase (bytes_in (2 ∷ []) (49 ∷ 48 ∷ [])) (numbers_in [] (5 ∷ [])) ≡ ErrValue fault.Domain }
    ensures character_without_bases { antibase (nothing NumberKind (0 ∷ [])) (bytes_in [] (97 ∷ [])) ≡ ErrValue fault.Domain }
    ensures boxed { antibase (numbers_in [] (10 ∷ [])) (boxes_in [] (numbers_in [] (7 ∷ []) ∷ [])) ≡ ErrValue fault.Domain }
{}

/// Laws: binary digits.
pub fn worked_binaries()
    ensures five { antibase_two (numbers_in [] (5 ∷ [])) ≡ OkValue (numbers_in (3 ∷ []) (1 ∷ 0 ∷ 1 ∷ [])) }
    ensures zero { antibase_two (numbers_in [] (0 ∷ [])) ≡ OkValue (numbers_in (1 ∷ []) (0 ∷ [])) }
    ensures one { antibase_two (numbers_in [] (1 ∷ [])) ≡ OkValue (numbers_in (1 ∷ []) (1 ∷ [])) }
    ensures minus_one { antibase_two (numbers [] (negsuc 0 ∷ [])) ≡ OkValue (numbers_in (1 ∷ []) (1 ∷ [])) }
    ensures minus_four { antibase_two (numbers [] (negsuc 3 ∷ [])) ≡ OkValue (numbers_in (3 ∷ []) (1 ∷ 0 ∷ 0 ∷ [])) }
    ensures list { antibase_two (numbers_in (2 ∷ []) (5 ∷ 2 ∷ [])) ≡ OkValue (numbers_in (2 ∷ 3 ∷ []) (1 ∷ 0 ∷ 1 ∷ 0 ∷ 1 ∷ 0 ∷ [])) }
    ensures signs { antibase_two (numbers (2 ∷ []) (negsuc 1 ∷ pos 3 ∷ [])) ≡ OkValue (numbers_in (2 ∷ 2 ∷ []) (1 ∷ 0 ∷ 1 ∷ 1 ∷ [])) }
    ensures table { antibase_two (numbers_in (1 ∷ 2 ∷ []) (2 ∷ 1 ∷ [])) ≡ OkValue (numbers_in (1 ∷ 2 ∷ 2 ∷ []) (1 ∷ 0 ∷ 0 ∷ 1 ∷ [])) }
    ensures least { antibase_two (numbers [] (negsuc 9223372036854775807 ∷ [])) ≡ OkValue (numbers_in (64 ∷ []) (1 ∷ replicate 63 0)) }
    ensures no_numbers { antibase_two (nothing NumberKind (0 ∷ [])) ≡ OkValue (nothing NumberKind (0 ∷ 0 ∷ [])) }
    ensures no_rows { antibase_two (nothing NumberKind (0 ∷ 3 ∷ [])) ≡ OkValue (nothing NumberKind (0 ∷ 3 ∷ 0 ∷ [])) }
    ensures empty_rows { antibase_two (nothing NumberKind (3 ∷ 0 ∷ [])) ≡ OkValue (nothing NumberKind (3 ∷ 0 ∷ 0 ∷ [])) }
    ensures no_characters { antibase_two (nothing CharacterKind (0 ∷ [])) ≡ OkValue (nothing NumberKind (0 ∷ [])) }
    ensures no_boxes { antibase_two (nothing BoxedKind (3 ∷ 0 ∷ [])) ≡ OkValue (nothing NumberKind (3 ∷ 0 ∷ [])) }
    ensures character { antibase_two (bytes_in [] (97 ∷ [])) ≡ ErrValue fault.Domain }
    ensures boxed { antibase_two (boxes_in [] (numbers_in [] (7 ∷ []) ∷ [])) ≡ ErrValue fault.Domain }
    ensures too_many_axes { antibase_two (numbers_in (replicate 32 1) (1 ∷ [])) ≡ ErrValue fault.Limit }
    ensures too_many_without_atoms { antibase_two (nothing NumberKind (0 ∷ replicate 31 1)) ≡ ErrValue fault.Limit }
    ensures most_axes_of_characters { antibase_two (nothing CharacterKind (0 ∷ replicate 31 1)) ≡ OkValue (nothing NumberKind (0 ∷ replicate 31 1)) }
    ensures domain_before_limit { antibase_two (bytes_in (replicate 32 1) (97 ∷ [])) ≡ ErrValue fault.Domain }
{}

/// Laws: a number less its last digit is the base times what is left, and binary digits are as few as hold the magnitude.
#[tactic(auto, using(crate::proofs::Laws::left_times, crate::proofs::Laws::length_is_least))]
pub fn digit_laws()
    ensures left { (x r : ℤ) → r -ℤ residue x r ≡ x *ℤ left_by x r }
    ensures enough { (z : ℤ) → unsigned_abs z < 2 ^ 64 → unsigned_abs z < 2 ^ binary_length z }
    ensures least { (z : ℤ) → unsigned_abs z < 2 ^ 64 → 1 < binary_length z → 2 ^ (binary_length z - 1) ≤ unsigned_abs z }
{}
