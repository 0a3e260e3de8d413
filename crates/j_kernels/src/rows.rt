// Scalar verbs worked out by hand.
ghost use Rattle.std.specs.Prelude.{◌≡◌, ◌∷◌, [], pos, negsuc, Ok as OkValue, Err as ErrValue};
ghost use Rattle.j_definitions.specs.Array.{number, byte};
ghost use Rattle.j_definitions.specs.declared.Fault.TheVariants.{Domain, Length, Nonce, Overflow, Quotient as QuotientFault};
ghost use Rattle.j_kernels.specs.Scalars.{monad_of, dyad_of, scalar_monad, scalar_dyad};
ghost use Rattle.j_kernels.specs.Rows.{numbers_in, bytes_in, box_of};
ghost use Rattle.j_kernels.specs.declared.scalar.Scalar.TheVariants as v;

/// Laws: the verbs on one number, worked out by hand.
pub fn worked_monads()
    ensures itself { monad_of v.Plus (number (negsuc 2)) ≡ OkValue (number (negsuc 2)) }
    ensures minus { monad_of v.Minus (number (pos 7)) ≡ OkValue (number (negsuc 6)) }
    ensures minus_least { monad_of v.Minus (number (negsuc 9223372036854775807)) ≡ ErrValue Overflow }
    ensures sign { monad_of v.Times (number (negsuc 6)) ≡ OkValue (number (negsuc 0)) }
    ensures sign_of_zero { monad_of v.Times (number (pos 0)) ≡ OkValue (number (pos 0)) }
    ensures sign_above { monad_of v.Times (number (pos 12)) ≡ OkValue (number (pos 1)) }
    ensures reciprocal { monad_of v.Divide (number (pos 1)) ≡ OkValue (number (pos 1)) }
    ensures reciprocal_of_minus_one { monad_of v.Divide (number (negsuc 0)) ≡ OkValue (number (negsuc 0)) }
    ensures reciprocal_of_two { monad_of v.Divide (number (pos 2)) ≡ ErrValue QuotientFault }
    ensures reciprocal_of_zero { monad_of v.Divide (number (pos 0)) ≡ ErrValue QuotientFault }
    ensures magnitude { monad_of v.Residue (number (negsuc 6)) ≡ OkValue (number (pos 7)) }
    ensures magnitude_of_least { monad_of v.Residue (number (negsuc 9223372036854775807)) ≡ ErrValue Overflow }
    ensures lower { monad_of v.LesserOf (number (negsuc 2)) ≡ OkValue (number (negsuc 2)) }
    ensures upper { monad_of v.GreaterOf (number (pos 3)) ≡ OkValue (number (pos 3)) }
    ensures less_one { monad_of v.LessEqual (number (pos 0)) ≡ OkValue (number (negsuc 0)) }
    ensures less_one_than_least { monad_of v.LessEqual (number (negsuc 9223372036854775807)) ≡ ErrValue Overflow }
    ensures one_more { monad_of v.GreaterEqual (number (negsuc 0)) ≡ OkValue (number (pos 0)) }
    ensures one_more_than_greatest { monad_of v.GreaterEqual (number (pos 9223372036854775807)) ≡ ErrValue Overflow }
    ensures double { monad_of v.Double (number (negsuc 2)) ≡ OkValue (number (negsuc 5)) }
    ensures double_to_least { monad_of v.Double (number (negsuc 4611686018427387903)) ≡ OkValue (number (negsuc 9223372036854775807)) }
    ensures double_beyond { monad_of v.Double (number (pos 4611686018427387904)) ≡ ErrValue Overflow }
    ensures square { monad_of v.Square (number (negsuc 2)) ≡ OkValue (number (pos 9)) }
    ensures square_beyond { monad_of v.Square (number (pos 4294967296)) ≡ ErrValue Overflow }
    ensures one_less { monad_of v.Not (number (pos 5)) ≡ OkValue (number (negsuc 3)) }
    ensures one_less_zero { monad_of v.Not (number (pos 0)) ≡ OkValue (number (pos 1)) }
    ensures one_less_least { monad_of v.Not (number (negsuc 9223372036854775807)) ≡ ErrValue Overflow }
    ensures no_power { monad_of v.Power (number (pos 2)) ≡ ErrValue Nonce }
    ensures half { monad_of v.Halve (number (negsuc 5)) ≡ OkValue (number (negsuc 2)) }
    ensures half_of_odd { monad_of v.Halve (number (negsuc 2)) ≡ ErrValue QuotientFault }
    ensures of_a_character { monad_of v.Minus (byte 97) ≡ ErrValue Domain }
{}

/// Laws: the verbs on two atoms, worked out by hand.
pub fn worked_dyads()
    ensures sum { dyad_of v.Plus (number (pos 3)) (number (negsuc 4)) ≡ OkValue (number (negsuc 1)) }
    ensures sum_beyond { dyad_of v.Plus (number (pos 9223372036854775807)) (number (pos 1)) ≡ ErrValue Overflow }
    ensures difference { dyad_of v.Minus (number (pos 3)) (number (pos 5)) ≡ OkValue (number (negsuc 1)) }
    ensures difference_beyond { dyad_of v.Minus (number (pos 0)) (number (negsuc 9223372036854775807)) ≡ ErrValue Overflow }
    ensures product { dyad_of v.Times (number (negsuc 2)) (number (pos 5)) ≡ OkValue (number (negsuc 14)) }
    ensures product_to_least { dyad_of v.Times (number (pos 4294967296)) (number (negsuc 2147483647)) ≡ OkValue (number (negsuc 9223372036854775807)) }
    ensures product_beyond { dyad_of v.Times (number (pos 4294967296)) (number (pos 2147483648)) ≡ ErrValue Overflow }
    ensures quotient { dyad_of v.Divide (number (negsuc 5)) (number (pos 2)) ≡ OkValue (number (negsuc 2)) }
    ensures nothing_by_nothing { dyad_of v.Divide (number (pos 0)) (number (pos 0)) ≡ OkValue (number (pos 0)) }
    ensures not_whole { dyad_of v.Divide (number (pos 7)) (number (pos 2)) ≡ ErrValue QuotientFault }
    ensures by_nothing { dyad_of v.Divide (number (pos 1)) (number (pos 0)) ≡ ErrValue QuotientFault }
    ensures least_by_minus_one { dyad_of v.Divide (number (negsuc 9223372036854775807)) (number (negsuc 0)) ≡ ErrValue Overflow }
    ensures power { dyad_of v.Power (number (pos 3)) (number (pos 5)) ≡ OkValue (number (pos 243)) }
    ensures power_of_minus { dyad_of v.Power (number (negsuc 1)) (number (pos 3)) ≡ OkValue (number (negsuc 7)) }
    ensures even_power_of_minus { dyad_of v.Power (number (negsuc 2)) (number (pos 2)) ≡ OkValue (number (pos 9)) }
    ensures zero_to_zero { dyad_of v.Power (number (pos 0)) (number (pos 0)) ≡ OkValue (number (pos 1)) }
    ensures zero_to_two { dyad_of v.Power (number (pos 0)) (number (pos 2)) ≡ OkValue (number (pos 0)) }
    ensures zero_to_minus_one { dyad_of v.Power (number (pos 0)) (number (negsuc 0)) ≡ ErrValue QuotientFault }
    ensures two_to_minus_one { dyad_of v.Power (number (pos 2)) (number (negsuc 0)) ≡ ErrValue QuotientFault }
    ensures one_to_minus_five { dyad_of v.Power (number (pos 1)) (number (negsuc 4)) ≡ OkValue (number (pos 1)) }
    ensures minus_one_to_minus_three { dyad_of v.Power (number (negsuc 0)) (number (negsuc 2)) ≡ OkValue (number (negsuc 0)) }
    ensures minus_one_to_minus_four { dyad_of v.Power (number (negsuc 0)) (number (negsuc 3)) ≡ OkValue (number (pos 1)) }
    ensures greatest_power_of_two { dyad_of v.Power (number (pos 2)) (number (pos 62)) ≡ OkValue (number (pos 4611686018427387904)) }
    ensures power_beyond { dyad_of v.Power (number (pos 2)) (number (pos 63)) ≡ ErrValue Overflow }
    ensures power_to_least { dyad_of v.Power (number (negsuc 1)) (number (pos 63)) ≡ OkValue (number (negsuc 9223372036854775807)) }
    ensures greatest_square { dyad_of v.Power (number (pos 3037000499)) (number (pos 2)) ≡ OkValue (number (pos 9223372030926249001)) }
    ensures square_of_next { dyad_of v.Power (number (pos 3037000500)) (number (pos 2)) ≡ ErrValue Overflow }
    ensures least_to_one { dyad_of v.Power (number (negsuc 9223372036854775807)) (number (pos 1)) ≡ OkValue (number (negsuc 9223372036854775807)) }
    ensures least_to_two { dyad_of v.Power (number (negsuc 9223372036854775807)) (number (pos 2)) ≡ ErrValue Overflow }
    ensures residue { dyad_of v.Residue (number (pos 3)) (number (pos 7)) ≡ OkValue (number (pos 1)) }
    ensures residue_by_minus { dyad_of v.Residue (number (negsuc 2)) (number (pos 7)) ≡ OkValue (number (negsuc 1)) }
    ensures residue_of_minus { dyad_of v.Residue (number (pos 3)) (number (negsuc 6)) ≡ OkValue (number (pos 2)) }
    ensures residue_of_both { dyad_of v.Residue (number (negsuc 2)) (number (negsuc 6)) ≡ OkValue (number (negsuc 0)) }
    ensures residue_by_zero { dyad_of v.Residue (number (pos 0)) (number (pos 7)) ≡ OkValue (number (pos 7)) }
    ensures no_residue { dyad_of v.Residue (number (negsuc 2)) (number (pos 6)) ≡ OkValue (number (pos 0)) }
    ensures residue_of_least { dyad_of v.Residue (number (negsuc 0)) (number (negsuc 9223372036854775807)) ≡ OkValue (number (pos 0)) }
    ensures lesser { dyad_of v.LesserOf (number (negsuc 9223372036854775807)) (number (pos 9223372036854775807)) ≡ OkValue (number (negsuc 9223372036854775807)) }
    ensures greater { dyad_of v.GreaterOf (number (negsuc 2)) (number (negsuc 4)) ≡ OkValue (number (negsuc 2)) }
    ensures at_most { dyad_of v.LessEqual (number (pos 2)) (number (pos 2)) ≡ OkValue (number (pos 1)) }
    ensures not_at_most { dyad_of v.LessEqual (number (pos 2)) (number (negsuc 2)) ≡ OkValue (number (pos 0)) }
    ensures at_least { dyad_of v.GreaterEqual (number (pos 2)) (number (pos 2)) ≡ OkValue (number (pos 1)) }
    ensures not_at_least { dyad_of v.GreaterEqual (number (pos 1)) (number (pos 2)) ≡ OkValue (number (pos 0)) }
    ensures neither { dyad_of v.Double (number (pos 0)) (number (pos 0)) ≡ OkValue (number (pos 1)) }
    ensures one_of_them { dyad_of v.Double (number (pos 0)) (number (pos 1)) ≡ OkValue (number (pos 0)) }
    ensures neither_of_two { dyad_of v.Double (number (pos 0)) (number (pos 2)) ≡ ErrValue Domain }
    ensures not_both { dyad_of v.Square (number (pos 1)) (number (pos 0)) ≡ OkValue (number (pos 1)) }
    ensures both { dyad_of v.Square (number (pos 1)) (number (pos 1)) ≡ OkValue (number (pos 0)) }
    ensures not_both_of_minus_one { dyad_of v.Square (number (negsuc 0)) (number (pos 1)) ≡ ErrValue Domain }
    ensures divisor { dyad_of v.Or (number (pos 12)) (number (negsuc 17)) ≡ OkValue (number (pos 6)) }
    ensures divisor_with_zero { dyad_of v.Or (number (pos 0)) (number (negsuc 4)) ≡ OkValue (number (pos 5)) }
    ensures divisor_of_zeros { dyad_of v.Or (number (pos 0)) (number (pos 0)) ≡ OkValue (number (pos 0)) }
    ensures divisor_of_ones { dyad_of v.Or (number (pos 1)) (number (pos 1)) ≡ OkValue (number (pos 1)) }
    ensures multiple { dyad_of v.And (number (pos 12)) (number (pos 18)) ≡ OkValue (number (pos 36)) }
    ensures multiple_of_minus { dyad_of v.And (number (negsuc 3)) (number (pos 6)) ≡ OkValue (number (negsuc 11)) }
    ensures multiple_of_both_minus { dyad_of v.And (number (negsuc 3)) (number (negsuc 5)) ≡ OkValue (number (pos 12)) }
    ensures multiple_with_zero { dyad_of v.And (number (pos 0)) (number (negsuc 9223372036854775807)) ≡ OkValue (number (pos 0)) }
    ensures multiple_of_zeros { dyad_of v.And (number (pos 0)) (number (pos 0)) ≡ OkValue (number (pos 0)) }
    ensures multiple_of_ones { dyad_of v.And (number (pos 1)) (number (pos 1)) ≡ OkValue (number (pos 1)) }
    ensures multiple_of_one_and_zero { dyad_of v.And (number (pos 1)) (number (pos 0)) ≡ OkValue (number (pos 0)) }
    ensures multiple_beyond { dyad_of v.And (number (negsuc 0)) (number (negsuc 9223372036854775807)) ≡ ErrValue Overflow }
    ensures multiple_of_least { dyad_of v.And (number (pos 1)) (number (negsuc 9223372036854775807)) ≡ OkValue (number (negsuc 9223372036854775807)) }
    ensures less { dyad_of v.Less (number (negsuc 3)) (number (negsuc 2)) ≡ OkValue (number (pos 1)) }
    ensures not_less { dyad_of v.Less (number (pos 2)) (number (pos 2)) ≡ OkValue (number (pos 0)) }
    ensures more { dyad_of v.Greater (number (pos 2)) (number (negsuc 2)) ≡ OkValue (number (pos 1)) }
    ensures not_more { dyad_of v.Greater (number (pos 2)) (number (pos 2)) ≡ OkValue (number (pos 0)) }
    ensures equal { dyad_of v.Equal (number (negsuc 2)) (number (negsuc 2)) ≡ OkValue (number (pos 1)) }
    ensures equal_characters { dyad_of v.Equal (byte 97) (byte 97) ≡ OkValue (number (pos 1)) }
    ensures kinds_unequal { dyad_of v.Equal (byte 49) (number (pos 49)) ≡ OkValue (number (pos 0)) }
    ensures kinds_differ { dyad_of v.NotEqual (byte 49) (number (pos 49)) ≡ OkValue (number (pos 1)) }
    ensures boxes_match { dyad_of v.Equal (box_of (pos 5)) (box_of (pos 5)) ≡ OkValue (number (pos 1)) }
    ensures boxes_differ { dyad_of v.NotEqual (box_of (pos 5)) (box_of (pos 6)) ≡ OkValue (number (pos 1)) }
    ensures box_of_it { dyad_of v.Equal (box_of (pos 5)) (number (pos 5)) ≡ OkValue (number (pos 0)) }
    ensures with_a_character { dyad_of v.Less (byte 97) (number (pos 2)) ≡ ErrValue Domain }
{}

/// Laws: the verbs on nouns, worked out by hand.
pub fn worked_nouns()
    ensures each { scalar_monad (monad_of v.Minus) (numbers_in (3 ∷ []) (1 ∷ 0 ∷ 2 ∷ [])) ≡ OkValue (record (numbers_in (3 ∷ []) []) { atoms = number (negsuc 0) ∷ number (pos 0) ∷ number (negsuc 1) ∷ [] }) }
    ensures characters { scalar_monad (monad_of v.Minus) (bytes_in (2 ∷ []) (97 ∷ 98 ∷ [])) ≡ ErrValue Domain }
    ensures no_characters { scalar_monad (monad_of v.Minus) (bytes_in (0 ∷ 3 ∷ []) []) ≡ OkValue (numbers_in (0 ∷ 3 ∷ []) []) }
    ensures lists { scalar_dyad (dyad_of v.Plus) (numbers_in (2 ∷ []) (1 ∷ 2 ∷ [])) (numbers_in (2 ∷ []) (5 ∷ 7 ∷ [])) ≡ OkValue (numbers_in (2 ∷ []) (6 ∷ 9 ∷ [])) }
    ensures list_and_table { scalar_dyad (dyad_of v.Plus) (numbers_in (2 ∷ []) (10 ∷ 20 ∷ [])) (numbers_in (2 ∷ 3 ∷ []) (1 ∷ 2 ∷ 3 ∷ 4 ∷ 5 ∷ 6 ∷ [])) ≡ OkValue (numbers_in (2 ∷ 3 ∷ []) (11 ∷ 12 ∷ 13 ∷ 24 ∷ 25 ∷ 26 ∷ [])) }
    ensures table_and_list { scalar_dyad (dyad_of v.Minus) (numbers_in (2 ∷ 2 ∷ []) (5 ∷ 6 ∷ 7 ∷ 8 ∷ [])) (numbers_in (2 ∷ []) (1 ∷ 2 ∷ [])) ≡ OkValue (numbers_in (2 ∷ 2 ∷ []) (4 ∷ 5 ∷ 5 ∷ 6 ∷ [])) }
    ensures unequal_lengths { scalar_dyad (dyad_of v.Plus) (numbers_in (2 ∷ []) (1 ∷ 2 ∷ [])) (bytes_in (3 ∷ []) (97 ∷ 98 ∷ 99 ∷ [])) ≡ ErrValue Length }
    ensures atom_and_list_of_one { scalar_dyad (dyad_of v.Plus) (numbers_in (1 ∷ []) (1 ∷ [])) (numbers_in (2 ∷ []) (5 ∷ 7 ∷ [])) ≡ ErrValue Length }
    ensures first_fault { scalar_dyad (dyad_of v.Divide) (record (numbers_in (2 ∷ []) []) { atoms = number (pos 1) ∷ number (negsuc 9223372036854775807) ∷ [] }) (record (numbers_in (2 ∷ []) []) { atoms = number (pos 2) ∷ number (negsuc 0) ∷ [] }) ≡ ErrValue QuotientFault }
    ensures first_of_powers { scalar_dyad (dyad_of v.Power) (numbers_in [] (2 ∷ [])) (record (numbers_in (2 ∷ []) []) { atoms = number (pos 64) ∷ number (negsuc 0) ∷ [] }) ≡ ErrValue Overflow }
    ensures nothing_and_a_character { scalar_dyad (dyad_of v.Plus) (numbers_in (0 ∷ []) []) (bytes_in [] (97 ∷ [])) ≡ OkValue (numbers_in (0 ∷ []) []) }
    ensures nothing_of_characters { scalar_dyad (dyad_of v.Equal) (bytes_in (0 ∷ []) []) (bytes_in [] (97 ∷ [])) ≡ OkValue (numbers_in (0 ∷ []) []) }
    ensures letters { scalar_dyad (dyad_of v.Equal) (bytes_in (3 ∷ []) (97 ∷ 98 ∷ 97 ∷ [])) (bytes_in [] (97 ∷ [])) ≡ OkValue (numbers_in (3 ∷ []) (1 ∷ 0 ∷ 1 ∷ [])) }
{}
