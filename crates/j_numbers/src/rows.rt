// Number words worked out by hand.
ghost use Rattle.std.specs.Prelude.{◌≡◌, ◌∷◌, [], codes, pos, negsuc, true, false, Ok as OkValue, Err as ErrValue};
ghost use Rattle.j_definitions.specs.Array.{number};
ghost use Rattle.j_definitions.specs.declared.Kind.TheVariants.{Number as NumberKind};
ghost use Rattle.j_numbers.specs.declared.fault.NumberFault.TheVariants.{IllFormed, Overflow};
ghost use Rattle.j_noun.specs.declared.ranks.RankPart.TheVariants.{Number, Infinite};
ghost use Rattle.j_numbers.specs.declared.literal.Literal.TheVariants.{Noun, Ranks};
ghost use Rattle.j_numbers.specs.Numbers.{literal};
ghost use Rattle.j_numbers.specs.Literals.{read};

/// Laws: number words worked out by hand.
pub fn worked_rows()
    ensures letters { literal (codes "16b1f") true ≡ OkValue (Number (pos 31) ∷ []) }
    ensures digit_of_its_base { literal (codes "2b129") true ≡ OkValue (Number (pos 17) ∷ []) }
    ensures base_zero { literal (codes "0b7z") true ≡ OkValue (Number (pos 35) ∷ []) }
    ensures large_base { literal (codes "99999999999999999999b01") true ≡ OkValue (Number (pos 1) ∷ []) }
    ensures large_letters { literal (codes "36bzzzzzzzzzzzzzzzzzzzzzzzzzzzzzz") true ≡ ErrValue Overflow }
    ensures power { literal (codes "1e3") true ≡ OkValue (Number (pos 1000) ∷ []) }
    ensures minus_power { literal (codes "_3e2") true ≡ OkValue (Number (negsuc 299) ∷ []) }
    ensures large_power { literal (codes "1e19") true ≡ ErrValue Overflow }
    ensures greatest_power { literal (codes "9e18") true ≡ OkValue (Number (pos 9000000000000000000) ∷ []) }
    ensures huge_power { literal (codes "1e400") true ≡ ErrValue Overflow }
    ensures zero_power { literal (codes "0e400") true ≡ OkValue (Number (pos 0) ∷ []) }
    ensures least { literal (codes "_9223372036854775808") true ≡ OkValue (Number (negsuc 9223372036854775807) ∷ []) }
    ensures below_least { literal (codes "_9223372036854775809") true ≡ ErrValue Overflow }
    ensures zeros { literal (codes "000000000000000000000000000001") true ≡ OkValue (Number (pos 1) ∷ []) }
    ensures letter { literal (codes "3x") true ≡ ErrValue IllFormed }
    ensures no_exponent { literal (codes "3e") true ≡ ErrValue IllFormed }
    ensures minus_exponent { literal (codes "3e_2") true ≡ ErrValue IllFormed }
    ensures minus_base { literal (codes "_2b1") true ≡ ErrValue IllFormed }
    ensures ill_formed_first { literal (codes "3x 1e19") true ≡ ErrValue IllFormed }
    ensures overflow_first { literal (codes "1e19 3x") true ≡ ErrValue Overflow }
    ensures infinite { literal (codes "_") true ≡ OkValue (Infinite ∷ []) }
    ensures infinite_refused { literal (codes "_") false ≡ ErrValue IllFormed }
    ensures minus_alone { literal (codes "_ __1") true ≡ ErrValue IllFormed }
    ensures letter_beyond { literal (codes "16b1F") true ≡ ErrValue IllFormed }
    ensures atom { read (codes " 7 ") ≡ OkValue (Noun (record { kind = NumberKind; shape = []; atoms = number (pos 7) ∷ [] })) }
    ensures list { read (codes "7 _5") ≡ OkValue (Noun (record { kind = NumberKind; shape = 2 ∷ []; atoms = number (pos 7) ∷ number (negsuc 4) ∷ [] })) }
    ensures ranks { read (codes "1 _ 2") ≡ OkValue (Ranks (Number (pos 1) ∷ Infinite ∷ Number (pos 2) ∷ [])) }
{}
