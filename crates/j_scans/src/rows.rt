// Pieces worked out by hand.
ghost use Rattle.std.specs.Prelude.{◌≡◌, [], ◌∷◌, Ok as OkValue, Err as ErrValue};
ghost use Rattle.j_definitions.specs.declared.Fault.TheVariants.{Domain};
ghost use Rattle.j_rank.specs.Rows.{numbers_in, bytes_in, boxes_in};
ghost use Rattle.j_scans.specs.Scans.{prefixes, suffixes, infixes, outfixes};
ghost use Rattle.j_scans.specs.Rows.{five, one_five, list, table, no_rows, no_columns, none, atom, minus, infixes_by, outfixes_by};

/// Laws: prefixes, worked out by hand.
pub fn worked_prefixes()
    ensures of_list { (prefixes (list (1 ∷ 2 ∷ 3 ∷ []))).pieces ≡ list (1 ∷ []) ∷ list (1 ∷ 2 ∷ []) ∷ list (1 ∷ 2 ∷ 3 ∷ []) ∷ [] }
    ensures of_atom { (prefixes five).pieces ≡ one_five ∷ [] }
    ensures of_one { (prefixes one_five).pieces ≡ one_five ∷ [] }
    ensures of_none { (prefixes none).pieces ≡ [] }
    ensures of_table { (prefixes table).pieces ≡ numbers_in (1 ∷ 3 ∷ []) (0 ∷ 1 ∷ 2 ∷ []) ∷ table ∷ [] }
    ensures of_no_rows { (prefixes no_rows).pieces ≡ [] }
    ensures of_no_columns { (prefixes (no_columns 3)).pieces ≡ no_columns 1 ∷ no_columns 2 ∷ no_columns 3 ∷ [] }
    ensures of_boxes { (prefixes (boxes_in (2 ∷ []) (five ∷ none ∷ []))).pieces ≡ boxes_in (1 ∷ []) (five ∷ []) ∷ boxes_in (2 ∷ []) (five ∷ none ∷ []) ∷ [] }
    ensures no_items_of_list { (prefixes (list (1 ∷ 2 ∷ 3 ∷ []))).no_items ≡ none }
    ensures no_items_of_atom { (prefixes five).no_items ≡ none }
    ensures no_items_of_table { (prefixes table).no_items ≡ numbers_in (0 ∷ 3 ∷ []) [] }
    ensures no_items_of_none { (prefixes no_rows).no_items ≡ no_rows }
    ensures no_items_of_columns { (prefixes (no_columns 3)).no_items ≡ no_columns 0 }
{}

/// Laws: suffixes, worked out by hand.
pub fn worked_suffixes()
    ensures of_list { (suffixes (list (1 ∷ 2 ∷ 3 ∷ []))).pieces ≡ list (1 ∷ 2 ∷ 3 ∷ []) ∷ list (2 ∷ 3 ∷ []) ∷ list (3 ∷ []) ∷ [] }
    ensures of_atom { (suffixes five).pieces ≡ one_five ∷ [] }
    ensures of_one { (suffixes one_five).pieces ≡ one_five ∷ [] }
    ensures of_none { (suffixes none).pieces ≡ [] }
    ensures of_table { (suffixes table).pieces ≡ table ∷ numbers_in (1 ∷ 3 ∷ []) (3 ∷ 4 ∷ 5 ∷ []) ∷ [] }
    ensures of_no_rows { (suffixes no_rows).pieces ≡ [] }
    ensures of_no_columns { (suffixes (no_columns 3)).pieces ≡ no_columns 3 ∷ no_columns 2 ∷ no_columns 1 ∷ [] }
    ensures no_items_of_atom { (suffixes five).no_items ≡ none }
    ensures no_items_of_table { (suffixes table).no_items ≡ numbers_in (0 ∷ 3 ∷ []) [] }
{}

/// Laws: infixes, worked out by hand.
pub fn worked_infixes()
    ensures of_two { infixes_by (atom 2) (list (1 ∷ 2 ∷ 3 ∷ 4 ∷ 5 ∷ [])) ≡ OkValue (list (1 ∷ 2 ∷ []) ∷ list (2 ∷ 3 ∷ []) ∷ list (3 ∷ 4 ∷ []) ∷ list (4 ∷ 5 ∷ []) ∷ []) }
    ensures of_one { infixes_by (atom 1) (list (1 ∷ 2 ∷ [])) ≡ OkValue (list (1 ∷ []) ∷ list (2 ∷ []) ∷ []) }
    ensures of_zero { infixes_by (atom 0) (list (1 ∷ 2 ∷ [])) ≡ OkValue (none ∷ none ∷ none ∷ []) }
    ensures of_all { infixes_by (atom 2) (list (1 ∷ 2 ∷ [])) ≡ OkValue (list (1 ∷ 2 ∷ []) ∷ []) }
    ensures of_more { infixes_by (atom 3) (list (1 ∷ 2 ∷ [])) ≡ OkValue [] }
    ensures of_far_more { infixes_by (atom 9223372036854775807) (list (1 ∷ 2 ∷ [])) ≡ OkValue [] }
    ensures short_last { infixes_by (minus 2) (list (1 ∷ 2 ∷ 3 ∷ 4 ∷ 5 ∷ [])) ≡ OkValue (list (1 ∷ 2 ∷ []) ∷ list (3 ∷ 4 ∷ []) ∷ list (5 ∷ []) ∷ []) }
    ensures whole_last { infixes_by (minus 2) (list (1 ∷ 2 ∷ 3 ∷ 4 ∷ [])) ≡ OkValue (list (1 ∷ 2 ∷ []) ∷ list (3 ∷ 4 ∷ []) ∷ []) }
    ensures one_by_one { infixes_by (minus 1) (list (1 ∷ 2 ∷ [])) ≡ OkValue (list (1 ∷ []) ∷ list (2 ∷ []) ∷ []) }
    ensures one_short { infixes_by (minus 3) (list (1 ∷ 2 ∷ [])) ≡ OkValue (list (1 ∷ 2 ∷ []) ∷ []) }
    ensures least { infixes_by (minus 9223372036854775808) (list (1 ∷ 2 ∷ [])) ≡ OkValue (list (1 ∷ 2 ∷ []) ∷ []) }
    ensures none_minus { infixes_by (minus 2) none ≡ OkValue [] }
    ensures none_zero { infixes_by (atom 0) none ≡ OkValue (none ∷ []) }
    ensures none_one { infixes_by (atom 1) none ≡ OkValue [] }
    ensures atom_zero { infixes_by (atom 0) five ≡ OkValue (none ∷ none ∷ []) }
    ensures atom_one { infixes_by (atom 1) five ≡ OkValue (one_five ∷ []) }
    ensures atom_two { infixes_by (atom 2) five ≡ OkValue [] }
    ensures atom_minus { infixes_by (minus 2) five ≡ OkValue (one_five ∷ []) }
    ensures rows { infixes_by (atom 1) table ≡ OkValue (numbers_in (1 ∷ 3 ∷ []) (0 ∷ 1 ∷ 2 ∷ []) ∷ numbers_in (1 ∷ 3 ∷ []) (3 ∷ 4 ∷ 5 ∷ []) ∷ []) }
    ensures no_rows { infixes_by (minus 1) no_rows ≡ OkValue [] }
    ensures no_columns { infixes_by (atom 2) (no_columns 3) ≡ OkValue (no_columns 2 ∷ no_columns 2 ∷ []) }
    ensures by_character { infixes (bytes_in [] (65 ∷ [])) (list (1 ∷ [])) ≡ ErrValue Domain }
    ensures by_box { infixes (boxes_in [] (five ∷ [])) (list (1 ∷ [])) ≡ ErrValue Domain }
{}

/// Laws: outfixes, worked out by hand.
pub fn worked_outfixes()
    ensures of_two { outfixes_by (atom 2) (list (1 ∷ 2 ∷ 3 ∷ 4 ∷ [])) ≡ OkValue (list (3 ∷ 4 ∷ []) ∷ list (1 ∷ 4 ∷ []) ∷ list (1 ∷ 2 ∷ []) ∷ []) }
    ensures of_one { outfixes_by (atom 1) (list (1 ∷ 2 ∷ [])) ≡ OkValue (list (2 ∷ []) ∷ list (1 ∷ []) ∷ []) }
    ensures of_zero { outfixes_by (atom 0) (list (1 ∷ 2 ∷ [])) ≡ OkValue (list (1 ∷ 2 ∷ []) ∷ list (1 ∷ 2 ∷ []) ∷ list (1 ∷ 2 ∷ []) ∷ []) }
    ensures of_all { outfixes_by (atom 2) (list (1 ∷ 2 ∷ [])) ≡ OkValue (none ∷ []) }
    ensures of_more { outfixes_by (atom 3) (list (1 ∷ 2 ∷ [])) ≡ OkValue [] }
    ensures short_last { outfixes_by (minus 2) (list (1 ∷ 2 ∷ 3 ∷ [])) ≡ OkValue (list (3 ∷ []) ∷ list (1 ∷ 2 ∷ []) ∷ []) }
    ensures one_short { outfixes_by (minus 3) (list (1 ∷ 2 ∷ [])) ≡ OkValue (none ∷ []) }
    ensures least { outfixes_by (minus 9223372036854775808) (list (1 ∷ 2 ∷ [])) ≡ OkValue (none ∷ []) }
    ensures none_minus { outfixes_by (minus 2) none ≡ OkValue [] }
    ensures none_zero { outfixes_by (atom 0) none ≡ OkValue (none ∷ []) }
    ensures atom_zero { outfixes_by (atom 0) five ≡ OkValue (one_five ∷ one_five ∷ []) }
    ensures atom_one { outfixes_by (atom 1) five ≡ OkValue (none ∷ []) }
    ensures rows { outfixes_by (atom 1) table ≡ OkValue (numbers_in (1 ∷ 3 ∷ []) (3 ∷ 4 ∷ 5 ∷ []) ∷ numbers_in (1 ∷ 3 ∷ []) (0 ∷ 1 ∷ 2 ∷ []) ∷ []) }
    ensures no_rows { outfixes_by (minus 1) no_rows ≡ OkValue [] }
    ensures no_columns { outfixes_by (atom 2) (no_columns 3) ≡ OkValue (no_columns 1 ∷ no_columns 1 ∷ []) }
    ensures by_character { outfixes (bytes_in [] (65 ∷ [])) (list (1 ∷ [])) ≡ ErrValue Domain }
    ensures by_box { outfixes (boxes_in [] (five ∷ [])) (list (1 ∷ [])) ≡ ErrValue Domain }
{}
