// Pieces worked out by hand.
ghost use Rattle.std.specs.Prelude.{◌≡◌, [], ◌∷◌, Ok as OkValue, Err as ErrValue};
ghost use Rattle.j_definitions.specs.declared.Fault.TheVariants.{Domain, Length};
ghost use Rattle.j_rank.specs.Rows.{numbers_in, bytes_in, boxes_in};
ghost use Rattle.j_search.specs.declared.cut.CutForm.TheVariants.{Begin, BeginDrop, End, EndDrop};
ghost use Rattle.j_scans.specs.Rows.{five, one_five, list, table, no_rows, no_columns, none, atom, minus};
ghost use Rattle.j_cuts_key.specs.Obliques.{obliques};
ghost use Rattle.j_cuts_key.specs.Cuts.{cuts};
ghost use Rattle.j_cuts_key.specs.Rows.{text, keyed_by, marked_by};

/// Laws: oblique lines, worked out by hand.
pub fn worked_obliques()
    ensures of_table { (obliques table).pieces ≡ list (0 ∷ []) ∷ list (1 ∷ 3 ∷ []) ∷ list (2 ∷ 4 ∷ []) ∷ list (5 ∷ []) ∷ [] }
    ensures tall { (obliques (numbers_in (3 ∷ 2 ∷ []) (0 ∷ 1 ∷ 2 ∷ 3 ∷ 4 ∷ 5 ∷ []))).pieces ≡ list (0 ∷ []) ∷ list (1 ∷ 2 ∷ []) ∷ list (3 ∷ 4 ∷ []) ∷ list (5 ∷ []) ∷ [] }
    ensures of_list { (obliques (list (7 ∷ 8 ∷ 9 ∷ []))).pieces ≡ list (7 ∷ []) ∷ list (8 ∷ []) ∷ list (9 ∷ []) ∷ [] }
    ensures of_atom { (obliques five).pieces ≡ one_five ∷ [] }
    ensures of_one { (obliques one_five).pieces ≡ one_five ∷ [] }
    ensures of_none { (obliques none).pieces ≡ [] }
    ensures of_no_rows { (obliques no_rows).pieces ≡ [] }
    ensures of_no_columns { (obliques (no_columns 3)).pieces ≡ [] }
    ensures of_block { (obliques (numbers_in (2 ∷ 2 ∷ 2 ∷ []) (0 ∷ 1 ∷ 2 ∷ 3 ∷ 4 ∷ 5 ∷ 6 ∷ 7 ∷ []))).pieces ≡ numbers_in (1 ∷ 2 ∷ []) (0 ∷ 1 ∷ []) ∷ numbers_in (2 ∷ 2 ∷ []) (2 ∷ 3 ∷ 4 ∷ 5 ∷ []) ∷ numbers_in (1 ∷ 2 ∷ []) (6 ∷ 7 ∷ []) ∷ [] }
    ensures of_empty_block { (obliques (numbers_in (1 ∷ 2 ∷ 0 ∷ []) [])).pieces ≡ numbers_in (1 ∷ 0 ∷ []) [] ∷ numbers_in (1 ∷ 0 ∷ []) [] ∷ [] }
    ensures no_items_of_table { (obliques table).no_items ≡ numbers_in (0 ∷ 3 ∷ []) [] }
    ensures no_items_of_columns { (obliques (no_columns 3)).no_items ≡ no_columns 0 }
    ensures no_items_of_atom { (obliques five).no_items ≡ none }
{}

/// Laws: items by keys, worked out by hand.
pub fn worked_keys()
    ensures of_text { keyed_by (text (98 ∷ 97 ∷ 98 ∷ [])) (list (1 ∷ 2 ∷ 3 ∷ [])) ≡ OkValue (list (1 ∷ 3 ∷ []) ∷ list (2 ∷ []) ∷ []) }
    ensures order_of_nub { keyed_by (list (9 ∷ 3 ∷ 9 ∷ 5 ∷ 3 ∷ [])) (list (0 ∷ 1 ∷ 2 ∷ 3 ∷ 4 ∷ [])) ≡ OkValue (list (0 ∷ 2 ∷ []) ∷ list (1 ∷ 4 ∷ []) ∷ list (3 ∷ []) ∷ []) }
    ensures one_key { keyed_by (list (4 ∷ 4 ∷ [])) table ≡ OkValue (table ∷ []) }
    ensures rows { keyed_by (list (4 ∷ 5 ∷ [])) table ≡ OkValue (numbers_in (1 ∷ 3 ∷ []) (0 ∷ 1 ∷ 2 ∷ []) ∷ numbers_in (1 ∷ 3 ∷ []) (3 ∷ 4 ∷ 5 ∷ []) ∷ []) }
    ensures key_rows { keyed_by (numbers_in (2 ∷ 2 ∷ []) (1 ∷ 2 ∷ 1 ∷ 2 ∷ [])) (list (7 ∷ 8 ∷ [])) ≡ OkValue (list (7 ∷ 8 ∷ []) ∷ []) }
    ensures atoms { keyed_by five five ≡ OkValue (one_five ∷ []) }
    ensures atom_of_list { keyed_by five one_five ≡ OkValue (one_five ∷ []) }
    ensures nothing { keyed_by none none ≡ OkValue [] }
    ensures no_rows { keyed_by none no_rows ≡ OkValue [] }
    ensures no_columns { keyed_by (list (4 ∷ 5 ∷ 4 ∷ [])) (no_columns 3) ≡ OkValue (no_columns 2 ∷ no_columns 1 ∷ []) }
    ensures empty_keys { keyed_by (no_columns 3) (list (1 ∷ 2 ∷ 3 ∷ [])) ≡ OkValue (list (1 ∷ 2 ∷ 3 ∷ []) ∷ []) }
    ensures boxes { keyed_by (boxes_in (2 ∷ []) (five ∷ none ∷ [])) (list (1 ∷ 2 ∷ [])) ≡ OkValue (list (1 ∷ []) ∷ list (2 ∷ []) ∷ []) }
    ensures unequal { keyed_by (list (1 ∷ 2 ∷ [])) (list (1 ∷ [])) ≡ ErrValue Length }
    ensures unequal_atom { keyed_by five (list (1 ∷ 2 ∷ [])) ≡ ErrValue Length }
    ensures unequal_none { keyed_by none five ≡ ErrValue Length }
{}

/// Laws: cuts by the first and by the last item, worked out by hand.
pub fn worked_cuts()
    ensures begin { (cuts Begin (list (1 ∷ 2 ∷ 1 ∷ 3 ∷ 4 ∷ []))).pieces ≡ list (1 ∷ 2 ∷ []) ∷ list (1 ∷ 3 ∷ 4 ∷ []) ∷ [] }
    ensures begin_drop { (cuts BeginDrop (text (32 ∷ 97 ∷ 98 ∷ 32 ∷ 99 ∷ []))).pieces ≡ text (97 ∷ 98 ∷ []) ∷ text (99 ∷ []) ∷ [] }
    ensures end { (cuts End (list (1 ∷ 2 ∷ 3 ∷ 2 ∷ []))).pieces ≡ list (1 ∷ 2 ∷ []) ∷ list (3 ∷ 2 ∷ []) ∷ [] }
    ensures end_drop { (cuts EndDrop (text (97 ∷ 98 ∷ 44 ∷ 99 ∷ 44 ∷ []))).pieces ≡ text (97 ∷ 98 ∷ []) ∷ text (99 ∷ []) ∷ [] }
    ensures neighbours { (cuts BeginDrop (list (0 ∷ 0 ∷ 5 ∷ []))).pieces ≡ none ∷ list (5 ∷ []) ∷ [] }
    ensures neighbours_end { (cuts EndDrop (list (5 ∷ 0 ∷ 0 ∷ []))).pieces ≡ list (5 ∷ []) ∷ none ∷ [] }
    ensures of_one { (cuts Begin one_five).pieces ≡ one_five ∷ [] }
    ensures of_atom { (cuts Begin five).pieces ≡ one_five ∷ [] }
    ensures of_atom_drop { (cuts EndDrop five).pieces ≡ none ∷ [] }
    ensures of_none { (cuts Begin none).pieces ≡ [] }
    ensures of_none_end { (cuts EndDrop none).pieces ≡ [] }
    ensures of_no_rows { (cuts End no_rows).pieces ≡ [] }
    ensures of_rows { (cuts Begin table).pieces ≡ table ∷ [] }
    ensures of_last_row { (cuts EndDrop table).pieces ≡ numbers_in (1 ∷ 3 ∷ []) (0 ∷ 1 ∷ 2 ∷ []) ∷ [] }
    ensures of_no_columns { (cuts Begin (no_columns 2)).pieces ≡ no_columns 1 ∷ no_columns 1 ∷ [] }
    ensures of_boxes { (cuts Begin (boxes_in (2 ∷ []) (five ∷ none ∷ []))).pieces ≡ boxes_in (2 ∷ []) (five ∷ none ∷ []) ∷ [] }
    ensures no_items_of_table { (cuts Begin table).no_items ≡ numbers_in (0 ∷ 3 ∷ []) [] }
    ensures no_items_of_atom { (cuts Begin five).no_items ≡ none }
{}

/// Laws: cuts where a left argument is 1, worked out by hand.
pub fn worked_marked_cuts()
    ensures before_first { marked_by Begin (list (0 ∷ 1 ∷ 0 ∷ 1 ∷ [])) (list (5 ∷ 6 ∷ 7 ∷ 8 ∷ [])) ≡ OkValue (list (6 ∷ 7 ∷ []) ∷ list (8 ∷ []) ∷ []) }
    ensures before_first_drop { marked_by BeginDrop (list (0 ∷ 1 ∷ 0 ∷ 1 ∷ [])) (list (5 ∷ 6 ∷ 7 ∷ 8 ∷ [])) ≡ OkValue (list (7 ∷ []) ∷ none ∷ []) }
    ensures after_last { marked_by End (list (0 ∷ 1 ∷ 0 ∷ [])) (list (5 ∷ 6 ∷ 7 ∷ [])) ≡ OkValue (list (5 ∷ 6 ∷ []) ∷ []) }
    ensures after_last_drop { marked_by EndDrop (list (1 ∷ 0 ∷ 1 ∷ 0 ∷ [])) (list (5 ∷ 6 ∷ 7 ∷ 8 ∷ [])) ≡ OkValue (none ∷ list (6 ∷ []) ∷ []) }
    ensures no_frets { marked_by Begin (list (0 ∷ 0 ∷ [])) (list (5 ∷ 6 ∷ [])) ≡ OkValue [] }
    ensures atom_one { marked_by Begin (atom 1) (list (5 ∷ 6 ∷ [])) ≡ OkValue (list (5 ∷ []) ∷ list (6 ∷ []) ∷ []) }
    ensures atom_one_end { marked_by EndDrop (atom 1) (list (5 ∷ 6 ∷ [])) ≡ OkValue (none ∷ none ∷ []) }
    ensures atom_zero { marked_by End (atom 0) (list (5 ∷ 6 ∷ [])) ≡ OkValue [] }
    ensures atom_on_none { marked_by Begin (atom 1) none ≡ OkValue [] }
    ensures atom_on_atom { marked_by Begin (atom 1) five ≡ OkValue (one_five ∷ []) }
    ensures list_on_atom { marked_by Begin (list (1 ∷ [])) five ≡ OkValue (one_five ∷ []) }
    ensures rows { marked_by Begin (list (0 ∷ 1 ∷ [])) table ≡ OkValue (numbers_in (1 ∷ 3 ∷ []) (3 ∷ 4 ∷ 5 ∷ []) ∷ []) }
    ensures no_rows { marked_by Begin none no_rows ≡ OkValue [] }
    ensures no_columns { marked_by End (list (0 ∷ 1 ∷ 1 ∷ [])) (no_columns 3) ≡ OkValue (no_columns 2 ∷ no_columns 1 ∷ []) }
    ensures one { marked_by BeginDrop (list (1 ∷ [])) one_five ≡ OkValue (none ∷ []) }
    ensures no_characters { marked_by Begin (text []) none ≡ OkValue [] }
    ensures no_boxes { marked_by End (boxes_in (0 ∷ []) []) none ≡ OkValue [] }
    ensures unequal { marked_by Begin (list (1 ∷ 0 ∷ [])) (list (5 ∷ 6 ∷ 7 ∷ [])) ≡ ErrValue Length }
    ensures unequal_atom { marked_by Begin (list (1 ∷ 0 ∷ [])) five ≡ ErrValue Length }
    ensures unequal_one { marked_by Begin (list (1 ∷ [])) (list (5 ∷ 6 ∷ [])) ≡ ErrValue Length }
    ensures unequal_none { marked_by Begin none five ≡ ErrValue Length }
    ensures two { marked_by Begin (list (2 ∷ 0 ∷ [])) (list (5 ∷ 6 ∷ [])) ≡ ErrValue Domain }
    ensures minus_one { marked_by Begin (minus 1) (list (5 ∷ 6 ∷ [])) ≡ ErrValue Domain }
    ensures character { marked_by Begin (bytes_in [] (49 ∷ [])) (list (5 ∷ 6 ∷ [])) ≡ ErrValue Domain }
    ensures boxed { marked_by Begin (boxes_in [] (atom 1 ∷ [])) (list (5 ∷ 6 ∷ [])) ≡ ErrValue Domain }
    ensures domain_before_length { marked_by Begin (list (2 ∷ [])) (list (5 ∷ 6 ∷ [])) ≡ ErrValue Domain }
{}
