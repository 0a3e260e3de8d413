// Whole texts worked out by hand.
ghost use Rattle.std.specs.Prelude.{◌≡◌, ◌++◌, ◌∷◌, [], codes};
ghost use Rattle.j_cli.specs.Run.{going, spent, pieces, run_after};
ghost use Rattle.j_worked.specs.Texts.{run_on, at_step, nearly_spent};

/// Laws: texts with what they show and their status, worked out by hand.
pub fn worked_texts()
    ensures sum_with_a_list { run_on (codes "1 2 3 + 10" ++ 10 ∷ []) ≡ record { bytes = codes "11 12 13" ++ 10 ∷ []; status = 0 } }
    ensures unlike_lengths { run_on (codes "1 2 + 1 2 3" ++ 10 ∷ codes "4" ++ 10 ∷ [])
        ≡ record { bytes = codes "|length error" ++ 10 ∷ codes "|   1 2 + 1 2 3" ++ 10 ∷ []; status = 3 } }
    ensures sum_too_large { run_on (codes "9223372036854775807 + 1" ++ 10 ∷ [])
        ≡ record { bytes = codes "|overflow error" ++ 10 ∷ codes "|   9223372036854775807 + 1" ++ 10 ∷ []; status = 3 } }
    ensures no_text { run_on [] ≡ record { bytes = []; status = 0 } }
    ensures blank_lines { run_on (codes " " ++ 10 ∷ 10 ∷ []) ≡ record { bytes = []; status = 0 } }
    ensures carriage_return { run_on (codes "1" ++ 13 ∷ 10 ∷ []) ≡ record { bytes = codes "1" ++ 10 ∷ []; status = 0 } }
    ensures number_too_large { run_on (codes "1 9223372036854775808" ++ 10 ∷ [])
        ≡ record { bytes = codes "|overflow error" ++ 10 ∷ codes "|   1 9223372036854775808" ++ 10 ∷ []; status = 3 } }
    ensures no_line_feed { run_on (codes "_5 7") ≡ record { bytes = codes "_5 7" ++ 10 ∷ []; status = 0 } }
    ensures right_to_left { run_on (codes "2 * 3 4 - 1" ++ 10 ∷ codes "* _5 0 7" ++ 10 ∷ [])
        ≡ record { bytes = codes "4 6" ++ 10 ∷ codes "_1 0 1" ++ 10 ∷ []; status = 0 } }
    ensures misspelled { run_on (codes "- 5" ++ 10 ∷ codes "abc. 4" ++ 10 ∷ [])
        ≡ record { bytes = codes "_5" ++ 10 ∷ codes "|spelling error" ++ 10 ∷ codes "|   abc. 4" ++ 10 ∷ []; status = 3 } }
    ensures least_number { run_on (codes "_9223372036854775808" ++ 10 ∷ []) ≡ record { bytes = codes "_9223372036854775808" ++ 10 ∷ []; status = 0 } }
    ensures least_number_negated { run_on (codes "- _9223372036854775808" ++ 10 ∷ [])
        ≡ record { bytes = codes "|overflow error" ++ 10 ∷ codes "|   - _9223372036854775808" ++ 10 ∷ []; status = 3 } }
    ensures bases_and_powers { run_on (codes "16b1f 1e3" ++ 10 ∷ codes "2b129 _3e2" ++ 10 ∷ [])
        ≡ record { bytes = codes "31 1000" ++ 10 ∷ codes "17 _300" ++ 10 ∷ []; status = 0 } }
    ensures no_number { run_on (codes "3x" ++ 10 ∷ []) ≡ record { bytes = codes "|ill-formed number" ++ 10 ∷ codes "|   3x" ++ 10 ∷ []; status = 3 } }
    ensures left_out { run_on (codes "%: 4" ++ 10 ∷ []) ≡ record { bytes = codes "|nonce error" ++ 10 ∷ codes "|   %: 4" ++ 10 ∷ []; status = 3 } }
    ensures open_quote { run_on (codes "'abc" ++ 10 ∷ []) ≡ record { bytes = codes "|open quote" ++ 10 ∷ codes "|   'abc" ++ 10 ∷ []; status = 3 } }
    ensures text { run_on (codes "'it''s'" ++ 10 ∷ []) ≡ record { bytes = codes "it's" ++ 10 ∷ []; status = 0 } }
    ensures text_negated { run_on (codes "- 'a'" ++ 10 ∷ []) ≡ record { bytes = codes "|domain error" ++ 10 ∷ codes "|   - 'a'" ++ 10 ∷ []; status = 3 } }
    ensures verb_last { run_on (codes "1 2 +" ++ 10 ∷ []) ≡ record { bytes = codes "|syntax error" ++ 10 ∷ codes "|   1 2 +" ++ 10 ∷ []; status = 3 } }
    ensures fork_and_hook { run_on (codes "5 (+ - *) 3" ++ 10 ∷ codes "(+ *) 3" ++ 10 ∷ [])
        ≡ record { bytes = codes "_7" ++ 10 ∷ codes "4" ++ 10 ∷ []; status = 0 } }
    ensures adverb_of_at { run_on (codes "- (@: *) 5" ++ 10 ∷ []) ≡ record { bytes = codes "_1" ++ 10 ∷ []; status = 0 } }
    ensures verb_shown { run_on (codes "+ -" ++ 10 ∷ codes "1 2 +" ++ 10 ∷ [])
        ≡ record { bytes = codes "verb" ++ 10 ∷ codes "|syntax error" ++ 10 ∷ codes "|   1 2 +" ++ 10 ∷ []; status = 3 } }
    ensures nearest_table_row { run_on (codes "2 ([ - +) 3 =: 4" ++ 10 ∷ [])
        ≡ record { bytes = codes "|domain error" ++ 10 ∷ codes "|   2 ([ - +) 3 =: 4" ++ 10 ∷ []; status = 3 } }
    ensures last_carriage_return { run_on (codes "1" ++ 13 ∷ [])
        ≡ record { bytes = codes "|spelling error" ++ 10 ∷ codes "|   1" ++ 13 ∷ 10 ∷ []; status = 3 } }
{}

/// Laws: the text that a report shows of a line, worked out by hand.
pub fn report_rows()
    ensures comment { run_on (codes "1 2 + 1 2 3 NB. x" ++ 10 ∷ [])
        ≡ record { bytes = codes "|length error" ++ 10 ∷ codes "|   1 2 + 1 2 3" ++ 10 ∷ []; status = 3 } }
    ensures comment_of_no_number { run_on (codes "3x NB. y" ++ 10 ∷ []) ≡ record { bytes = codes "|ill-formed number" ++ 10 ∷ codes "|   3x" ++ 10 ∷ []; status = 3 } }
    ensures comment_of_no_word { run_on (codes "%: 4 NB. c" ++ 10 ∷ [])
        ≡ record { bytes = codes "|nonce error" ++ 10 ∷ codes "|   %: 4 NB. c" ++ 10 ∷ []; status = 3 } }
    ensures comment_in_open_quote { run_on (codes "'a NB. b" ++ 10 ∷ [])
        ≡ record { bytes = codes "|open quote" ++ 10 ∷ codes "|   'a NB. b" ++ 10 ∷ []; status = 3 } }
    ensures blanks_around_words { run_on (9 ∷ codes " 1 2 +" ++ 9 ∷ codes " " ++ 10 ∷ [])
        ≡ record { bytes = codes "|syntax error" ++ 10 ∷ codes "|   1 2 +" ++ 10 ∷ []; status = 3 } }
    ensures blanks_around_no_word { run_on (codes " " ++ 9 ∷ codes "abc. 4 " ++ 9 ∷ 10 ∷ [])
        ≡ record { bytes = codes "|spelling error" ++ 10 ∷ codes "|   abc. 4" ++ 10 ∷ []; status = 3 } }
{}

/// Laws: a run with two steps left, worked out by hand.
pub fn spent_rows()
    ensures shown_before { pieces nearly_spent (codes "7" ∷ codes "- 5" ∷ codes "8" ∷ []) ≡ codes "7" ++ 10 ∷ [] }
    ensures spent { run_after nearly_spent (codes "7" ∷ codes "- 5" ∷ codes "8" ∷ []) ≡ at_step 100000000 spent }
    ensures not_yet_spent { run_after nearly_spent (codes "- 5" ∷ []) ≡ at_step 100000000 going }
    ensures without_words { pieces nearly_spent (codes "- 5" ∷ codes "  " ∷ codes "8" ∷ []) ≡ codes "_5" ++ 10 ∷ [] }
    ensures error_unspent { pieces nearly_spent (codes "- 5" ∷ codes "abc. 4" ∷ []) ≡ codes "_5" ++ 10 ∷ codes "|spelling error" ++ 10 ∷ codes "|   abc. 4" ++ 10 ∷ [] }
{}
