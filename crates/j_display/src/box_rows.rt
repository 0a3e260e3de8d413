// Rows of boxes worked out by hand.
ghost use Rattle.std.specs.Prelude.{◌≡◌, ◌∷◌, [], codes, pos, negsuc};
ghost use Rattle.j_display.specs.Rows.{noun_rows};
ghost use Rattle.j_display.specs.Samples.{whole_numbers, numbers, characters, boxes, box};

/// Laws: rows of one box, with contents of each kind and without atoms.
pub fn rows_of_boxes()
    ensures number { noun_rows (box (box (numbers [] (1 ∷ [])))) ≡ codes "+---+" ∷ codes "|+-+|" ∷ codes "||1||" ∷ codes "|+-+|" ∷ codes "+---+" ∷ [] }
    ensures three_deep { noun_rows (box (box (box (characters (2 ∷ []) (codes "ab"))))) ≡ codes "+------+" ∷ codes "|+----+|" ∷ codes "||+--+||" ∷ codes "|||ab|||" ∷ codes "||+--+||" ∷ codes "|+----+|" ∷ codes "+------+" ∷ [] }
    ensures cube_of_numbers { noun_rows (box (numbers (2 ∷ 2 ∷ 2 ∷ []) (0 ∷ 1 ∷ 2 ∷ 3 ∷ 4 ∷ 5 ∷ 6 ∷ 7 ∷ []))) ≡ codes "+---+" ∷ codes "|0 1|" ∷ codes "|2 3|" ∷ codes "|   |" ∷ codes "|4 5|" ∷ codes "|6 7|" ∷ codes "+---+" ∷ [] }
    ensures cube_of_characters { noun_rows (box (characters (2 ∷ 1 ∷ 2 ∷ []) (codes "abcd"))) ≡ codes "+--+" ∷ codes "|ab|" ∷ codes "|  |" ∷ codes "|cd|" ∷ codes "+--+" ∷ [] }
    ensures empty_table { noun_rows (box (numbers (0 ∷ 3 ∷ []) [])) ≡ codes "++" ∷ codes "++" ∷ [] }
    ensures empty_text { noun_rows (box (characters (0 ∷ []) [])) ≡ codes "++" ∷ codes "||" ∷ codes "++" ∷ [] }
    ensures no_columns { noun_rows (box (characters (2 ∷ 0 ∷ []) [])) ≡ codes "++" ∷ codes "++" ∷ [] }
    ensures no_boxes { noun_rows (box (boxes (0 ∷ []) [])) ≡ codes "++" ∷ codes "||" ∷ codes "++" ∷ [] }
    ensures no_boxes_in_tables { noun_rows (box (boxes (0 ∷ 2 ∷ 3 ∷ []) [])) ≡ codes "++" ∷ codes "++" ∷ [] }
    ensures list_without_boxes { noun_rows (boxes (0 ∷ []) []) ≡ [] ∷ [] }
    ensures table_without_boxes { noun_rows (boxes (2 ∷ 0 ∷ []) []) ≡ [] }
{}

/// Laws: rows of lists of boxes.
pub fn rows_of_box_lists()
    ensures unequal_height { noun_rows (boxes (2 ∷ []) (numbers (2 ∷ 2 ∷ []) (0 ∷ 1 ∷ 2 ∷ 3 ∷ []) ∷ characters [] (codes "x") ∷ [])) ≡ codes "+---+-+" ∷ codes "|0 1|x|" ∷ codes "|2 3| |" ∷ codes "+---+-+" ∷ [] }
    ensures unequal_width { noun_rows (boxes (2 ∷ []) (characters (2 ∷ []) (codes "ab") ∷ characters [] (codes "c") ∷ [])) ≡ codes "+--+-+" ∷ codes "|ab|c|" ∷ codes "+--+-+" ∷ [] }
    ensures nested_list { noun_rows (boxes (2 ∷ []) (numbers [] (1 ∷ []) ∷ boxes (2 ∷ []) (numbers [] (2 ∷ []) ∷ numbers [] (3 ∷ []) ∷ []) ∷ [])) ≡ codes "+-+-----+" ∷ codes "|1|+-+-+|" ∷ codes "| ||2|3||" ∷ codes "| |+-+-+|" ∷ codes "+-+-----+" ∷ [] }
    ensures empties { noun_rows (boxes (2 ∷ []) (characters (0 ∷ []) [] ∷ numbers (3 ∷ 0 ∷ []) [] ∷ [])) ≡ codes "+++" ∷ codes "|||" ∷ codes "+++" ∷ [] }
    ensures empty_among { noun_rows (boxes (3 ∷ []) (numbers [] (5 ∷ []) ∷ characters (0 ∷ []) [] ∷ box (characters (0 ∷ []) []) ∷ [])) ≡ codes "+-++--+" ∷ codes "|5||++|" ∷ codes "| |||||" ∷ codes "| ||++|" ∷ codes "+-++--+" ∷ [] }
{}

/// Laws: rows of tables of boxes, and of those above rank 2.
pub fn rows_of_box_tables()
    ensures table { noun_rows (boxes (2 ∷ 2 ∷ []) (numbers [] (1 ∷ []) ∷ characters (3 ∷ []) (codes "abc") ∷ numbers (2 ∷ 2 ∷ []) (0 ∷ 1 ∷ 2 ∷ 3 ∷ []) ∷ characters (0 ∷ []) [] ∷ [])) ≡ codes "+---+---+" ∷ codes "|1  |abc|" ∷ codes "+---+---+" ∷ codes "|0 1|   |" ∷ codes "|2 3|   |" ∷ codes "+---+---+" ∷ [] }
    ensures column { noun_rows (boxes (3 ∷ 1 ∷ []) (numbers [] (1 ∷ []) ∷ characters [] (codes "a") ∷ numbers [] (2 ∷ []) ∷ [])) ≡ codes "+-+" ∷ codes "|1|" ∷ codes "+-+" ∷ codes "|a|" ∷ codes "+-+" ∷ codes "|2|" ∷ codes "+-+" ∷ [] }
    ensures as_wide_in_each_table { noun_rows (boxes (2 ∷ 1 ∷ 1 ∷ []) (numbers [] (7 ∷ []) ∷ characters (2 ∷ []) (codes "ab") ∷ [])) ≡ codes "+--+" ∷ codes "|7 |" ∷ codes "+--+" ∷ [] ∷ codes "+--+" ∷ codes "|ab|" ∷ codes "+--+" ∷ [] }
    ensures tables_of_two_lines { noun_rows (boxes (2 ∷ 2 ∷ 1 ∷ []) (numbers [] (1 ∷ []) ∷ numbers [] (2 ∷ []) ∷ numbers [] (3 ∷ []) ∷ numbers [] (4 ∷ []) ∷ [])) ≡ codes "+-+" ∷ codes "|1|" ∷ codes "+-+" ∷ codes "|2|" ∷ codes "+-+" ∷ [] ∷ codes "+-+" ∷ codes "|3|" ∷ codes "+-+" ∷ codes "|4|" ∷ codes "+-+" ∷ [] }
    ensures rank_four { noun_rows (boxes (2 ∷ 1 ∷ 1 ∷ 1 ∷ []) (numbers [] (7 ∷ []) ∷ numbers [] (8 ∷ []) ∷ [])) ≡ codes "+-+" ∷ codes "|7|" ∷ codes "+-+" ∷ [] ∷ [] ∷ codes "+-+" ∷ codes "|8|" ∷ codes "+-+" ∷ [] }
    ensures in_a_box { noun_rows (box (boxes (2 ∷ 1 ∷ 1 ∷ []) (numbers [] (7 ∷ []) ∷ numbers [] (8 ∷ []) ∷ []))) ≡ codes "+---+" ∷ codes "|+-+|" ∷ codes "||7||" ∷ codes "|+-+|" ∷ codes "|   |" ∷ codes "|+-+|" ∷ codes "||8||" ∷ codes "|+-+|" ∷ codes "+---+" ∷ [] }
{}

/// Laws: rows of one box, by what is in it.
pub fn rows_of_contents()
    ensures atom { noun_rows (box (numbers [] (1 ∷ []))) ≡ codes "+-+" ∷ codes "|1|" ∷ codes "+-+" ∷ [] }
    ensures list_of_one { noun_rows (boxes (1 ∷ []) (numbers [] (1 ∷ []) ∷ [])) ≡ codes "+-+" ∷ codes "|1|" ∷ codes "+-+" ∷ [] }
    ensures empty_numbers { noun_rows (box (numbers (0 ∷ []) [])) ≡ codes "++" ∷ codes "||" ∷ codes "++" ∷ [] }
    ensures line_feed { noun_rows (box (characters (3 ∷ []) (97 ∷ 10 ∷ 98 ∷ []))) ≡ codes "+---+" ∷ (124 ∷ 97 ∷ 10 ∷ 98 ∷ 124 ∷ []) ∷ codes "+---+" ∷ [] }
    ensures right_in_their_columns { noun_rows (box (whole_numbers (2 ∷ 2 ∷ []) (negsuc 0 ∷ pos 10 ∷ pos 100 ∷ negsuc 999 ∷ []))) ≡ codes "+---------+" ∷ codes "| _1    10|" ∷ codes "|100 _1000|" ∷ codes "+---------+" ∷ [] }
    ensures tables_of_rank_four { noun_rows (box (numbers (2 ∷ 1 ∷ 1 ∷ 1 ∷ []) (7 ∷ 8 ∷ []))) ≡ codes "+-+" ∷ codes "|7|" ∷ codes "| |" ∷ codes "| |" ∷ codes "|8|" ∷ codes "+-+" ∷ [] }
{}

/// Laws: rows of boxes in boxes and of unequal contents side by side.
pub fn rows_of_nested_boxes()
    ensures list_and_table { noun_rows (boxes (3 ∷ []) (numbers (3 ∷ []) (0 ∷ 1 ∷ 2 ∷ []) ∷ numbers (3 ∷ 1 ∷ []) (0 ∷ 1 ∷ 2 ∷ []) ∷ characters [] (codes "x") ∷ [])) ≡ codes "+-----+-+-+" ∷ codes "|0 1 2|0|x|" ∷ codes "|     |1| |" ∷ codes "|     |2| |" ∷ codes "+-----+-+-+" ∷ [] }
    ensures lists { noun_rows (boxes (2 ∷ []) (numbers (3 ∷ []) (0 ∷ 1 ∷ 2 ∷ []) ∷ numbers (3 ∷ []) (3 ∷ 4 ∷ 5 ∷ []) ∷ [])) ≡ codes "+-----+-----+" ∷ codes "|0 1 2|3 4 5|" ∷ codes "+-----+-----+" ∷ [] }
    ensures list_and_table_of_boxes { noun_rows (boxes (2 ∷ []) (boxes (2 ∷ []) (numbers [] (1 ∷ []) ∷ numbers [] (2 ∷ []) ∷ []) ∷ boxes (2 ∷ 1 ∷ []) (numbers [] (3 ∷ []) ∷ numbers [] (4 ∷ []) ∷ []) ∷ [])) ≡ codes "+-----+---+" ∷ codes "|+-+-+|+-+|" ∷ codes "||1|2|||3||" ∷ codes "|+-+-+|+-+|" ∷ codes "|     ||4||" ∷ codes "|     |+-+|" ∷ codes "+-----+---+" ∷ [] }
    ensures three_deep_beside_one { noun_rows (boxes (2 ∷ []) (characters [] (codes "a") ∷ box (box (numbers [] (1 ∷ []))) ∷ [])) ≡ codes "+-+-----+" ∷ codes "|a|+---+|" ∷ codes "| ||+-+||" ∷ codes "| |||1|||" ∷ codes "| ||+-+||" ∷ codes "| |+---+|" ∷ codes "+-+-----+" ∷ [] }
    ensures no_rows_beside_two { noun_rows (boxes (2 ∷ []) (numbers (0 ∷ 3 ∷ []) [] ∷ numbers (2 ∷ 1 ∷ []) (0 ∷ 1 ∷ []) ∷ [])) ≡ codes "++-+" ∷ codes "||0|" ∷ codes "||1|" ∷ codes "++-+" ∷ [] }
{}

/// Laws: rows of boxes above rank 2.
pub fn rows_of_box_cubes()
    ensures wide_in_all_high_in_one { noun_rows (boxes (2 ∷ 2 ∷ 2 ∷ []) (numbers [] (1 ∷ []) ∷ characters (2 ∷ []) (codes "ab") ∷ numbers (2 ∷ 2 ∷ []) (0 ∷ 1 ∷ 2 ∷ 3 ∷ []) ∷ boxes (2 ∷ []) (numbers [] (3 ∷ []) ∷ numbers [] (4 ∷ []) ∷ []) ∷ numbers [] (1 ∷ []) ∷ characters (2 ∷ []) (codes "ab") ∷ numbers (2 ∷ 2 ∷ []) (0 ∷ 1 ∷ 2 ∷ 3 ∷ []) ∷ boxes (2 ∷ []) (numbers [] (3 ∷ []) ∷ numbers [] (4 ∷ []) ∷ []) ∷ [])) ≡ codes "+---+-----+" ∷ codes "|1  |ab   |" ∷ codes "+---+-----+" ∷ codes "|0 1|+-+-+|" ∷ codes "|2 3||3|4||" ∷ codes "|   |+-+-+|" ∷ codes "+---+-----+" ∷ [] ∷ codes "+---+-----+" ∷ codes "|1  |ab   |" ∷ codes "+---+-----+" ∷ codes "|0 1|+-+-+|" ∷ codes "|2 3||3|4||" ∷ codes "|   |+-+-+|" ∷ codes "+---+-----+" ∷ [] }
    ensures high_by_line { noun_rows (boxes (2 ∷ 1 ∷ 1 ∷ []) (numbers (2 ∷ 1 ∷ []) (0 ∷ 1 ∷ []) ∷ numbers [] (7 ∷ []) ∷ [])) ≡ codes "+-+" ∷ codes "|0|" ∷ codes "|1|" ∷ codes "+-+" ∷ [] ∷ codes "+-+" ∷ codes "|7|" ∷ codes "+-+" ∷ [] }
    ensures two_by_two { noun_rows (boxes (2 ∷ 2 ∷ 1 ∷ 1 ∷ []) (numbers [] (1 ∷ []) ∷ numbers [] (2 ∷ []) ∷ numbers [] (3 ∷ []) ∷ numbers [] (4 ∷ []) ∷ [])) ≡ codes "+-+" ∷ codes "|1|" ∷ codes "+-+" ∷ [] ∷ codes "+-+" ∷ codes "|2|" ∷ codes "+-+" ∷ [] ∷ [] ∷ codes "+-+" ∷ codes "|3|" ∷ codes "+-+" ∷ [] ∷ codes "+-+" ∷ codes "|4|" ∷ codes "+-+" ∷ [] }
    ensures first_axis_of_one { noun_rows (boxes (1 ∷ 2 ∷ 1 ∷ 1 ∷ []) (numbers [] (1 ∷ []) ∷ numbers [] (2 ∷ []) ∷ [])) ≡ codes "+-+" ∷ codes "|1|" ∷ codes "+-+" ∷ [] ∷ codes "+-+" ∷ codes "|2|" ∷ codes "+-+" ∷ [] }
{}
