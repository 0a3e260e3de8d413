// Laws of the rule of cells, and rows of words in boxes.
ghost use Rattle.std.specs.Prelude.{◌≡◌, ◌∷◌, [], codes, Ok, Err};
ghost use Rattle.j_definitions.specs.declared.Fault.TheVariants as fault;
ghost use Rattle.j_rank.specs.Rows.{numbers_in, bytes_in, boxes_in};
ghost use Rattle.j_verbs.specs.Laws.{PureStaysPure, RankZeroIsItself, ScalarsAreWhole, StitchedByItems};
ghost use Rattle.j_verbs.specs.WordForms.{word_forms};

/// Laws: a scalar verb by its cells is the verb on whole nouns, what is pure on cells stays pure, and `,.` is `,` item by item.
#[tactic(auto, using(crate::proofs::Pure::pure_stays_pure, crate::proofs::Scalars::scalars_are_whole, crate::proofs::Scalars::rank_zero_is_itself, crate::proofs::Stitches::stitched_by_items))]
pub fn cell_laws()
    ensures whole { ScalarsAreWhole }
    ensures itself { RankZeroIsItself }
    ensures pure { PureStaysPure }
    ensures stitched { StitchedByItems }
{}

/// Laws: the words of characters in boxes, worked out by hand.
pub fn worked_word_forms()
    ensures two_words { word_forms (bytes_in (4 ∷ []) (codes "a bc")) ≡ Ok (boxes_in (2 ∷ []) (bytes_in (1 ∷ []) (codes "a") ∷ bytes_in (2 ∷ []) (codes "bc") ∷ [])) }
    ensures atom { word_forms (bytes_in [] (codes "+")) ≡ Ok (boxes_in (1 ∷ []) (bytes_in (1 ∷ []) (codes "+") ∷ [])) }
    ensures numbers_together { word_forms (bytes_in (7 ∷ []) (codes " 1  2+ ")) ≡ Ok (boxes_in (2 ∷ []) (bytes_in (4 ∷ []) (codes "1  2") ∷ bytes_in (1 ∷ []) (codes "+") ∷ [])) }
    ensures quotes_stay { word_forms (bytes_in (6 ∷ []) (codes "'a'''x")) ≡ Ok (boxes_in (2 ∷ []) (bytes_in (5 ∷ []) (codes "'a'''") ∷ bytes_in (1 ∷ []) (codes "x") ∷ [])) }
    ensures no_vocabulary { word_forms (bytes_in (8 ∷ []) (codes "%: 3x.y:")) ≡ Ok (boxes_in (2 ∷ []) (bytes_in (2 ∷ []) (codes "%:") ∷ bytes_in (5 ∷ []) (codes "3x.y:") ∷ [])) }
    ensures comment { word_forms (bytes_in (6 ∷ []) (codes "a NB.b")) ≡ Ok (boxes_in (1 ∷ []) (bytes_in (1 ∷ []) (codes "a") ∷ [])) }
    ensures blanks_alone { word_forms (bytes_in (2 ∷ []) (32 ∷ 9 ∷ [])) ≡ Ok (boxes_in (0 ∷ []) []) }
    ensures no_characters { word_forms (bytes_in (0 ∷ []) []) ≡ Ok (boxes_in (0 ∷ []) []) }
    ensures no_numbers { word_forms (numbers_in (0 ∷ []) []) ≡ Ok (boxes_in (0 ∷ []) []) }
    ensures no_boxes { word_forms (boxes_in (0 ∷ []) []) ≡ Ok (boxes_in (0 ∷ []) []) }
    ensures number { word_forms (numbers_in [] (5 ∷ [])) ≡ Err fault.Domain }
    ensures boxed { word_forms (boxes_in [] (bytes_in [] (codes "a") ∷ [])) ≡ Err fault.Domain }
    ensures no_word { word_forms (bytes_in (2 ∷ []) (97 ∷ 10 ∷ [])) ≡ Err fault.Spelling }
    ensures open_quote { word_forms (bytes_in (3 ∷ []) (codes "a'b")) ≡ Err fault.OpenQuote }
    ensures leftmost_fault { word_forms (bytes_in (3 ∷ []) (39 ∷ 1 ∷ 98 ∷ [])) ≡ Err fault.OpenQuote }
    ensures leftmost_byte { word_forms (bytes_in (3 ∷ []) (1 ∷ 39 ∷ 98 ∷ [])) ≡ Err fault.Spelling }
{}
