// Lines worked out by hand.
ghost use Rattle.std.specs.Prelude.{ℕ, List, true, ◌<◌, ◌==◌, length, false, ◌+◌, ◌≡◌, ◌++◌, ◌∷◌, [], codes, Ok, Err};
ghost use Rattle.j_words.specs.Forms.{text_bytes, doubled, begins_quote};
ghost use Rattle.std.specs.List.{list_any};
ghost use Rattle.j_words.specs.Names.{begins_letter, is_simple, is_direct, is_object};
ghost use Rattle.j_words.specs.Vocabulary.{look_up, let_through, class_or_name};
ghost use Rattle.j_words.specs.Lines.{words, spans, is_word};
ghost use Rattle.j_words.specs.declared.Class.{Class};
ghost use Rattle.j_words.specs.declared.Class.TheVariants as class;
ghost use Rattle.j_words.specs.declared.WordFault.TheVariants as fault;

/// Laws: lines worked out by hand.
pub fn worked_rows()
    ensures list_sum { words (codes "1 2 + 3") ≡ Ok (is_word class.Number 0 3 ∷ is_word class.Verb 4 5 ∷ is_word class.Number 6 7 ∷ []) }
    ensures blanks_between { words (codes "1  2") ≡ Ok (is_word class.Number 0 4 ∷ []) }
    ensures comment { words (codes "1 NB. 'x") ≡ Ok (is_word class.Number 0 1 ∷ []) }
    ensures no_comment { spans (codes "NB.: 1") ≡ Ok (is_word class.Name 0 4 ∷ is_word class.Number 5 6 ∷ []) }
    ensures no_comment_word { words (codes "NB.: 1") ≡ Err fault.Spelling }
    ensures marks_in_name { spans (codes "a.b") ≡ Ok (is_word class.NounWord 0 2 ∷ is_word class.Name 2 3 ∷ []) }
    ensures constant { words (codes "1 2 3: _9:") ≡ Ok (is_word class.Number 0 3 ∷ is_word class.Verb 4 6 ∷ is_word class.Verb 7 10 ∷ []) }
    ensures no_constant { words (codes "_0:") ≡ Err fault.Spelling }
    ensures infinite_constant { words (codes "_:") ≡ Err fault.Nonce }
    ensures two_words { spans (codes "i.1") ≡ Ok (is_word class.Verb 0 2 ∷ is_word class.Number 2 3 ∷ []) }
    ensures doubled_quote { words (codes "'it''s'") ≡ Ok (is_word class.Text 0 7 ∷ []) }
    ensures text_after_numbers { words (codes "1 2'x'") ≡ Ok (is_word class.Number 0 3 ∷ is_word class.Text 3 6 ∷ []) }
    ensures open_quote { words (codes "'abc") ≡ Err fault.OpenQuote }
    ensures copulas { spans (codes "=:=.") ≡ Ok (is_word class.Copula 0 2 ∷ is_word class.Copula 2 4 ∷ []) }
    ensures left_out { words (codes "{::") ≡ Err fault.Nonce }
    ensures misspelled { words (codes "abc.") ≡ Err fault.Spelling }
    ensures later { words (codes "%: 4") ≡ Err fault.Nonce }
    ensures no_name { words (codes "a__b_c_") ≡ Err fault.Spelling }
    ensures object { words (codes "a__b") ≡ Ok (is_word class.Name 0 4 ∷ []) }
    ensures locative { words (codes "a_b_c_") ≡ Ok (is_word class.Name 0 6 ∷ []) }
    ensures name { words (codes "a_b1") ≡ Ok (is_word class.Name 0 4 ∷ []) }
    ensures control { words (codes "for_ab.") ≡ Err fault.Nonce }
    ensures no_control { words (codes "for_a_.") ≡ Err fault.Spelling }
    ensures left_throw { words (codes "throw.") ≡ Err fault.Spelling }
    ensures leftmost { words (codes "%: abc. 'x") ≡ Err fault.Nonce }
    ensures no_byte { words (127 ∷ codes " 'x") ≡ Err fault.Spelling }
    ensures part_letters { words (codes "3x1.5_") ≡ Ok (is_word class.Number 0 6 ∷ []) }
    ensures sentence { words (codes "x=:(+@:-)5") ≡ Ok (is_word class.Name 0 1 ∷ is_word class.Copula 1 3 ∷ is_word class.Open 3 4 ∷ is_word class.Verb 4 5 ∷ is_word class.Conjunction 5 7 ∷ is_word class.Verb 7 8 ∷ is_word class.Close 8 9 ∷ is_word class.Number 9 10 ∷ []) }
    ensures only_double_quote { words (codes "\"") ≡ Ok (is_word class.Conjunction 0 1 ∷ []) }
    ensures suffix { spans (codes "+/\\.1") ≡ Ok (is_word class.Verb 0 1 ∷ is_word class.Adverb 1 2 ∷ is_word class.Adverb 2 4 ∷ is_word class.Number 4 5 ∷ []) }
    ensures empty_text { spans (codes "'','a'") ≡ Ok (is_word class.Text 0 2 ∷ is_word class.Verb 2 3 ∷ is_word class.Text 3 6 ∷ []) }
    ensures no_words { words (codes "  NB. x") ≡ Ok [] }
    ensures text_at_end { words (codes "-'a'") ≡ Ok (is_word class.Verb 0 1 ∷ is_word class.Text 1 4 ∷ []) }
    ensures control_in_text { words (codes "'if. do.' NB. 'x") ≡ Ok (is_word class.Text 0 9 ∷ []) }
    ensures comment_in_text { words (codes "'NB. x'") ≡ Ok (is_word class.Text 0 7 ∷ []) }
    ensures any_byte_in_text { words (39 ∷ 10 ∷ 200 ∷ 39 ∷ []) ≡ Ok (is_word class.Text 0 4 ∷ []) }
    ensures texts_apart { words (codes "'a' 'b'") ≡ Ok (is_word class.Text 0 3 ∷ is_word class.Text 4 7 ∷ []) }
    ensures text_of_a_quote { words (codes "''''") ≡ Ok (is_word class.Text 0 4 ∷ []) }
    ensures open_after_closed { words (codes "'a''") ≡ Err fault.OpenQuote }
    ensures no_letter_in_object { words (codes "a__1") ≡ Err fault.Spelling }
    ensures locale_of_digits { words (codes "a_0_") ≡ Ok (is_word class.Name 0 4 ∷ []) }
    ensures low_alone { words (codes "a_") ≡ Err fault.Spelling }
{}

/// Laws: which bytes are a text. Their quotes are doubled and a single one closes it.
#[tactic(auto, using(crate::proofs::Texts::text_read, crate::proofs::Texts::text_unclosed))]
pub fn text_laws()
    ensures read { (t rest : List ℕ) → begins_quote rest ≡ false → text_bytes (doubled t ++ 39 ∷ rest) ≡ Some (length (doubled t) + 1) }
    ensures unclosed { (t : List ℕ) → text_bytes (doubled t) ≡ None }
{}

/// Laws: how locatives are put together.
#[tactic(auto, using(crate::proofs::NameLaws::object_read, crate::proofs::NameLaws::direct_read))]
pub fn name_laws()
    ensures object { (base object : List ℕ) → is_simple base ≡ true → begins_letter object ≡ true → is_simple object ≡ true → is_object (base ++ 95 ∷ 95 ∷ object) ≡ true }
    ensures direct { (base place : List ℕ) → is_simple base ≡ true → 0 < length place → list_any (λ b. b == 95) place ≡ false → is_direct ((base ++ 95 ∷ place) ++ 95 ∷ []) ≡ true }
{}

/// Laws: a word that is let through has the class that it has in the vocabulary.
pub fn vocabulary_laws()
    ensures { (w : List ℕ) (c : Class) → let_through (look_up w) ≡ Ok c → class_or_name (look_up w) ≡ c }
{}
