// Lines worked out by hand, and what holds of every word.
ghost use Rattle.std.specs.Prelude.{ℕ, List, false, ◌≡◌, ◌≢◌, ◌∷◌, [], codes, pos, negsuc, IsTrue, Ok, Err};
ghost use Rattle.j_definitions.specs.declared.Fault.TheVariants as fault;
ghost use Rattle.j_noun.specs.declared.ranks.RankPart.TheVariants.{Number, Infinite};
ghost use Rattle.j_words.specs.Forms.{doubled};
ghost use Rattle.j_words.specs.Lines.{is_word};
ghost use Rattle.j_words.specs.Vocabulary.{look_up, class_or_name, is_simple_name};
ghost use Rattle.j_words.specs.declared.Class.TheVariants as class;
ghost use Rattle.j_leaves.specs.declared.primitive.Primitive.TheVariants as p;
ghost use Rattle.j_leaves.specs.declared.modifier.Modifier.TheVariants as m;
ghost use Rattle.j_leaves.specs.declared.name.Place.TheVariants.{Locale, Object};
ghost use Rattle.j_entity.specs.Tree.{a_noun, entity, ranks_word, local_copula, global_copula, open_mark, close_mark};
ghost use Rattle.j_explicit.specs.Reading.{item_as, items_of, reading};
ghost use Rattle.j_explicit.specs.NounWords.{ace, alphabet};
ghost use Rattle.j_explicit.specs.Texts.{halved};
ghost use Rattle.j_explicit.specs.Rows.{atom, list, character, characters, verb, conjunction, located, simple};

/// Laws: lines worked out by hand.
pub fn worked_rows()
    ensures fork { reading (codes "5 (+ - *) 3") ≡ Ok (atom (pos 5) ∷ open_mark ∷ verb p.Plus ∷ verb p.Minus ∷ verb p.Times ∷ close_mark ∷ atom (pos 3) ∷ []) }
    ensures hook { reading (codes "(+ *) 3") ≡ Ok (open_mark ∷ verb p.Plus ∷ verb p.Times ∷ close_mark ∷ atom (pos 3) ∷ []) }
    ensures conjunction_first { reading (codes "- (@: *) 5") ≡ Ok (verb p.Minus ∷ open_mark ∷ conjunction m.At ∷ verb p.Times ∷ close_mark ∷ atom (pos 5) ∷ []) }
    ensures verbs { reading (codes "+ -") ≡ Ok (verb p.Plus ∷ verb p.Minus ∷ []) }
    ensures brackets { reading (codes "[: ] [") ≡ Ok (verb p.Cap ∷ verb p.Right ∷ verb p.Left ∷ []) }
    ensures constant { reading (codes "_3: 0") ≡ Ok (verb p.MinusThree ∷ atom (pos 0) ∷ []) }
    ensures global { reading (codes "3 =: 4") ≡ Ok (atom (pos 3) ∷ global_copula ∷ atom (pos 4) ∷ []) }
    ensures local { reading (codes "3=.4 _1") ≡ Ok (atom (pos 3) ∷ local_copula ∷ list (pos 4 ∷ negsuc 0 ∷ []) ∷ []) }
    ensures unlike_parentheses { reading (codes ")(") ≡ Ok (close_mark ∷ open_mark ∷ []) }
    ensures no_words { reading (codes "  NB. +") ≡ Ok [] }
    ensures name { reading (codes "f 1") ≡ Ok (simple (codes "f") ∷ atom (pos 1) ∷ []) }
    ensures assigned { reading (codes "a_1=:+") ≡ Ok (simple (codes "a_1") ∷ global_copula ∷ verb p.Plus ∷ []) }
    ensures direct_locative { reading (codes "f_z_ 1") ≡ Ok (located (codes "f") (Locale (codes "z")) ∷ atom (pos 1) ∷ []) }
    ensures object_locative { reading (codes "f__z 1") ≡ Ok (located (codes "f") (Object (codes "z")) ∷ atom (pos 1) ∷ []) }
    ensures no_name { reading (codes "f_ 1") ≡ Err fault.Spelling }
    ensures text { reading (codes "f =: 'abc'") ≡ Ok (simple (codes "f") ∷ global_copula ∷ characters (codes "abc") ∷ []) }
    ensures doubled_quote { reading (codes "'it''s'") ≡ Ok (characters (codes "it's") ∷ []) }
    ensures one_byte { reading (codes "'a'") ≡ Ok (character 97 ∷ []) }
    ensures one_quote { reading (codes "''''") ≡ Ok (character 39 ∷ []) }
    ensures two_quotes { reading (codes "''''''") ≡ Ok (characters (39 ∷ 39 ∷ []) ∷ []) }
    ensures empty_text { reading (codes "''") ≡ Ok (characters [] ∷ []) }
    ensures text_at_end { reading (codes "-'a'") ≡ Ok (verb p.Minus ∷ character 97 ∷ []) }
    ensures control_in_text { reading (codes "'if. do.'") ≡ Ok (characters (codes "if. do.") ∷ []) }
    ensures open_quote { reading (codes "1x 'abc") ≡ Err fault.OpenQuote }
    ensures texts_in_order { reading (codes "'1x' 2x 'y'") ≡ Err fault.IllFormed }
    ensures ranks { items_of (codes "+\"_ 0") false (is_word class.Verb 0 1 ∷ is_word class.Conjunction 1 2 ∷ is_word class.Number 2 5 ∷ []) ≡ Ok (verb p.Plus ∷ conjunction m.Rank ∷ ranks_word (Infinite ∷ Number (pos 0) ∷ []) ∷ []) }
    ensures power_ranks { items_of (codes "^:_") false (is_word class.Conjunction 0 2 ∷ is_word class.Number 2 3 ∷ []) ≡ Ok (conjunction m.PowerOf ∷ ranks_word (Infinite ∷ []) ∷ []) }
    ensures numbers_as_ranks { items_of (codes "\"1 2") false (is_word class.Conjunction 0 1 ∷ is_word class.Number 1 4 ∷ []) ≡ Ok (conjunction m.Rank ∷ list (pos 1 ∷ pos 2 ∷ []) ∷ []) }
    ensures not_left { items_of (codes "_\"") false (is_word class.Number 0 1 ∷ is_word class.Conjunction 1 2 ∷ []) ≡ Err fault.IllFormed }
    ensures not_directly { items_of (codes "\"(_") false (is_word class.Conjunction 0 1 ∷ is_word class.Open 1 2 ∷ is_word class.Number 2 3 ∷ []) ≡ Err fault.IllFormed }
    ensures not_elsewhere { reading (codes "+_ 0") ≡ Err fault.IllFormed }
    ensures not_right_of_at { reading (codes "@:_") ≡ Err fault.IllFormed }
    ensures alphabet { reading (codes "a =: a.") ≡ Ok (simple (codes "a") ∷ global_copula ∷ entity (a_noun alphabet) ∷ []) }
    ensures ace { item_as false class.NounWord (codes "a:") ≡ Ok (entity (a_noun ace)) }
    ensures ace_read { reading (codes "-a:") ≡ Ok (verb p.Minus ∷ entity (a_noun ace) ∷ []) }
    ensures control { reading (codes "f =: if.") ≡ Err fault.Nonce }
    ensures letter { reading (codes "1x") ≡ Err fault.IllFormed }
    ensures infinite { reading (codes "1 _") ≡ Err fault.IllFormed }
    ensures left_to_right { reading (codes "1x f 1e19") ≡ Err fault.IllFormed }
    ensures behind_names { reading (codes "f 1e19 1 + f 2x") ≡ Err fault.Overflow }
    ensures words_first { reading (codes "1x f abc.") ≡ Err fault.Spelling }
{}

/// Laws: no word of the vocabulary, let through now or only later, is misspelled as what its class says; and a simple name is the name of its bytes.
pub fn spelling_laws()
    ensures words { (w : List ℕ) → class_or_name (look_up w) ≢ class.Name → item_as false (class_or_name (look_up w)) w ≢ Err fault.Spelling }
    ensures names { (w : List ℕ) → IsTrue (is_simple_name w) → item_as false class.Name w ≡ Ok (simple w) }
{}

/// Laws: a text is read as it is written, with each of its quotes doubled.
pub fn text_laws()
    ensures { (t : List ℕ) → halved (doubled t) ≡ t }
{}
