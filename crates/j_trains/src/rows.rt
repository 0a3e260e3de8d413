// Trains worked out by hand, and laws of their definitions.
ghost use Rattle.std.specs.Prelude.{◌≡◌, ◌≤◌, IfOk, IsErr, Ok, Err, Some, None, ◌∷◌, [], map, pos, negsuc};
ghost use Rattle.j_definitions.specs.Array.{Array, byte, boxed};
ghost use Rattle.j_definitions.specs.declared.Kind.TheVariants as kind;
ghost use Rattle.j_definitions.specs.declared.Fault.TheVariants as fault;
ghost use Rattle.j_leaves.specs.Names.{NameParts};
ghost use Rattle.j_leaves.specs.declared.ranks.Ranks.{Ranks};
ghost use Rattle.j_leaves.specs.declared.primitive.Primitive.TheVariants as p;
ghost use Rattle.j_leaves.specs.declared.modifier.Modifier.{Modifier};
ghost use Rattle.j_leaves.specs.declared.modifier.Modifier.TheVariants as m;
ghost use Rattle.j_noun.specs.declared.ranks.RankPart.TheVariants as part;
ghost use Rattle.j_entity.specs.Tree.{VerbTree, OperandTree, OperatorTree, EntityTree, primitive, named, fork, noun_fork, hook, derived, derived2, verb, noun, rank_list, modifier, both, right, left, a_noun, a_verb, an_adverb, a_conjunction};
ghost use Rattle.j_entity.specs.Heights.{verb_height};
ghost use Rattle.j_trains.specs.Form.{fork_of, bident_of, conjunction_of, adverb_of};
ghost use Rattle.j_trains.specs.Obverses.{obverse};
ghost use Rattle.j_trains.specs.Rows.{plus, minus, times, five, on_five, atom, shaped, numbers, nothing, letter, letter_shaped, box, alone, joined, at_word, insert_word, tower, adverb_tower, entity_height};
ghost use Rattle.j_trains.specs.Tables.{row, said_alone, said_between, formed, domain, rank, length, nonce};

/// Laws: trains worked out by hand.
pub fn worked_rows()
    ensures fork { fork_of (verb plus) minus times ≡ Ok (fork plus minus times) }
    ensures noun_fork { fork_of (noun five) plus times ≡ Ok (noun_fork five plus times) }
    ensures rank_list { fork_of (rank_list (part.Infinite ∷ [])) plus times ≡ Err fault.Domain }
    ensures hook { bident_of (a_verb plus) (a_verb times) ≡ Ok (a_verb (hook plus times)) }
    ensures two_adverbs { bident_of (an_adverb insert_word) (an_adverb (right at_word (verb times))) ≡ Ok (an_adverb (both insert_word (right at_word (verb times)))) }
    ensures right { bident_of (a_conjunction at_word) (a_verb times) ≡ Ok (an_adverb (right at_word (verb times))) }
    ensures right_noun { bident_of (a_conjunction at_word) (a_noun five) ≡ Ok (an_adverb (right at_word (noun five))) }
    ensures left { bident_of (a_verb minus) (a_conjunction at_word) ≡ Ok (an_adverb (left (verb minus) at_word)) }
    ensures left_noun { bident_of (a_noun five) (a_conjunction at_word) ≡ Ok (an_adverb (left (noun five) at_word)) }
    ensures two_nouns { bident_of (a_noun five) (a_noun five) ≡ Err fault.Syntax }
    ensures noun_and_verb { bident_of (a_noun five) (a_verb plus) ≡ Err fault.Syntax }
    ensures verb_and_adverb { bident_of (a_verb plus) (an_adverb insert_word) ≡ Err fault.Syntax }
    ensures two_conjunctions { bident_of (a_conjunction at_word) (a_conjunction at_word) ≡ Err fault.Syntax }
    ensures right_applied { adverb_of (right at_word (verb times)) (verb minus) ≡ Ok (a_verb (derived2 m.At (verb minus) (verb times))) }
    ensures left_applied { adverb_of (left (verb minus) at_word) (verb times) ≡ Ok (a_verb (derived2 m.At (verb minus) (verb times))) }
    ensures left_first { adverb_of (both (right at_word (verb times)) (left (verb plus) at_word)) (verb minus) ≡ Ok (a_verb (derived2 m.At (verb plus) (verb (derived2 m.At (verb minus) (verb times))))) }
    ensures highest { bident_of (a_verb (tower 63)) (a_verb plus) ≡ Ok (a_verb (tower 64)) }
    ensures too_high { bident_of (a_verb (tower 64)) (a_verb plus) ≡ Err fault.Limit }
    ensures highest_adverb { bident_of (an_adverb (adverb_tower 63)) (an_adverb insert_word) ≡ Ok (an_adverb (adverb_tower 64)) }
    ensures adverb_too_high { bident_of (an_adverb (adverb_tower 64)) (an_adverb insert_word) ≡ Err fault.Limit }
{}

/// Laws: operands of `"`, worked out by hand.
pub fn rank_rows()
    ensures number { conjunction_of (modifier m.Rank) (verb plus) (atom (pos 0)) ≡ joined m.Rank (verb plus) (atom (pos 0)) }
    ensures two_numbers { conjunction_of (modifier m.Rank) (verb plus) (numbers (pos 0 ∷ pos 1 ∷ [])) ≡ joined m.Rank (verb plus) (numbers (pos 0 ∷ pos 1 ∷ [])) }
    ensures three_numbers { conjunction_of (modifier m.Rank) (verb plus) (numbers (pos 0 ∷ pos 1 ∷ pos 2 ∷ [])) ≡ joined m.Rank (verb plus) (numbers (pos 0 ∷ pos 1 ∷ pos 2 ∷ [])) }
    ensures negative { conjunction_of (modifier m.Rank) (verb plus) (atom (negsuc 0)) ≡ joined m.Rank (verb plus) (atom (negsuc 0)) }
    ensures infinite { conjunction_of (modifier m.Rank) (verb plus) (rank_list (part.Infinite ∷ [])) ≡ joined m.Rank (verb plus) (rank_list (part.Infinite ∷ [])) }
    ensures infinite_and_numbers { conjunction_of (modifier m.Rank) (verb plus) (rank_list (part.Infinite ∷ part.Number (pos 0) ∷ part.Number (pos 1) ∷ [])) ≡ joined m.Rank (verb plus) (rank_list (part.Infinite ∷ part.Number (pos 0) ∷ part.Number (pos 1) ∷ [])) }
    ensures of_a_verb { conjunction_of (modifier m.Rank) (verb plus) (verb minus) ≡ joined m.Rank (verb plus) (verb minus) }
    ensures noun_left { conjunction_of (modifier m.Rank) on_five (atom (pos 1)) ≡ joined m.Rank on_five (atom (pos 1)) }
    ensures noun_left_of_infinite { conjunction_of (modifier m.Rank) on_five (rank_list (part.Infinite ∷ [])) ≡ joined m.Rank on_five (rank_list (part.Infinite ∷ [])) }
    ensures noun_left_of_verb { conjunction_of (modifier m.Rank) on_five (verb plus) ≡ Err fault.Domain }
    ensures ranks_left { conjunction_of (modifier m.Rank) (rank_list (part.Infinite ∷ [])) (atom (pos 0)) ≡ Err fault.Domain }
    ensures characters { conjunction_of (modifier m.Rank) (verb plus) letter ≡ Err fault.Domain }
    ensures boxes { conjunction_of (modifier m.Rank) (verb plus) box ≡ Err fault.Domain }
    ensures table { conjunction_of (modifier m.Rank) (verb plus) (shaped (1 ∷ 1 ∷ []) (pos 0 ∷ [])) ≡ Err fault.Rank }
    ensures empty_table { conjunction_of (modifier m.Rank) (verb plus) (nothing kind.Number (0 ∷ 0 ∷ [])) ≡ Err fault.Rank }
    ensures kind_before_rank { conjunction_of (modifier m.Rank) (verb plus) (letter_shaped (1 ∷ 1 ∷ [])) ≡ Err fault.Domain }
    ensures none { conjunction_of (modifier m.Rank) (verb plus) (nothing kind.Number (0 ∷ [])) ≡ Err fault.Length }
    ensures no_characters { conjunction_of (modifier m.Rank) (verb plus) (nothing kind.Character (0 ∷ [])) ≡ Err fault.Length }
    ensures four { conjunction_of (modifier m.Rank) (verb plus) (numbers (pos 0 ∷ pos 1 ∷ pos 2 ∷ pos 3 ∷ [])) ≡ Err fault.Length }
    ensures infinite_and_three { conjunction_of (modifier m.Rank) (verb plus) (rank_list (part.Number (pos 0) ∷ part.Infinite ∷ part.Number (pos 1) ∷ part.Number (pos 2) ∷ [])) ≡ Err fault.Length }
    ensures four_left_of_noun { conjunction_of (modifier m.Rank) on_five (numbers (pos 0 ∷ pos 1 ∷ pos 2 ∷ pos 3 ∷ [])) ≡ Err fault.Length }
    ensures too_high { conjunction_of (modifier m.Rank) (verb (tower 64)) (atom (pos 0)) ≡ Err fault.Limit }
    ensures fault_before_height { conjunction_of (modifier m.Rank) (verb (tower 64)) letter ≡ Err fault.Domain }
{}

/// Laws: operands of `@`, `@:`, `&` and `&:`, worked out by hand.
pub fn composition_rows()
    ensures atop { conjunction_of (modifier m.Atop) (verb minus) (verb times) ≡ joined m.Atop (verb minus) (verb times) }
    ensures noun_left_of_atop { conjunction_of (modifier m.Atop) on_five (verb plus) ≡ Err fault.Domain }
    ensures noun_right_of_atop { conjunction_of (modifier m.Atop) (verb plus) on_five ≡ Err fault.Domain }
    ensures ranks_right_of_atop { conjunction_of (modifier m.Atop) (verb plus) (rank_list (part.Infinite ∷ [])) ≡ Err fault.Domain }
    ensures atop_too_high { conjunction_of (modifier m.Atop) (verb (tower 64)) (verb plus) ≡ Err fault.Limit }
    ensures at { conjunction_of (modifier m.At) (verb minus) (verb times) ≡ joined m.At (verb minus) (verb times) }
    ensures noun_left_of_at { conjunction_of (modifier m.At) on_five (verb plus) ≡ Err fault.Domain }
    ensures noun_right_of_at { conjunction_of (modifier m.At) (verb plus) on_five ≡ Err fault.Domain }
    ensures ranks_right_of_at { conjunction_of (modifier m.At) (verb plus) (rank_list (part.Infinite ∷ [])) ≡ Err fault.Domain }
    ensures at_too_high { conjunction_of (modifier m.At) (verb (tower 64)) (verb plus) ≡ Err fault.Limit }
    ensures appose { conjunction_of (modifier m.Appose) (verb minus) (verb times) ≡ joined m.Appose (verb minus) (verb times) }
    ensures noun_left_of_appose { conjunction_of (modifier m.Appose) on_five (verb plus) ≡ Err fault.Domain }
    ensures noun_right_of_appose { conjunction_of (modifier m.Appose) (verb plus) on_five ≡ Err fault.Domain }
    ensures ranks_right_of_appose { conjunction_of (modifier m.Appose) (verb plus) (rank_list (part.Infinite ∷ [])) ≡ Err fault.Domain }
    ensures appose_too_high { conjunction_of (modifier m.Appose) (verb (tower 64)) (verb plus) ≡ Err fault.Limit }
    ensures bond { conjunction_of (modifier m.Bond) (verb minus) (verb times) ≡ joined m.Bond (verb minus) (verb times) }
    ensures noun_left_of_bond { conjunction_of (modifier m.Bond) on_five (verb plus) ≡ joined m.Bond on_five (verb plus) }
    ensures noun_right_of_bond { conjunction_of (modifier m.Bond) (verb plus) on_five ≡ joined m.Bond (verb plus) on_five }
    ensures nouns_of_bond { conjunction_of (modifier m.Bond) letter on_five ≡ Err fault.Domain }
    ensures ranks_right_of_bond { conjunction_of (modifier m.Bond) (verb plus) (rank_list (part.Infinite ∷ [])) ≡ Err fault.Domain }
    ensures ranks_left_of_bond { conjunction_of (modifier m.Bond) (rank_list (part.Infinite ∷ [])) (verb plus) ≡ Err fault.Domain }
    ensures bond_too_high { conjunction_of (modifier m.Bond) on_five (verb (tower 64)) ≡ Err fault.Limit }
    ensures applied { adverb_of (right (modifier m.Bond) (atom (pos 1))) (verb minus) ≡ joined m.Bond (verb minus) (atom (pos 1)) }
{}

/// Laws: operands of `^:`, worked out by hand.
pub fn power_rows()
    ensures number { conjunction_of (modifier m.PowerOf) (verb plus) (atom (pos 2)) ≡ joined m.PowerOf (verb plus) (atom (pos 2)) }
    ensures zero { conjunction_of (modifier m.PowerOf) (verb plus) (atom (pos 0)) ≡ joined m.PowerOf (verb plus) (atom (pos 0)) }
    ensures infinite { conjunction_of (modifier m.PowerOf) (verb plus) (rank_list (part.Infinite ∷ [])) ≡ joined m.PowerOf (verb plus) (rank_list (part.Infinite ∷ [])) }
    ensures of_a_verb { conjunction_of (modifier m.PowerOf) (verb plus) (verb minus) ≡ joined m.PowerOf (verb plus) (verb minus) }
    ensures negative { conjunction_of (modifier m.PowerOf) (verb plus) (atom (negsuc 0)) ≡ Err fault.Nonce }
    ensures character { conjunction_of (modifier m.PowerOf) (verb plus) letter ≡ Err fault.Domain }
    ensures boxes { conjunction_of (modifier m.PowerOf) (verb plus) box ≡ Err fault.Domain }
    ensures kind_before_rank { conjunction_of (modifier m.PowerOf) (verb plus) (letter_shaped (1 ∷ [])) ≡ Err fault.Domain }
    ensures list_of_one { conjunction_of (modifier m.PowerOf) (verb plus) (numbers (pos 2 ∷ [])) ≡ Err fault.Rank }
    ensures negative_list { conjunction_of (modifier m.PowerOf) (verb plus) (numbers (negsuc 0 ∷ negsuc 1 ∷ [])) ≡ Err fault.Rank }
    ensures no_characters { conjunction_of (modifier m.PowerOf) (verb plus) (nothing kind.Character (0 ∷ [])) ≡ Err fault.Rank }
    ensures infinite_and_number { conjunction_of (modifier m.PowerOf) (verb plus) (rank_list (part.Infinite ∷ part.Number (pos 1) ∷ [])) ≡ Err fault.Rank }
    ensures noun_left { conjunction_of (modifier m.PowerOf) on_five (atom (negsuc 0)) ≡ Err fault.Domain }
    ensures noun_left_of_verb { conjunction_of (modifier m.PowerOf) on_five (verb plus) ≡ Err fault.Domain }
    ensures noun_left_of_infinite { conjunction_of (modifier m.PowerOf) on_five (rank_list (part.Infinite ∷ [])) ≡ Err fault.Domain }
    ensures ranks_left { conjunction_of (modifier m.PowerOf) (rank_list (part.Infinite ∷ [])) (atom (pos 2)) ≡ Err fault.Domain }
    ensures too_high { conjunction_of (modifier m.PowerOf) (verb (tower 64)) (atom (pos 2)) ≡ Err fault.Limit }
{}

/// Laws: what adverbs are applied to, and conjunctions that form nothing yet, worked out by hand.
pub fn adverb_rows()
    ensures passive { adverb_of (modifier m.Passive) (verb minus) ≡ alone m.Passive (verb minus) }
    ensures passive_twice { adverb_of (both (modifier m.Passive) (modifier m.Passive)) (verb minus) ≡ alone m.Passive (verb (derived m.Passive (verb minus))) }
    ensures noun_passive { adverb_of (modifier m.Passive) on_five ≡ Err fault.Nonce }
    ensures ranks_passive { adverb_of (modifier m.Passive) (rank_list (part.Infinite ∷ [])) ≡ Err fault.Domain }
    ensures passive_too_high { adverb_of (modifier m.Passive) (verb (tower 64)) ≡ Err fault.Limit }
    ensures insert { adverb_of (modifier m.Insert) (verb plus) ≡ alone m.Insert (verb plus) }
    ensures noun_insert { adverb_of (modifier m.Insert) on_five ≡ Err fault.Nonce }
    ensures prefix { adverb_of (modifier m.Prefix) (verb plus) ≡ alone m.Prefix (verb plus) }
    ensures noun_prefix { adverb_of (modifier m.Prefix) on_five ≡ Err fault.Nonce }
    ensures suffix { adverb_of (modifier m.Suffix) (verb plus) ≡ alone m.Suffix (verb plus) }
    ensures noun_suffix { adverb_of (modifier m.Suffix) on_five ≡ Err fault.Nonce }
    ensures oblique { adverb_of (modifier m.Oblique) (verb plus) ≡ alone m.Oblique (verb plus) }
    ensures noun_oblique { adverb_of (modifier m.Oblique) on_five ≡ Err fault.Nonce }
    ensures amend { adverb_of (modifier m.Amend) on_five ≡ alone m.Amend on_five }
    ensures amend_of_verb { adverb_of (modifier m.Amend) (verb plus) ≡ Err fault.Nonce }
    ensures amend_of_ranks { adverb_of (modifier m.Amend) (rank_list (part.Infinite ∷ [])) ≡ Err fault.Domain }
    ensures product { conjunction_of (modifier m.Product) (verb plus) (verb minus) ≡ joined m.Product (verb plus) (verb minus) }
    ensures product_of_noun { conjunction_of (modifier m.Product) on_five (verb minus) ≡ Err fault.Domain }
    ensures adverse { conjunction_of (modifier m.Adverse) (verb plus) (verb minus) ≡ Err fault.Nonce }
    ensures monadic { conjunction_of (modifier m.Monadic) (verb plus) (verb minus) ≡ Err fault.Nonce }
{}

/// Laws: operands of `&.`, and which words have an obverse, worked out by hand.
pub fn under_rows()
    ensures box_and_open { obverse (primitive p.Less) ≡ Some (primitive p.Greater) }
    ensures open_and_box { obverse (primitive p.Greater) ≡ Some (primitive p.Less) }
    ensures one_more { obverse (primitive p.GreaterEqual) ≡ Some (primitive p.LessEqual) }
    ensures one_less { obverse (primitive p.LessEqual) ≡ Some (primitive p.GreaterEqual) }
    ensures double { obverse (primitive p.Double) ≡ Some (primitive p.Halve) }
    ensures halve { obverse (primitive p.Halve) ≡ Some (primitive p.Double) }
    ensures of_themselves { map (λ v. obverse (primitive v)) (p.Plus ∷ p.Minus ∷ p.Not ∷ p.Divide ∷ p.Reverse ∷ p.Transpose ∷ p.Left ∷ p.Right ∷ [])
        ≡ map (λ v. Some (primitive v)) (p.Plus ∷ p.Minus ∷ p.Not ∷ p.Divide ∷ p.Reverse ∷ p.Transpose ∷ p.Left ∷ p.Right ∷ []) }
    ensures none { map (λ v. obverse (primitive v)) (p.Times ∷ p.Power ∷ p.Square ∷ p.Residue ∷ p.Equal ∷ p.Link ∷ p.Cap ∷ p.One ∷ [])
        ≡ row None None None None None None None None }
    ensures name { (n : NameParts) (r : Ranks) → obverse (named n r) ≡ None }
    ensures train { obverse (hook plus plus) ≡ None }
    ensures modified { obverse (derived m.Passive (verb plus)) ≡ None }
    ensures of_verbs { conjunction_of (modifier m.Under) (verb times) (verb plus) ≡ joined m.Under (verb times) (verb plus) }
    ensures no_obverse { conjunction_of (modifier m.Under) (verb plus) (verb times) ≡ Err fault.Domain }
    ensures name_of_verb { (n : NameParts) (r : Ranks) → conjunction_of (modifier m.Under) (verb plus) (verb (named n r)) ≡ Err fault.Domain }
    ensures noun_left { conjunction_of (modifier m.Under) on_five (verb plus) ≡ Err fault.Domain }
    ensures noun_right { conjunction_of (modifier m.Under) (verb plus) on_five ≡ Err fault.Domain }
    ensures too_high { conjunction_of (modifier m.Under) (verb (tower 64)) (verb plus) ≡ Err fault.Limit }
    ensures fault_before_height { conjunction_of (modifier m.Under) (verb (tower 64)) (verb times) ≡ Err fault.Domain }
    ensures applied { adverb_of (right (modifier m.Under) (verb minus)) (verb plus) ≡ joined m.Under (verb plus) (verb minus) }
{}

/// Laws: operands of `;.`, worked out by hand.
pub fn cut_rows()
    ensures one { conjunction_of (modifier m.Cut) (verb plus) (atom (pos 1)) ≡ joined m.Cut (verb plus) (atom (pos 1)) }
    ensures minus_one { conjunction_of (modifier m.Cut) (verb plus) (atom (negsuc 0)) ≡ joined m.Cut (verb plus) (atom (negsuc 0)) }
    ensures two { conjunction_of (modifier m.Cut) (verb plus) (atom (pos 2)) ≡ joined m.Cut (verb plus) (atom (pos 2)) }
    ensures minus_two { conjunction_of (modifier m.Cut) (verb plus) (atom (negsuc 1)) ≡ joined m.Cut (verb plus) (atom (negsuc 1)) }
    ensures zero { conjunction_of (modifier m.Cut) (verb plus) (atom (pos 0)) ≡ Err fault.Nonce }
    ensures three { conjunction_of (modifier m.Cut) (verb plus) (atom (pos 3)) ≡ Err fault.Nonce }
    ensures minus_three { conjunction_of (modifier m.Cut) (verb plus) (atom (negsuc 2)) ≡ Err fault.Nonce }
    ensures four { conjunction_of (modifier m.Cut) (verb plus) (atom (pos 4)) ≡ Err fault.Domain }
    ensures minus_four { conjunction_of (modifier m.Cut) (verb plus) (atom (negsuc 3)) ≡ Err fault.Domain }
    ensures list_of_one { conjunction_of (modifier m.Cut) (verb plus) (numbers (pos 1 ∷ [])) ≡ Err fault.Domain }
    ensures list_of_zero { conjunction_of (modifier m.Cut) (verb plus) (numbers (pos 0 ∷ [])) ≡ Err fault.Domain }
    ensures no_numbers { conjunction_of (modifier m.Cut) (verb plus) (numbers []) ≡ Err fault.Domain }
    ensures character { conjunction_of (modifier m.Cut) (verb plus) letter ≡ Err fault.Domain }
    ensures boxes { conjunction_of (modifier m.Cut) (verb plus) box ≡ Err fault.Domain }
    ensures of_a_verb { conjunction_of (modifier m.Cut) (verb plus) (verb minus) ≡ Err fault.Domain }
    ensures noun_left { conjunction_of (modifier m.Cut) on_five (atom (pos 1)) ≡ Err fault.Nonce }
    ensures noun_left_of_four { conjunction_of (modifier m.Cut) on_five (atom (pos 4)) ≡ Err fault.Nonce }
    ensures noun_left_of_verb { conjunction_of (modifier m.Cut) on_five (verb plus) ≡ Err fault.Domain }
    ensures too_high { conjunction_of (modifier m.Cut) (verb (tower 64)) (atom (pos 1)) ≡ Err fault.Limit }
    ensures fault_before_height { conjunction_of (modifier m.Cut) (verb (tower 64)) (atom (pos 0)) ≡ Err fault.Nonce }
    ensures applied { adverb_of (right (modifier m.Cut) (atom (pos 1))) (verb plus) ≡ joined m.Cut (verb plus) (atom (pos 1)) }
{}

/// Laws: each modifier with a verb, a number, a character, a box, a list of no numbers, of no characters and of no boxes, and `_` as its operands: a row for each left one, and a column for each right one.
pub fn operand_tables()
    ensures ranks { said_between m.Rank ≡ row
        (row formed formed domain domain length length length formed)
        (row domain formed domain domain length length length formed)
        (row domain formed domain domain length length length formed)
        (row domain formed domain domain length length length formed)
        (row domain formed domain domain length length length formed)
        (row domain formed domain domain length length length formed)
        (row domain formed domain domain length length length formed)
        (row domain domain domain domain domain domain domain domain) }
    ensures atop { said_between m.Atop ≡ row
        (row formed domain domain domain domain domain domain domain)
        (row domain domain domain domain domain domain domain domain)
        (row domain domain domain domain domain domain domain domain)
        (row domain domain domain domain domain domain domain domain)
        (row domain domain domain domain domain domain domain domain)
        (row domain domain domain domain domain domain domain domain)
        (row domain domain domain domain domain domain domain domain)
        (row domain domain domain domain domain domain domain domain) }
    ensures at { said_between m.At ≡ row
        (row formed domain domain domain domain domain domain domain)
        (row domain domain domain domain domain domain domain domain)
        (row domain domain domain domain domain domain domain domain)
        (row domain domain domain domain domain domain domain domain)
        (row domain domain domain domain domain domain domain domain)
        (row domain domain domain domain domain domain domain domain)
        (row domain domain domain domain domain domain domain domain)
        (row domain domain domain domain domain domain domain domain) }
    ensures bond { said_between m.Bond ≡ row
        (row formed formed formed formed formed formed formed domain)
        (row formed domain domain domain domain domain domain domain)
        (row formed domain domain domain domain domain domain domain)
        (row formed domain domain domain domain domain domain domain)
        (row formed domain domain domain domain domain domain domain)
        (row formed domain domain domain domain domain domain domain)
        (row formed domain domain domain domain domain domain domain)
        (row domain domain domain domain domain domain domain domain) }
    ensures appose { said_between m.Appose ≡ row
        (row formed domain domain domain domain domain domain domain)
        (row domain domain domain domain domain domain domain domain)
        (row domain domain domain domain domain domain domain domain)
        (row domain domain domain domain domain domain domain domain)
        (row domain domain domain domain domain domain domain domain)
        (row domain domain domain domain domain domain domain domain)
        (row domain domain domain domain domain domain domain domain)
        (row domain domain domain domain domain domain domain domain) }
    ensures power { said_between m.PowerOf ≡ row
        (row formed formed domain domain rank rank rank formed)
        (row domain domain domain domain domain domain domain domain)
        (row domain domain domain domain domain domain domain domain)
        (row domain domain domain domain domain domain domain domain)
        (row domain domain domain domain domain domain domain domain)
        (row domain domain domain domain domain domain domain domain)
        (row domain domain domain domain domain domain domain domain)
        (row domain domain domain domain domain domain domain domain) }
    ensures passive { said_alone m.Passive ≡ row formed nonce nonce nonce nonce nonce nonce domain }
    ensures insert { said_alone m.Insert ≡ row formed nonce nonce nonce nonce nonce nonce domain }
    ensures prefix { said_alone m.Prefix ≡ row formed nonce nonce nonce nonce nonce nonce domain }
    ensures suffix { said_alone m.Suffix ≡ row formed nonce nonce nonce nonce nonce nonce domain }
    ensures oblique { said_alone m.Oblique ≡ row formed nonce nonce nonce nonce nonce nonce domain }
    ensures amend { said_alone m.Amend ≡ row nonce formed formed formed formed formed formed domain }
    ensures cut { said_between m.Cut ≡ row
        (row domain domain domain domain domain domain domain domain)
        (row domain nonce nonce nonce nonce nonce nonce domain)
        (row domain nonce nonce nonce nonce nonce nonce domain)
        (row domain nonce nonce nonce nonce nonce nonce domain)
        (row domain nonce nonce nonce nonce nonce nonce domain)
        (row domain nonce nonce nonce nonce nonce nonce domain)
        (row domain nonce nonce nonce nonce nonce nonce domain)
        (row domain domain domain domain domain domain domain domain) }
    ensures under { said_between m.Under ≡ row
        (row formed domain domain domain domain domain domain domain)
        (row domain domain domain domain domain domain domain domain)
        (row domain domain domain domain domain domain domain domain)
        (row domain domain domain domain domain domain domain domain)
        (row domain domain domain domain domain domain domain domain)
        (row domain domain domain domain domain domain domain domain)
        (row domain domain domain domain domain domain domain domain)
        (row domain domain domain domain domain domain domain domain) }
{}

/// Laws: which fault of the right operand of `"` or `^:` comes first, and lists with an infinite part, worked out by hand.
pub fn order_rows()
    ensures characters_of_wrong_count { conjunction_of (modifier m.Rank) (verb plus) (noun (record { kind = kind.Character; shape = 4 ∷ []; atoms = byte 97 ∷ byte 97 ∷ byte 97 ∷ byte 97 ∷ [] })) ≡ Err fault.Domain }
    ensures table_of_wrong_count { conjunction_of (modifier m.Rank) (verb plus) (shaped (2 ∷ 2 ∷ []) (pos 0 ∷ pos 0 ∷ pos 0 ∷ pos 0 ∷ [])) ≡ Err fault.Rank }
    ensures table_of_three { conjunction_of (modifier m.Rank) (verb plus) (shaped (1 ∷ 3 ∷ []) (pos 0 ∷ pos 0 ∷ pos 0 ∷ [])) ≡ Err fault.Rank }
    ensures empty_table_of_characters { conjunction_of (modifier m.Rank) (verb plus) (nothing kind.Character (0 ∷ 4 ∷ [])) ≡ Err fault.Rank }
    ensures empty_table_of_boxes { conjunction_of (modifier m.Rank) (verb plus) (nothing kind.Boxed (2 ∷ 0 ∷ [])) ≡ Err fault.Rank }
    ensures characters_right_of_noun { conjunction_of (modifier m.Rank) on_five letter ≡ Err fault.Domain }
    ensures table_right_of_noun { conjunction_of (modifier m.Rank) on_five (shaped (1 ∷ 1 ∷ []) (pos 0 ∷ [])) ≡ Err fault.Rank }
    ensures none_right_of_noun { conjunction_of (modifier m.Rank) on_five (nothing kind.Character (0 ∷ [])) ≡ Err fault.Length }
    ensures infinite_and_three_right_of_noun { conjunction_of (modifier m.Rank) on_five (rank_list (part.Infinite ∷ part.Number (pos 0) ∷ part.Number (pos 0) ∷ part.Number (pos 0) ∷ [])) ≡ Err fault.Length }
    ensures two_infinite { conjunction_of (modifier m.Rank) (verb plus) (rank_list (part.Infinite ∷ part.Infinite ∷ [])) ≡ joined m.Rank (verb plus) (rank_list (part.Infinite ∷ part.Infinite ∷ [])) }
    ensures three_infinite { conjunction_of (modifier m.Rank) (verb plus) (rank_list (part.Infinite ∷ part.Infinite ∷ part.Infinite ∷ [])) ≡ joined m.Rank (verb plus) (rank_list (part.Infinite ∷ part.Infinite ∷ part.Infinite ∷ [])) }
    ensures infinite_last { conjunction_of (modifier m.Rank) (verb plus) (rank_list (part.Number (pos 0) ∷ part.Infinite ∷ [])) ≡ joined m.Rank (verb plus) (rank_list (part.Number (pos 0) ∷ part.Infinite ∷ [])) }
    ensures four_infinite { conjunction_of (modifier m.Rank) (verb plus) (rank_list (part.Infinite ∷ part.Infinite ∷ part.Infinite ∷ part.Infinite ∷ [])) ≡ Err fault.Length }
    ensures ranks_left_of_table { conjunction_of (modifier m.Rank) (rank_list (part.Infinite ∷ [])) (shaped (1 ∷ 1 ∷ []) (pos 0 ∷ [])) ≡ Err fault.Domain }
    ensures ranks_left_of_none { conjunction_of (modifier m.Rank) (rank_list (part.Infinite ∷ [])) (numbers []) ≡ Err fault.Domain }
    ensures times_of_a_box_in_a_list { conjunction_of (modifier m.PowerOf) (verb plus) (noun (record { kind = kind.Boxed; shape = 1 ∷ []; atoms = boxed five ∷ [] })) ≡ Err fault.Domain }
    ensures table_of_times { conjunction_of (modifier m.PowerOf) (verb plus) (shaped (1 ∷ 1 ∷ []) (negsuc 0 ∷ [])) ≡ Err fault.Rank }
    ensures no_times { conjunction_of (modifier m.PowerOf) (verb plus) (numbers []) ≡ Err fault.Rank }
    ensures empty_table_of_times { conjunction_of (modifier m.PowerOf) (verb plus) (nothing kind.Boxed (0 ∷ 3 ∷ [])) ≡ Err fault.Rank }
    ensures least_times { conjunction_of (modifier m.PowerOf) (verb plus) (atom (negsuc 9223372036854775807)) ≡ Err fault.Nonce }
    ensures infinite_times_twice { conjunction_of (modifier m.PowerOf) (verb plus) (rank_list (part.Infinite ∷ part.Infinite ∷ [])) ≡ Err fault.Rank }
    ensures number_and_infinite { conjunction_of (modifier m.PowerOf) (verb plus) (rank_list (part.Number (pos 1) ∷ part.Infinite ∷ [])) ≡ Err fault.Rank }
    ensures noun_left_of_list { conjunction_of (modifier m.PowerOf) on_five (numbers (pos 1 ∷ pos 2 ∷ [])) ≡ Err fault.Domain }
    ensures noun_left_of_infinite_list { conjunction_of (modifier m.PowerOf) on_five (rank_list (part.Infinite ∷ part.Number (pos 1) ∷ [])) ≡ Err fault.Domain }
    ensures ranks_left_of_negative { conjunction_of (modifier m.PowerOf) (rank_list (part.Infinite ∷ [])) (atom (negsuc 0)) ≡ Err fault.Domain }
    ensures negative_times_too_high { conjunction_of (modifier m.PowerOf) (verb (tower 64)) (atom (negsuc 0)) ≡ Err fault.Nonce }
{}

/// Laws: adverbs of a conjunction and one operand take the other one, with the same faults, worked out by hand.
pub fn partial_rows()
    ensures ranks { adverb_of (right (modifier m.Rank) (atom (pos 1))) (verb minus) ≡ joined m.Rank (verb minus) (atom (pos 1)) }
    ensures infinite_rank { adverb_of (right (modifier m.Rank) (rank_list (part.Infinite ∷ []))) (verb minus) ≡ joined m.Rank (verb minus) (rank_list (part.Infinite ∷ [])) }
    ensures noun_of_ranks { adverb_of (left (noun five) (modifier m.Rank)) (atom (pos 0)) ≡ joined m.Rank (noun five) (atom (pos 0)) }
    ensures ranks_of_characters { adverb_of (right (modifier m.Rank) (nothing kind.Character (0 ∷ []))) (verb minus) ≡ Err fault.Length }
    ensures noun_with_ranks_of_verb { adverb_of (right (modifier m.Rank) (verb plus)) (noun five) ≡ Err fault.Domain }
    ensures verb_of_noun { adverb_of (left (verb plus) (modifier m.Atop)) (noun five) ≡ Err fault.Domain }
    ensures atop { adverb_of (right (modifier m.Atop) (verb times)) (verb minus) ≡ joined m.Atop (verb minus) (verb times) }
    ensures appose { adverb_of (left (verb minus) (modifier m.Appose)) (verb times) ≡ joined m.Appose (verb minus) (verb times) }
    ensures bond_left { adverb_of (left (noun five) (modifier m.Bond)) (verb minus) ≡ joined m.Bond (noun five) (verb minus) }
    ensures bond_of_nouns { adverb_of (left (noun five) (modifier m.Bond)) (noun five) ≡ Err fault.Domain }
    ensures times { adverb_of (right (modifier m.PowerOf) (atom (pos 2))) (verb minus) ≡ joined m.PowerOf (verb minus) (atom (pos 2)) }
    ensures endless { adverb_of (right (modifier m.PowerOf) (rank_list (part.Infinite ∷ []))) (verb minus) ≡ joined m.PowerOf (verb minus) (rank_list (part.Infinite ∷ [])) }
    ensures negative_times { adverb_of (right (modifier m.PowerOf) (atom (negsuc 0))) (verb minus) ≡ Err fault.Nonce }
    ensures negative_times_of_noun { adverb_of (right (modifier m.PowerOf) (atom (negsuc 0))) (noun five) ≡ Err fault.Domain }
    ensures times_left { adverb_of (left (verb minus) (modifier m.PowerOf)) (verb plus) ≡ joined m.PowerOf (verb minus) (verb plus) }
    ensures passive_after { adverb_of (both (right (modifier m.Rank) (atom (pos 1))) (modifier m.Passive)) (verb minus) ≡ alone m.Passive (verb (derived2 m.Rank (verb minus) (atom (pos 1)))) }
    ensures fault_first { adverb_of (both (right (modifier m.Rank) letter) (modifier m.Passive)) (verb minus) ≡ Err fault.Domain }
    ensures fault_of_the_first { adverb_of (both (modifier m.Passive) (right (modifier m.Rank) letter)) on_five ≡ Err fault.Nonce }
{}

/// Laws: what a word forms of its operands has just these operands.
#[tactic(auto, using(crate::proofs::Laws::conjunction_forms, crate::proofs::Laws::adverb_forms))]
pub fn formed_laws()
    ensures conjunction { (c : Modifier) (u v : OperandTree) → IfOk (conjunction_of (modifier c) u v) (λ e. e ≡ a_verb (derived2 c u v)) }
    ensures adverb { (a : Modifier) (u : OperandTree) → IfOk (adverb_of (modifier a) u) (λ e. e ≡ a_verb (derived a u)) }
{}

/// Laws: where an operand is missing, an adverb waits for it, whatever noun the other one is. No verb is formed of a conjunction and one operand, nor of an adverb and two.
pub fn missing_laws()
    ensures left_missing { (c : Modifier) (n : Array) → bident_of (a_conjunction (modifier c)) (a_noun n) ≡ Ok (an_adverb (right (modifier c) (noun n))) }
    ensures right_missing { (c : Modifier) (n : Array) → bident_of (a_noun n) (a_conjunction (modifier c)) ≡ Ok (an_adverb (left (noun n) (modifier c))) }
    ensures ranks { (u : OperandTree) → IsErr (adverb_of (modifier m.Rank) u) }
    ensures atop { (u : OperandTree) → IsErr (adverb_of (modifier m.Atop) u) }
    ensures at { (u : OperandTree) → IsErr (adverb_of (modifier m.At) u) }
    ensures bond { (u : OperandTree) → IsErr (adverb_of (modifier m.Bond) u) }
    ensures appose { (u : OperandTree) → IsErr (adverb_of (modifier m.Appose) u) }
    ensures power { (u : OperandTree) → IsErr (adverb_of (modifier m.PowerOf) u) }
    ensures passive { (u v : OperandTree) → IsErr (conjunction_of (modifier m.Passive) u v) }
{}

/// Laws: a train of adverbs applies them from left to right, however it is grouped.
#[tactic(auto, using(crate::proofs::Laws::regrouped))]
pub fn train_laws()
    ensures { (a b c : OperatorTree) (u : OperandTree) → adverb_of (both (both a b) c) u ≡ adverb_of (both a (both b c)) u }
{}

/// Laws: nothing that is formed is higher than 64.
#[tactic(auto, using(crate::proofs::Laws::fork_height, crate::proofs::Laws::bident_height, crate::proofs::Laws::conjunction_height, crate::proofs::Laws::adverb_height))]
pub fn height_laws()
    ensures fork { (f : OperandTree) (g h : VerbTree) → IfOk (fork_of f g h) (λ v. verb_height v ≤ 64) }
    ensures bident { (a b : EntityTree) → IfOk (bident_of a b) (λ e. entity_height e ≤ 64) }
    ensures conjunction { (c : OperatorTree) (u v : OperandTree) → IfOk (conjunction_of c u v) (λ e. entity_height e ≤ 64) }
    ensures adverb { (a : OperatorTree) (u : OperandTree) → IfOk (adverb_of a u) (λ e. entity_height e ≤ 64) }
{}
