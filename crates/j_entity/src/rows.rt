// Heights, ranks and sentences worked out by hand.
ghost use Rattle.std.specs.Prelude.{◌≡◌, ◌∷◌, [], true, false, pos, negsuc};
ghost use Rattle.j_definitions.specs.Array.{Array};
ghost use Rattle.j_entity.specs.Heights.{verb_height, operator_height};
ghost use Rattle.j_entity.specs.Ranks.{verb_ranks, three, same, endless, of};
ghost use Rattle.j_entity.specs.Rows.{on, atom, list, row, verb_word, conjunction_word};
ghost use Rattle.j_entity.specs.Tree.{BodyTree, primitive, fork, noun_fork, hook, derived, derived2, explicit, explicit1, verb, rank_list, modifier, left, both, defined, ranks_word, open_mark};
ghost use Rattle.j_entity.specs.View.{placed};
ghost use Rattle.j_leaves.specs.declared.modifier.Modifier.TheVariants as m;
ghost use Rattle.j_leaves.specs.declared.primitive.Primitive.TheVariants as p;
ghost use Rattle.j_noun.specs.declared.ranks.Rank.TheVariants as rank;
ghost use Rattle.j_noun.specs.declared.ranks.RankPart.TheVariants as part;

/// Laws: heights worked out by hand.
pub fn height_rows()
    ensures primitive_alone { verb_height (primitive p.Plus) ≡ 0 }
    ensures fork_of_words { verb_height (fork (primitive p.Plus) (primitive p.Minus) (primitive p.Times)) ≡ 1 }
    ensures hook_in_hook { verb_height (hook (hook (primitive p.Plus) (primitive p.Minus)) (primitive p.Times)) ≡ 2 }
    ensures noun_of_fork { (n : Array) → verb_height (noun_fork n (primitive p.Plus) (hook (primitive p.Minus) (primitive p.Times))) ≡ 2 }
    ensures two_words { verb_height (derived2 m.At (on p.Minus) (on p.Plus)) ≡ 1 }
    ensures noun_operand { verb_height (derived2 m.Bond (atom (pos 1)) (on p.Plus)) ≡ 1 }
    ensures body_alone { (b : BodyTree) → verb_height (explicit b) ≡ 0 }
    ensures body_on_hook { (b : BodyTree) → verb_height (explicit1 b (verb (hook (primitive p.Plus) (primitive p.Minus)))) ≡ 2 }
    ensures operator_body { (b : BodyTree) → operator_height (defined b) ≡ 0 }
    ensures operators { operator_height (both (left (on p.Minus) (modifier m.At)) (modifier m.Insert)) ≡ 2 }
{}

/// Laws: ranks worked out by hand, each of its one argument, its left and its right one.
pub fn rank_rows()
    ensures plus { verb_ranks (primitive p.Plus) ≡ same (of 0) }
    ensures base { verb_ranks (primitive p.Base) ≡ same (of 1) }
    ensures two_numbers { verb_ranks (derived2 m.Rank (on p.Plus) (list (pos 1 ∷ pos 2 ∷ []))) ≡ three (of 2) (of 1) (of 2) }
    ensures negative { verb_ranks (derived2 m.Rank (on p.Plus) (atom (negsuc 0))) ≡ same (rank.Number (negsuc 0)) }
    ensures infinite_first { verb_ranks (derived2 m.Rank (on p.Plus) (rank_list (part.Infinite ∷ part.Number (pos 0) ∷ part.Number (pos 1) ∷ []))) ≡ three rank.Infinite (of 0) (of 1) }
    ensures four_numbers { verb_ranks (derived2 m.Rank (on p.Plus) (list (pos 0 ∷ pos 1 ∷ pos 2 ∷ pos 3 ∷ []))) ≡ endless }
    ensures table { verb_ranks (derived2 m.Rank (on p.Plus) (row (pos 0 ∷ []))) ≡ endless }
    ensures product_of_negative { verb_ranks (derived2 m.Product (on p.Plus) (verb (derived2 m.Rank (on p.Times) (atom (negsuc 0))))) ≡ endless }
    ensures product_of_largest { verb_ranks (derived2 m.Product (on p.Plus) (verb (derived2 m.Rank (on p.Times) (atom (pos 9223372036854775807))))) ≡ endless }
    ensures fork_of_words { verb_ranks (fork (primitive p.Plus) (primitive p.Minus) (primitive p.Times)) ≡ endless }
{}

/// Laws: the ranks of what each modifier forms.
pub fn modifier_rank_rows()
    ensures insert { verb_ranks (derived m.Insert (on p.Plus)) ≡ endless }
    ensures prefix { verb_ranks (derived m.Prefix (on p.Plus)) ≡ three rank.Infinite (of 0) rank.Infinite }
    ensures suffix { verb_ranks (derived m.Suffix (on p.Plus)) ≡ three rank.Infinite (of 0) rank.Infinite }
    ensures oblique { verb_ranks (derived m.Oblique (on p.Plus)) ≡ endless }
    ensures cut { verb_ranks (derived2 m.Cut (on p.Less) (atom (negsuc 0))) ≡ three rank.Infinite (of 1) rank.Infinite }
    ensures passive { verb_ranks (derived m.Passive (on p.From)) ≡ three rank.Infinite rank.Infinite (of 0) }
    ensures amend { verb_ranks (derived m.Amend (atom (pos 1))) ≡ endless }
    ensures number { verb_ranks (derived2 m.Rank (on p.Plus) (atom (pos 1))) ≡ same (of 1) }
    ensures three_numbers { verb_ranks (derived2 m.Rank (on p.Plus) (list (pos 0 ∷ pos 1 ∷ pos 2 ∷ []))) ≡ three (of 0) (of 1) (of 2) }
    ensures noun_left { verb_ranks (derived2 m.Rank (atom (pos 5)) (list (pos 0 ∷ pos 1 ∷ []))) ≡ three (of 1) (of 0) (of 1) }
    ensures of_a_verb { verb_ranks (derived2 m.Rank (on p.Plus) (on p.Antibase)) ≡ three rank.Infinite (of 1) (of 0) }
    ensures atop { verb_ranks (derived2 m.Atop (on p.Plus) (on p.Antibase)) ≡ three rank.Infinite (of 1) (of 0) }
    ensures at { verb_ranks (derived2 m.At (on p.Plus) (on p.Times)) ≡ endless }
    ensures bond_of_verbs { verb_ranks (derived2 m.Bond (on p.Plus) (on p.From)) ≡ same (of 1) }
    ensures noun_left_of_bond { verb_ranks (derived2 m.Bond (atom (pos 1)) (on p.Plus)) ≡ endless }
    ensures noun_right_of_bond { verb_ranks (derived2 m.Bond (on p.Plus) (atom (pos 1))) ≡ endless }
    ensures appose { verb_ranks (derived2 m.Appose (on p.Plus) (on p.Times)) ≡ endless }
    ensures under { verb_ranks (derived2 m.Under (on p.Plus) (on p.From)) ≡ same (of 1) }
    ensures power { verb_ranks (derived2 m.PowerOf (on p.Plus) (atom (pos 2))) ≡ endless }
    ensures power_of_a_verb { verb_ranks (derived2 m.PowerOf (on p.Plus) (on p.Times)) ≡ endless }
    ensures product { verb_ranks (derived2 m.Product (on p.Plus) (on p.Times)) ≡ three rank.Infinite (of 1) rank.Infinite }
    ensures adverse { verb_ranks (derived2 m.Adverse (on p.Plus) (on p.Times)) ≡ endless }
    ensures monadic { verb_ranks (derived2 m.Monadic (on p.Words) (on p.Antibase)) ≡ three (of 1) (of 1) (of 0) }
{}

/// Laws: where a rank list stands.
pub fn sentence_rows()
    ensures after_rank { placed false (verb_word p.Plus ∷ conjunction_word m.Rank ∷ ranks_word (part.Infinite ∷ []) ∷ []) ≡ true }
    ensures after_power { placed false (verb_word p.Plus ∷ conjunction_word m.PowerOf ∷ ranks_word (part.Infinite ∷ []) ∷ []) ≡ true }
    ensures at_the_start { placed false (ranks_word (part.Infinite ∷ []) ∷ []) ≡ false }
    ensures after_verb { placed false (verb_word p.Plus ∷ ranks_word (part.Infinite ∷ []) ∷ []) ≡ false }
    ensures after_bond { placed false (verb_word p.Plus ∷ conjunction_word m.Bond ∷ ranks_word (part.Infinite ∷ []) ∷ []) ≡ false }
    ensures not_directly_after { placed false (verb_word p.Plus ∷ conjunction_word m.Rank ∷ open_mark ∷ ranks_word (part.Infinite ∷ []) ∷ []) ≡ false }
    ensures twice { placed false (verb_word p.Plus ∷ conjunction_word m.Rank ∷ ranks_word (part.Infinite ∷ []) ∷ ranks_word (part.Infinite ∷ []) ∷ []) ≡ false }
{}
