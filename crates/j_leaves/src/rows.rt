// Words and names worked out by hand.
ghost use Rattle.std.specs.Prelude.{◌≡◌, ℕ, List, ◌++◌, true, false, cond, codes, pos, negsuc, Ok, Some, None, IsTrue, IsFalse, IsSome, IsSomeAnd};
ghost use Rattle.j_words.specs.Vocabulary.{look_up, class_or_name};
ghost use Rattle.j_words.specs.declared.Class.TheVariants as class;
ghost use Rattle.j_leaves.specs.Names.{NameParts, name_of, name_spelling};
ghost use Rattle.j_leaves.specs.Spelling.{primitive_spelling, is_primitive_word, primitive_of, modifier_spelling, modifier_of, is_adverb, constant};
ghost use Rattle.j_leaves.specs.declared.name.Place.TheVariants as place;
ghost use Rattle.j_leaves.specs.declared.primitive.Primitive.{Primitive};
ghost use Rattle.j_leaves.specs.declared.primitive.Primitive.TheVariants as p;
ghost use Rattle.j_leaves.specs.declared.modifier.Modifier.{Modifier};
ghost use Rattle.j_leaves.specs.declared.modifier.Modifier.TheVariants as m;

/// Laws: the verbs, the adverbs and the conjunctions of the vocabulary, let through now or only later, are those that are spelled here.
#[tactic(auto, using(crate::proofs::Listed::verbs_spelled, crate::proofs::Listed::adverbs_spelled, crate::proofs::Listed::conjunctions_spelled, crate::proofs::Listed::primitives_listed, crate::proofs::Listed::modifiers_listed))]
pub fn vocabulary_laws()
    ensures verbs { (w : List ℕ) → class_or_name (look_up w) ≡ class.Verb → IsSome (primitive_of w) }
    ensures adverbs { (w : List ℕ) → class_or_name (look_up w) ≡ class.Adverb → IsSomeAnd (modifier_of w) (λ m. IsTrue (is_adverb m)) }
    ensures conjunctions { (w : List ℕ) → class_or_name (look_up w) ≡ class.Conjunction → IsSomeAnd (modifier_of w) (λ m. IsFalse (is_adverb m)) }
    ensures primitives { (p : Primitive) → IsTrue (is_primitive_word p) → class_or_name (look_up (primitive_spelling p)) ≡ class.Verb }
    ensures modifiers { (m : Modifier) → class_or_name (look_up (modifier_spelling m)) ≡ cond (is_adverb m) class.Adverb class.Conjunction }
{}

/// Laws: a name's bytes are those that it is read from.
#[tactic(auto, using(crate::proofs::Names::name_spelled))]
pub fn name_laws()
    ensures spelled { (bytes : List ℕ) (n : NameParts) → name_of bytes ≡ Some n → name_spelling n ≡ bytes }
{}

/// Laws: words and names worked out by hand.
pub fn worked_rows()
    ensures index_of { primitive_of (codes "i.") ≡ Some p.IndexOf }
    ensures constant_word { primitive_of (codes "_9:") ≡ Some p.MinusNine }
    ensures built_in { primitive_of (codes "echo") ≡ None }
    ensures no_primitive { primitive_of (codes "i") ≡ None }
    ensures grade_down { primitive_spelling p.GradeDown ≡ codes "\\:" }
    ensures built_in_name { primitive_spelling p.Cocurrent ≡ codes "cocurrent" }
    ensures least_constant { constant p.MinusNine ≡ Some (negsuc 8) }
    ensures largest_constant { constant p.Nine ≡ Some (pos 9) }
    ensures no_constant { constant p.Plus ≡ None }
    ensures rank { modifier_of (codes "\"") ≡ Some m.Rank }
    ensures suffix { modifier_of (codes "\\.") ≡ Some m.Suffix }
    ensures no_modifier { modifier_of (codes "+") ≡ None }
    ensures simple_name { name_of (codes "a_b1") ≡ Some (record { base = codes "a_b1"; place = place.Here }) }
    ensures direct_name { name_of (codes "a_b_c_") ≡ Some (record { base = codes "a_b"; place = place.Locale (codes "c") }) }
    ensures numbered_locale { name_of (codes "x_0_") ≡ Some (record { base = codes "x"; place = place.Locale (codes "0") }) }
    ensures object_name { name_of (codes "a_b__c_d") ≡ Some (record { base = codes "a_b"; place = place.Object (codes "c_d") }) }
    ensures two_objects { name_of (codes "a__b__c") ≡ None }
    ensures no_locale { name_of (codes "a__") ≡ None }
    ensures low_at_end { name_of (codes "a_") ≡ None }
    ensures digit_first { name_of (codes "1a") ≡ None }
    ensures digit_in_object { name_of (codes "a__1") ≡ None }
    ensures low_alone { name_of (codes "_a_") ≡ None }
    ensures mark { name_of (codes "a.b") ≡ None }
    ensures no_bytes { name_of (codes "") ≡ None }
{}
