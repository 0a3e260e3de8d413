// Sentences worked out by hand.
ghost use Rattle.std.specs.Prelude.{◌≡◌, ◌++◌, ◌∷◌, [], true, false, Ok, Some, None, codes, pos, negsuc};
ghost use Rattle.j_definitions.specs.Array.{atom_array, boxed};
ghost use Rattle.j_definitions.specs.declared.Fault.TheVariants as fault;
ghost use Rattle.j_definitions.specs.declared.Kind.TheVariants.{Boxed};
ghost use Rattle.j_leaves.specs.declared.primitive.Primitive.TheVariants as p;
ghost use Rattle.j_leaves.specs.declared.modifier.Modifier.TheVariants as m;
ghost use Rattle.j_noun.specs.declared.ranks.RankPart.TheVariants.{Infinite};
ghost use Rattle.j_names.specs.Names.{Scopes, look};
ghost use Rattle.j_names.specs.Rows.{f, f_in_p, letter, text, box};
ghost use Rattle.j_eval.specs.Names.{in_locale, back_in};
ghost use Rattle.j_eval.specs.RunVerbs.{no_rows};
ghost use Rattle.j_eval.specs.Several.{set_text};
ghost use Rattle.j_entity.specs.Ranks.{endless, of, same};
ghost use Rattle.j_entity.specs.Tree.{primitive, named, fork, hook, derived, derived2, a_noun, a_verb, name, ranks_word, open_mark, close_mark, local_copula, global_copula};
ghost use Rattle.j_entity.specs.Tree as operand;
ghost use Rattle.j_eval.specs.declared.stack.EntryKind.{EntryKind};
ghost use Rattle.j_eval.specs.declared.stack.EntryKind.TheVariants as kind;
ghost use Rattle.j_eval.specs.declared.stack.Row.TheVariants as row;
ghost use Rattle.j_verbs.specs.State.{State, Gave, Erred, Spent, Unit0};
ghost use Rattle.j_eval.specs.Applying.{call, nested};
ghost use Rattle.j_eval.specs.Table.{row_at};
ghost use Rattle.j_eval.specs.Meaning.{top};
ghost use Rattle.j_worked.specs.Sentences.{atom, character, list, noun, verb, plus, minus, times, at, joining, swapped, amending, shaped, inserted, dotted, under, on_parts, cut_by, on_one, on_two, within, after, knowing, f_is, a_and_b, f_of_p_is, top_of, gave};

/// Laws: which row four entries match, worked out by hand.
pub fn table_rows()
    ensures monad { row_at kind.Start kind.Verb kind.Noun kind.Nothing ≡ Some row.Monad }
    ensures monad_before_bident { (d : EntryKind) → row_at kind.Open kind.Verb kind.Noun d ≡ Some row.Monad }
    ensures monad_right { row_at kind.Verb kind.Verb kind.Verb kind.Noun ≡ Some row.MonadRight }
    ensures monad_right_before_bident { row_at kind.Start kind.Verb kind.Verb kind.Noun ≡ Some row.MonadRight }
    ensures dyad { row_at kind.Start kind.Noun kind.Verb kind.Noun ≡ Some row.Dyad }
    ensures adverb_before_bident { (d : EntryKind) → row_at kind.Start kind.Verb kind.Adverb d ≡ Some row.Adverb }
    ensures conjunction { row_at kind.Noun kind.Verb kind.Conjunction kind.Noun ≡ Some row.Conjunction }
    ensures fork { row_at kind.Start kind.Verb kind.Verb kind.Verb ≡ Some row.Fork }
    ensures bident { row_at kind.Open kind.Verb kind.Verb kind.Close ≡ Some row.Bident }
    ensures assignment { (d : EntryKind) → row_at kind.Noun kind.Copula kind.Noun d ≡ Some row.Assignment }
    ensures assignment_of_verb { (d : EntryKind) → row_at kind.Name kind.Copula kind.Verb d ≡ Some row.Assignment }
    ensures parentheses { (d : EntryKind) → row_at kind.Open kind.Noun kind.Close d ≡ Some row.Parentheses }
    ensures no_row { (b c d : EntryKind) → row_at kind.Conjunction b c d ≡ None }
    ensures no_edge { row_at kind.Noun kind.Verb kind.Noun kind.Nothing ≡ None }
{}

/// Laws: sentences worked out by hand, with their steps.
pub fn worked_rows()
    ensures fork_of_two { top_of (noun (atom (pos 5)) ∷ open_mark ∷ plus ∷ minus ∷ times ∷ close_mark ∷ noun (atom (pos 3)) ∷ [])
        ≡ gave (a_noun (atom (negsuc 6))) 4 (codes "_7" ++ 10 ∷ []) }
    ensures hook_of_one { top_of (open_mark ∷ plus ∷ times ∷ close_mark ∷ noun (atom (pos 3)) ∷ []) ≡ gave (a_noun (atom (pos 4))) 4 (codes "4" ++ 10 ∷ []) }
    ensures adverb_of_a_conjunction { top_of (minus ∷ open_mark ∷ at ∷ times ∷ close_mark ∷ noun (atom (pos 5)) ∷ [])
        ≡ gave (a_noun (atom (negsuc 0))) 5 (codes "_1" ++ 10 ∷ []) }
    ensures two_monads { top_of (minus ∷ minus ∷ noun (atom (pos 5)) ∷ []) ≡ gave (a_noun (atom (pos 5))) 3 (codes "5" ++ 10 ∷ []) }
    ensures monad_then_dyad { top_of (noun (atom (pos 5)) ∷ minus ∷ minus ∷ noun (atom (pos 3)) ∷ []) ≡ gave (a_noun (atom (pos 8))) 3 (codes "8" ++ 10 ∷ []) }
    ensures capped_fork { top_of (open_mark ∷ verb p.Cap ∷ minus ∷ times ∷ close_mark ∷ noun (atom (pos 5)) ∷ [])
        ≡ gave (a_noun (atom (negsuc 0))) 4 (codes "_1" ++ 10 ∷ []) }
    ensures at_of_two { top_of (noun (atom (pos 2)) ∷ minus ∷ at ∷ times ∷ noun (atom (pos 3)) ∷ []) ≡ gave (a_noun (atom (negsuc 5))) 3 (codes "_6" ++ 10 ∷ []) }
    ensures constant { top_of (verb p.Three ∷ noun (list (pos 1 ∷ pos 2 ∷ [])) ∷ []) ≡ gave (a_noun (atom (pos 3))) 2 (codes "3" ++ 10 ∷ []) }
    ensures verb_alone { top_of (plus ∷ minus ∷ []) ≡ gave (a_verb (hook (primitive p.Plus) (primitive p.Minus))) 2 (codes "verb" ++ 10 ∷ []) }
    ensures right_fault_first { top_of (noun (list (pos 1 ∷ pos 2 ∷ [])) ∷ open_mark ∷ verb p.Divide ∷ plus ∷ times ∷ close_mark ∷ noun (list (pos 1 ∷ pos 2 ∷ pos 3 ∷ [])) ∷ [])
        ≡ Erred fault.Length (after 4 []) }
    ensures number_assigned { top_of (noun (atom (pos 5)) ∷ global_copula ∷ noun (atom (pos 3)) ∷ []) ≡ Erred fault.Domain (after 2 []) }
    ensures verb_last { top_of (noun (atom (pos 5)) ∷ plus ∷ []) ≡ Erred fault.Syntax (after 2 []) }
    ensures unclosed { top_of (open_mark ∷ noun (atom (pos 5)) ∷ []) ≡ Erred fault.Syntax (after 1 []) }
    ensures spent { top (minus ∷ minus ∷ noun (atom (pos 5)) ∷ []) (within 2 0) ≡ Spent (within 2 2) }
    ensures enough_levels { (s : State) → call (nested 2) (hook (primitive p.Plus) (primitive p.Times)) None (atom (pos 3)) s ≡ Gave (atom (pos 4)) s }
    ensures too_few_levels { (s : State) → call (nested 1) (hook (primitive p.Plus) (primitive p.Times)) None (atom (pos 3)) s ≡ Erred fault.Stack s }
{}

/// Laws: verbs that modifiers make, worked out by hand, with their steps.
pub fn modifier_rows()
    ensures atop { top_of (verb p.Three ∷ joining m.Atop ∷ plus ∷ noun (list (pos 1 ∷ pos 2 ∷ [])) ∷ []) ≡ gave (a_noun (list (pos 3 ∷ pos 3 ∷ []))) 3 (codes "3 3" ++ 10 ∷ []) }
    ensures at { top_of (verb p.Three ∷ at ∷ plus ∷ noun (list (pos 1 ∷ pos 2 ∷ [])) ∷ []) ≡ gave (a_noun (atom (pos 3))) 3 (codes "3" ++ 10 ∷ []) }
    ensures over { top_of (noun (atom (pos 5)) ∷ minus ∷ joining m.Bond ∷ verb p.Double ∷ noun (atom (pos 3)) ∷ []) ≡ gave (a_noun (atom (pos 4))) 3 (codes "4" ++ 10 ∷ []) }
    ensures over_one { top_of (minus ∷ joining m.Bond ∷ verb p.Double ∷ noun (atom (pos 3)) ∷ []) ≡ gave (a_noun (atom (negsuc 5))) 3 (codes "_6" ++ 10 ∷ []) }
    ensures over_cells { top_of (verb p.Three ∷ joining m.Bond ∷ minus ∷ noun (list (pos 1 ∷ pos 2 ∷ [])) ∷ []) ≡ gave (a_noun (list (pos 3 ∷ pos 3 ∷ []))) 3 (codes "3 3" ++ 10 ∷ []) }
    ensures appose { top_of (verb p.Three ∷ joining m.Appose ∷ minus ∷ noun (list (pos 1 ∷ pos 2 ∷ [])) ∷ []) ≡ gave (a_noun (atom (pos 3))) 3 (codes "3" ++ 10 ∷ []) }
    ensures right_part_first { top_of (noun (character 97) ∷ minus ∷ joining m.Bond ∷ verb p.Divide ∷ noun (atom (pos 2)) ∷ []) ≡ Erred fault.Quotient (after 3 []) }
    ensures left_bound { top_of (noun (atom (pos 2)) ∷ joining m.Bond ∷ minus ∷ noun (atom (pos 5)) ∷ []) ≡ gave (a_noun (atom (negsuc 2))) 3 (codes "_3" ++ 10 ∷ []) }
    ensures right_bound { top_of (minus ∷ joining m.Bond ∷ noun (atom (pos 2)) ∷ verb p.Right ∷ noun (atom (pos 5)) ∷ []) ≡ gave (a_noun (atom (pos 3))) 4 (codes "3" ++ 10 ∷ []) }
    ensures bound_to_two { top_of (noun (atom (pos 1)) ∷ open_mark ∷ noun (atom (pos 2)) ∷ joining m.Bond ∷ times ∷ close_mark ∷ noun (atom (pos 5)) ∷ []) ≡ Erred fault.Nonce (after 4 []) }
    ensures on_both_sides { top_of (plus ∷ swapped ∷ noun (atom (pos 3)) ∷ []) ≡ gave (a_noun (atom (pos 6))) 3 (codes "6" ++ 10 ∷ []) }
    ensures swapped { top_of (noun (atom (pos 2)) ∷ minus ∷ swapped ∷ noun (atom (pos 5)) ∷ []) ≡ gave (a_noun (atom (pos 3))) 3 (codes "3" ++ 10 ∷ []) }
    ensures noun_for_each { top_of (noun (atom (pos 7)) ∷ joining m.Rank ∷ noun (atom (pos 0)) ∷ verb p.Right ∷ noun (list (pos 1 ∷ pos 2 ∷ [])) ∷ []) ≡ gave (a_noun (list (pos 7 ∷ pos 7 ∷ []))) 4 (codes "7 7" ++ 10 ∷ []) }
    ensures noun_for_all { top_of (noun (atom (pos 7)) ∷ joining m.Rank ∷ ranks_word (Infinite ∷ []) ∷ verb p.Right ∷ noun (list (pos 1 ∷ pos 2 ∷ [])) ∷ []) ≡ gave (a_noun (atom (pos 7))) 4 (codes "7" ++ 10 ∷ []) }
    ensures unlike_frames { top_of (noun (list (pos 1 ∷ pos 2 ∷ [])) ∷ plus ∷ joining m.Rank ∷ noun (atom (pos 0)) ∷ verb p.Right ∷ noun (list (pos 1 ∷ pos 2 ∷ pos 3 ∷ [])) ∷ []) ≡ Erred fault.Length (after 4 []) }
{}

/// Laws: verbs under others, and nouns with others at some places, worked out by hand.
pub fn under_rows()
    ensures with_steps { top_of (noun (atom (pos 2)) ∷ plus ∷ joining m.Under ∷ verb p.Double ∷ noun (atom (pos 3)) ∷ []) ≡ gave (a_noun (atom (pos 5))) 3 (codes "5" ++ 10 ∷ []) }
    ensures one_more { (s : State) → on_one (under p.Minus p.GreaterEqual) (atom (pos 3)) s ≡ Gave (atom (negsuc 4)) s }
    ensures one_less { (s : State) → on_one (under p.Minus p.LessEqual) (atom (pos 3)) s ≡ Gave (atom (negsuc 0)) s }
    ensures of_itself { (s : State) → on_two (atom (pos 1)) (under p.Minus p.Minus) (list (pos 5 ∷ pos 7 ∷ [])) s ≡ Gave (list (negsuc 3 ∷ negsuc 5 ∷ [])) s }
    ensures each_cell { (s : State) → on_one (under p.Three p.Minus) (list (pos 1 ∷ pos 2 ∷ [])) s ≡ Gave (list (negsuc 2 ∷ negsuc 2 ∷ [])) s }
    ensures right_part_first { (s : State) → on_two (character 97) (under p.Plus p.Divide) (atom (pos 2)) s ≡ Erred fault.Quotient s }
    ensures fault_of_obverse { (s : State) → on_one (under p.GreaterEqual p.Double) (atom (pos 3)) s ≡ Erred fault.Quotient s }
    ensures no_obverse { (s : State) → on_one (under p.Plus p.Times) (atom (pos 1)) s ≡ Erred fault.Domain s }
    ensures amended { top_of (noun (atom (pos 7)) ∷ open_mark ∷ noun (atom (pos 1)) ∷ amending ∷ close_mark ∷ noun (list (pos 4 ∷ pos 5 ∷ pos 6 ∷ [])) ∷ [])
        ≡ gave (a_noun (list (pos 4 ∷ pos 7 ∷ pos 6 ∷ []))) 4 (codes "4 7 6" ++ 10 ∷ []) }
    ensures amended_without { top_of (noun (atom (pos 1)) ∷ amending ∷ noun (list (pos 4 ∷ pos 5 ∷ [])) ∷ []) ≡ Erred fault.Nonce (after 3 []) }
    ensures amended_by_verb { (s : State) → on_two (atom (pos 1)) (derived m.Amend (operand.verb (primitive p.Plus))) (atom (pos 1)) s ≡ Erred fault.Domain s }
{}

/// Laws: verbs between items and on all pairs of cells, worked out by hand.
pub fn insertion_rows()
    ensures from_the_right { (s : State) → on_one (inserted p.Minus) (list (pos 1 ∷ pos 2 ∷ pos 4 ∷ [])) s ≡ Gave (atom (pos 3)) s }
    ensures first_from_the_right { (s : State) → on_one (inserted p.Plus) (list (pos 9223372036854775807 ∷ pos 1 ∷ negsuc 0 ∷ [])) s ≡ Gave (atom (pos 9223372036854775807)) s }
    ensures fault_from_the_right { (s : State) → on_one (inserted p.Plus) (list (negsuc 0 ∷ pos 1 ∷ pos 9223372036854775807 ∷ [])) s ≡ Erred fault.Overflow s }
    ensures an_atom { (s : State) → on_one (inserted p.Minus) (atom (pos 5)) s ≡ Gave (atom (pos 5)) s }
    ensures one_item { (s : State) → on_one (inserted p.Minus) (list (pos 5 ∷ [])) s ≡ Gave (atom (pos 5)) s }
    ensures one_character { (s : State) → on_one (inserted p.Plus) (character 97) s ≡ Gave (character 97) s }
    ensures none { (s : State) → on_one (inserted p.Plus) (list []) s ≡ Gave (atom (pos 0)) s }
    ensures none_of_times { (s : State) → on_one (inserted p.Times) (list []) s ≡ Gave (atom (pos 1)) s }
    ensures no_rows { (s : State) → on_one (inserted p.Plus) (shaped (0 ∷ 3 ∷ []) []) s ≡ Gave (list (pos 0 ∷ pos 0 ∷ pos 0 ∷ [])) s }
    ensures no_columns { (s : State) → on_one (inserted p.Plus) (shaped (3 ∷ 0 ∷ []) []) s ≡ Gave (list []) s }
    ensures rows { (s : State) → on_one (inserted p.Plus) (shaped (2 ∷ 3 ∷ []) (pos 0 ∷ pos 1 ∷ pos 2 ∷ pos 3 ∷ pos 4 ∷ pos 5 ∷ [])) s ≡ Gave (list (pos 3 ∷ pos 5 ∷ pos 7 ∷ [])) s }
    ensures no_identity { (s : State) → on_one (inserted p.Ravel) (list []) s ≡ Erred fault.Domain s }
    ensures no_identity_of_train { (s : State) → on_one (derived m.Insert (operand.verb (hook (primitive p.Plus) (primitive p.Minus)))) (list []) s ≡ Erred fault.Domain s }
    ensures joined { (s : State) → on_one (inserted p.Ravel) (shaped (2 ∷ 2 ∷ []) (pos 1 ∷ pos 2 ∷ pos 3 ∷ pos 4 ∷ [])) s ≡ Gave (list (pos 1 ∷ pos 2 ∷ pos 3 ∷ pos 4 ∷ [])) s }
    ensures table { (s : State) → on_two (list (pos 10 ∷ pos 20 ∷ [])) (inserted p.Minus) (list (pos 1 ∷ pos 2 ∷ pos 3 ∷ [])) s
        ≡ Gave (shaped (2 ∷ 3 ∷ []) (pos 9 ∷ pos 8 ∷ pos 7 ∷ pos 19 ∷ pos 18 ∷ pos 17 ∷ [])) s }
    ensures table_of_whole { (s : State) → on_two (list (pos 1 ∷ pos 2 ∷ [])) (inserted p.Ravel) (list (pos 3 ∷ [])) s ≡ Gave (list (pos 1 ∷ pos 2 ∷ pos 3 ∷ [])) s }
    ensures product { (s : State) → on_two (list (pos 1 ∷ pos 2 ∷ [])) (dotted (inserted p.Plus) p.Times) (list (pos 3 ∷ pos 4 ∷ [])) s ≡ Gave (atom (pos 11)) s }
    ensures product_of_rows { (s : State) → on_two (shaped (2 ∷ 2 ∷ []) (pos 1 ∷ pos 2 ∷ pos 3 ∷ pos 4 ∷ [])) (dotted (inserted p.Plus) p.Times) (list (pos 5 ∷ pos 6 ∷ [])) s ≡ Gave (list (pos 17 ∷ pos 39 ∷ [])) s }
    ensures product_of_one { (s : State) → on_one (dotted (inserted p.Plus) p.Times) (atom (pos 1)) s ≡ Erred fault.Nonce s }
    ensures no_identity_of_name { (s : State) → on_one (derived m.Insert (operand.verb (named f endless))) (list []) s ≡ Erred fault.Domain s }
{}

/// Laws: verbs on pieces, worked out by hand.
pub fn piece_rows()
    ensures prefixes { (s : State) → on_one (on_parts m.Prefix (inserted p.Plus)) (list (pos 1 ∷ pos 2 ∷ pos 3 ∷ [])) s ≡ Gave (list (pos 1 ∷ pos 3 ∷ pos 6 ∷ [])) s }
    ensures no_prefixes { (s : State) → on_one (on_parts m.Prefix (inserted p.Plus)) (list []) s ≡ Gave (list []) s }
    ensures zero_where_fills_err { (s : State) → on_one (on_parts m.Prefix (inserted p.LesserOf)) (list []) s ≡ Gave (list []) s }
    ensures first_fault_told { (s : State) → on_one (on_parts m.Prefix (inserted p.Plus)) (list (pos 9223372036854775807 ∷ pos 1 ∷ pos 1 ∷ [])) s ≡ Erred fault.Overflow s }
    ensures suffixes { (s : State) → on_one (on_parts m.Suffix (inserted p.Plus)) (list (pos 1 ∷ pos 2 ∷ pos 3 ∷ [])) s ≡ Gave (list (pos 6 ∷ pos 5 ∷ pos 3 ∷ [])) s }
    ensures infixes { (s : State) → on_two (atom (pos 2)) (on_parts m.Prefix (inserted p.Plus)) (list (pos 1 ∷ pos 2 ∷ pos 3 ∷ pos 4 ∷ [])) s ≡ Gave (list (pos 3 ∷ pos 5 ∷ pos 7 ∷ [])) s }
    ensures runs { (s : State) → on_two (atom (negsuc 1)) (on_parts m.Prefix (inserted p.Plus)) (list (pos 1 ∷ pos 2 ∷ pos 3 ∷ [])) s ≡ Gave (list (pos 3 ∷ pos 3 ∷ [])) s }
    ensures runs_of_none { (s : State) → on_two (atom (pos 0)) (on_parts m.Prefix (inserted p.LesserOf)) (list (pos 1 ∷ pos 2 ∷ [])) s ≡ Erred fault.Domain s }
    ensures by_character { (s : State) → on_two (character 97) (on_parts m.Prefix (inserted p.Plus)) (list (pos 1 ∷ [])) s ≡ Erred fault.Domain s }
    ensures by_each_number { (s : State) → on_two (list (pos 1 ∷ pos 2 ∷ [])) (on_parts m.Prefix (inserted p.Plus)) (list (pos 5 ∷ pos 7 ∷ [])) s ≡ Gave (shaped (2 ∷ 2 ∷ []) (pos 5 ∷ pos 7 ∷ pos 12 ∷ pos 0 ∷ [])) s }
    ensures outfixes { (s : State) → on_two (atom (pos 1)) (on_parts m.Suffix (inserted p.Plus)) (list (pos 1 ∷ pos 2 ∷ pos 4 ∷ [])) s ≡ Gave (list (pos 6 ∷ pos 5 ∷ pos 3 ∷ [])) s }
    ensures oblique_lines { (s : State) → on_one (on_parts m.Oblique (inserted p.Plus)) (shaped (2 ∷ 2 ∷ []) (pos 1 ∷ pos 2 ∷ pos 3 ∷ pos 4 ∷ [])) s ≡ Gave (list (pos 1 ∷ pos 5 ∷ pos 4 ∷ [])) s }
    ensures keys { (s : State) → on_two (list (pos 1 ∷ pos 2 ∷ pos 1 ∷ [])) (on_parts m.Oblique (primitive p.Tally)) (list (pos 5 ∷ pos 6 ∷ pos 7 ∷ [])) s ≡ Gave (list (pos 2 ∷ pos 1 ∷ [])) s }
    ensures unequal_keys { (s : State) → on_two (list (pos 1 ∷ pos 2 ∷ [])) (on_parts m.Oblique (primitive p.Tally)) (list (pos 5 ∷ [])) s ≡ Erred fault.Length s }
    ensures cut_at_first { (s : State) → on_one (cut_by (pos 1)) (list (pos 1 ∷ pos 2 ∷ pos 3 ∷ pos 1 ∷ [])) s ≡ Gave (list (pos 3 ∷ pos 1 ∷ [])) s }
    ensures cut_behind_first { (s : State) → on_one (cut_by (negsuc 0)) (list (pos 1 ∷ pos 2 ∷ pos 3 ∷ pos 1 ∷ [])) s ≡ Gave (list (pos 2 ∷ pos 0 ∷ [])) s }
    ensures cut_at_last { (s : State) → on_one (cut_by (pos 2)) (list (pos 1 ∷ pos 2 ∷ pos 3 ∷ pos 1 ∷ [])) s ≡ Gave (list (pos 1 ∷ pos 3 ∷ [])) s }
    ensures cut_before_last { (s : State) → on_one (cut_by (negsuc 1)) (list (pos 1 ∷ pos 2 ∷ pos 3 ∷ pos 1 ∷ [])) s ≡ Gave (list (pos 0 ∷ pos 2 ∷ [])) s }
    ensures cut_by_marks { (s : State) → on_two (list (pos 0 ∷ pos 1 ∷ pos 0 ∷ pos 1 ∷ [])) (cut_by (pos 1)) (list (pos 1 ∷ pos 2 ∷ pos 3 ∷ pos 1 ∷ [])) s ≡ Gave (list (pos 2 ∷ pos 1 ∷ [])) s }
    ensures too_few_marks { (s : State) → on_two (list (pos 0 ∷ pos 1 ∷ [])) (cut_by (pos 1)) (list (pos 1 ∷ pos 2 ∷ pos 3 ∷ [])) s ≡ Erred fault.Length s }
    ensures no_marks { (s : State) → on_two (atom (pos 2)) (cut_by (pos 1)) (list (pos 1 ∷ pos 2 ∷ pos 3 ∷ [])) s ≡ Erred fault.Domain s }
{}

/// Laws: a verb time after time, worked out by hand, with its steps.
pub fn power_rows()
    ensures three_times { top_of (verb p.Double ∷ joining m.PowerOf ∷ noun (atom (pos 3)) ∷ verb p.Right ∷ noun (atom (pos 1)) ∷ []) ≡ gave (a_noun (atom (pos 8))) 7 (codes "8" ++ 10 ∷ []) }
    ensures with_left { top_of (noun (atom (pos 2)) ∷ plus ∷ joining m.PowerOf ∷ noun (atom (pos 3)) ∷ verb p.Right ∷ noun (atom (pos 1)) ∷ []) ≡ gave (a_noun (atom (pos 7))) 7 (codes "7" ++ 10 ∷ []) }
    ensures no_time { top_of (verb p.Double ∷ joining m.PowerOf ∷ noun (atom (pos 0)) ∷ verb p.Right ∷ noun (atom (pos 5)) ∷ []) ≡ gave (a_noun (atom (pos 5))) 4 (codes "5" ++ 10 ∷ []) }
    ensures until_same { top_of (noun (atom (pos 0)) ∷ joining m.Bond ∷ times ∷ joining m.PowerOf ∷ ranks_word (Infinite ∷ []) ∷ verb p.Right ∷ noun (atom (pos 5)) ∷ []) ≡ gave (a_noun (atom (pos 0))) 7 (codes "0" ++ 10 ∷ []) }
    ensures same_at_once { top_of (verb p.Right ∷ joining m.PowerOf ∷ ranks_word (Infinite ∷ []) ∷ verb p.Right ∷ noun (atom (pos 5)) ∷ []) ≡ gave (a_noun (atom (pos 5))) 5 (codes "5" ++ 10 ∷ []) }
    ensures spent { top (verb p.Double ∷ joining m.PowerOf ∷ noun (atom (pos 3)) ∷ verb p.Right ∷ noun (atom (pos 1)) ∷ []) (within 6 0) ≡ Spent (within 6 6) }
    ensures spent_without_end { top (verb p.GreaterEqual ∷ joining m.PowerOf ∷ ranks_word (Infinite ∷ []) ∷ verb p.Right ∷ noun (atom (pos 1)) ∷ []) (within 9 0) ≡ Spent (within 9 9) }
    ensures as_a_verb_says { top_of (verb p.Double ∷ joining m.PowerOf ∷ verb p.Two ∷ verb p.Right ∷ noun (atom (pos 5)) ∷ []) ≡ gave (a_noun (atom (pos 20))) 6 (codes "20" ++ 10 ∷ []) }
    ensures says_no_number { top_of (verb p.Double ∷ joining m.PowerOf ∷ verb p.Right ∷ noun (character 97) ∷ []) ≡ Erred fault.Domain (after 3 []) }
    ensures says_a_list { top_of (verb p.Double ∷ joining m.PowerOf ∷ verb p.Right ∷ noun (list (pos 1 ∷ pos 2 ∷ [])) ∷ []) ≡ Erred fault.Rank (after 3 []) }
    ensures says_less_than_none { top_of (verb p.Double ∷ joining m.PowerOf ∷ verb p.Right ∷ noun (atom (negsuc 0)) ∷ []) ≡ Erred fault.Nonce (after 3 []) }
    ensures fault_of_a_time { top_of (minus ∷ joining m.PowerOf ∷ noun (atom (pos 3)) ∷ verb p.Right ∷ noun (character 97) ∷ []) ≡ Erred fault.Domain (after 5 []) }
    ensures no_ranks { (s : State) → call (nested 9) (derived2 m.Rank (operand.verb (primitive p.Plus)) (operand.noun (character 97))) None (atom (pos 1)) s ≡ Erred fault.Domain s }
    ensures no_count { (s : State) → call (nested 9) (derived2 m.PowerOf (operand.verb (primitive p.Plus)) (operand.noun (atom (negsuc 0)))) None (atom (pos 1)) s ≡ Erred fault.Domain s }
    ensures noun_swapped { (s : State) → call (nested 9) (derived m.Passive (operand.noun (atom (pos 1)))) None (atom (pos 1)) s ≡ Erred fault.Domain s }
{}

/// Laws: sentences with names worked out by hand. A name is given what it holds by row 7, and a verb's name is looked up for each cell, as a step.
pub fn name_rows()
    ensures assigned { top_of (name f ∷ global_copula ∷ plus ∷ []) ≡ Gave (a_verb (primitive p.Plus)) (knowing (f_is (a_verb (primitive p.Plus))) 2 []) }
    ensures assigned_within { top_of (noun (atom (pos 3)) ∷ plus ∷ name f ∷ local_copula ∷ noun (atom (pos 5)) ∷ [])
        ≡ Gave (a_noun (atom (pos 8))) (knowing (f_is (a_noun (atom (pos 5)))) 3 (codes "8" ++ 10 ∷ [])) }
    ensures in_parentheses { top_of (open_mark ∷ name f ∷ global_copula ∷ noun (atom (pos 5)) ∷ close_mark ∷ [])
        ≡ Gave (a_noun (atom (pos 5))) (knowing (f_is (a_noun (atom (pos 5)))) 3 (codes "5" ++ 10 ∷ [])) }
    ensures locative_assigned { top_of (name f_in_p ∷ global_copula ∷ plus ∷ []) ≡ Gave (a_verb (primitive p.Plus)) (knowing (f_of_p_is (a_verb (primitive p.Plus))) 2 []) }
    ensures no_value { (names : Scopes) → look names f ≡ Ok None → top (name f ∷ []) (knowing names 0 []) ≡ Erred fault.Value (knowing names 1 []) }
    ensures noun_by_value { (names : Scopes) → look names f ≡ Ok (Some (a_noun (atom (pos 5)))) → top (name f ∷ plus ∷ name f ∷ []) (knowing names 0 [])
        ≡ Gave (a_noun (atom (pos 10))) (knowing names 2 (codes "10" ++ 10 ∷ [])) }
    ensures verb_stays { (names : Scopes) → look names f ≡ Ok (Some (a_verb (primitive p.Plus))) → top (name f ∷ []) (knowing names 0 [])
        ≡ Gave (a_verb (named f (same (of 0)))) (knowing names 1 (codes "verb" ++ 10 ∷ [])) }
    ensures each_cell { (names : Scopes) → look names f ≡ Ok (Some (a_verb (primitive p.Minus))) → call (nested 9) (named f (same (of 0))) None (list (pos 1 ∷ pos 2 ∷ [])) (knowing names 0 [])
        ≡ Gave (list (negsuc 0 ∷ negsuc 1 ∷ [])) (knowing names 2 []) }
    ensures no_verb { (names : Scopes) → look names f ≡ Ok (Some (a_noun (atom (pos 5)))) → call (nested 9) (named f endless) None (atom (pos 1)) (knowing names 0 []) ≡ Erred fault.Value (knowing names 1 []) }
    ensures itself { (names : Scopes) → look names f ≡ Ok (Some (a_verb (named f endless))) → call (nested 3) (named f endless) None (atom (pos 1)) (knowing names 0 []) ≡ Erred fault.Stack (knowing names 3 []) }
    ensures spent { (names : Scopes) → look names f ≡ Ok (Some (a_verb (primitive p.Minus))) → call (nested 9) (named f (same (of 0))) None (list (pos 1 ∷ pos 2 ∷ [])) (knowing names 99 []) ≡ Spent (knowing names 100 []) }
{}

/// Laws: the verbs that change the state of a run, worked out by hand. What is shown comes in the order of the calls, and a locale that is switched to stays.
pub fn run_rows()
    ensures shows { on_one (primitive p.Echo) (atom (pos 5)) (after 0 []) ≡ Gave no_rows (after 0 (codes "5" ++ 10 ∷ [])) }
    ensures behind { on_one (primitive p.Echo) (atom (pos 5)) (after 0 (codes "4" ++ 10 ∷ [])) ≡ Gave no_rows (after 0 (codes "4" ++ 10 ∷ codes "5" ++ 10 ∷ [])) }
    ensures no_dyad { on_two (atom (pos 3)) (primitive p.Echo) (atom (pos 4)) (after 0 []) ≡ Erred fault.Domain (after 0 []) }
    ensures right_first { on_one (fork (primitive p.Echo) (primitive p.Left) (derived2 m.At (operand.verb (primitive p.Echo)) (operand.verb (primitive p.Minus)))) (atom (pos 1)) (after 0 [])
        ≡ Gave no_rows (after 0 (codes "_1" ++ 10 ∷ codes "1" ++ 10 ∷ [])) }
    ensures switches { on_one (primitive p.Cocurrent) (text (codes "q1")) (after 0 []) ≡ Gave no_rows (in_locale (codes "q1") (after 0 [])) }
    ensures switches_by_box { on_one (primitive p.Cocurrent) (atom_array Boxed (boxed (letter 112))) (after 0 []) ≡ Gave no_rows (in_locale (codes "p") (after 0 [])) }
    ensures number { on_one (primitive p.Cocurrent) (atom (pos 3)) (after 0 []) ≡ Erred fault.Domain (after 0 []) }
    ensures empty { on_one (primitive p.Cocurrent) (text []) (after 0 []) ≡ Erred fault.Domain (after 0 []) }
    ensures blank { on_one (primitive p.Cocurrent) (text (codes "a b")) (after 0 []) ≡ Erred fault.Domain (after 0 []) }
    ensures low { on_one (primitive p.Cocurrent) (text (codes "a_")) (after 0 []) ≡ Erred fault.Domain (after 0 []) }
    ensures no_dyad_either { on_two (atom (pos 1)) (primitive p.Cocurrent) (text (codes "p")) (after 0 []) ≡ Erred fault.Domain (after 0 []) }
    ensures back { (s : State) → back_in {A = Unit0} (codes "base") (Gave tt (in_locale (codes "p") s)) ≡ Gave tt (in_locale (codes "base") s) }
    ensures back_after_error { (s : State) → back_in {A = Unit0} (codes "base") (Erred fault.Domain (in_locale (codes "p") s)) ≡ Erred fault.Domain (in_locale (codes "base") s) }
{}

/// Laws: assignments to the names of a text, worked out by hand.
pub fn several_rows()
    ensures two { set_text false (text (codes "a b")) (a_noun (list (pos 3 ∷ pos 4 ∷ []))) (after 0 []) ≡ Gave tt (knowing (a_and_b (a_noun (atom (pos 3))) (a_noun (atom (pos 4)))) 0 []) }
    ensures blanks { set_text true (text (codes " a  b ")) (a_noun (list (pos 1 ∷ pos 2 ∷ []))) (after 0 []) ≡ Gave tt (knowing (a_and_b (a_noun (atom (pos 1))) (a_noun (atom (pos 2)))) 0 []) }
    ensures to_all { set_text false (text (codes "a b")) (a_noun (atom (pos 5))) (after 0 []) ≡ Gave tt (knowing (a_and_b (a_noun (atom (pos 5))) (a_noun (atom (pos 5)))) 0 []) }
    ensures box_to_all { set_text false (text (codes "a b")) (box (letter 112)) (after 0 []) ≡ Gave tt (knowing (a_and_b (a_noun (letter 112)) (a_noun (letter 112))) 0 []) }
    ensures opened { set_text false (text (codes "a b")) (a_noun (record { kind = Boxed; shape = 2 ∷ []; atoms = boxed (atom (pos 1)) ∷ boxed (text (codes "xy")) ∷ [] })) (after 0 [])
        ≡ Gave tt (knowing (a_and_b (a_noun (atom (pos 1))) (a_noun (text (codes "xy")))) 0 []) }
    ensures too_many { set_text false (text (codes "a b")) (a_noun (list (pos 1 ∷ pos 2 ∷ pos 3 ∷ []))) (after 0 []) ≡ Erred fault.Length (after 0 []) }
    ensures too_few { set_text false (text (codes "a b")) (a_noun (list (pos 1 ∷ []))) (after 0 []) ≡ Erred fault.Length (after 0 []) }
    ensures one_whole { set_text false (text (codes "f")) (a_noun (list (pos 1 ∷ pos 2 ∷ []))) (after 0 []) ≡ Gave tt (knowing (f_is (a_noun (list (pos 1 ∷ pos 2 ∷ [])))) 0 []) }
    ensures one_verb { set_text false (letter 102) (a_verb (primitive p.Plus)) (after 0 []) ≡ Gave tt (knowing (f_is (a_verb (primitive p.Plus))) 0 []) }
    ensures several_verbs { set_text false (text (codes "a b")) (a_verb (primitive p.Plus)) (after 0 []) ≡ Erred fault.Domain (after 0 []) }
    ensures no_name { set_text false (text (codes "a 1")) (a_noun (list (pos 3 ∷ pos 4 ∷ pos 5 ∷ []))) (after 0 []) ≡ Erred fault.Domain (after 0 []) }
    ensures no_names { set_text false (text (codes "  ")) (a_noun (atom (pos 1))) (after 0 []) ≡ Erred fault.Domain (after 0 []) }
    ensures number { set_text false (atom (pos 5)) (a_noun (atom (pos 3))) (after 0 []) ≡ Erred fault.Domain (after 0 []) }
{}
