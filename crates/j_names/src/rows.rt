// Names worked out by hand, and laws of their definitions.
ghost use Rattle.std.specs.Prelude.{◌≡◌, ◌≢◌, ℕ, List, [], ◌∷◌, Some, None, Ok, Err, true, false, pos, codes};
ghost use Rattle.std.specs.FinMap as map;
ghost use Rattle.j_definitions.specs.Array.{number, atom_array};
ghost use Rattle.j_definitions.specs.declared.Fault.TheVariants.{Value, Domain};
ghost use Rattle.j_definitions.specs.declared.Kind.TheVariants.{Number};
ghost use Rattle.j_leaves.specs.declared.primitive.Primitive.TheVariants as p;
ghost use Rattle.j_leaves.specs.declared.name.Place.TheVariants as place;
ghost use Rattle.j_entity.specs.Tree.{EntityTree, primitive, a_noun, a_verb};
ghost use Rattle.j_names.specs.declared.target.Target.TheVariants as target;
ghost use Rattle.j_names.specs.Names.{Key, LocaleRows, Locals, Scopes, begun, look, local, through, assign, put, held_at, entered, left, switched, is_local_at};
ghost use Rattle.j_names.specs.Rows.{scoped, simply, f, g, fg, f_in_p, f_of_o, f_at, o_at, plus, five, six, seven, letter, text, box, box_list};

/// Laws: simple names looked up, worked out by hand. The locals of the running definition come before the current locale, and that before `z`.
pub fn simple_rows()
    ensures nowhere { look (scoped [] ([] ∷ []) (codes "p")) f ≡ Ok None }
    ensures in_z { look (scoped ((f_at (codes "z"), seven) ∷ []) ([] ∷ []) (codes "p")) f ≡ Ok (Some seven) }
    ensures in_current { look (scoped ((f_at (codes "p"), six) ∷ []) ([] ∷ []) (codes "p")) f ≡ Ok (Some six) }
    ensures current_before_z { look (scoped ((f_at (codes "z"), seven) ∷ (f_at (codes "p"), six) ∷ []) ([] ∷ []) (codes "p")) f ≡ Ok (Some six) }
    ensures in_locals { look (scoped [] (((codes "f", five) ∷ []) ∷ []) (codes "p")) f ≡ Ok (Some five) }
    ensures locals_before_z { look (scoped ((f_at (codes "z"), seven) ∷ []) (((codes "f", five) ∷ []) ∷ []) (codes "p")) f ≡ Ok (Some five) }
    ensures locals_before_current { look (scoped ((f_at (codes "p"), six) ∷ []) (((codes "f", five) ∷ []) ∷ []) (codes "p")) f ≡ Ok (Some five) }
    ensures locals_before_both { look (scoped ((f_at (codes "p"), six) ∷ (f_at (codes "z"), seven) ∷ []) (((codes "f", five) ∷ []) ∷ []) (codes "p")) f ≡ Ok (Some five) }
    ensures outer_locals { look (scoped [] ([] ∷ ((codes "f", five) ∷ []) ∷ []) (codes "p")) f ≡ Ok None }
    ensures another_locale { look (scoped ((f_at (codes "q"), six) ∷ []) [] (codes "p")) f ≡ Ok None }
    ensures longer { look (scoped ((f_at (codes "p"), six) ∷ []) [] (codes "p")) fg ≡ Ok None }
    ensures shorter { look (scoped (((codes "p", codes "fg"), six) ∷ []) [] (codes "p")) f ≡ Ok None }
    ensures joined { look (scoped (((codes "pf", codes ""), six) ∷ []) [] (codes "p")) f ≡ Ok None }
{}

/// Laws: locatives looked up, worked out by hand. A direct one goes through its locale and `z`, and the object of the other is a simple name that holds a box of a locale's name.
pub fn locative_rows()
    ensures direct { look (scoped ((f_at (codes "p"), six) ∷ (f_at (codes "z"), seven) ∷ []) [] (codes "base")) f_in_p ≡ Ok (Some six) }
    ensures direct_in_z { look (scoped ((f_at (codes "z"), seven) ∷ []) [] (codes "base")) f_in_p ≡ Ok (Some seven) }
    ensures direct_in_current { look (scoped ((f_at (codes "base"), six) ∷ []) (((codes "f", five) ∷ []) ∷ []) (codes "base")) f_in_p ≡ Ok None }
    ensures no_object { look (scoped ((f_at (codes "p"), six) ∷ []) [] (codes "base")) f_of_o ≡ Err Value }
    ensures object { look (scoped ((o_at (codes "base"), box (text (codes "p"))) ∷ (f_at (codes "p"), six) ∷ []) [] (codes "base")) f_of_o ≡ Ok (Some six) }
    ensures object_in_z { look (scoped ((o_at (codes "z"), box (text (codes "p"))) ∷ (f_at (codes "z"), seven) ∷ []) [] (codes "base")) f_of_o ≡ Ok (Some seven) }
    ensures object_in_locals { look (scoped ((o_at (codes "base"), five) ∷ (f_at (codes "p"), six) ∷ []) (((codes "o", box (text (codes "p"))) ∷ []) ∷ []) (codes "base")) f_of_o ≡ Ok (Some six) }
    ensures object_alone { look (scoped ((o_at (codes "base"), box (text (codes "p"))) ∷ []) [] (codes "base")) f_of_o ≡ Ok None }
    ensures object_elsewhere { look (scoped ((o_at (codes "p"), box (text (codes "p"))) ∷ (f_at (codes "p"), six) ∷ []) [] (codes "base")) f_of_o ≡ Err Value }
    ensures letter_in_box { look (scoped ((o_at (codes "base"), box (letter 112)) ∷ (f_at (codes "p"), six) ∷ []) [] (codes "base")) f_of_o ≡ Ok (Some six) }
    ensures digits_in_box { look (scoped ((o_at (codes "base"), box (text (codes "1p"))) ∷ (f_at (codes "1p"), six) ∷ []) [] (codes "base")) f_of_o ≡ Ok (Some six) }
    ensures text_alone { look (scoped ((o_at (codes "base"), a_noun (text (codes "p"))) ∷ []) [] (codes "base")) f_of_o ≡ Err Domain }
    ensures list_of_box { look (scoped ((o_at (codes "base"), box_list (text (codes "p"))) ∷ []) [] (codes "base")) f_of_o ≡ Err Domain }
    ensures number_in_box { look (scoped ((o_at (codes "base"), box (atom_array Number (number (pos 5)))) ∷ []) [] (codes "base")) f_of_o ≡ Err Domain }
    ensures empty_in_box { look (scoped ((o_at (codes "base"), box (text [])) ∷ []) [] (codes "base")) f_of_o ≡ Err Domain }
    ensures blank_in_box { look (scoped ((o_at (codes "base"), box (text (codes "p q"))) ∷ []) [] (codes "base")) f_of_o ≡ Err Domain }
    ensures low_in_box { look (scoped ((o_at (codes "base"), box (text (codes "p_"))) ∷ []) [] (codes "base")) f_of_o ≡ Err Domain }
    ensures number { look (scoped ((o_at (codes "base"), five) ∷ []) [] (codes "base")) f_of_o ≡ Err Domain }
    ensures verb { look (scoped ((o_at (codes "base"), plus) ∷ []) [] (codes "base")) f_of_o ≡ Err Domain }
{}

/// Laws: names at the start, worked out by hand.
pub fn begun_rows()
    ensures echo { look begun (simply (codes "echo")) ≡ Ok (Some (a_verb (primitive p.Echo))) }
    ensures cocurrent { look begun (simply (codes "cocurrent")) ≡ Ok (Some (a_verb (primitive p.Cocurrent))) }
    ensures no_more { look begun f ≡ Ok None }
    ensures anywhere { look (switched begun (codes "p")) (simply (codes "echo")) ≡ Ok (Some (a_verb (primitive p.Echo))) }
    ensures locative { look begun (record { base = codes "echo"; place = place.Locale (codes "p") }) ≡ Ok (Some (a_verb (primitive p.Echo))) }
    ensures shadowed { look (put begun target.Current (codes "echo") plus) (simply (codes "echo")) ≡ Ok (Some plus) }
    ensures locale { begun.current ≡ codes "base" }
    ensures level { begun.locals ≡ [] }
{}

/// Laws: assignments worked out by hand.
pub fn assignment_rows()
    ensures top_local { assign true (scoped [] [] (codes "p")) f five ≡ Ok (scoped ((f_at (codes "p"), five) ∷ []) [] (codes "p")) }
    ensures top_global { assign false (scoped [] [] (codes "p")) f five ≡ Ok (scoped ((f_at (codes "p"), five) ∷ []) [] (codes "p")) }
    ensures local { assign true (scoped [] ([] ∷ []) (codes "p")) f five ≡ Ok (scoped [] (((codes "f", five) ∷ []) ∷ []) (codes "p")) }
    ensures inner_local { assign true (scoped [] ([] ∷ [] ∷ []) (codes "p")) f five ≡ Ok (scoped [] (((codes "f", five) ∷ []) ∷ [] ∷ []) (codes "p")) }
    ensures global { assign false (scoped [] ([] ∷ []) (codes "p")) f five ≡ Ok (scoped ((f_at (codes "p"), five) ∷ []) ([] ∷ []) (codes "p")) }
    ensures global_of_local { assign false (scoped [] (((codes "f", six) ∷ []) ∷ []) (codes "p")) f five ≡ Err Domain }
    ensures global_of_outer { assign false (scoped [] ([] ∷ ((codes "f", six) ∷ []) ∷ []) (codes "p")) f five ≡ Ok (scoped ((f_at (codes "p"), five) ∷ []) ([] ∷ ((codes "f", six) ∷ []) ∷ []) (codes "p")) }
    ensures direct_local { assign true (scoped [] ([] ∷ []) (codes "base")) f_in_p five ≡ Ok (scoped ((f_at (codes "p"), five) ∷ []) ([] ∷ []) (codes "base")) }
    ensures direct_global { assign false (scoped [] (((codes "f", six) ∷ []) ∷ []) (codes "base")) f_in_p five ≡ Ok (scoped ((f_at (codes "p"), five) ∷ []) (((codes "f", six) ∷ []) ∷ []) (codes "base")) }
    ensures object_local { assign true (scoped ((o_at (codes "base"), box (letter 112)) ∷ []) [] (codes "base")) f_of_o five ≡ Ok (scoped ((f_at (codes "p"), five) ∷ (o_at (codes "base"), box (letter 112)) ∷ []) [] (codes "base")) }
    ensures object_global { assign false (scoped ((o_at (codes "base"), box (letter 112)) ∷ []) [] (codes "base")) f_of_o five ≡ Ok (scoped ((f_at (codes "p"), five) ∷ (o_at (codes "base"), box (letter 112)) ∷ []) [] (codes "base")) }
    ensures no_object_local { assign true (scoped [] [] (codes "base")) f_of_o five ≡ Err Value }
    ensures no_object_global { assign false (scoped [] [] (codes "base")) f_of_o five ≡ Err Value }
    ensures object_of_number { assign false (scoped ((o_at (codes "base"), six) ∷ []) [] (codes "base")) f_of_o five ≡ Err Domain }
    ensures again { look (put (scoped ((f_at (codes "p"), six) ∷ []) [] (codes "p")) target.Current (codes "f") five) f ≡ Ok (Some five) }
{}

/// Laws: levels and locales worked out by hand.
pub fn level_rows()
    ensures fresh { look (entered (scoped [] (((codes "f", five) ∷ []) ∷ []) (codes "p"))) f ≡ Ok None }
    ensures back { look (left (scoped [] (((codes "f", five) ∷ []) ∷ ((codes "f", six) ∷ []) ∷ []) (codes "p"))) f ≡ Ok (Some six) }
    ensures gone { look (left (scoped [] (((codes "f", five) ∷ []) ∷ []) (codes "p"))) f ≡ Ok None }
    ensures a_local { is_local_at (scoped [] (((codes "f", five) ∷ []) ∷ []) (codes "p")) (codes "f") place.Here ≡ true }
    ensures a_global { is_local_at (scoped ((f_at (codes "p"), five) ∷ []) ([] ∷ []) (codes "p")) (codes "f") place.Here ≡ false }
    ensures an_outer { is_local_at (scoped [] ([] ∷ ((codes "f", five) ∷ []) ∷ []) (codes "p")) (codes "f") place.Here ≡ false }
    ensures a_locative { is_local_at (scoped [] (((codes "f", five) ∷ []) ∷ []) (codes "p")) (codes "f") (place.Locale (codes "p")) ≡ false }
    ensures elsewhere { look (switched (scoped ((f_at (codes "p"), five) ∷ []) [] (codes "p")) (codes "q")) f ≡ Ok None }
    ensures there { look (switched (scoped ((f_at (codes "p"), five) ∷ []) [] (codes "q")) (codes "p")) f ≡ Ok (Some five) }
{}

/// Laws: a target holds what it was given last, and no other level, locale or name changes.
pub fn name_laws()
    ensures in_locale { (s : Scopes) (l n : List ℕ) (e : EntityTree) → held_at (put s (target.Locale l) n e) (target.Locale l) n ≡ Some e }
    ensures in_current { (s : Scopes) (n : List ℕ) (e : EntityTree) → held_at (put s target.Current n e) target.Current n ≡ Some e }
    ensures in_locals { (rows : LocaleRows) (l : Locals) (outer : List Locals) (c n : List ℕ) (e : EntityTree)
        → local (put (record { rows = rows; locals = l ∷ outer; current = c }) target.Local n e) n ≡ Some e }
    ensures other_rows { (s : Scopes) (l n : List ℕ) (e : EntityTree) (k : Key) → k ≢ (l, n) → map.get (put s (target.Locale l) n e).rows k ≡ map.get s.rows k }
    ensures other_locals { (l : Locals) (n m : List ℕ) (e : EntityTree) → m ≢ n → map.get (map.insert l n e) m ≡ map.get l m }
    ensures rows_by_local { (s : Scopes) (n : List ℕ) (e : EntityTree) → (put s target.Local n e).rows ≡ s.rows }
    ensures locals_by_locale { (s : Scopes) (l n : List ℕ) (e : EntityTree) → (put s (target.Locale l) n e).locals ≡ s.locals }
    ensures locals_by_current { (s : Scopes) (n : List ℕ) (e : EntityTree) → (put s target.Current n e).locals ≡ s.locals }
    ensures last { (s : Scopes) (l n : List ℕ) (d e : EntityTree) → put (put s (target.Locale l) n d) (target.Locale l) n e ≡ put s (target.Locale l) n e }
    ensures restored { (s : Scopes) → left (entered s) ≡ s }
    ensures rows_by_level { (s : Scopes) → (entered s).rows ≡ s.rows }
    ensures locale_by_level { (s : Scopes) → (left s).current ≡ s.current }
{}
