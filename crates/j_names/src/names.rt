// The names of a run, kept as lists of rows that nobody else sees.
ghost use Rattle.std.specs.Prelude.{◌≡◌, ◌≢◌, ℕ, true, false, ◌↔◌, List, [], ◌∷◌, Some, None, Ok, Err, IfSome, IfOk, IfErr, IsOk, IsTrue, MatchResult, OnOk, OnErr, option_map};
ghost use Rattle.std.specs.Option.{is_some};
ghost use Rattle.std.specs.FinMap as map;
ghost use Rattle.std.specs.List.{position_from};
ghost use Rattle.j_entity.specs.View.{entity_of};
ghost use Rattle.j_entity.specs.Tree.{primitive, a_verb};
ghost use Rattle.j_leaves.specs.declared.name.Place.TheVariants.{Here};
ghost use Rattle.j_names.specs.declared.target.Target.{Target};
ghost use Rattle.j_names.specs.Names.{Scopes, Locals, begun, z_locale, local, through, simple, locale_held, locale_at, look, local_target, simple_target, target_of, held_at, put, assign, entered, left, without_first, switched, is_local_at, IsRefused};
ghost use Rattle.j_names.specs.Kept.{has_key, has_name, kept, kept_locals};

use crate::locales::locale_boxed;
use crate::target::Target;
use j_entity::{Entity, Parts, Primitive, Verb};
use j_leaves::{Name, Place, Text};
use j_noun::{Fault, NoMemory, Refusal};
use std::alloc::Global;
use std::marker::Model;
use std::mem;

// What a name holds in a locale.
#[derive(Drop)]
struct Row {
    locale: Text,
    name: Text,
    value: Entity,
}

// What a local holds.
#[derive(Drop)]
struct Local {
    name: Text,
    value: Entity,
}

/// What names hold in each locale and in the definitions that run, and the current locale.
#[derive(Drop)]
pub struct Names {
    alloc: Global,
    rows: Vec<Row>,
    locals: Vec<Local>,
    // Those of the definitions outside the innermost, and first an empty list for the top level.
    outer: Vec<Vec<Local>>,
    current: Text,
}

impl Model for Names {
    ghost use Rattle.j_names.specs.Coded.{coded_scopes};
    ghost use Rattle.j_names.specs.Names.{Scopes};

    ghost Value = { Scopes };

    ghost coded = { coded_scopes };

    ghost use Rattle.j_names.specs.Kept.{scopes_of};

    ghost view = { λ n. scopes_of n };
}

fn is_at(row: &Row, locale: &[u8], name: &[u8]) -> bool
    ensures { IsTrue result ↔ ((row.now.name ≡ name.now) × (row.now.locale ≡ locale.now)) }
{
    row.name.bytes() == name && row.locale.bytes() == locale
}

// The place of the first row with this locale and name.
fn first_row(rows: &[Row], locale: &[u8], name: &[u8]) -> Option<usize>
    ensures { result ≡ position_from (has_key (locale.now, name.now)) 0 rows.now }
{
    for (i, row) in rows.iter().enumerate() {
        if is_at(row, locale, name) {
            return Some(i);
        }
    }
    None
}

// What the first row with this locale and name holds.
fn row_value<'a>(rows: &'a [Row], locale: &[u8], name: &[u8]) -> Option<&'a Entity>
    ensures { option_map (λ e. entity_of e.now) result ≡ map.get (kept rows.now) (locale.now, name.now) }
{
    let i = first_row(rows, locale, name)?;
    Some(&rows[i].value)
}

// A value in place of that of the first row with this locale and name. It is handed back where there is none.
fn replace_row(rows: &mut Vec<Row>, locale: &[u8], name: &[u8], value: Entity) -> Option<Entity>
    ensures done { result ≡ None → kept rows.new.items ≡ map.insert (kept rows.old.items) (locale.now, name.now) (entity_of value) }
    ensures new { IfSome result (λ v. (v ≡ value) × (map.get (kept rows.old.items) (locale.now, name.now) ≡ None) × (rows.new.items ≡ rows.old.items)) }
{
    match first_row(rows, locale, name) {
        Some(i) => {
            rows[i].value = value;
            None
        }
        None => Some(value),
    }
}

// A row behind the others, which counts where no other has its key.
fn append_row(rows: &mut Vec<Row>, row: Row) -> Result<(), NoMemory>
    ensures ok { OnOk result (map.get (kept rows.old.items) (row.locale, row.name) ≡ None → kept rows.new.items ≡ map.insert (kept rows.old.items) (row.locale, row.name) (entity_of row.value)) }
    ensures err { OnErr result (rows.new.items ≡ rows.old.items) }
{
    match rows.push(row) {
        Ok(()) => Ok(()),
        Err(_) => Err(NoMemory),
    }
}

// A row of this locale and name.
fn made_row(locale: &Text, name: &Text, value: Entity) -> Result<Row, NoMemory>
    ensures { IfOk result (λ r. (r.locale ≡ locale.now) × (r.name ≡ name.now) × (r.value ≡ value)) }
{
    let locale = locale.duplicate()?;
    let name = name.duplicate()?;
    Ok(Row {
        locale,
        name,
        value,
    })
}

// Lets a name of a locale hold this entity. One that holds something already wants no memory.
fn put_row(rows: &mut Vec<Row>, locale: &Text, name: &Text, value: Entity) -> Result<(), NoMemory>
    ensures ok { OnOk result (kept rows.new.items ≡ map.insert (kept rows.old.items) (locale.now, name.now) (entity_of value)) }
    ensures err { OnErr result (rows.new.items ≡ rows.old.items) }
    ensures again { map.get (kept rows.old.items) (locale.now, name.now) ≢ None → IsOk result }
{
    match replace_row(rows, locale.bytes(), name.bytes(), value) {
        None => Ok(()),
        Some(value) => append_row(rows, made_row(locale, name, value)?),
    }
}

fn is_named(local: &Local, name: &[u8]) -> bool
    ensures { IsTrue result ↔ (local.now.name ≡ name.now) }
{
    local.name.bytes() == name
}

// The place of the first local of this name.
fn first_local(locals: &[Local], name: &[u8]) -> Option<usize>
    ensures { result ≡ position_from (has_name name.now) 0 locals.now }
{
    for (i, local) in locals.iter().enumerate() {
        if is_named(local, name) {
            return Some(i);
        }
    }
    None
}

// What the first local of this name holds.
fn local_value<'a>(locals: &'a [Local], name: &[u8]) -> Option<&'a Entity>
    ensures { option_map (λ e. entity_of e.now) result ≡ map.get (kept_locals locals.now) name.now }
{
    let i = first_local(locals, name)?;
    Some(&locals[i].value)
}

// A value in place of that of the first local of this name. It is handed back where there is none.
fn replace_local(locals: &mut Vec<Local>, name: &[u8], value: Entity) -> Option<Entity>
    ensures done { result ≡ None → kept_locals locals.new.items ≡ map.insert (kept_locals locals.old.items) name.now (entity_of value) }
    ensures new { IfSome result (λ v. (v ≡ value) × (map.get (kept_locals locals.old.items) name.now ≡ None) × (locals.new.items ≡ locals.old.items)) }
{
    match first_local(locals, name) {
        Some(i) => {
            locals[i].value = value;
            None
        }
        None => Some(value),
    }
}

// A local behind the others, which counts where no other has its name.
fn append_local(locals: &mut Vec<Local>, local: Local) -> Result<(), NoMemory>
    ensures ok { OnOk result (map.get (kept_locals locals.old.items) local.name ≡ None → kept_locals locals.new.items ≡ map.insert (kept_locals locals.old.items) local.name (entity_of local.value)) }
    ensures err { OnErr result (locals.new.items ≡ locals.old.items) }
{
    match locals.push(local) {
        Ok(()) => Ok(()),
        Err(_) => Err(NoMemory),
    }
}

// Lets a local hold this entity. One that holds something already wants no memory.
fn put_local(locals: &mut Vec<Local>, name: &Text, value: Entity) -> Result<(), NoMemory>
    ensures ok { OnOk result (kept_locals locals.new.items ≡ map.insert (kept_locals locals.old.items) name.now (entity_of value)) }
    ensures err { OnErr result (locals.new.items ≡ locals.old.items) }
    ensures again { map.get (kept_locals locals.old.items) name.now ≢ None → IsOk result }
{
    match replace_local(locals, name.bytes(), value) {
        None => Ok(()),
        Some(value) => append_local(
            locals,
            Local {
                name: name.duplicate()?,
                value,
            },
        ),
    }
}

fn text(alloc: Global, bytes: &[u8]) -> Result<Text, NoMemory>
    ensures { IfOk result (λ t. t ≡ bytes.now) }
{
    match Vec::from_slice(alloc, bytes) {
        Ok(bytes) => Ok(Text::make(bytes)),
        Err(_) => Err(NoMemory),
    }
}

// The verb that is a primitive.
fn verb(alloc: Global, p: Primitive) -> Result<Verb, NoMemory>
    ensures { IfOk result (λ v. v ≡ primitive p) }
{
    match Verb::derive(alloc, Parts::Primitive(p)) {
        Ok(v) => Ok(v),
        Err(_) => Err(NoMemory),
    }
}

// Lets a name of `z` hold a primitive from the start.
fn build_in(alloc: Global, rows: &mut Vec<Row>, name: &[u8], p: Primitive) -> Result<(), NoMemory>
    ensures { OnOk result (kept rows.new.items ≡ map.insert (kept rows.old.items) (z_locale, name.now) (a_verb (primitive p))) }
{
    let z = text(alloc, b"z")?;
    let name = text(alloc, name)?;
    put_row(rows, &z, &name, Entity::Verb(verb(alloc, p)?))
}

// The locale that an object is.
fn locale_held(object: Option<&Entity>) -> Result<&[u8], Fault>
    ensures { MatchResult result (λ l. locale_held (option_map (λ e. entity_of e.now) object.entry) ≡ Ok l.now) (λ f. locale_held (option_map (λ e. entity_of e.now) object.entry) ≡ Err f) }
{
    match object {
        Some(Entity::Noun(y)) => match locale_boxed(y) {
            Some(locale) => Ok(locale),
            None => Err(Fault::Domain),
        },
        Some(Entity::Verb(_) | Entity::Adverb(_) | Entity::Conjunction(_)) => Err(Fault::Domain),
        None => Err(Fault::Value),
    }
}

impl Names {
    /// The names of a run that begins: the current locale is `base`, and `z` holds `echo` and `cocurrent`.
    pub fn new(alloc: Global) -> Result<Names, NoMemory>
        ensures { IfOk result (λ n. n ≡ begun) }
    {
        let mut rows = Vec::new(alloc);
        build_in(alloc, &mut rows, b"echo", Primitive::Echo)?;
        build_in(alloc, &mut rows, b"cocurrent", Primitive::Cocurrent)?;
        Ok(Names {
            alloc,
            rows,
            locals: Vec::new(alloc),
            outer: Vec::new(alloc),
            current: text(alloc, b"base")?,
        })
    }

    // What a local of the running definition holds.
    fn local(&self, name: &[u8]) -> Option<&Entity>
        ensures { option_map (λ e. entity_of e.now) result ≡ local self.now name.now }
    {
        if self.outer.is_empty() {
            None
        } else {
            local_value(&self.locals, name)
        }
    }

    // What a name holds in a locale, or else in `z`.
    fn through(&self, locale: &[u8], name: &[u8]) -> Option<&Entity>
        ensures { option_map (λ e. entity_of e.now) result ≡ through self.now locale.now name.now }
    {
        match row_value(&self.rows, locale, name) {
            Some(e) => Some(e),
            None => row_value(&self.rows, b"z", name),
        }
    }

    // What a simple name holds.
    fn simple(&self, name: &[u8]) -> Option<&Entity>
        ensures { option_map (λ e. entity_of e.now) result ≡ simple self.now name.now }
    {
        match self.local(name) {
            Some(e) => Some(e),
            None => self.through(self.current.bytes(), name),
        }
    }

    // The locale that the object of a locative is.
    fn object_locale(&self, object: &[u8]) -> Result<&[u8], Fault>
        ensures { MatchResult result (λ l. locale_held (simple self.now object.now) ≡ Ok l.now) (λ f. locale_held (simple self.now object.now) ≡ Err f) }
    {
        locale_held(self.simple(object))
    }

    /// What a name holds. The object of a locative may have no value (`value error`) or be no locale (`domain error`).
    pub fn get(&self, name: &Name) -> Result<Option<&Entity>, Fault>
        ensures { MatchResult result (λ o. look self.now name.now ≡ Ok (option_map (λ e. entity_of e.now) o)) (λ f. look self.now name.now ≡ Err f) }
    {
        let base = name.base().bytes();
        match name.place() {
            Place::Here => Ok(self.simple(base)),
            Place::Locale(locale) => Ok(self.through(locale.bytes(), base)),
            Place::Object(object) => {
                let locale = self.object_locale(object.bytes())?;
                Ok(self.through(locale, base))
            }
        }
    }

    /// The locale that a locative names, none for a simple name. Faults as in `get`.
    pub fn locale(&self, name: &Name) -> Result<Option<Text>, Refusal>
        ensures ok { IfOk result (λ l. locale_at self.now name.now.place ≡ Ok l) }
        ensures err { IfErr result (λ r. IsRefused (locale_at self.now name.now.place) r) }
        ensures simple { name.now.place ≡ Here → IsOk result }
    {
        match name.place() {
            Place::Here => Ok(None),
            Place::Locale(locale) => Ok(Some(locale.duplicate()?)),
            Place::Object(object) => {
                let locale = self.object_locale(object.bytes())?;
                Ok(Some(text(self.alloc, locale)?))
            }
        }
    }

    /// Whether a name is simple and a local of the running definition.
    pub fn is_local(&self, name: &Name) -> bool
        ensures { result ≡ is_local_at self.now name.now.base name.now.place }
    {
        match name.place() {
            Place::Here => self.local(name.base().bytes()).is_some(),
            Place::Locale(_) | Place::Object(_) => false,
        }
    }

    /// Where `=.` (`by_local`) or `=:` puts what a name is given. `=:` of a local is `domain error`; faults of an object as in `get`.
    pub fn target(&self, name: &Name, by_local: bool) -> Result<Target, Refusal>
        ensures ok { IfOk result (λ t. target_of by_local self.now name.now ≡ Ok t) }
        ensures err { IfErr result (λ r. IsRefused (target_of by_local self.now name.now) r) }
        ensures simple { name.now.place ≡ Here → (t : Target) → target_of by_local self.now name.now ≡ Ok t → IsOk result }
    {
        match self.locale(name) {
            Ok(Some(locale)) => Ok(Target::Locale(locale)),
            Ok(None) => Ok(self.simple_target(name.base().bytes(), by_local)?),
            Err(refusal) => Err(refusal),
        }
    }

    // Where a copula puts what a simple name is given.
    fn simple_target(&self, name: &[u8], by_local: bool) -> Result<Target, Fault>
        ensures { MatchResult result (λ t. simple_target by_local self.now.locals name.now ≡ Ok t) (λ f. simple_target by_local self.now.locals name.now ≡ Err f) }
    {
        if by_local {
            return Ok(self.local_target());
        }
        if self.local(name).is_some() {
            Err(Fault::Domain)
        } else {
            Ok(Target::Current)
        }
    }

    // Where `=.` puts a simple name.
    fn local_target(&self) -> Target
        ensures { result ≡ local_target self.now.locals }
    {
        if self.outer.is_empty() {
            Target::Current
        } else {
            Target::Local
        }
    }

    /// Lets a name hold this entity at a target in place of what it held there.
    pub fn put(&mut self, target: &Target, name: &Text, e: Entity) -> Result<(), NoMemory>
        ensures ok { OnOk result (self.new ≡ put self.old target.now name.now (entity_of e)) }
        ensures unchanged { OnErr result (self.new ≡ self.old) }
        ensures again { held_at self.old target.now name.now ≢ None → IsOk result }
    {
        match target {
            Target::Local => put_local(&mut self.locals, name, e),
            Target::Current => put_row(&mut self.rows, &self.current, name, e),
            Target::Locale(locale) => put_row(&mut self.rows, locale, name, e),
        }
    }

    // An assignment by `=.` or `=:`.
    fn assign(&mut self, name: Name, e: Entity, by_local: bool) -> Result<(), Refusal>
        ensures ok { OnOk result (assign by_local self.old name (entity_of e) ≡ Ok self.new) }
        ensures err { IfErr result (λ r. IsRefused (assign by_local self.old name (entity_of e)) r) }
        ensures unchanged { OnErr result (self.new ≡ self.old) }
    {
        let target = self.target(&name, by_local)?;
        Ok(self.put(&target, name.base(), e)?)
    }

    /// `=.`: a local of the running definition, or at the top level a name of the current locale. A locative is assigned in its locale.
    #[tactic(auto, using(crate::proofs::Assigned::same_current, crate::proofs::Assigned::same_levels, crate::proofs::Assigned::same_rows, crate::proofs::Assigned::same_names, crate::proofs::Assigned::same_locals))]
    pub fn set_local(&mut self, name: Name, e: Entity) -> Result<(), Refusal>
        ensures ok { OnOk result (assign true self.old name (entity_of e) ≡ Ok self.new) }
        ensures err { IfErr result (λ r. IsRefused (assign true self.old name (entity_of e)) r) }
        ensures unchanged { OnErr result (self.new ≡ self.old) }
        ensures others { (l n : List ℕ) → n ≢ name.base → map.get self.new.rows (l, n) ≡ map.get self.old.rows (l, n) }
        ensures other_locals { (n : List ℕ) → n ≢ name.base → local self.new n ≡ local self.old n }
        ensures other_levels { without_first self.new.locals ≡ without_first self.old.locals }
        ensures locale { self.new.current ≡ self.old.current }
    {
        self.assign(name, e, true)
    }

    /// `=:`: a name of the current locale, `domain error` for a local. A locative is assigned in its locale.
    #[tactic(auto, using(crate::proofs::Assigned::same_current, crate::proofs::Assigned::same_levels, crate::proofs::Assigned::same_rows, crate::proofs::Assigned::same_names, crate::proofs::Assigned::same_locals))]
    pub fn set_global(&mut self, name: Name, e: Entity) -> Result<(), Refusal>
        ensures ok { OnOk result (assign false self.old name (entity_of e) ≡ Ok self.new) }
        ensures err { IfErr result (λ r. IsRefused (assign false self.old name (entity_of e)) r) }
        ensures unchanged { OnErr result (self.new ≡ self.old) }
        ensures others { (l n : List ℕ) → n ≢ name.base → map.get self.new.rows (l, n) ≡ map.get self.old.rows (l, n) }
        ensures locals { self.new.locals ≡ self.old.locals }
        ensures locale { self.new.current ≡ self.old.current }
    {
        self.assign(name, e, false)
    }

    /// A definition begins to run, without locals.
    pub fn enter(&mut self) -> Result<(), NoMemory>
        ensures ok { OnOk result (self.new ≡ entered self.old) }
        ensures unchanged { OnErr result (self.new ≡ self.old) }
        ensures others { OnOk result (without_first self.new.locals ≡ self.old.locals) }
        ensures back { OnOk result (left self.new ≡ self.old) }
        ensures rows { self.new.rows ≡ self.old.rows }
        ensures locale { self.new.current ≡ self.old.current }
    {
        let locals = mem::replace(&mut self.locals, Vec::new(self.alloc));
        match self.outer.push(locals) {
            Ok(()) => Ok(()),
            Err(failed) => {
                self.locals = failed.value;
                Err(NoMemory)
            }
        }
    }

    /// The innermost definition ends, and its locals go. At the top level nothing happens.
    pub fn leave(&mut self)
        ensures now { self.new ≡ left self.old }
        ensures others { self.new.locals ≡ without_first self.old.locals }
        ensures back { (before : Scopes) (l : Locals) → self.old.locals ≡ l ∷ before.locals → (n : List ℕ) → local self.new n ≡ local before n }
        ensures at_top { self.old.locals ≡ [] → self.new ≡ self.old }
        ensures rows { self.new.rows ≡ self.old.rows }
        ensures locale { self.new.current ≡ self.old.current }
    {
        if let Some(locals) = self.outer.pop() {
            self.locals = locals;
        }
    }

    /// Makes a locale the current one, and hands back the one that was.
    pub fn switch_locale(&mut self, to: Text) -> Text
        ensures former { result ≡ self.old.current }
        ensures now { self.new ≡ switched self.old to }
    {
        mem::replace(&mut self.current, to)
    }
}
