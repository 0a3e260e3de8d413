// The names of a text, and an assignment to several names.
ghost use Rattle.std.specs.Prelude.{◌≡◌, ◌≢◌, ◌<◌, ◌++◌, ◌∷◌, [], length, IfOk, option_map};
ghost use Rattle.j_definitions.specs.Array.{tally};
ghost use Rattle.j_entity.specs.View.{entity_of};
ghost use Rattle.j_numbers.specs.Numbers.{parts};
ghost use Rattle.j_eval.specs.Meets.{Kept, Meets, MeetsAs, NoMemoryOr, Onward, IsPartAs};
ghost use Rattle.j_eval.specs.Names.{with_names};
ghost use Rattle.j_eval.specs.Several.{names_of, text_names, targets_of, item_for, put_items, assign_items, set_names, set_text};
ghost use Rattle.j_verbs.specs.State.{or_fault, then_do};

use crate::machine::Machine;
use crate::outcome::Halt;
use j_entity::Entity;
use j_leaves::Name;
use j_names::{Target, characters};
use j_noun::{Fault, NoMemory, Noun};
use j_numbers::first_part;
use j_rank::cell_of;
use j_struct_verbs::opened;
use std::alloc::Global;

// Names behind others.
fn push_name(names: &mut Vec<Name>, name: Name) -> Result<(), NoMemory>
    ensures { IfOk result (λ _. names.new.items ≡ names.old.items ++ name ∷ []) }
{
    match names.push(name) {
        Ok(()) => Ok(()),
        Err(_) => Err(NoMemory),
    }
}

// The names between the blanks of a text, where each part is one.
#[tactic(auto, using(crate::proofs::SeveralNames::all_named, crate::proofs::SeveralNames::one_more, crate::proofs::SeveralNames::no_name, crate::proofs::SeveralNames::none_more))]
fn names_in(alloc: Global, text: &[u8]) -> Result<Option<Vec<Name>>, NoMemory>
    ensures { IfOk result (λ o. option_map (λ v. v.items) o ≡ names_of (parts text.now)) }
{
    let mut names = Vec::new(alloc);
    let mut rest = text;
    while let Some((part, after)) = first_part(rest) {
        let Some(name) = Name::read(alloc, part)? else {
            return Ok(None);
        };
        push_name(&mut names, name)?;
        rest = after;
    }
    Ok(Some(names))
}

// The names of a character atom or list, at least one.
fn text_names(alloc: Global, y: &Noun) -> Result<Vec<Name>, Halt>
    ensures { IsPartAs (λ ns. ns.items) (text_names y.now) result }
{
    let Some(text) = characters(y) else {
        return Err(Halt::Failed(Fault::Domain));
    };
    match names_in(alloc, text)? {
        Some(names) if !names.is_empty() => Ok(names),
        Some(_) | None => Err(Halt::Failed(Fault::Domain)),
    }
}

impl Machine {
    // What the name at a place is given: an atom goes to all, and else each gets its item. A box atom is opened.
    fn item_for(&mut self, y: &Noun, k: usize) -> Result<Noun, Halt>
        requires { y.now.shape ≢ [] → k < tally y.now.shape }
        ensures value { NoMemoryOr result (λ n. n ≡ item_for y.now.shape y.now k) }
        ensures kept { Kept self.old self.new }
    {
        if y.axes().is_empty() {
            return Ok(opened(&mut self.pool, y)?);
        }
        let item = cell_of(&mut self.pool, y, 1, k)?;
        if item.axes().is_empty() {
            Ok(opened(&mut self.pool, &item)?)
        } else {
            Ok(item)
        }
    }

    // Where each name is put, of which the leftmost fault decides.
    fn targets(&self, local: bool, names: &[Name]) -> Result<Vec<Target>, Halt>
        ensures gives { MeetsAs (λ ts. ts.items) result self.now (or_fault (targets_of local self.now.state.names names.now) self.now.state) }
        ensures long { IfOk result (λ ts. length ts.items ≡ length names.now) }
    {
        let mut targets = Vec::new(self.alloc());
        for name in names {
            let target = self.target(name, local)?;
            let Ok(()) = targets.push(target) else {
                return Err(Halt::NoMemory);
            };
        }
        Ok(targets)
    }

    // Each name is given its item at its target.
    fn put_items(&mut self, names: &[Name], targets: &[Target], y: &Noun) -> Result<(), Halt>
        requires targets { length targets.now ≡ length names.now }
        requires items { y.now.shape ≢ [] → tally y.now.shape ≡ length names.now }
        ensures gives { NoMemoryOr result (λ _. self.new.state ≡ record self.old.state { names = put_items self.old.state.names names.now targets.now y.now 0 }) }
        ensures onward { Onward self.old self.new }
    {
        for k in 0..names.len() {
            let item = self.item_for(y, k)?;
            self.put(&targets[k], names[k].base(), Entity::Noun(item))?;
        }
        Ok(())
    }

    // Several names are given the items of a noun, after all is checked.
    fn set_items(&mut self, local: bool, names: &[Name], y: &Noun) -> Result<(), Halt>
        ensures gives { Meets result self.new (then_do (or_fault (assign_items local self.old.state.names names.now y.now) self.old.state) with_names) }
        ensures onward { Onward self.old self.new }
    {
        if !y.axes().is_empty() && y.tally() != names.len() {
            return Err(Halt::Failed(Fault::Length));
        }
        let targets = self.targets(local, names)?;
        self.put_items(names, &targets, y)
    }

    // One name is given the whole entity, and several the items of a noun.
    fn set_names(&mut self, local: bool, names: &[Name], e: Entity) -> Result<(), Halt>
        requires { names.now ≢ [] }
        ensures gives { Meets result self.new (set_names local (entity_of e) names.now self.old.state) }
        ensures onward { Onward self.old self.new }
    {
        match names {
            [name] => self.set_name(local, name.duplicate()?, e),
            _ => match &e {
                Entity::Noun(y) => self.set_items(local, names, y),
                Entity::Verb(_) | Entity::Adverb(_) | Entity::Conjunction(_) => {
                    Err(Halt::Failed(Fault::Domain))
                }
            },
        }
    }

    // The names of a text are given an entity.
    pub(crate) fn set_text(&mut self, local: bool, y: &Noun, e: Entity) -> Result<(), Halt>
        ensures gives { Meets result self.new (set_text local y.now (entity_of e) self.old.state) }
        ensures onward { Onward self.old self.new }
    {
        let names = text_names(self.alloc(), y)?;
        self.set_names(local, &names, e)
    }
}
