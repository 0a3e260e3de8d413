// Names.
ghost use Rattle.std.specs.Prelude.{◌≡◌, ◌↔◌, length, IfOk, IsTrue};
ghost use Rattle.j_words.specs.NameForms.{EndsWithin};
ghost use Rattle.j_leaves.specs.Names.{name_of, parted, IsName};

use j_noun::NoMemory;
use j_words::{NameForm, name_form};
use std::alloc::Global;
use std::marker::Model;
use std::rc::Rc;

/// A list of bytes. One that is a part of a name is shared.
#[derive(Drop)]
pub struct Text {
    held: Held,
}

#[derive(Drop)]
enum Held {
    Own(Vec<u8>),
    Shared(Rc<Vec<u8>>),
}

impl Model for Text {
    ghost use Rattle.std.specs.Prelude.{List, ℕ};

    ghost Value = { List ℕ };

    ghost use Rattle.j_leaves.specs.Texts.{bytes_held};

    ghost view = { λ t. bytes_held t.held };
}

impl Text {
    pub fn make(bytes: Vec<u8>) -> Text
        ensures { result ≡ bytes.items }
    {
        Text {
            held: Held::Own(bytes),
        }
    }

    // A copy of bytes that its duplicates share.
    fn shared(alloc: Global, bytes: &[u8]) -> Result<Text, NoMemory>
        ensures { IfOk result (λ t. t ≡ bytes.now) }
    {
        let Ok(bytes) = Vec::from_slice(alloc, bytes) else {
            return Err(NoMemory);
        };
        match Rc::new(alloc, bytes) {
            Ok(bytes) => Ok(Text {
                held: Held::Shared(bytes),
            }),
            Err(_) => Err(NoMemory),
        }
    }

    pub fn bytes(&self) -> &[u8]
        ensures { result.now ≡ self.now }
    {
        match &self.held {
            Held::Own(bytes) => bytes,
            Held::Shared(bytes) => bytes,
        }
    }

    /// An equal text, which shares the bytes where they are shared and copies them where they aren't.
    pub fn duplicate(&self) -> Result<Text, NoMemory>
        ensures { IfOk result (λ t. t ≡ self.now) }
    {
        match &self.held {
            Held::Own(bytes) => match bytes.clone() {
                Ok(bytes) => Ok(Text::make(bytes)),
                Err(_) => Err(NoMemory),
            },
            Held::Shared(bytes) => match bytes.clone() {
                Ok(bytes) => Ok(Text {
                    held: Held::Shared(bytes),
                }),
                Err(_) => Err(NoMemory),
            },
        }
    }

    pub fn matches(&self, other: &Text) -> bool
        ensures { IsTrue result ↔ (self.now ≡ other.now) }
    {
        self.bytes() == other.bytes()
    }
}

/// Where a name is looked up: as a simple name, in a locale, or in the locale that a name holds.
#[derive(Drop)]
pub enum Place {
    Here,
    Locale(Text),
    Object(Text),
}

impl Place {
    /// An equal place, whose text is duplicated.
    pub fn duplicate(&self) -> Result<Place, NoMemory>
        ensures { IfOk result (λ p. p ≡ self.now) }
    {
        match self {
            Place::Here => Ok(Place::Here),
            Place::Locale(locale) => Ok(Place::Locale(locale.duplicate()?)),
            Place::Object(object) => Ok(Place::Object(object.duplicate()?)),
        }
    }

    pub fn matches(&self, other: &Place) -> bool
        ensures { IsTrue result ↔ (self.now ≡ other.now) }
    {
        match (self, other) {
            (Place::Here, Place::Here) => true,
            (Place::Locale(locale), Place::Locale(same)) => locale.matches(same),
            (Place::Object(object), Place::Object(same)) => object.matches(same),
            _ => false,
        }
    }
}

/// A name, which is simple or a locative.
#[derive(Drop)]
pub struct Name {
    base: Text,
    place: Place,
}

impl Model for Name {
    ghost use Rattle.j_leaves.specs.Names.{NameParts, IsName};

    ghost Value = { NameParts };

    ghost view = { λ n. record { base = n.base; place = n.place } };

    ghost invariant = { λ n. IsName (record { base = n.base; place = n.place }) };
}

/// The parts of bytes that are a name of that form.
fn parts(alloc: Global, spelling: &[u8], form: NameForm) -> Result<(Text, Place), NoMemory>
    requires { EndsWithin (length spelling.now) form }
    ensures { IfOk result (λ p. record { base = p.0; place = p.1 } ≡ parted spelling.now form) }
{
    match form {
        NameForm::Simple => Ok((Text::shared(alloc, spelling)?, Place::Here)),
        NameForm::Direct(n) => {
            let base = Text::shared(alloc, &spelling[..n])?;
            let front = &spelling[..spelling.len() - 1];
            Ok((base, Place::Locale(Text::shared(alloc, &front[n + 1..])?)))
        }
        NameForm::Object(n) => {
            let base = Text::shared(alloc, &spelling[..n])?;
            Ok((
                base,
                Place::Object(Text::shared(alloc, &spelling[n + 2..])?),
            ))
        }
    }
}

impl Name {
    /// The name that bytes are, or none where they aren't a name.
    #[tactic(auto, using(crate::proofs::Names::name_read, crate::proofs::Names::none_read))]
    pub fn read(alloc: Global, spelling: &[u8]) -> Result<Option<Name>, NoMemory>
        ensures { IfOk result (λ n. n ≡ name_of spelling.now) }
    {
        let Some(form) = name_form(spelling) else {
            return Ok(None);
        };
        let (base, place) = parts(alloc, spelling, form)?;
        Ok(Some(Name { base, place }))
    }

    pub fn base(&self) -> &Text
        ensures value { result.now ≡ self.now.base }
        ensures name { IsName self.now }
    {
        &self.base
    }

    pub fn place(&self) -> &Place
        ensures value { result.now ≡ self.now.place }
        ensures name { IsName self.now }
    {
        &self.place
    }

    /// An equal name, which shares the texts.
    pub fn duplicate(&self) -> Result<Name, NoMemory>
        ensures { IfOk result (λ n. n ≡ self.now) }
    {
        let base = self.base.duplicate()?;
        let place = self.place.duplicate()?;
        Ok(Name { base, place })
    }

    pub fn matches(&self, other: &Name) -> bool
        ensures { IsTrue result ↔ (self.now ≡ other.now) }
    {
        self.base.matches(&other.base) && self.place.matches(&other.place)
    }
}
