// The nouns of text words.
ghost use Rattle.std.specs.Prelude.{◌≡◌, length, IfOk};
ghost use Rattle.j_noun.specs.Refused.{OrWanting};
ghost use Rattle.j_definitions.specs.Limits.{limited};
ghost use Rattle.j_explicit.specs.Texts.{between_quotes, halved, characters, text};

use j_noun::{Atoms, NoMemory, Noun, Pool, Refusal, Shape};
use memchr::memchr;

/// What stands between the quotes of a text word.
fn between_quotes(word: &[u8]) -> &[u8]
    ensures { result.now ≡ between_quotes word.now }
{
    if word.len() < 2 {
        return &[];
    }
    &word[1..word.len() - 1]
}

/// The bytes of a text, of each doubled quote one.
fn halved(pool: &mut Pool, text: &[u8]) -> Result<Vec<u8>, NoMemory>
    ensures { IfOk result (λ v. v.items ≡ halved text.now) }
{
    let mut bytes = pool.bytes(text.len())?;
    let mut place: usize = 0;
    while let Some(before) = memchr(b'\'', &text[place..]) {
        let after = place + before + 1;
        if bytes.extend_from_slice(&text[place..after]).is_err() {
            return Err(NoMemory);
        }
        place = (after + 1).min(text.len());
    }
    if bytes.extend_from_slice(&text[place..]).is_err() {
        return Err(NoMemory);
    }
    Ok(bytes)
}

/// The noun of bytes: an atom or a list of characters.
#[tactic(auto, using(crate::proofs::Texts::one_atom, crate::proofs::Texts::others_list))]
fn character_noun(pool: &mut Pool, bytes: Vec<u8>) -> Result<Noun, Refusal>
    ensures { OrWanting (limited (characters bytes.items)) result }
{
    if bytes.len() == 1 {
        return Ok(Noun::character(bytes[0]));
    }
    let mut shape = Shape::new();
    shape.add(bytes.len())?;
    Noun::make(pool, shape, Atoms::Bytes(bytes))
}

/// The noun of a text word, whose quotes are the first and the last byte.
pub(crate) fn read_text(pool: &mut Pool, word: &[u8]) -> Result<Noun, Refusal>
    ensures { OrWanting (text word.now) result }
{
    let bytes = halved(pool, between_quotes(word))?;
    character_noun(pool, bytes)
}
