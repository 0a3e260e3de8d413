// The words that are nouns.
ghost use Rattle.std.specs.Prelude.{◌≡◌, [], ◌∷◌, Ok, IfOk};
ghost use Rattle.std.specs.List.{range_with_len};
ghost use Rattle.j_noun.specs.Refused.{OrWanting};
ghost use Rattle.j_explicit.specs.NounWords.{ace, alphabet};

use j_noun::{Atoms, NoMemory, Noun, Pool, Refusal, Shape, boxes};

// The bytes in order.
#[tactic(auto, using(crate::proofs::NounWords::byte_more))]
fn all_bytes(pool: &mut Pool) -> Result<Vec<u8>, NoMemory>
    ensures { IfOk result (λ v. v.items ≡ range_with_len 0 256) }
{
    let mut bytes = pool.bytes(256)?;
    for byte in 0..=u8::MAX {
        let Ok(()) = bytes.push(byte) else {
            return Err(NoMemory);
        };
    }
    Ok(bytes)
}

fn list_of(count: usize) -> Shape
    ensures { result ≡ count ∷ [] }
{
    let mut shape = Shape::new();
    match shape.add(count) {
        Ok(()) => shape,
        Err(_) => unreachable!(),
    }
}

/// `a.`
#[tactic(auto, using(crate::proofs::NounWords::alphabet_made))]
pub(crate) fn read_alphabet(pool: &mut Pool) -> Result<Noun, Refusal>
    ensures { OrWanting (Ok alphabet) result }
{
    let bytes = all_bytes(pool)?;
    Noun::make(pool, list_of(256), Atoms::Bytes(bytes))
}

/// `a:`
pub(crate) fn read_ace(pool: &mut Pool) -> Result<Noun, Refusal>
    ensures { OrWanting (Ok ace) result }
{
    let none = pool.ints(0)?;
    let list = Noun::make(pool, list_of(0), Atoms::Wholes(none))?;
    let mut held = boxes(pool, 1)?;
    let Ok(()) = held.push(list) else {
        return Err(Refusal::NoMemory);
    };
    Noun::make(pool, Shape::new(), Atoms::Boxes(held))
}
