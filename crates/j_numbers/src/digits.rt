// How numbers are printed.
ghost use Rattle.std.specs.Prelude.{◌≡◌, ◌≤◌, ◌+◌, [], ◌∷◌, ◌++◌, length, Bool, Ok as OkValue};
ghost use Rattle.j_noun.specs.declared.ranks.RankPart.TheVariants.{Number};
ghost use Rattle.j_numbers.specs.Numbers.{literal};
ghost use Rattle.j_numbers.specs.Printed.{printed};

use itoa::Buffer;
use std::marker::Model;

const MOST_DIGITS: usize = 20;

/// The digits of one number, kept inline.
#[derive(Drop)]
pub struct Digits {
    bytes: [u8; MOST_DIGITS],
    count: usize,
}

impl Model for Digits {
    ghost use Rattle.std.specs.Prelude.{ℕ, List, take, ◌≤◌};

    ghost Value = { List ℕ };

    ghost view = { λ d. take d.count d.bytes };

    ghost invariant = { λ d. d.count ≤ 20 };
}

impl Digits {
    pub fn new() -> Digits
        ensures { result ≡ [] }
    {
        Digits {
            bytes: [0; MOST_DIGITS],
            count: 0,
        }
    }

    pub fn text(&self) -> &[u8]
        ensures text { result.now ≡ self.now }
        ensures few { length self.now ≤ 20 }
    {
        &self.bytes[..self.count]
    }

    fn append(&mut self, text: &[u8])
        requires { length self.old + length text.now ≤ 20 }
        ensures { self.new ≡ self.old ++ text.now }
    {
        let end = self.count + text.len();
        self.bytes[self.count..end].copy_from_slice(text);
        self.count = end;
    }
}

/// Writes the digits of a number in place of what stands there.
#[tactic(auto, using(crate::proofs::Printed::few_digits))]
pub fn print(n: i64, into: &mut Digits)
    ensures text { into.new ≡ printed n }
    ensures reads_back { (infinite : Bool) → literal into.new infinite ≡ OkValue (Number n ∷ []) }
{
    let mut buffer = Buffer::new();
    let digits = buffer.format(n.unsigned_abs()).as_bytes();
    into.count = 0;
    if n < 0 {
        into.append(b"_");
    }
    into.append(digits);
}
