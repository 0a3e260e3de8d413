// A verb time after time.
ghost use Rattle.std.specs.Prelude.{◌≡◌, ◌<◌, map, pos, IfOk};
ghost use Rattle.std.specs.Option.{option_copied};
ghost use Rattle.j_definitions.specs.Array.{number};
ghost use Rattle.j_entity.specs.View.{operand_of};
ghost use Rattle.j_noun.specs.Viewed.{viewed};
ghost use Rattle.j_eval.specs.Applying.{does, nested, seen};
ghost use Rattle.j_eval.specs.Powers.{as_often, count_said, endless, once, power, times};
ghost use Rattle.j_eval.specs.Meets.{Meets, Onward};

use crate::machine::Machine;
use crate::outcome::Halt;
use j_entity::Operand;
use j_noun::{Fault, Noun, View};
use j_trains::times_fault;

// How many times numbers say.
fn first_said(numbers: &[i64]) -> u64
    ensures { result ≡ count_said (map (λ n. number n) numbers.now) }
{
    match numbers {
        [n, ..] => u64::try_from(*n).unwrap_or(0),
        [] => 0,
    }
}

fn first_bit(bits: &[u8]) -> u64
    ensures { result ≡ count_said (map (λ b. number (pos b)) bits.now) }
{
    match bits {
        [b, ..] => u64::from(*b),
        [] => 0,
    }
}

// How many times a noun says.
#[tactic(auto, using(crate::proofs::Repeats::no_byte_said, crate::proofs::Repeats::no_box_said))]
fn count_said(atoms: View<'_>) -> u64
    ensures { result ≡ count_said (viewed atoms.entry) }
{
    match atoms {
        View::Wholes(numbers) => first_said(numbers),
        View::Bits(bits) => first_bit(bits),
        View::Bytes(_) | View::Boxes(_) => 0,
    }
}

impl Machine {
    // A verb once.
    #[cycle(eval)]
    fn once(&mut self, room: u32, u: &Operand, x: Option<&Noun>, y: &Noun) -> Result<Noun, Halt>
        ensures gives { Meets result self.new (once (does (nested room) (operand_of u.now)) (option_copied x.entry) y.now self.old.state) }
        ensures onward { Onward self.old self.new }
        ensures counts { IfOk result (λ _. self.old.state.steps < self.new.state.steps) }
    {
        self.tick()?;
        self.does(room, u, x, y)
    }

    // A verb so many times.
    #[cycle(eval)]
    fn times(
        &mut self,
        room: u32,
        count: u64,
        u: &Operand,
        x: Option<&Noun>,
        y: &Noun,
    ) -> Result<Noun, Halt>
        ensures gives { Meets result self.new (times count (does (nested room) (operand_of u.now)) (option_copied x.entry) y.now self.old.state) }
        ensures onward { Onward self.old self.new }
    {
        let mut last = y.duplicate()?;
        for _ in 0..count {
            last = self.once(room, u, x, &last)?;
        }
        Ok(last)
    }

    // A verb until what it gives matches what it was given.
    #[cycle(eval)]
    fn endless(&mut self, room: u32, u: &Operand, x: Option<&Noun>, y: &Noun) -> Result<Noun, Halt>
        ensures gives { Meets result self.new (endless (does (nested room) (operand_of u.now)) (option_copied x.entry) y.now self.old.state) }
        ensures onward { Onward self.old self.new }
    {
        let mut last = y.duplicate()?;
        loop {
            let next = self.once(room, u, x, &last)?;
            if next.matches(&last) {
                return Ok(next);
            }
            last = next;
        }
    }

    // A verb as many times as a noun says.
    #[cycle(eval)]
    fn as_often(
        &mut self,
        room: u32,
        n: &Noun,
        u: &Operand,
        x: Option<&Noun>,
        y: &Noun,
    ) -> Result<Noun, Halt>
        ensures gives { Meets result self.new (as_often n.now (does (nested room) (operand_of u.now)) (option_copied x.entry) y.now self.old.state) }
        ensures onward { Onward self.old self.new }
    {
        match times_fault(n) {
            Some(fault) => Err(Halt::Failed(fault)),
            None => self.times(room, count_said(n.view()), u, x, y),
        }
    }

    // `u^:n`, `u^:_` and `u^:v`
    #[cycle(eval)]
    #[tactic(auto, unfolding(crate::specs::Applying::apply))]
    pub(crate) fn power(
        &mut self,
        room: u32,
        u: &Operand,
        v: &Operand,
        x: Option<&Noun>,
        y: &Noun,
    ) -> Result<Noun, Halt>
        ensures gives { Meets result self.new (power (seen (nested room) (operand_of u.now)) (seen (nested room) (operand_of v.now)) (option_copied x.entry) y.now self.old.state) }
        ensures onward { Onward self.old self.new }
    {
        match v {
            Operand::Noun(n) => self.as_often(room, n, u, x, y),
            Operand::Ranks(_) => self.endless(room, u, x, y),
            Operand::Verb(v) => {
                let n = self.apply(room, v, x, y)?;
                let answer = self.as_often(room, &n, u, x, y);
                drop(n);
                answer
            }
        }
    }
}
