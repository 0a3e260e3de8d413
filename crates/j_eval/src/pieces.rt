// Verbs on the pieces of a noun.
ghost use Rattle.std.specs.Prelude.{◌≡◌, pos, map};
ghost use Rattle.std.specs.Option.{option_copied};
ghost use Rattle.j_definitions.specs.Array.{number};
ghost use Rattle.j_entity.specs.View.{operand_of};
ghost use Rattle.j_eval.specs.Applying.{does, nested, seen};
ghost use Rattle.j_eval.specs.Meets.{Meets, Onward};
ghost use Rattle.j_noun.specs.Viewed.{viewed};
ghost use Rattle.j_verbs.specs.State.{or_fault};
ghost use Rattle.j_eval.specs.Pieces.{cut, cut_pieces, form_of, form_said, oblique, oblique_pieces, on_source, operand_form, prefix, prefix_pieces, suffix, suffix_pieces};
ghost use Rattle.j_eval.specs.Sources.{HasCells, source_of};

use crate::by_rank::EachCell;
use crate::machine::Machine;
use crate::outcome::Halt;
use crate::sources::{CellsFrom, cell_count};
use j_entity::Operand;
use j_noun::{Fault, Noun, View};
use j_scans::{Pieces, infixes, outfixes, prefixes, suffixes};
use j_search::CutForm;

// Most pieces that a verb is applied to.
const MOST_PIECES: usize = 4_194_304;

// Prefixes, or infixes of as many items as the left argument says.
fn prefix_pieces<'a>(x: Option<&Noun>, y: &'a Noun) -> Result<Pieces<'a>, Fault>
    ensures { result ≡ prefix_pieces (option_copied x.entry) y.now }
{
    match x {
        None => Ok(prefixes(y)),
        Some(x) if x.axes().is_empty() => infixes(x, y),
        Some(_) => Err(Fault::Rank),
    }
}

// Suffixes, or outfixes.
fn suffix_pieces<'a>(x: Option<&Noun>, y: &'a Noun) -> Result<Pieces<'a>, Fault>
    ensures { result ≡ suffix_pieces (option_copied x.entry) y.now }
{
    match x {
        None => Ok(suffixes(y)),
        Some(x) if x.axes().is_empty() => outfixes(x, y),
        Some(_) => Err(Fault::Rank),
    }
}

// The cut that a number says.
fn form_of(n: i64) -> Option<CutForm>
    ensures { result ≡ form_of n }
{
    match n {
        1 => Some(CutForm::Begin),
        -1 => Some(CutForm::BeginDrop),
        2 => Some(CutForm::End),
        -2 => Some(CutForm::EndDrop),
        _ => None,
    }
}

// The cut that the first number says.
fn first_cut_form(numbers: &[i64]) -> Option<CutForm>
    ensures { result ≡ form_said (map (λ n. number n) numbers.now) }
{
    match numbers {
        [n, ..] => form_of(*n),
        [] => None,
    }
}

// The cut that the first bit says.
fn first_bit_form(bits: &[u8]) -> Option<CutForm>
    ensures { result ≡ form_said (map (λ b. number (pos b)) bits.now) }
{
    match bits {
        [b, ..] => form_of(i64::from(*b)),
        [] => None,
    }
}

// The cut that the first atom says.
#[tactic(auto, using(crate::proofs::Forms::no_byte_form, crate::proofs::Forms::no_box_form))]
fn form_said(atoms: View<'_>) -> Option<CutForm>
    ensures { result ≡ form_said (viewed atoms.entry) }
{
    match atoms {
        View::Wholes(numbers) => first_cut_form(numbers),
        View::Bits(bits) => first_bit_form(bits),
        View::Bytes(_) | View::Boxes(_) => None,
    }
}

// The cut that the right operand says.
fn operand_form(v: &Operand) -> Option<CutForm>
    ensures { result ≡ operand_form (operand_of v.now) }
{
    match v {
        Operand::Noun(n) => form_said(n.view()),
        Operand::Verb(_) | Operand::Ranks(_) => None,
    }
}

// What needs memory, apart from the functions that call each other.
impl Machine {
    // Oblique lines, or the items of each key.
    fn oblique_pieces<'a>(
        &mut self,
        x: Option<&Noun>,
        y: &'a Noun,
    ) -> Result<j_cuts_key::Pieces<'a>, Halt>
        ensures gives { Meets result self.new (or_fault (oblique_pieces (option_copied x.entry) y.now) self.old.state) }
        ensures onward { Onward self.old self.new }
    {
        match x {
            Some(x) => Ok(j_cuts_key::keyed(&mut self.pool, x, y)?),
            None => Ok(j_cuts_key::obliques(y)),
        }
    }

    // The pieces between frets that match an item, or that are marked.
    fn cut_pieces<'a>(
        &mut self,
        form: CutForm,
        x: Option<&Noun>,
        y: &'a Noun,
    ) -> Result<j_cuts_key::Pieces<'a>, Halt>
        ensures gives { Meets result self.new (or_fault (cut_pieces form (option_copied x.entry) y.now) self.old.state) }
        ensures onward { Onward self.old self.new }
    {
        match x {
            None => Ok(j_cuts_key::cuts(&mut self.pool, form, y)?),
            Some(x) if x.axes().len() <= 1 => {
                Ok(j_cuts_key::cuts_by(&mut self.pool, form, x, y)?)
            }
            Some(_) => Err(Halt::Failed(Fault::Rank)),
        }
    }
}

impl Machine {
    // A verb on each piece, where there aren't too many.
    #[cycle(eval)]
    fn on_pieces(&mut self, room: u32, u: &Operand, pieces: CellsFrom<'_>) -> Result<Noun, Halt>
        requires { HasCells pieces }
        ensures gives { Meets result self.new (on_source (does (nested room) (operand_of u.now)) (source_of pieces.entry) self.old.state) }
        ensures onward { Onward self.old self.new }
    {
        if cell_count(pieces) > MOST_PIECES {
            return Err(Halt::Failed(Fault::Limit));
        }
        self.by_source(room, EachCell::Does(u), pieces)
    }

    // `u\`
    #[cycle(eval)]
    #[tactic(auto, using(crate::proofs::Taken::pieces_ok, crate::proofs::Taken::pieces_err))]
    pub(crate) fn prefix(
        &mut self,
        room: u32,
        u: &Operand,
        x: Option<&Noun>,
        y: &Noun,
    ) -> Result<Noun, Halt>
        ensures gives { Meets result self.new (prefix (seen (nested room) (operand_of u.now)) (option_copied x.entry) y.now self.old.state) }
        ensures onward { Onward self.old self.new }
    {
        match prefix_pieces(x, y) {
            Ok(pieces) => self.on_pieces(room, u, CellsFrom::Runs(&pieces)),
            Err(fault) => Err(Halt::Failed(fault)),
        }
    }

    // `u\.`
    #[cycle(eval)]
    #[tactic(auto, using(crate::proofs::Taken::pieces_ok, crate::proofs::Taken::pieces_err))]
    pub(crate) fn suffix(
        &mut self,
        room: u32,
        u: &Operand,
        x: Option<&Noun>,
        y: &Noun,
    ) -> Result<Noun, Halt>
        ensures gives { Meets result self.new (suffix (seen (nested room) (operand_of u.now)) (option_copied x.entry) y.now self.old.state) }
        ensures onward { Onward self.old self.new }
    {
        match suffix_pieces(x, y) {
            Ok(pieces) => self.on_pieces(room, u, CellsFrom::Runs(&pieces)),
            Err(fault) => Err(Halt::Failed(fault)),
        }
    }

    // `u/.`
    #[cycle(eval)]
    pub(crate) fn oblique(
        &mut self,
        room: u32,
        u: &Operand,
        x: Option<&Noun>,
        y: &Noun,
    ) -> Result<Noun, Halt>
        ensures gives { Meets result self.new (oblique (seen (nested room) (operand_of u.now)) (option_copied x.entry) y.now self.old.state) }
        ensures onward { Onward self.old self.new }
    {
        let pieces = self.oblique_pieces(x, y)?;
        let answer = self.on_pieces(room, u, CellsFrom::Groups(&pieces));
        drop(pieces);
        answer
    }

    // `u;.n`
    #[cycle(eval)]
    pub(crate) fn cut(
        &mut self,
        room: u32,
        u: &Operand,
        v: &Operand,
        x: Option<&Noun>,
        y: &Noun,
    ) -> Result<Noun, Halt>
        ensures gives { Meets result self.new (cut (seen (nested room) (operand_of u.now)) (seen (nested room) (operand_of v.now)) (option_copied x.entry) y.now self.old.state) }
        ensures onward { Onward self.old self.new }
    {
        let Some(form) = operand_form(v) else {
            return Err(Halt::Failed(Fault::Domain));
        };
        let pieces = self.cut_pieces(form, x, y)?;
        let answer = self.on_pieces(room, u, CellsFrom::Groups(&pieces));
        drop(pieces);
        answer
    }
}
