// Laws of the meaning of sentences.
ghost use Rattle.j_eval.specs.Laws.{BoundIsEnough};

/// Laws: each word is moved once and goes in a row once, so the bound of a sentence is never met.
#[tactic(auto, using(crate::proofs::Bound::bound_is_enough))]
pub fn parsing_laws()
    ensures bound { BoundIsEnough }
{}
