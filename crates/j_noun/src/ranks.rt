// Ranks and lists of ranks.
ghost use Rattle.std.specs.Prelude.{◌≡◌, IsTrue, IfOk};
ghost use Rattle.std.specs.List.{list_any};
ghost use Rattle.j_noun.specs.Ranks.{is_infinite};

use j_pool::{NoMemory, Pool};
use std::marker::Model;
use std::rc::Rc;

/// A rank: a number, which is negative where axes are counted from the other end, or infinite.
#[derive(Clone, Copy, PartialEq, Eq, Debug)]
pub enum Rank {
    Number(i64),
    Infinite,
}

/// A part of a number word: a number, or `_`, which is infinite.
#[derive(Clone, Copy, PartialEq, Eq, Debug)]
pub enum RankPart {
    Number(i64),
    Infinite,
}

/// Parts of which at least one is infinite, in a shared buffer.
#[derive(Drop)]
pub struct RankList {
    parts: Rc<Vec<RankPart>>,
}

impl Model for RankList {
    ghost use Rattle.std.specs.Prelude.{List, IsTrue};
    ghost use Rattle.std.specs.List.{list_any};
    ghost use Rattle.j_noun.specs.declared.ranks.RankPart.{RankPart};
    ghost use Rattle.j_noun.specs.Ranks.{is_infinite};

    ghost Value = { List RankPart };

    ghost use Rattle.std.specs.Coded.{coded_list};
    ghost use Rattle.j_noun.specs.contracts.ranks.RankPart as rank_part;

    ghost coded = { coded_list rank_part.the_row.coded };

    ghost view = { λ r. r.parts.value.items };

    ghost invariant = { λ r. IsTrue (list_any is_infinite r.parts.value.items) };
}

impl RankList {
    pub fn make(pool: &Pool, parts: Vec<RankPart>) -> Result<RankList, NoMemory>
        requires { IsTrue (list_any is_infinite parts.items) }
        ensures { IfOk result (λ r. r ≡ parts.items) }
    {
        match Rc::new(pool.alloc(), parts) {
            Ok(parts) => Ok(RankList { parts }),
            Err(_) => Err(NoMemory),
        }
    }

    pub fn parts(&self) -> &[RankPart]
        ensures parts { result.now ≡ self.now }
        ensures infinite { IsTrue (list_any is_infinite self.now) }
    {
        &self.parts
    }

    /// An equal list, which shares the buffer.
    pub fn duplicate(&self) -> Result<RankList, NoMemory>
        ensures { IfOk result (λ r. r ≡ self.now) }
    {
        match self.parts.clone() {
            Ok(parts) => Ok(RankList { parts }),
            Err(_) => Err(NoMemory),
        }
    }
}
