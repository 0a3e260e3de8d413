// Lists of whole numbers, compared block by block.
ghost use Rattle.std.specs.Prelude.{◌≡◌, ◌≤◌, ◌<◌, ◌+◌, ◌&&◌, true, length, drop, not};
ghost use Rattle.std.specs.Cmp.Lexicographic.{pointwise};
ghost use Rattle.std.specs.Ordering.{int_eq};
ghost use Rattle.j_noun.specs.Runs.{IsRun, equal_from, all_equal_from};

// How many pairs a run has. A block is four runs, which a processor fetches side by side faster than one behind the other.
const RUN: usize = 1024;

const BLOCK: usize = 4 * RUN;

// The same places of two lists.
#[derive(Clone, Copy)]
struct Run<'a> {
    x: &'a [i64],
    y: &'a [i64],
}

// The run from a place on.
fn run_at<'a>(x: &'a [i64], y: &'a [i64], from: usize) -> Run<'a>
    requires first { from + 1024 ≤ length x.now }
    requires second { from + 1024 ≤ length y.now }
    ensures run { IsRun result }
    ensures rest { equal_from result 0 ≡ true → pointwise int_eq (drop from x.now) (drop from y.now) ≡ pointwise int_eq (drop (from + 1024) x.now) (drop (from + 1024) y.now) }
{
    Run {
        x: &x[from..from + RUN],
        y: &y[from..from + RUN],
    }
}

// Whether pair i of a run differs.
#[tactic(auto, using(j_definitions::proofs::Laws::pointwise_step))]
fn differs_at(run: Run<'_>, i: usize) -> bool
    requires run { IsRun run }
    requires place { i < 1024 }
    ensures { equal_from run.entry i ≡ (not result && equal_from run.entry (i + 1)) }
{
    run.x[i] != run.y[i]
}

// Whether a pair of the runs differs. It goes through all of them, so that a processor takes several numbers at once.
fn differ(a: Run<'_>, b: Run<'_>, c: Run<'_>, d: Run<'_>) -> bool
    requires first { IsRun a }
    requires second { IsRun b }
    requires third { IsRun c }
    requires fourth { IsRun d }
    ensures { not result ≡ all_equal_from a.entry b.entry c.entry d.entry 0 }
{
    let mut found = false;
    for i in 0..RUN {
        found |= differs_at(a, i);
        found |= differs_at(b, i);
        found |= differs_at(c, i);
        found |= differs_at(d, i);
    }
    found
}

// How many pairs in front are equal, as far as whole blocks show.
fn equal_blocks(x: &[i64], y: &[i64]) -> usize
    requires { length x.now ≡ length y.now }
    ensures within { result ≤ length x.now }
    ensures rest { pointwise int_eq x.now y.now ≡ pointwise int_eq (drop result x.now) (drop result y.now) }
{
    let count = x.len() / BLOCK;
    for k in 0..count {
        let from = k * BLOCK;
        let second = from + RUN;
        let third = second + RUN;
        let fourth = third + RUN;
        let a = run_at(x, y, from);
        let b = run_at(x, y, second);
        let c = run_at(x, y, third);
        let d = run_at(x, y, fourth);
        if differ(a, b, c, d) {
            return from;
        }
    }
    count * BLOCK
}

/// Whether the lists are equal.
pub fn wholes_match(x: &[i64], y: &[i64]) -> bool
    ensures { result ≡ pointwise int_eq x.now y.now }
{
    if x.len() != y.len() {
        return false;
    }
    let from = equal_blocks(x, y);
    x[from..] == y[from..]
}
