// Residues of two numbers.
ghost use Rattle.std.specs.Prelude.{◌≡◌};
ghost use Rattle.j_kernels.specs.Scalars.{residue};

/// What is left of y after all multiples of x, with the sign of x.
pub fn residue(x: i64, y: i64) -> i64
    ensures { result ≡ residue x y }
{
    if x == 0 {
        return y;
    }
    if x > 0 {
        return y.rem_euclid(x);
    }
    if x == -1 {
        return 0;
    }
    let rest = y.rem_euclid(x);
    if rest == 0 { 0 } else { rest + x }
}
