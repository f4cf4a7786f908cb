// Signed dimensions: 2v stands for the variable v, and 2v + 1 for minus v.
ghost use Rattle.std.specs.Prelude.{◌≡◌};
ghost use Rattle.oct_def.specs.Matrix.{opposite as opposite_of};

/// The other signed dimension of the same variable.
pub fn opposite(i: usize) -> usize
    ensures { result ≡ opposite_of i }
{
    i ^ 1
}
