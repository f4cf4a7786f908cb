//! The values of the points, in a list.
ghost use Rattle.std.specs.Prelude.{◌≡◌, ◌<◌, length, map};
ghost use Rattle.equations.specs.Equations.{value_in};

use domain::Domain;

/// The value that is read at a point.
pub(crate) fn read<D: Domain>(values: &[D::V], p: u32) -> &D::V
    requires { p < length values.now }
    ensures { D.meaning result.now ≡ value_in (map D.meaning values.now) p }
{
    &values[p as usize]
}
