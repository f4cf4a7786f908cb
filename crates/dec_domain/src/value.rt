// Values in blocks over as many variables as a domain's values may have.
ghost use Rattle.std.specs.Prelude.{◌≡◌, ◌≤◌};
ghost use Rattle.dec_oct.specs.Value.{octagon};

use dec_oct::DecOct;
use std::marker::Model;

/// A value in blocks over at most 256 variables.
#[derive(Drop)]
pub struct DecValue {
    pub(crate) blocks: DecOct,
}

impl Model for DecValue {
    ghost use Rattle.oct_def.specs.Octagon.{Octagon};
    ghost use Rattle.dec_oct.specs.Value.{octagon};
    ghost use Rattle.dec_domain.specs.Value.{IsKept};

    ghost Value = { Octagon };

    ghost view = { λ v. octagon v.blocks };

    ghost invariant = { λ v. IsKept (octagon v.blocks) };
}

/// The value of blocks.
pub(crate) fn kept(blocks: DecOct) -> DecValue
    requires small { blocks.dims ≤ 256 }
    ensures { result ≡ octagon blocks }
{
    blocks.known();
    DecValue { blocks }
}
