// Labels of variables: two variables get one label exactly where they are to share a block.
ghost use Rattle.std.specs.Prelude.{◌≡◌};
ghost use Rattle.block_partition.specs.Relabelling.{part_label as label_of_part, own_label as label_of_own};

/// What tells the blocks of a changed partition apart.
#[derive(Clone, Copy, PartialEq, Eq, PartialOrd, Ord)]
pub(crate) enum Label {
    /// The block that a merge makes.
    Merged,
    /// The block with this number, which stays whole.
    Whole(u32),
    /// The part of the block with the first number whose members have the second one: a label of a split, or the number of
    /// a block of another partition.
    Part(u32, u32),
}

/// The label of a member of block b that has its label of a split.
pub(crate) fn part_label(b: u32, label: u32) -> Option<Label>
    ensures { result ≡ label_of_part b label }
{
    if label == u32::MAX {
        None
    } else {
        Some(Label::Part(b, label))
    }
}

/// The label of a variable that has a number of its own choice, or none.
pub(crate) fn own_label(number: Option<u32>) -> Option<Label>
    ensures { result ≡ label_of_own number }
{
    match number {
        Some(k) => Some(Label::Whole(k)),
        None => None,
    }
}
