// The law of partitions, as a call whose contract is the law: it takes nothing and does nothing.
ghost use Rattle.block_partition.specs.Partition.{PartitionIsUnique};

/// A partition in order is known by which variables share a block, so clauses that say this say the lists.
pub fn law_unique()
    ensures { PartitionIsUnique }
{}
