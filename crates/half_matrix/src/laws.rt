// The laws of the definitions, as calls whose contracts are the laws.
ghost use Rattle.half_matrix.specs.Lending.{RowIsWritten};

/// What is written where a row is lent stands in its row and at the twins, and nothing else changes.
pub fn law_rows()
    ensures { RowIsWritten }
{}
