ghost use Rattle.synthesis.specs.Laws.{RowsAreLawful};
ghost use Rattle.synthesis.specs.Own.{TablesSaySo};
ghost use Rattle.synthesis.specs.Ruled.{FilledTablesAreRules};

/// Holds the theorem that a filled table says of its own rows what they owe, their spans and their leads.
pub fn tables_say_so()
    ensures { TablesSaySo }
{}

/// Holds the theorem that the rows of a filled table keep the laws.
pub fn rows_are_lawful()
    ensures { RowsAreLawful }
{}

/// Holds the theorem that a filled table is a lawful rule, which admits exactly the lists that lead to a live place.
pub fn filled_tables_are_rules()
    ensures { FilledTablesAreRules }
{}
