ghost use Rattle.cases.specs.PlateCases.{PlateCasesHold};

/// Holds the theorem that each row of a table of small property files holds: sizes, beginnings, what is owed, spans, a
/// refusal and a line.
pub fn plate_cases_stand()
    ensures { PlateCasesHold }
{}
