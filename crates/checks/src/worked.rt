// The worked cases that are proved.
ghost use Rattle.checks.specs.Worked.{WorkedCases};

// Each worked case follows from the definitions that the calls' contracts cite.
pub fn worked_cases()
    ensures { WorkedCases }
{}
