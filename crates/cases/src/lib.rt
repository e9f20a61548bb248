// Worked examples: what a station decides, writes, says and holds, case by case.
#![tactic(auto)]

ghost use Rattle.cases.specs.Cases.{Cases};

// Each row of the table of examples holds.
pub fn cases_stand()
    ensures { Cases }
{}
