// The worked cases of the link, as one theorem of the definitions that the formats and both ends cite.
#![tactic(auto)]

ghost use Rattle.cases.specs.Cases.{Cases};

pub fn worked_cases()
    ensures { Cases 72 79 }
{
    ft12::worked_cases();
    ft3::worked_cases();
}
