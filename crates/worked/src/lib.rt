// The worked cases of the rules, as one theorem.
#![tactic(auto)]

ghost use Rattle.worked.specs.Cases.{WorkedCases};

// Every worked case holds of the definitions that the contracts of the codes and layouts cite.
pub fn worked_cases()
    ensures stands { WorkedCases }
{}
