// Histories of a volume: what its calls answer and change, and what is promised of every list of calls from its format on. The calls
// themselves are made by the crates above.
#![tactic(auto)]

ghost use Rattle.history.specs.History.{EveryRun, KeptFromFormat, KeptByCalls, KeptIsRoomy, CanFormat, SomeFormatted, AlwaysAnswers, EveryCalls};

// Every run of calls keeps the whole promise: reads hand out the last taken write, losses are real and named.
pub fn every_run()
    ensures stands { EveryRun }
{}

// The promise holds from the format on, and each further call keeps it.
pub fn kept()
    ensures format { KeptFromFormat }
    ensures calls { KeptByCalls }
    ensures roomy { KeptIsRoomy }
{}

// A volume of every shape can be formatted, and every call on it has an answer, so that there is a history of any calls.
pub fn answerable()
    ensures format { CanFormat }
    ensures some { SomeFormatted }
    ensures always { AlwaysAnswers }
    ensures calls { EveryCalls }
{}
