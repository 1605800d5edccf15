// The laws of a town in memory, each owed by a function of its own.
ghost use Rattle.town.specs.Laws.{EachEnd, AllEnds, OneTown, MemorySuffices};

#[tactic(auto, using(crate::proofs::Ends::each_end))]
pub fn each_end()
    ensures { EachEnd }
{}

#[tactic(auto, using(crate::proofs::Ends::all_ends))]
pub fn all_ends()
    ensures { AllEnds }
{}

#[tactic(auto, using(crate::proofs::Holding::one_town))]
pub fn one_town()
    ensures { OneTown }
{}

#[tactic(auto, using(crate::proofs::Calling::memory_suffices))]
pub fn memory_suffices()
    ensures { MemorySuffices }
{}
