// The theorems about rounds, each owed by a function of its own.
ghost use Rattle.streets.specs.Theorems.{OnceEach, ARound, NeverThrice, FromAnywhere, JoinsOdd, InPairs};
ghost use Rattle.streets.specs.Theorems.{PairsBelow, MetricBelow, PairsAbove, Postman, Tried, TriangleShortest, PathShortest};

pub fn once_each()
    ensures { OnceEach }
{}

pub fn a_round()
    ensures { ARound }
{}

#[tactic(auto, using(crate::proofs::Rounds::never_thrice))]
pub fn never_thrice()
    ensures { NeverThrice }
{}

#[tactic(auto, using(crate::proofs::Rounds::from_anywhere))]
pub fn from_anywhere()
    ensures { FromAnywhere }
{}

#[tactic(auto, using(crate::proofs::Rounds::repeats_join, crate::proofs::Rounds::repeats_long))]
pub fn joins_odd()
    ensures { JoinsOdd }
{}

#[tactic(auto, using(crate::proofs::Degrees::in_pairs))]
pub fn in_pairs()
    ensures { InPairs }
{}

#[tactic(auto, using(crate::proofs::Postman::pairs_below))]
pub fn pairs_below()
    ensures { PairsBelow }
{}

#[tactic(auto, using(crate::proofs::Postman::metric_below))]
pub fn metric_below()
    ensures { MetricBelow }
{}

#[tactic(auto, using(crate::proofs::Postman::pairs_above))]
pub fn pairs_above()
    ensures { PairsAbove }
{}

#[tactic(auto, using(crate::proofs::Postman::postman))]
pub fn postman()
    ensures { Postman }
{}

#[tactic(auto, using(crate::proofs::Trials::tried_shortest))]
pub fn tried()
    ensures { Tried }
{}

#[tactic(auto, using(crate::proofs::Trials::triangle_shortest))]
pub fn triangle_shortest()
    ensures { TriangleShortest }
{}

#[tactic(auto, using(crate::proofs::Trials::path_shortest))]
pub fn path_shortest()
    ensures { PathShortest }
{}
