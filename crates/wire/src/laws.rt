// The laws of the format, each owed by a function of its own.
ghost use Rattle.wire.specs.Laws.{CallAgain, CallRowAgain, OneCallRow, FirstRow, AnswerAgain, AnswerRowAgain, Room};

#[tactic(auto, using(crate::proofs::Reading::call_again))]
pub fn call_again()
    ensures { CallAgain }
{}

#[tactic(auto, using(crate::proofs::Reading::call_row_again))]
pub fn call_row_again()
    ensures { CallRowAgain }
{}

#[tactic(auto, using(crate::proofs::Reading::one_call_row))]
pub fn one_call_row()
    ensures { OneCallRow }
{}

#[tactic(auto, using(crate::proofs::Reading::first_row_is))]
pub fn first_row_found()
    ensures { FirstRow }
{}

#[tactic(auto, using(crate::proofs::Reading::answer_again))]
pub fn answer_again()
    ensures { AnswerAgain }
{}

#[tactic(auto, using(crate::proofs::Reading::answer_row_again))]
pub fn answer_row_again()
    ensures { AnswerRowAgain }
{}

#[tactic(auto, using(crate::proofs::Room::room))]
pub fn room_suffices()
    ensures { Room }
{}
