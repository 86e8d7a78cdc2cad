// What a session is asked and what it answers, as values, with what holds of any list of calls.
#![tactic(auto)]

ghost use Rattle.calls.specs.Claims.{OneAnswer, OneMap};

pub mod call;
pub mod fault;

// The logic gives each call one answer, and leaves the session one way.
pub fn each_call_has_one_answer()
    ensures { OneAnswer }
{}

// Whatever a session is asked on one structure, its answers and its labels are the logic's.
pub fn answers_are_the_logics()
    ensures { OneMap }
{}
