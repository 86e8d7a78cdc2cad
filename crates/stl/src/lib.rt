// Safe temporal logic over structures: what it speaks of, its rules, and what they mean. The definitions stand in specs/.
#![tactic(auto)]

ghost use Rattle.stl.specs.Folds.{FoldsKeepRules};
ghost use Rattle.stl.specs.Formulas.{UntilLaws};
ghost use Rattle.stl.specs.Runs.{RunLaws};

pub mod row;

// Runs join end to end, and never leave a well-formed structure.
pub fn runs_keep_their_laws()
    ensures { RunLaws }
{}

// Until, told by runs, is the textbook's: all states but the last satisfy a; or: b, or a and a next state with the until.
pub fn until_keeps_its_laws()
    ensures { UntilLaws }
{}

// A state satisfies a formula exactly when its class in a fold does.
pub fn folds_keep_rules()
    ensures { FoldsKeepRules }
{}
