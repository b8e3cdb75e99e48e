// The laws of histories: each function's contract is a theorem, and its body nothing.
ghost use Rattle.history.specs.Laws.{InTwoParts, OneMore, SameMakesSame, Counts, KeepsWidth};

// The fold over a history in two parts.
pub fn in_two_parts()
    ensures { InTwoParts }
{}

// One event more at the end of a history.
pub fn one_more()
    ensures { OneMore }
{}

// Equal histories have equal levels, count and digest.
pub fn same_makes_same()
    ensures { SameMakesSame }
{}

// The count is the number of events, modulo 2^64.
#[tactic(auto, using(crate::proofs::Folds::counts))]
pub fn counts_stand()
    ensures { Counts }
{}

// There are always 512 levels.
#[tactic(auto, using(crate::proofs::Folds::keeps_width))]
pub fn keeps_width()
    ensures { KeepsWidth }
{}
