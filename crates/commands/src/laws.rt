// The laws of commands: each function's contract is a theorem, and its body nothing.
ghost use Rattle.commands.specs.Laws.{ReadsBack, PrefixFree, CutIsCut, OnlyValid, AreBytes, Makers};

// What was written is read back, whatever stands behind it.
#[tactic(auto, using(crate::proofs::Encoded::reads_back))]
pub fn reads_back()
    ensures { ReadsBack }
{}

// No command's bytes are the beginning of another's.
#[tactic(auto, using(crate::proofs::Encoded::prefix_free))]
pub fn prefix_free()
    ensures { PrefixFree }
{}

// A command cut short is never read.
#[tactic(auto, using(crate::proofs::Cut::cut_is_cut))]
pub fn cut_is_cut()
    ensures { CutIsCut }
{}

// Only valid commands are read, and the bytes that were read are just those of the command.
pub fn only_valid()
    ensures { OnlyValid }
{}

// A command's bytes are bytes, 18 to 81 of them.
#[tactic(auto, using(crate::proofs::Cut::are_bytes))]
pub fn are_bytes()
    ensures { AreBytes }
{}

// What the makers make is valid.
#[tactic(auto, using(crate::proofs::Made::makers))]
pub fn makers_stand()
    ensures { Makers }
{}
