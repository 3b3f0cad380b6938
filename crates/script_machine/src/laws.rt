//! The laws of the machine, over all runs of all scripts.

ghost use Rattle.script_machine.specs.Laws.{SizeLaw, LawfulLaw, DeterminedLaw, ExclusiveLaw, OneFaultLaw, OfLaw};

/// A legal run has at most as many events as the script has instructions.
pub fn size_law()
    ensures { SizeLaw }
{}

/// A legal run of a script that forks no thread twice is a lawful trace.
pub fn lawful_law()
    ensures { LawfulLaw }
{}

/// The threads that step determine a run, its values and the state after it.
pub fn determined_law()
    ensures { DeterminedLaw }
{}

/// A text has one script at most, and where it has one it has no fault.
pub fn exclusive_law()
    ensures { ExclusiveLaw }
{}

/// A text has one first fault at most: so the fault that a reading answers is decided by the text.
pub fn one_fault_law()
    ensures { OneFaultLaw }
{}

/// A trace that does the same as a legal run has no first place that is no step, and no other run does the same.
pub fn of_law()
    ensures { OfLaw }
{}
