//! The laws of replays, over all runs of all scripts.

ghost use Rattle.replayer.specs.Replays.{ReplayLaw, RaceLaw, DeadlockLaw};

/// Each correct reordering of a legal run is a legal run in which each step brings the value that it brought before.
pub fn replay_law()
    ensures { ReplayLaw }
{}

/// After one that leaves two conflicting accesses enabled, both threads are about to make them, each can step, and each
/// still can, with the same next call, after the other has stepped.
pub fn race_law()
    ensures { RaceLaw }
{}

/// After one that leaves the picks of an instance of a pattern enabled, each of their threads is about to acquire a lock
/// that the thread of the next one in the cycle owns, and in no list of steps from there does any of them step.
pub fn deadlock_law()
    ensures { DeadlockLaw }
{}
