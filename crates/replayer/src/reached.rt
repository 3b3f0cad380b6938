//! What the replay of a finding reaches.

ghost use Rattle.std.specs.Prelude.{◌≡◌, All};
ghost use Rattle.replayer.specs.Replayed.{AreRunning, IsRunningIn};

use script_machine::Machine;
use sp_base::ThreadId;
use std::marker::Model;

/// A machine after the kept events of a finding, and the threads of the finding, each of which is running in it.
#[derive(Drop)]
pub struct Reached<'a> {
    machine: Machine<'a>,
    threads: Vec<ThreadId>,
}

impl<'a> Model for Reached<'a> {
    ghost use Rattle.replayer.specs.Replayed.{AreRunning, Replayed};

    ghost Value = { Replayed };

    ghost view = { λ r. record { machine = r.machine; threads = r.threads.items } };

    ghost invariant = { λ r. AreRunning (record { machine = r.machine; threads = r.threads.items }) };
}

impl<'a> Reached<'a> {
    // A machine, and threads that are running in it.
    pub(crate) fn made(machine: Machine<'a>, threads: Vec<ThreadId>) -> Reached<'a>
        requires { AreRunning (record { machine = machine; threads = threads.items }) }
        ensures { result ≡ record { machine = machine.entry; threads = threads.items } }
    {
        Reached { machine, threads }
    }

    /// The machine after the kept events.
    pub fn machine(&self) -> &Machine<'a>
        ensures { result.now ≡ self.now.machine }
    {
        &self.machine
    }

    /// The threads of the finding: of a race that of the later place, then that of the earlier one. Each is running in
    /// the machine.
    pub fn threads(&self) -> &[ThreadId]
        ensures value { result.now ≡ self.now.threads }
        ensures running { All (IsRunningIn self.now.machine) self.now.threads }
    {
        &self.threads
    }
}
