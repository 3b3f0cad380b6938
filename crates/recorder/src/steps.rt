//! The steps that are left.

ghost use Rattle.std.specs.Prelude.{◌≡◌, ◌++◌, List};
ghost use Rattle.trace_laws.specs.Event.{Event};
ghost use Rattle.script_machine.specs.Machine.{IsComplete};
ghost use Rattle.script_machine.specs.Held.{meaning};

use row_locks::LockState;

// Makes a step of the lowest thread that can step, until no thread can.
pub(crate) fn complete(state: &mut LockState)
    ensures script { state.new.machine.script ≡ state.old.machine.script }
    ensures complete { IsComplete state.new.machine.script (meaning state.new.machine) }
    ensures events { (more : List Event) × (state.new.events ≡ state.old.events ++ more) }
{
    while let Some(thread) = state.machine().first_ready() {
        let _ = state.grant(thread);
    }
}
