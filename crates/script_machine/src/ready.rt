//! Which thread of a machine can step.

ghost use Rattle.std.specs.Prelude.{ℕ, ◌<◌, length, IfSome, IfNone};
ghost use Rattle.script_machine.specs.Machine.{CanStep};
ghost use Rattle.script_machine.specs.Held.{meaning};
ghost use Rattle.script_machine.specs.Lowest.{NoneBelow};

use crate::Machine;
use crate::ids::thread_id;
use sp_base::ThreadId;

impl<'a> Machine<'a> {
    /// The lowest thread that can step; none exactly where no thread can.
    pub fn first_ready(&self) -> Option<ThreadId>
        ensures some { IfSome result (λ t. (t < length self.now.script.bodies) × CanStep self.now.script (meaning self.now) t) }
        ensures lowest { IfSome result (λ t. NoneBelow self.now.script (meaning self.now) t) }
        ensures none { IfNone result ((t : ℕ) → t < length self.now.script.bodies → CanStep self.now.script (meaning self.now) t → ⊥) }
    {
        for number in 0..self.threads() {
            let thread = thread_id(number);
            if self.can_step(thread) {
                return Some(thread);
            }
        }
        None
    }
}
