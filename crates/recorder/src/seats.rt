//! Seats and the passes that they are in.

ghost use Rattle.std.specs.Prelude.{◌≡◌, ℕ, None, Some, All, IfOk, length, map, slice_get, vec_len};
ghost use Rattle.script_machine.specs.ScriptBounds.{IsScript};
ghost use Rattle.seat_lock.specs.Shown.{IsSeatWith};
ghost use Rattle.recorder.specs.Passes.{manager_script, IsPassOf, IsNewPass};
ghost use Rattle.recorder.specs.declared.pass.Pass.{Pass};

use crate::{Manager, Pass};
use row_locks::LockState;
use seat_lock::LockSeat;
use sp_base::OutOfMemory;
use std::alloc::Global;

// A pass of the manager for each seat of its lock, in order: the seat of number k is that of thread k.
pub(crate) fn passes_of<'a>(
    alloc: Global,
    manager: &Manager<'a>,
    seats: Vec<LockSeat<LockState<'a>>>,
) -> Result<Vec<Pass<'a>>, OutOfMemory>
    requires script { IsScript (manager_script manager.now) }
    requires all { vec_len seats ≡ length (manager_script manager.now).bodies }
    requires seats { (k : ℕ) (seat : _) → slice_get seats.items k ≡ Some seat → IsSeatWith manager.now.lock k 0 None seat }
    ensures length { IfOk result (λ passes. vec_len passes ≡ vec_len seats.entry) }
    ensures passes { IfOk result (λ passes. All (λ pass. IsPassOf manager.now pass) passes.items) }
    ensures fresh { IfOk result (λ passes. (k : ℕ) (pass : Pass) → slice_get passes.items k ≡ Some pass → IsNewPass k pass) }
{
    let mut passes = Vec::with_capacity(alloc, seats.len())?;
    for seat in seats {
        let pass = Pass::new(seat, passes.len());
        passes.push_reserved(pass);
    }
    Ok(passes)
}

// The seats of the passes, in order.
pub(crate) fn seats_of<'a>(
    alloc: Global,
    passes: Vec<Pass<'a>>,
) -> Result<Vec<LockSeat<LockState<'a>>>, OutOfMemory>
    ensures { IfOk result (λ seats. seats.items ≡ map (λ pass. pass.seat) passes.entry.items) }
{
    let mut seats = Vec::with_capacity(alloc, passes.len())?;
    for pass in passes {
        seats.push_reserved(pass.into_seat());
    }
    Ok(seats)
}
