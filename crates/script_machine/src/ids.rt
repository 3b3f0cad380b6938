//! Ids of numbers that are known to be in range.

ghost use Rattle.std.specs.Prelude.{◌≡◌, ◌<◌};

use sp_base::{MAX_THREADS, ThreadId};

/// The thread of a number.
pub fn thread_id(number: u16) -> ThreadId
    requires { number < MAX_THREADS }
    ensures { result ≡ number }
{
    let Some(id) = ThreadId::new(number) else {
        unreachable!()
    };
    id
}
