//! Boards on which a few calls are made.

use crate::Board;
use sp_base::{OutOfMemory, ThreadId};
use std::alloc::Global;
use std::test::Fail;

// A call on a board, with the numbers of threads.
#[derive(Clone, Copy)]
enum Call {
    Start(u16),
    Granted,
    End(u16),
    // The thread, the number that it saw, and the number of the standstill that is answered.
    Blocked(u16, u32, Option<u32>),
}

// Makes the call, and says whether its answer is the one that is told.
fn answers(board: &mut Board, call: Call) -> Option<bool> {
    match call {
        Call::Start(thread) => board.start(ThreadId::new(thread)?),
        Call::Granted => board.granted(),
        Call::End(thread) => board.end(ThreadId::new(thread)?),
        Call::Blocked(thread, seen, wanted) => {
            let found = board.blocked(ThreadId::new(thread)?, seen);
            return Some(found.map(|standstill| standstill.number()) == wanted);
        }
    }
    Some(true)
}

// Whether a new board gives each of the answers that are told, and then has the number.
fn goes_as_told(alloc: Global, calls: &[Call], number: u32) -> Result<bool, OutOfMemory> {
    let mut board = Board::new(alloc)?;
    for call in calls {
        if answers(&mut board, *call) != Some(true) {
            return Ok(false);
        }
    }
    Ok(board.number() == number)
}

#[test]
fn the_end_is_declared_where_all_stand(rt: HostRuntime) -> Result<(), Fail> {
    use Call::{Blocked, End, Granted, Start};
    let rows: [(&[Call], u32); 7] = [
        (&[], 0),
        (&[Blocked(0, 0, Some(0))], 0),
        (
            &[
                Start(0),
                Start(63),
                Blocked(63, 0, None),
                Blocked(0, 0, Some(0)),
            ],
            0,
        ),
        (
            &[
                Start(0),
                Start(1),
                Blocked(0, 0, None),
                End(1),
                Blocked(0, 0, Some(0)),
            ],
            0,
        ),
        (
            &[
                Start(0),
                Start(1),
                Blocked(0, 0, None),
                Granted,
                Blocked(1, 1, None),
                Blocked(0, 1, Some(1)),
            ],
            1,
        ),
        (
            &[
                Granted,
                Granted,
                Blocked(0, 1, None),
                Blocked(0, 3, None),
                Blocked(0, 2, Some(2)),
            ],
            2,
        ),
        (
            &[
                Blocked(0, 0, Some(0)),
                Granted,
                Start(1),
                Blocked(1, 7, Some(0)),
            ],
            1,
        ),
    ];
    for (row, (calls, number)) in rows.iter().enumerate() {
        assert!(rt; goes_as_told(rt.alloc(), calls, *number)?, "at {row}");
    }
    Ok(())
}
