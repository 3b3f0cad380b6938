// The strong components of the lock graph, which has an edge from each lock that a class takes to each lock that it holds.
ghost use Rattle.std.specs.Prelude.{◌≡◌, length, IfOk};
ghost use Rattle.lock_graph.specs.Classes.{HaveLocksBelow};

use crate::classes::Classes;
use sp_base::OutOfMemory;
use std::alloc::Global;

// The visit of a lock: the rank that it got first, how many locks were open then, and how many of its edges are behind.
#[derive(Clone, Copy, Debug)]
struct Visit {
    lock: u32,
    rank: usize,
    open: usize,
    behind: usize,
}

// A search in depth that numbers the components (Pearce, "A Space-Efficient Algorithm for Finding Strongly Connected
// Components", 2016). No contract says so: who uses the ranks tests them.
//
// A lock that was not come to has the rank 0. Each other one is under visit, or is open where its component may not be
// whole, or has the rank of its component. Components get their ranks from the greatest number down, so that an edge leads
// to a rank that is not less.
#[derive(Drop)]
struct Search {
    edges: Vec<Vec<u32>>,
    ranks: Vec<usize>,
    visits: Vec<Visit>,
    open: Vec<u32>,
    next: usize,
}

// For each lock the locks that are held where it is taken.
fn edges_of(alloc: Global, classes: &Classes<'_>) -> Result<Vec<Vec<u32>>, OutOfMemory> {
    let mut edges: Vec<Vec<u32>> = Vec::new(alloc);
    for _ in 0..classes.locks() {
        let Ok(()) = edges.push(Vec::new(alloc)) else {
            return Err(OutOfMemory);
        };
    }
    for class in 0..classes.len() {
        let lock = classes.lock(class).value();
        if let Some(list) = edges.get_mut(lock as usize) {
            let Ok(()) = list.extend_from_slice(classes.held(class)) else {
                return Err(OutOfMemory);
            };
        }
    }
    Ok(edges)
}

impl Search {
    // No lock was come to.
    fn new(alloc: Global, classes: &Classes<'_>) -> Result<Search, OutOfMemory>
        ensures { IfOk result (λ search. HaveLocksBelow classes.now.classes (length search.ranks.items)) }
    {
        Ok(Search {
            edges: edges_of(alloc, classes)?,
            ranks: vec![in alloc; 0; classes.locks() as usize]?,
            visits: Vec::new(alloc),
            open: Vec::new(alloc),
            next: usize::MAX,
        })
    }

    // The rank of a lock.
    fn rank(&self, lock: u32) -> usize {
        match self.ranks.get(lock as usize) {
            Some(rank) => *rank,
            None => usize::MAX,
        }
    }

    // Gives a lock a rank.
    fn set_rank(&mut self, lock: u32, rank: usize)
        ensures { length self.new.ranks.items ≡ length self.old.ranks.items }
    {
        if let Some(old) = self.ranks.get_mut(lock as usize) {
            *old = rank;
        }
    }

    // Gives a lock the rank where its own is greater.
    fn lower_rank(&mut self, lock: u32, rank: usize)
        ensures { length self.new.ranks.items ≡ length self.old.ranks.items }
    {
        if rank < self.rank(lock) {
            self.set_rank(lock, rank);
        }
    }

    // The lock at the next edge of a visit, and the visit behind it.
    fn edge(&self, visit: &Visit) -> Option<(u32, Visit)> {
        let Some(list) = self.edges.get(visit.lock as usize) else {
            return None;
        };
        if list.len() <= visit.behind {
            return None;
        }
        let rest = Visit {
            lock: visit.lock,
            rank: visit.rank,
            open: visit.open,
            behind: visit.behind + 1,
        };
        Some((list[visit.behind], rest))
    }

    // Begins the visit of a lock.
    fn enter(&mut self, lock: u32) -> Result<(), OutOfMemory>
        ensures { length self.new.ranks.items ≡ length self.old.ranks.items }
    {
        let open = self.open.len();
        let rank = self.visits.len() + open + 1;
        self.set_rank(lock, rank);
        let visit = Visit {
            lock,
            rank,
            open,
            behind: 0,
        };
        let Ok(()) = self.visits.push(visit) else {
            return Err(OutOfMemory);
        };
        Ok(())
    }

    // All locks that were opened since so many were open are a component.
    fn close(&mut self, open: usize)
        ensures { length self.new.ranks.items ≡ length self.old.ranks.items }
    {
        let rank = self.next;
        for _ in open..self.open.len() {
            if let Some(lock) = self.open.pop() {
                self.set_rank(lock, rank);
            }
        }
        self.next = rank.saturating_sub(1);
    }

    // Ends a visit: the lock is open, and what reaches it reaches what it does. Where it reaches none that was come to
    // before it, its component is whole.
    fn leave(&mut self, visit: &Visit) -> Result<(), OutOfMemory>
        ensures { length self.new.ranks.items ≡ length self.old.ranks.items }
    {
        let Ok(()) = self.open.push(visit.lock) else {
            return Err(OutOfMemory);
        };
        let rank = self.rank(visit.lock);
        if rank == visit.rank {
            self.close(visit.open);
            return Ok(());
        }
        let Some(outer) = self.visits.last().copied() else {
            return Ok(());
        };
        self.lower_rank(outer.lock, rank);
        Ok(())
    }

    // Goes along the next edge of a visit, or ends it.
    fn step(&mut self, visit: &Visit) -> Result<(), OutOfMemory>
        ensures { length self.new.ranks.items ≡ length self.old.ranks.items }
    {
        let Some((lock, rest)) = self.edge(visit) else {
            return self.leave(visit);
        };
        let Ok(()) = self.visits.push(rest) else {
            return Err(OutOfMemory);
        };
        let rank = self.rank(lock);
        if rank == 0 {
            return self.enter(lock);
        }
        self.lower_rank(visit.lock, rank);
        Ok(())
    }

    // Visits a lock that was not come to, and all that it reaches.
    fn visit(&mut self, lock: u32) -> Result<(), OutOfMemory>
        ensures { length self.new.ranks.items ≡ length self.old.ranks.items }
    {
        if self.rank(lock) != 0 {
            return Ok(());
        }
        self.enter(lock)?;
        // Each lock is entered once, and each edge gone along once.
        for _ in 0..u64::MAX {
            let Some(visit) = self.visits.pop() else {
                break;
            };
            self.step(&visit)?;
        }
        Ok(())
    }
}

/// For each lock of the classes a rank, by their strong components: a class takes no lock of a greater rank than one that it
/// holds, and locks of one component have one rank. Only that there are enough is promised. The only error is want of memory.
pub fn rank_components(alloc: Global, classes: &Classes<'_>) -> Result<Vec<usize>, OutOfMemory>
    ensures { IfOk result (λ ranks. HaveLocksBelow classes.now.classes (length ranks.items)) }
{
    let mut search = Search::new(alloc, classes)?;
    for lock in 0..classes.locks() {
        search.visit(lock)?;
    }
    Ok(search.ranks)
}
