// Which classes can stand in a cycle.
ghost use Rattle.std.specs.Prelude.{◌≡◌, ◌<◌, ◌↔◌, length, IfOk, IsTrue};
ghost use Rattle.lock_graph.specs.Ranks.{AreRanks};
ghost use Rattle.sp_closure.specs.Members.{has};
ghost use Rattle.pattern_walk.specs.Cycles.{class_of};
ghost use Rattle.pattern_walk.specs.Linked.{HasLink, AreLinks};

use lock_graph::{Classes, Ranks};
use sp_base::OutOfMemory;
use std::alloc::Global;

/// A flag for each class: whether it holds a lock of the rank of its own. No other class stands in a cycle.
#[derive(Drop)]
pub struct Links {
    pub flags: Vec<bool>,
}

// Whether a class holds a lock of the rank of its own.
fn has_link(ranks: &Ranks, classes: &Classes<'_>, class: u32) -> bool
    requires ranks { AreRanks classes.now.classes ranks.now }
    requires class { class < length classes.now.classes }
    ensures { IsTrue result ↔ HasLink ranks.now (class_of classes.now.classes class) }
{
    let lock = classes.lock(class).value();
    let held = classes.held(class);
    for &other in held {
        if ranks.are_same(lock, other) {
            return true;
        }
    }
    false
}

impl Links {
    /// The links of classes. The only error is want of memory.
    pub fn new(alloc: Global, classes: &Classes<'_>) -> Result<Links, OutOfMemory>
        ensures { IfOk result (λ links. AreLinks classes.now.classes (length classes.now.classes) links.flags.items) }
    {
        let ranks = Ranks::new(alloc, classes)?;
        let mut flags = Vec::new(alloc);
        for class in 0..classes.len() {
            let Ok(()) = flags.push(has_link(&ranks, classes, class)) else {
                return Err(OutOfMemory);
            };
        }
        Ok(Links { flags })
    }

    /// Whether a class has a link.
    pub fn has(&self, class: u32) -> bool
        requires { class < length self.now.flags.items }
        ensures { result ≡ has self.now.flags.items class }
    {
        self.flags[class as usize]
    }
}
