//! Pools of rows.

ghost use Rattle.std.specs.Prelude.{ℕ, ◌≡◌, ◌<◌, ◌≤◌, ◌*◌, ◌+◌, false, not, length, count_by, replicate, slice_set, slice_index, IfOk, IfSome, IfNone};
ghost use Rattle.stamp_pool.specs.Rows.{count_at, IsLent, Lends, Raises, HasCounts};

use crate::region;
use sp_base::OutOfMemory;
use std::alloc::Global;
use std::marker::Model;
use std::snapshot::Snapshot;
use std::sync::ledger::Blank;

/// The most counts of a pool.
pub const MAX_COUNTS: u32 = 134_217_728;

/// A row that a pool lends. It is made by `Pool::take` alone, and there is no copy of it.
///
/// Contracts see the name of its pool, and its place there.
#[derive(Drop)]
pub struct RowId {
    place: u32,
    pool: Snapshot<Blank>,
}

impl Model for RowId {
    ghost use Rattle.stamp_pool.specs.Rows.{Row};

    ghost Value = { Row };

    ghost view = { λ r. record { pool = r.pool.value.name; place = r.place } };
}

/// Rows of counts in one region, each lent or free.
///
/// Contracts see a name that the pool alone has, how many counts a row has, for each row whether it is lent, and the
/// counts. Only `new` takes memory.
#[derive(Drop)]
pub struct Pool {
    seal: Blank,
    width: u32,
    lent: Vec<bool>,
    counts: Vec<u32>,
    spare: Vec<u32>,
}

impl Model for Pool {
    ghost use Rattle.stamp_pool.specs.Rows.{Region};

    ghost Value = { Region };

    ghost use Rattle.stamp_pool.specs.Pools.{region_in, IsLaidOut};

    ghost view = { region_in };

    ghost invariant = { IsLaidOut };
}

impl Pool {
    /// A pool of so many rows of so many counts, all free. The only error is want of memory.
    pub fn new(alloc: Global, width: u32, rows: u32) -> Result<Pool, OutOfMemory>
        requires { width * rows ≤ MAX_COUNTS }
        ensures width { IfOk result (λ pool. pool.width ≡ width) }
        ensures free { IfOk result (λ pool. pool.lent ≡ replicate rows false) }
    {
        Ok(Pool {
            seal: Blank::new(1),
            width,
            lent: vec![in alloc; false; rows as usize]?,
            counts: vec![in alloc; 0; rows as usize * width as usize]?,
            spare: vec![in alloc; 0; width as usize]?,
        })
    }

    /// A row of zeros that is lent nowhere else. None exactly where no row is free.
    pub fn take(&mut self) -> Option<RowId>
        ensures none { IfNone result (count_by not self.old.lent ≡ 0) }
        ensures unchanged { IfNone result (self.new ≡ self.old) }
        ensures some { IfSome result (λ row. Lends self.old row self.new) }
    {
        let Some(place) = region::first_free(&self.lent) else {
            return None;
        };
        self.lent[place] = true;
        let width = self.width as usize;
        region::clear(&mut self.counts, place * width, width);
        Some(RowId {
            place: place as u32,
            pool: Snapshot::of(&self.seal),
        })
    }

    /// Takes a row back.
    pub fn give(&mut self, row: RowId)
        requires { IsLent self.old row }
        ensures { self.new ≡ record self.old { lent = slice_set self.old.lent row.place false } }
    {
        self.lent[row.place as usize] = false;
    }

    /// How many rows are free.
    pub fn free(&self) -> u32
        ensures { result ≡ count_by not self.now.lent }
    {
        let mut free = 0;
        for place in 0..self.lent.len() {
            if !self.lent[place] {
                free += 1;
            }
        }
        free
    }

    /// The counts of a row.
    pub fn row(&self, row: &RowId) -> &[u32]
        requires { IsLent self.now row.now }
        ensures { HasCounts self.now row.now result.now }
    {
        let width = self.width as usize;
        region::row(&self.counts, row.place as usize * width, width)
    }

    /// Sets each count of a row to the greater of its own and that of another row. All other rows stay.
    pub fn raise(&mut self, into: &RowId, from: &RowId)
        requires into { IsLent self.old into.now }
        requires from { IsLent self.old from.now }
        ensures { Raises self.old into.now (count_at self.old from.now.place) self.new }
    {
        let width = self.width as usize;
        region::copy(&mut self.spare, &self.counts, from.place as usize * width);
        region::raise(&mut self.counts, into.place as usize * width, &self.spare);
    }

    /// Sets each count of a row to the greater of its own and that of the slice. All other rows stay.
    pub fn raise_with(&mut self, into: &RowId, counts: &[u32])
        requires into { IsLent self.old into.now }
        requires counts { length counts.now ≡ self.old.width }
        ensures { Raises self.old into.now (slice_index counts.now) self.new }
    {
        let width = self.width as usize;
        region::raise(&mut self.counts, into.place as usize * width, counts);
    }
}
