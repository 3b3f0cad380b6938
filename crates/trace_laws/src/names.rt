//! Names, and their numbers, given in the order in which the names first come.

ghost use Rattle.std.specs.Prelude.{◌≡◌, ◌<◌, ◌≤◌, ◌↔◌, ℕ, false, [], length, slice_get, Some, IfOk, OnOk, OnErr, IsErrOf};
ghost use Rattle.std.specs.List.{list_all};
ghost use Rattle.trace_laws.specs.Names.{is_name, is_name_byte, is_numbered, number_of, with_name};

use indexmap::IndexSet;
use sp_base::{LockId, MAX_LOCKS, MAX_NAME, MAX_THREADS, MAX_VARS, OutOfMemory, ThreadId, VarId};
use std::alloc::Global;
use std::marker::Model;
use thiserror::Error;

fn is_name_byte(byte: u8) -> bool
    ensures { result ≡ is_name_byte byte }
{
    byte != b'\n' && byte != b'(' && byte != b')' && byte != b'|'
}

fn are_name_bytes(bytes: &[u8]) -> bool
    ensures { result ≡ list_all is_name_byte bytes.now }
{
    bytes.iter().all(|b| is_name_byte(*b))
}

/// Whether bytes are a name: at least one of them and at most `MAX_NAME`, and no newline, parenthesis or bar.
pub fn is_name(bytes: &[u8]) -> bool
    ensures { result ≡ is_name bytes.now }
{
    !bytes.is_empty() && bytes.len() <= MAX_NAME && are_name_bytes(bytes)
}

/// Why a name has no number.
#[derive(Clone, Copy, Debug, PartialEq, Eq, Error)]
pub enum NameFault {
    /// The name is new, and there are as many names as there may be.
    #[error("the limit is reached")]
    Full,
    /// Memory ran out.
    #[error("out of memory")]
    OutOfMemory,
}

// The names of one kind, in the order of their numbers.
#[derive(Drop)]
struct NameSpace {
    alloc: Global,
    names: IndexSet<Vec<u8>>,
}

impl Model for NameSpace {
    ghost use Rattle.std.specs.Prelude.{List, ℕ, map};

    ghost Value = { List (List ℕ) };

    ghost view = { λ s. map (λ name. name.items) s.names.keys };
}

impl NameSpace {
    // No names.
    fn new(alloc: Global) -> NameSpace
        ensures { result ≡ [] }
    {
        NameSpace {
            alloc,
            names: IndexSet::new(alloc),
        }
    }

    // The same names with the same numbers.
    fn copy(&self) -> Result<NameSpace, OutOfMemory>
        ensures { IfOk result (λ n. n ≡ self.now) }
    {
        let names = self.names.clone()?;
        Ok(NameSpace {
            alloc: self.alloc,
            names,
        })
    }

    // How many names there are.
    fn len(&self) -> usize
        ensures { result ≡ length self.now }
    {
        self.names.len()
    }

    // The name of a number.
    fn name(&self, number: usize) -> &[u8]
        requires { number < length self.now }
        ensures { slice_get self.now number ≡ Some result.now }
    {
        self.names.get_index(number).unwrap()
    }

    // The number of a name. A new name gets the next one, up to the limit.
    fn number(&mut self, name: &[u8], limit: usize) -> Result<usize, NameFault>
        requires { length self.old ≤ limit }
        ensures number { IfOk result (λ n. n ≡ number_of self.old name.now) }
        ensures below { IfOk result (λ n. n < limit) }
        ensures within { length self.new ≤ limit }
        ensures given { IfOk result (λ n. n < length self.new) }
        ensures ok { OnOk result (self.new ≡ with_name self.old name.now) }
        ensures full { IsErrOf result NameFault.Full ↔ ((is_numbered self.old name.now ≡ false) × (length self.old ≡ limit)) }
        ensures err { OnErr result (self.new ≡ self.old) }
    {
        if let Some(number) = self.names.get_index_of(name) {
            return Ok(number);
        }
        let number = self.names.len();
        if number >= limit {
            return Err(NameFault::Full);
        }
        let Ok(owned) = name.to_vec(self.alloc) else {
            return Err(NameFault::OutOfMemory);
        };
        let Ok(_) = self.names.insert(owned) else {
            return Err(NameFault::OutOfMemory);
        };
        Ok(number)
    }
}

/// The names of threads, locks and variables, each kind with numbers of its own from 0.
///
/// Contracts see three lists of names, in the order of their numbers. A name is a string of bytes.
#[derive(Drop)]
pub struct Names {
    threads: NameSpace,
    locks: NameSpace,
    vars: NameSpace,
}

impl Model for Names {
    ghost use Rattle.std.specs.Prelude.{length, ◌≤◌};
    ghost use Rattle.sp_base.specs.declared.limits.TheConstants.{MAX_LOCKS, MAX_THREADS, MAX_VARS};
    ghost use Rattle.trace_laws.specs.Names.{NameLists};

    ghost Value = { NameLists };

    ghost view = { λ n. record { threads = n.threads; locks = n.locks; vars = n.vars } };

    ghost invariant = { λ n. (length n.threads ≤ MAX_THREADS) × (length n.locks ≤ MAX_LOCKS) × (length n.vars ≤ MAX_VARS) };
}

impl Names {
    /// No names.
    ///
    /// Fails where memory runs out.
    pub fn new(alloc: Global) -> Result<Names, OutOfMemory>
        ensures { IfOk result (λ n. n ≡ record { threads = []; locks = []; vars = [] }) }
    {
        Ok(Names {
            threads: NameSpace::new(alloc),
            locks: NameSpace::new(alloc),
            vars: NameSpace::new(alloc),
        })
    }

    /// The same names with the same numbers.
    ///
    /// Fails where memory runs out.
    pub fn copy(&self) -> Result<Names, OutOfMemory>
        ensures { IfOk result (λ n. n ≡ self.now) }
    {
        Ok(Names {
            threads: self.threads.copy()?,
            locks: self.locks.copy()?,
            vars: self.vars.copy()?,
        })
    }

    /// The number of a thread's name. A new name gets the next number.
    ///
    /// Fails with `Full` exactly where the name is new and there are `MAX_THREADS` names, and with `OutOfMemory` where memory
    /// runs out. The names then stay as they were.
    pub fn thread(&mut self, name: &[u8]) -> Result<ThreadId, NameFault>
        ensures number { IfOk result (λ id. id ≡ number_of self.old.threads name.now) }
        ensures ok { OnOk result (self.new ≡ record self.old { threads = with_name self.old.threads name.now }) }
        ensures given { IfOk result (λ id. id < length self.new.threads) }
        ensures within { length self.new.threads ≤ MAX_THREADS }
        ensures full { IsErrOf result NameFault.Full ↔ ((is_numbered self.old.threads name.now ≡ false) × (length self.old.threads ≡ MAX_THREADS)) }
        ensures err { OnErr result (self.new ≡ self.old) }
    {
        let number = self.threads.number(name, MAX_THREADS as usize)?;
        Ok(ThreadId::new(number as u16).unwrap())
    }

    /// The number of a lock's name. A new name gets the next number.
    ///
    /// Fails with `Full` exactly where the name is new and there are `MAX_LOCKS` names, and with `OutOfMemory` where memory
    /// runs out. The names then stay as they were.
    pub fn lock(&mut self, name: &[u8]) -> Result<LockId, NameFault>
        ensures number { IfOk result (λ id. id ≡ number_of self.old.locks name.now) }
        ensures ok { OnOk result (self.new ≡ record self.old { locks = with_name self.old.locks name.now }) }
        ensures given { IfOk result (λ id. id < length self.new.locks) }
        ensures within { length self.new.locks ≤ MAX_LOCKS }
        ensures full { IsErrOf result NameFault.Full ↔ ((is_numbered self.old.locks name.now ≡ false) × (length self.old.locks ≡ MAX_LOCKS)) }
        ensures err { OnErr result (self.new ≡ self.old) }
    {
        let number = self.locks.number(name, MAX_LOCKS as usize)?;
        Ok(LockId::new(number as u32).unwrap())
    }

    /// The number of a variable's name. A new name gets the next number.
    ///
    /// Fails with `Full` exactly where the name is new and there are `MAX_VARS` names, and with `OutOfMemory` where memory
    /// runs out. The names then stay as they were.
    pub fn var(&mut self, name: &[u8]) -> Result<VarId, NameFault>
        ensures number { IfOk result (λ id. id ≡ number_of self.old.vars name.now) }
        ensures ok { OnOk result (self.new ≡ record self.old { vars = with_name self.old.vars name.now }) }
        ensures given { IfOk result (λ id. id < length self.new.vars) }
        ensures within { length self.new.vars ≤ MAX_VARS }
        ensures full { IsErrOf result NameFault.Full ↔ ((is_numbered self.old.vars name.now ≡ false) × (length self.old.vars ≡ MAX_VARS)) }
        ensures err { OnErr result (self.new ≡ self.old) }
    {
        let number = self.vars.number(name, MAX_VARS as usize)?;
        Ok(VarId::new(number as u32).unwrap())
    }

    /// How many threads have names.
    pub fn threads(&self) -> u16
        ensures { result ≡ length self.now.threads }
    {
        self.threads.len() as u16
    }

    /// How many locks have names.
    pub fn locks(&self) -> u32
        ensures { result ≡ length self.now.locks }
    {
        self.locks.len() as u32
    }

    /// How many variables have names.
    pub fn vars(&self) -> u32
        ensures { result ≡ length self.now.vars }
    {
        self.vars.len() as u32
    }

    /// The name of a thread that was given its number here.
    pub fn thread_name(&self, id: ThreadId) -> &[u8]
        requires { id < length self.now.threads }
        ensures { slice_get self.now.threads id ≡ Some result.now }
    {
        self.threads.name(id.value() as usize)
    }

    /// The name of a lock that was given its number here.
    pub fn lock_name(&self, id: LockId) -> &[u8]
        requires { id < length self.now.locks }
        ensures { slice_get self.now.locks id ≡ Some result.now }
    {
        self.locks.name(id.value() as usize)
    }

    /// The name of a variable that was given its number here.
    pub fn var_name(&self, id: VarId) -> &[u8]
        requires { id < length self.now.vars }
        ensures { slice_get self.now.vars id ≡ Some result.now }
    {
        self.vars.name(id.value() as usize)
    }
}
