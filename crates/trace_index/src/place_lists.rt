// Lists of places by number.
ghost use Rattle.std.specs.Prelude.{◌<◌, ◌^◌, length, OnOk};
ghost use Rattle.trace_index.specs.Listed.{ArePadded, IsAddedTo, IsListOf};

use sp_base::OutOfMemory;
use std::alloc::Global;

// Adds empty lists until the number has one.
fn pad(alloc: Global, lists: &mut Vec<Vec<u32>>, number: usize) -> Result<(), OutOfMemory>
    requires { number < 2 ^ 32 }
    ensures padded { OnOk result (ArePadded lists.old.items number lists.new.items) }
    ensures number { OnOk result (number < length lists.new.items) }
{
    for _ in lists.len()..number + 1 {
        let Ok(()) = lists.push(Vec::new(alloc)) else {
            return Err(OutOfMemory);
        };
    }
    Ok(())
}

/// Adds a place behind those of the number.
pub fn add(
    alloc: Global,
    lists: &mut Vec<Vec<u32>>,
    number: usize,
    place: u32,
) -> Result<(), OutOfMemory>
    requires { number < 2 ^ 32 }
    ensures { OnOk result (IsAddedTo lists.old.items number place lists.new.items) }
{
    pad(alloc, lists, number)?;
    let Ok(()) = lists[number].push(place) else {
        return Err(OutOfMemory);
    };
    Ok(())
}

/// The list of a number, which is empty where there is none.
pub fn list(lists: &[Vec<u32>], number: usize) -> &[u32]
    ensures { IsListOf lists.now number result.now }
{
    match lists.get(number) {
        Some(places) => places,
        None => &[],
    }
}
