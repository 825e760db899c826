ghost use Rattle.std.specs.Prelude.{◌≡◌, ℕ, ◌<◌, nat_eq, nat_lt, ◌&&◌, length, get_or, [], ◌∷◌, ◌++◌, if◌then◌else◌, IfOk, OnOk};
ghost use Rattle.mc_core_program.specs.Whole.{of_number};

use mc_base::{Memory, Row};
use std::alloc::Global;

/// What has numbers, by these numbers below a count, each number's in their order; what has another number is dropped.
pub fn by_number<T: Drop>(
    alloc: Global,
    count: u32,
    numbered: Vec<(u32, T)>,
) -> Result<Vec<Row<T>>, Memory>
    ensures count { IfOk result (λ rows. length rows.items ≡ count) }
    ensures rows { IfOk result (λ rows. (p : ℕ) → p < count
        → get_or rows.items p [] ≡ of_number p numbered.items) }
{
    let counts = how_many(alloc, count, numbered.as_slice())?;
    let mut rows = empty_rows(alloc, counts.as_slice())?;
    for (number, one) in numbered {
        put(&mut rows, number, one)?;
    }
    Ok(rows)
}

// By number, how many have it. They are counted so that no row has to grow.
fn how_many<T>(alloc: Global, count: u32, numbered: &[(u32, T)]) -> Result<Vec<usize>, Memory>
    ensures { IfOk result (λ counts. length counts.items ≡ count) }
{
    let mut counts = Vec::from_elem(alloc, 0usize, count as usize)?;
    for (number, _) in numbered {
        let k = *number as usize;
        if k < counts.len() {
            counts[k] = counts[k].saturating_add(1);
        }
    }
    Ok(counts)
}

// Rows without elements, with room for so many.
fn empty_rows<T: Drop>(alloc: Global, counts: &[usize]) -> Result<Vec<Row<T>>, Memory>
    ensures count { IfOk result (λ rows. length rows.items ≡ length counts.now) }
    ensures rows { IfOk result (λ rows. (p : ℕ) → get_or rows.items p [] ≡ []) }
{
    let mut rows = Vec::with_capacity(alloc, counts.len())?;
    for count in counts {
        let room = Vec::with_capacity(alloc, *count)?;
        rows.push(Row::from_vec(room))?;
    }
    Ok(rows)
}

// Puts an element at the end of the row of a number, where there is one.
fn put<T: Drop>(rows: &mut Vec<Row<T>>, number: u32, one: T) -> Result<(), Memory>
    ensures count { OnOk result (length rows.new.items ≡ length rows.old.items) }
    ensures rows { OnOk result ((p : ℕ) → get_or rows.new.items p []
        ≡ get_or rows.old.items p [] ++ (if nat_eq number p && nat_lt p (length rows.old.items) then one ∷ [] else [])) }
{
    match rows.get_mut(number as usize) {
        Some(row) => {
            if row.len() == u32::MAX {
                return Err(Memory);
            }
            row.push(one)
        }
        None => Ok(()),
    }
}
