//! How many row terms there are, without listing them.
ghost use Rattle.std.specs.Prelude.{◌≡◌, [], length, IfOk};
ghost use Rattle.sorted_skolem.specs.inner.Listing.{capped, tallied, lists_tallied, asks_tallied, terms_by};

use crate::asks::Ask;
use lint_base::NoMemory;
use std::alloc::Global;

/// How many row terms a table has.
#[derive(Clone, Copy)]
struct Tally {
    table: u32,
    count: u64,
}

/// How many row terms there are of the tables in order; the greatest `u64` where there are more.
pub(crate) fn count_terms(alloc: Global, tables: &[u32], asks: &[Ask]) -> Result<u64, NoMemory>
    ensures { IfOk result (λ count. count ≡ capped (length (terms_by asks.now [] tables.now))) }
{
    let mut tallies = Vec::new(alloc);
    let mut total: u64 = 0;
    for table in tables {
        let count = count_of_table(asks, &tallies, *table);
        total = total.saturating_add(count);
        tallies.push(Tally {
            table: *table,
            count,
        })?;
    }
    Ok(total)
}

/// How many terms the Exists nodes over the table give.
fn count_of_table(asks: &[Ask], tallies: &[Tally], table: u32) -> u64
    ensures { result ≡ capped (asks_tallied tallies.now table asks.now) }
{
    let mut count: u64 = 0;
    for ask in asks {
        if table == ask.table {
            count = count.saturating_add(count_of_lists(tallies, ask.foralls.as_slice()));
        }
    }
    count
}

/// How many lists of one term for each of the tables there are.
fn count_of_lists(tallies: &[Tally], tables: &[u32]) -> u64
    ensures { result ≡ capped (lists_tallied tallies.now tables.now) }
{
    let mut count: u64 = 1;
    for table in tables {
        count = count.saturating_mul(count_so_far(tallies, *table));
    }
    count
}

/// How many terms the table has.
fn count_so_far(tallies: &[Tally], table: u32) -> u64
    ensures { result ≡ capped (tallied tallies.now table) }
{
    let mut count: u64 = 0;
    for tally in tallies {
        if tally.table == table {
            count = count.saturating_add(tally.count);
        }
    }
    count
}
