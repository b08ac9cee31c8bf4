//! Lists that are put together.
ghost use Rattle.std.specs.Prelude.{◌≡◌, ◌++◌, IfOk};
ghost use Rattle.sql_bind.specs.inner.Meanings.{option_list};

use lint_base::{Items, NoMemory};

/// All of the one and then all of the other.
pub(crate) fn joined<T: Drop>(items: Items<T>, more: Items<T>) -> Result<Items<T>, NoMemory>
    ensures { IfOk result (λ all. all ≡ items ++ more) }
{
    let mut all = items.into_vec();
    let mut more = more.into_vec();
    all.append(&mut more)?;
    Ok(Items::from_vec(all))
}

/// The items, and one more if it is there.
pub(crate) fn with<T: Drop>(items: Items<T>, item: Option<T>) -> Result<Items<T>, NoMemory>
    ensures { IfOk result (λ all. all ≡ items ++ option_list item) }
{
    let mut all = items;
    if let Some(item) = item {
        all.push(item)?;
    }
    Ok(all)
}
