//! Bindings and points from texts.
use lint_base::{Items, NoMemory};
use lint_core::{Binding, Points};
use std::alloc::Global;

/// Row places. A word that is no place is none.
fn places(alloc: Global, text: &str) -> Result<Items<u32>, NoMemory> {
    let mut places = Items::new(alloc);
    for word in text.split_whitespace() {
        if let Ok(place) = word.parse::<u32>() {
            places.push(place)?;
        }
    }
    Ok(places)
}

/// Row places, with `/` between levels.
pub(crate) fn binding(alloc: Global, text: &str) -> Result<Binding, NoMemory> {
    let mut levels = Items::new(alloc);
    for part in text.split('/') {
        levels.push(places(alloc, part)?)?;
    }
    Ok(Binding { levels })
}

/// Points: a binding, two with `&` between them, or one of the others, after `without`.
pub(crate) fn points(alloc: Global, text: &str) -> Result<Points, NoMemory> {
    if let Some(others) = text.strip_prefix("without") {
        return Ok(Points::Without(binding(alloc, others)?));
    }
    match text.split_once('&') {
        Some((one, two)) => Ok(Points::Two(binding(alloc, one)?, binding(alloc, two)?)),
        None => Ok(Points::One(binding(alloc, text)?)),
    }
}
