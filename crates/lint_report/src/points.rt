//! The points at which a question fails, as `specs/Text.antt` says them.
ghost use Rattle.std.specs.Prelude.{◌≡◌, ◌+◌, ◌++◌, OnOk, codes, string_bytes};
ghost use Rattle.std.specs.Fmt.{decimal};
ghost use Rattle.insert_lines.specs.InsertText.{texts, joined};
ghost use Rattle.lint_report.specs.Text.{level_text, places_text, points_text, at_line};

use crate::pushing::{push_number, push_text};
use lint_base::Items;
use lint_core::Points;
use std::alloc::AllocError;

fn push_more_places(out: &mut String, places: &[u32]) -> Result<(), AllocError>
    ensures { OnOk result
        (string_bytes out.new ≡ string_bytes out.old
        ++ texts (λ p. codes "," ++ decimal (p + 1)) places.now) }
{
    for place in places {
        push_text(out, ",")?;
        push_number(out, u64::from(*place) + 1)?;
    }
    Ok(())
}

#[tactic(auto, unfolding(crate::specs::Text::level_text))]
fn push_level(out: &mut String, places: &[u32]) -> Result<(), AllocError>
    ensures { OnOk result (string_bytes out.new ≡ string_bytes out.old ++ level_text places.now) }
{
    match places.split_first() {
        Some((first, more)) => {
            push_number(out, u64::from(*first) + 1)?;
            push_more_places(out, more)
        }
        None => push_text(out, "-"),
    }
}

fn push_more_levels(out: &mut String, levels: &[Items<u32>]) -> Result<(), AllocError>
    ensures { OnOk result
        (string_bytes out.new ≡ string_bytes out.old
        ++ texts (λ l. codes "/" ++ level_text l) levels.now) }
{
    for level in levels {
        push_text(out, "/")?;
        push_level(out, level.as_slice())?;
    }
    Ok(())
}

#[tactic(auto, unfolding(crate::specs::Text::places_text))]
fn push_levels(out: &mut String, levels: &[Items<u32>]) -> Result<(), AllocError>
    ensures { OnOk result (string_bytes out.new ≡ string_bytes out.old ++ places_text levels.now) }
{
    match levels.split_first() {
        Some((first, more)) => {
            push_level(out, first.as_slice())?;
            push_more_levels(out, more)
        }
        None => push_text(out, "-"),
    }
}

#[tactic(auto, unfolding(crate::specs::Text::points_text))]
fn push_points(out: &mut String, points: &Points) -> Result<(), AllocError>
    ensures { OnOk result (string_bytes out.new ≡ string_bytes out.old ++ points_text points.now) }
{
    match points {
        Points::One(binding) => push_levels(out, binding.levels.as_slice()),
        Points::Two(one, two) => {
            push_levels(out, one.levels.as_slice())?;
            push_text(out, " and ")?;
            push_levels(out, two.levels.as_slice())
        }
        Points::Without(binding) => {
            push_levels(out, binding.levels.as_slice())?;
            push_text(out, " with no row")
        }
    }
}

#[tactic(auto, unfolding(crate::specs::Text::at_line))]
pub(crate) fn push_at(out: &mut String, points: &Points) -> Result<(), AllocError>
    ensures { OnOk result (string_bytes out.new ≡ string_bytes out.old ++ at_line points.now) }
{
    push_text(out, "    at ")?;
    push_points(out, points)?;
    push_text(out, "\n")
}
