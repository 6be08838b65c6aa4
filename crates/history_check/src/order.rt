//! The order of a history's effects, by the lines of its text.
ghost use Rattle.std.specs.Prelude.{◌≡◌, ◌-◌, IfOk, OnOk, map, slice_index};
ghost use Rattle.history_check.specs.Verdicts.{by_number as by_number_of, numbers_behind};

use history_judge::FileHappening;
use history_text::HistoryLine;
use range_core::Memory;
use std::alloc::Global;

/// The numbers of the lines that tell something, with this one's, where it is one.
pub fn read_number(numbers: &mut Vec<u64>, number: u64, said: HistoryLine) -> Result<(), Memory>
    ensures { OnOk result (numbers.new.items ≡ numbers_behind number numbers.old.items said) }
{
    match said {
        HistoryLine::Skipped => Ok(()),
        HistoryLine::Sent { .. } | HistoryLine::Answered { .. } => Ok(numbers.push(number)?),
    }
}

/// What happened, each behind the line of the text that has the number.
pub fn by_number(
    alloc: Global,
    order: &[FileHappening],
    numbers: &[u64],
) -> Result<Vec<FileHappening>, Memory>
    ensures { IfOk result (λ told. told.items ≡ map (by_number_of numbers.now) order.now) }
{
    let told = order
        .iter()
        .map(|happening| FileHappening {
            behind: number_at(numbers, happening.behind),
            ..*happening
        })
        .collect(alloc)?;
    Ok(told)
}

/// The number of the last of so many lines that tell something.
fn number_at(numbers: &[u64], behind: u64) -> u64
    ensures { result ≡ slice_index numbers.now (behind - 1) }
{
    let place = behind.saturating_sub(1) as usize;
    numbers.get(place).copied().unwrap_or(0)
}
