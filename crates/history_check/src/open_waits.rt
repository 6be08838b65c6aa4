//! The requests that may wait and are open.
ghost use Rattle.std.specs.Prelude.{◌≡◌, ◌++◌, ◌∷◌, [], ◌==◌, OnOk, OnErr, filter, not};
ghost use Rattle.history_check.specs.Verdicts.{waits_behind};

use history_text::HistoryLine;
use range_core::Memory;

/// A request that may wait, and isn't answered.
#[derive(Clone, Copy, Debug, PartialEq, Eq)]
pub struct OpenWait {
    /// Its ID.
    pub id: u64,
    /// The number of the line that sent it.
    pub since: u64,
}

/// Those that are open behind what the line of this number says.
///
/// `Memory` leaves them as they were.
pub fn read_waits(waits: &mut Vec<OpenWait>, number: u64, said: HistoryLine) -> Result<(), Memory>
    ensures ok { OnOk result (waits.new.items ≡ waits_behind number waits.old.items said) }
    ensures err { OnErr result (waits.new.items ≡ waits.old.items) }
{
    match said {
        HistoryLine::Skipped => Ok(()),
        HistoryLine::Sent { request, .. } if request.action.may_wait() => {
            let wait = OpenWait {
                id: request.id,
                since: number,
            };
            push_wait(waits, wait)
        }
        HistoryLine::Sent { .. } => Ok(()),
        HistoryLine::Answered { id, .. } => {
            close_wait(waits, id);
            Ok(())
        }
    }
}

/// One more is open.
fn push_wait(waits: &mut Vec<OpenWait>, wait: OpenWait) -> Result<(), Memory>
    ensures ok { OnOk result (waits.new.items ≡ waits.old.items ++ wait ∷ []) }
    ensures err { OnErr result (waits.new.items ≡ waits.old.items) }
{
    waits.push(wait)?;
    Ok(())
}

/// The one of this ID isn't open any more.
fn close_wait(waits: &mut Vec<OpenWait>, id: u64)
    ensures { waits.new.items ≡ filter (λ wait. not (wait.id == id)) waits.old.items }
{
    waits.retain(|wait| wait.id != id);
}
