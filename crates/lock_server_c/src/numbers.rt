//! What C's numbers ask for (`enum dehokuna_mode`, `enum dehokuna_policy`, ranges).
ghost use Rattle.std.specs.Prelude.{◌≡◌, IfSome};
ghost use Rattle.range_core.specs.Ranges.{IsByteRange};
ghost use Rattle.lock_server_c.specs.Numbers.{change_of, lock_of, mode_of, number_if, number_of, rules_for, span_of, wanted_of};

use lock_server::{Conversion, Mode, OFFMAX, Policy, Rules, Span};

/// The mode of a lock: 1 is a read lock, 2 a write lock.
pub(crate) fn mode(number: u32) -> Option<Mode>
    ensures { result ≡ mode_of number }
{
    match number {
        1 => Some(Mode::Read),
        2 => Some(Mode::Write),
        _ => None,
    }
}

/// The mode that is to be set: 0 is to remove what is held.
pub(crate) fn wanted(number: u32) -> Option<Option<Mode>>
    ensures { result ≡ wanted_of number }
{
    if number == 0 {
        return Some(None);
    }
    Some(Some(mode(number)?))
}

/// The number of a mode.
pub(crate) fn number(mode: Mode) -> u32
    ensures { result ≡ number_of mode }
{
    match mode {
        Mode::Read => 1,
        Mode::Write => 2,
    }
}

/// The rules: 0 is the policy of locks that are held alone, 1 the queue; or'd with 256, conversions by flock are atomic.
pub(crate) fn rules(number: u32) -> Option<Rules>
    ensures { result ≡ rules_for number }
{
    let (policy, conversion) = match number {
        0 => (Policy::Held, Conversion::Stepwise),
        1 => (Policy::Queue, Conversion::Stepwise),
        256 => (Policy::Held, Conversion::Atomic),
        257 => (Policy::Queue, Conversion::Atomic),
        _ => return None,
    };
    Some(Rules { policy, conversion })
}

/// The bytes from the first to the last one, to the end of the file where the last is behind [`OFFMAX`].
fn span(first: u64, last: u64) -> Option<Span>
    ensures is { result ≡ span_of first last }
    ensures range { IfSome result IsByteRange }
{
    if first <= last && first <= OFFMAX {
        let last = if last <= OFFMAX { last } else { OFFMAX };
        Some(Span { first, last })
    } else {
        None
    }
}

/// A lock on a range.
pub(crate) fn lock(first: u64, last: u64, mode_number: u32) -> Option<(Span, Mode)>
    ensures is { result ≡ lock_of first last mode_number }
    ensures range { IfSome result (λ asked. IsByteRange asked.0) }
{
    let span = span(first, last)?;
    let mode = mode(mode_number)?;
    Some((span, mode))
}

/// A mode to be set on a range, or removed there.
pub(crate) fn change(first: u64, last: u64, mode_number: u32) -> Option<(Span, Option<Mode>)>
    ensures is { result ≡ change_of first last mode_number }
    ensures range { IfSome result (λ asked. IsByteRange asked.0) }
{
    let span = span(first, last)?;
    let mode = wanted(mode_number)?;
    Some((span, mode))
}

/// The number, where there is one.
pub(crate) fn given(is_there: bool, number: u64) -> Option<u64>
    ensures { result ≡ number_if is_there number }
{
    if is_there { Some(number) } else { None }
}
