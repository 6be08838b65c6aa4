//! What stands in the place of the runs that a set touches.
ghost use Rattle.std.specs.Prelude.{◌≡◌, ◌↔◌, All, IsTrue, Some};
ghost use Rattle.std.specs.Option.{option_to_list};
ghost use Rattle.range_core.specs.Ranges.{IsByteRange};
ghost use Rattle.range_core.specs.Replacing.{own_run as own_run_of, AreInOrder, IsLeftEnd, IsReplacement, IsRightEnd, Touches};

use crate::{Mode, Span};
use arrayvec::ArrayVec;

/// What a set of the mode on the span leaves in the place of the runs that it touches: what sticks out of the span before
/// it and behind it, and between the two the set's own run, which is one with a piece of its mode.
pub fn replacement(
    touched: &[(Mode, Span)],
    span: Span,
    mode: Option<Mode>,
) -> ArrayVec<(Mode, Span), 3>
    requires span { IsByteRange span }
    requires in_order { AreInOrder touched.now }
    requires touched { All (Touches span) touched.now }
    ensures { IsReplacement touched.now span mode result.items }
{
    let (first, before) = left_end(touched, span, mode);
    let (last, behind) = right_end(touched, span, mode);
    let mut put = ArrayVec::new();
    for run in [before, own_run(mode, first, last), behind] {
        if let Some(run) = run {
            put.push(run);
        }
    }
    put
}

/// The set's own run, and none where the set is an unlock.
fn own_run(mode: Option<Mode>, first: u64, last: u64) -> Option<(Mode, Span)>
    ensures { option_to_list result ≡ own_run_of mode first last }
{
    Some((mode?, Span { first, last }))
}

/// Whether a set of the mode makes one run with a piece of the mode that is held beside it.
fn joins(mode: Option<Mode>, held: Mode) -> bool
    ensures { IsTrue result ↔ (mode ≡ Some held) }
{
    mode == Some(held)
}

/// Where the set's own run begins, and the piece of the first touched run that stays before it.
fn left_end(touched: &[(Mode, Span)], span: Span, mode: Option<Mode>) -> (u64, Option<(Mode, Span)>)
    requires span { IsByteRange span }
    requires in_order { AreInOrder touched.now }
    requires touched { All (Touches span) touched.now }
    ensures { IsLeftEnd touched.now span mode result.0 (option_to_list result.1) }
{
    match touched.first() {
        Some((held, run)) if run.first < span.first => {
            if joins(mode, *held) {
                return (run.first, None);
            }
            let piece = Span {
                first: run.first,
                last: span.first - 1,
            };
            (span.first, Some((*held, piece)))
        }
        _ => (span.first, None),
    }
}

/// Where the set's own run ends, and the piece of the last touched run that stays behind it.
fn right_end(
    touched: &[(Mode, Span)],
    span: Span,
    mode: Option<Mode>,
) -> (u64, Option<(Mode, Span)>)
    requires span { IsByteRange span }
    requires in_order { AreInOrder touched.now }
    requires touched { All (Touches span) touched.now }
    ensures { IsRightEnd touched.now span mode result.0 (option_to_list result.1) }
{
    match touched.last() {
        Some((held, run)) if span.last < run.last => {
            if joins(mode, *held) {
                return (run.last, None);
            }
            let piece = Span {
                first: span.last + 1,
                last: run.last,
            };
            (span.last, Some((*held, piece)))
        }
        _ => (span.last, None),
    }
}
