//! The range that a lock description names.
ghost use Rattle.std.specs.Prelude.{◌≡◌, ◌≤◌, ◌+ℤ◌, ◌≤ℤ◌, pos, IfOk};
ghost use Rattle.range_core.specs.Ranges.{IsByteRange};
ghost use Rattle.range_core.specs.Resolving.{resolution, IsNearFile, base_of, first_byte as first_byte_of, last_byte as last_byte_of, range_between as range_between_of};

use crate::{OFFMAX, RangeFault, Span, Whence};

/// The range that a lock description names: `start` bytes from where `whence` counts, and from there `len` bytes on, or
/// back where `len` is negative, or to the largest offset where it is zero (POSIX.1-2017 fcntl, `struct flock`).
///
/// `offset` is that of the open file description and `size` the size of the file, each at most [`OFFMAX`]. The fault is
/// `Invalid` where the first byte lies before the file, and `Overflow` where the first byte, or with a length other than
/// zero the last, lies past [`OFFMAX`]. The bytes alone are judged (this project's choice).
pub fn resolve(
    whence: Whence,
    start: i64,
    len: i64,
    offset: u64,
    size: u64,
) -> Result<Span, RangeFault>
    requires offset { offset ≤ OFFMAX }
    requires size { size ≤ OFFMAX }
    ensures resolution { result ≡ resolution whence start len offset size }
    ensures range { IfOk result IsByteRange }
{
    let place = place(base(whence, offset, size), start);
    range_between(first_byte(place, len), last_byte(place, len))
}

/// The byte that the start is counted from.
fn base(whence: Whence, offset: u64, size: u64) -> u64
    ensures { result ≡ base_of whence offset size }
{
    match whence {
        Whence::Set => 0,
        Whence::Cur => offset,
        Whence::End => size,
    }
}

/// The place that lies so many bytes from the base.
fn place(base: u64, start: i64) -> i128
    requires { base ≤ OFFMAX }
    ensures place { result ≡ pos base +ℤ start }
    ensures near { IsNearFile result }
{
    i128::from(base) + i128::from(start)
}

/// The first byte of a range of this length at this place, wherever it lies.
fn first_byte(place: i128, len: i64) -> i128
    requires { IsNearFile place }
    ensures { result ≡ first_byte_of place len }
{
    if len < 0 {
        place + i128::from(len)
    } else {
        place
    }
}

/// The last byte of a range of this length at this place, wherever it lies.
fn last_byte(place: i128, len: i64) -> i128
    requires { IsNearFile place }
    ensures { result ≡ last_byte_of place len }
{
    if len < 0 {
        place - 1
    } else if len == 0 {
        i128::from(OFFMAX)
    } else {
        place + (i128::from(len) - 1)
    }
}

/// The range from the first byte to the last, where both lie in a file.
fn range_between(first: i128, last: i128) -> Result<Span, RangeFault>
    requires { pos 0 ≤ℤ first → pos 0 ≤ℤ last }
    ensures { result ≡ range_between_of first last }
{
    let largest = i128::from(OFFMAX);
    if first < 0 {
        Err(RangeFault::Invalid)
    } else if first > largest || last > largest {
        Err(RangeFault::Overflow)
    } else {
        Ok(Span {
            first: first as u64,
            last: last as u64,
        })
    }
}
