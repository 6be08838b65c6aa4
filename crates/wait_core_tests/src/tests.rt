//! Waits and cycles beside a list that is searched anew, under both policies, and as many waits as there may be processes.
ghost use Rattle.std.specs.Prelude.{◌≡◌};

mod sequences;

use range_core::Span;

/// So many bytes of a file.
fn bytes(first: u64, last: u64) -> Span
    ensures { (result.first ≡ first) × (result.last ≡ last) }
{
    Span { first, last }
}
