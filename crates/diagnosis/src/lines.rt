//! The lines of a file.
ghost use Rattle.std.specs.Prelude.{◌≡◌, ◌<◌, ◌∷◌, ◌==◌, MatchOption, length, position};
ghost use Rattle.script_core.specs.Words.{lines_of};
ghost use Rattle.diagnosis.specs.Lines.{IsLineAt};

use memchr::memchr;

/// The line of this number, counted from 1, without its line feed; `None` where there are fewer lines, and for 0.
#[tactic(auto, using(crate::proofs::LineLemmas::none_read, crate::proofs::LineLemmas::one_read, crate::proofs::LineLemmas::line_read, crate::proofs::LineLemmas::all_read))]
pub fn line_at(bytes: &[u8], number: u64) -> Option<&[u8]>
    ensures { MatchOption result (0 < number → length (lines_of bytes.now) < number) (λ line. IsLineAt bytes.now number line.now) }
{
    if number == 0 {
        return None;
    }
    let mut rest = bytes;
    for _ in 1..number {
        if rest.is_empty() {
            return None;
        }
        rest = first_line(rest).1;
    }
    if rest.is_empty() {
        return None;
    }
    Some(first_line(rest).0)
}

/// The first line, and what stands behind its line feed.
#[tactic(auto, using(crate::proofs::LineLemmas::lines_last, crate::proofs::LineLemmas::lines_cut))]
fn first_line(bytes: &[u8]) -> (&[u8], &[u8])
    requires { 0 < length bytes.now }
    ensures { lines_of bytes.now ≡ result.0.now ∷ lines_of result.1.now }
{
    match first_feed(bytes) {
        Some(end) => (&bytes[..end], &bytes[end + 1..]),
        None => (bytes, &[]),
    }
}

/// Where the first line feed stands.
#[tactic(auto, using(crate::proofs::LineLemmas::found_first))]
fn first_feed(bytes: &[u8]) -> Option<usize>
    ensures { result ≡ position (λ byte. byte == 10) bytes.now }
{
    memchr(b'\n', bytes)
}
