//! The request that a note is about, as an entry writes it.
ghost use Rattle.std.specs.Prelude.{◌≡◌, ◌+◌, ◌≤◌, ◌++◌, codes, drop, true};
ghost use Rattle.script_core.specs.declared.noted.TheConstants.{NOTED_MAX};
ghost use Rattle.script_core.specs.EntryText.{tag};

use itoa::write_digits;

/// The most bytes of a note's request: ` | `, the digits of a process of 8 bits, a number sign and the digits of a number of 64.
const NOTED_MAX: usize = 27;

/// A request's process and number, spelled once for its entry and for the note that answers it.
#[derive(Drop)]
pub struct Noted {
    p: u8,
    n: u64,
    room: [u8; NOTED_MAX],
    start: usize,
    ghost fits: { start + 3 ≤ NOTED_MAX },
    ghost spelled: { drop start room ≡ codes " | " ++ tag p n },
}

impl Noted {
    /// The request of this number of the process.
    pub fn new(p: u8, n: u64) -> Noted
        ensures { (result.p ≡ p) × (result.n ≡ n) }
    {
        let mut room = [0; NOTED_MAX];
        let sign = write_digits(n, &mut room, NOTED_MAX) - 1;
        room[sign] = b'#';
        let process = write_digits(u64::from(p), &mut room, sign);
        room[process - 1] = b' ';
        room[process - 2] = b'|';
        room[process - 3] = b' ';
        Noted {
            p,
            n,
            room,
            start: process - 3,
        }
    }

    /// Whether it is this request.
    pub fn is(&self, p: u8, n: u64) -> bool
        ensures { result ≡ true → (p ≡ self.now.p) × (n ≡ self.now.n) }
    {
        self.p == p && self.n == n
    }

    /// Its process and number, behind a bar as a note about it begins.
    pub fn behind_bar(&self) -> &[u8]
        ensures { result.now ≡ codes " | " ++ tag self.now.p self.now.n }
    {
        &self.room[self.start..]
    }

    /// Its process and number alone.
    pub fn tag(&self) -> &[u8]
        ensures { result.now ≡ tag self.now.p self.now.n }
    {
        &self.behind_bar()[3..]
    }
}
