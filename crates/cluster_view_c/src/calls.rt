//! The calls.
ghost use Rattle.std.specs.Prelude.{◌≡◌, ◌≤◌, ◌^◌, length};
ghost use Rattle.cluster_view_c.specs.Outcomes.{ArePartsOf, ArePresencesOf, DecidesTo, IsTold};

use crate::outcome;
use cluster_view::{Decision, Hello, Seat, View, decide, part_of, presence_of};

/// Decides, and writes what each member does; `view` and `giver` are written where there is a view.
#[unsafe(no_mangle)]
pub extern "C" fn cluster_view_decide(
    ring: u64,
    hellos: &[Hello],
    parts: &mut [u8],
    view: &mut View,
    giver: &mut u16,
) -> u32
    requires { length parts.old ≡ length hellos.now }
    ensures { DecidesTo ring hellos.now parts.new view.old view.new giver.old giver.new result }
{
    let decision = decide(ring, hellos);
    tell(decision, view, giver);
    if hellos.len() <= 65_536 {
        write_parts(decision, hellos, parts);
    }
    outcome::number(decision)
}

/// Writes the view and its giver, where there is one.
fn tell(decision: Decision, view: &mut View, giver: &mut u16)
    ensures { IsTold decision view.old view.new giver.old giver.new }
{
    match decision {
        Decision::GoesOn(next, base) => {
            *view = next;
            *giver = base.giver;
        }
        Decision::Begins(next) => {
            *view = next;
            *giver = 0;
        }
        Decision::NoView(_) => {}
    }
}

/// Writes what each member does.
fn write_parts(decision: Decision, hellos: &[Hello], parts: &mut [u8])
    requires same { length parts.old ≡ length hellos.now }
    requires few { length hellos.now ≤ 2 ^ 16 }
    ensures { ArePartsOf decision hellos.now parts.new }
{
    for (place, member) in hellos.iter().enumerate() {
        parts[place] = outcome::part(part_of(decision, hellos, member));
    }
}

/// Writes what each node of the configuration is to the view, which begins with no state or not.
#[unsafe(no_mangle)]
pub extern "C" fn cluster_view_presences(
    hellos: &[Hello],
    seats: &[Seat],
    begins: bool,
    presences: &mut [u8],
)
    requires { length presences.old ≡ length seats.now }
    ensures { ArePresencesOf hellos.now seats.now begins presences.new }
{
    for (place, seat) in seats.iter().enumerate() {
        presences[place] = outcome::presence(presence_of(hellos, *seat, begins));
    }
}
