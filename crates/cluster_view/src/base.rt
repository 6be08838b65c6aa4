//! From whose state a view may go on.
ghost use Rattle.std.specs.Prelude.{◌≡◌, ◌↔◌, IsTrue};
ghost use Rattle.cluster_view.specs.Bases.{better_of, IsBaseSoFar, IsBetter, IsLatestSoFar, later_of};

use crate::hello::{Hello, Mark};
use crate::view::View;

/// The state that a view goes on from: that of the member with the longest log of the latest view that is told.
#[derive(Clone, Copy, Debug, PartialEq, Eq)]
pub struct Base {
    /// The view that the state is of.
    pub view: View,
    /// Its log.
    pub log: Mark,
    /// Who gives it: the least node of those that have all of that log.
    pub giver: u16,
}

/// The latest view of which a state is told.
pub(crate) fn latest(hellos: &[Hello]) -> Option<View>
    ensures { IsLatestSoFar hellos.now result }
{
    let mut latest = None;
    for hello in hellos {
        if hello.has_state {
            latest = Some(later(latest, hello.state.view));
        }
    }
    latest
}

/// The later of the two views.
fn later(latest: Option<View>, view: View) -> View
    ensures { result ≡ later_of latest view }
{
    match latest {
        Some(latest) if view.is_before(latest) => latest,
        _ => view,
    }
}

/// The state of the view to go on from.
pub(crate) fn base_of(hellos: &[Hello], view: View) -> Option<Base>
    ensures { IsBaseSoFar view hellos.now result }
{
    let mut base = None;
    for hello in hellos {
        if hello.tells(view) {
            base = Some(better(base, view, hello));
        }
    }
    base
}

/// The better of the state and the member's, which tells one of the view.
fn better(base: Option<Base>, view: View, hello: &Hello) -> Base
    ensures { result ≡ better_of base view hello.now }
{
    match base {
        Some(base) if !is_better(hello, base) => base,
        _ => Base {
            view,
            log: hello.state.log,
            giver: hello.node,
        },
    }
}

/// Whether the member has a longer log, or one as long and the lesser node.
fn is_better(hello: &Hello, base: Base) -> bool
    ensures { IsTrue result ↔ IsBetter hello.now base }
{
    let length = hello.state.log.length;
    length > base.log.length || length == base.log.length && hello.node < base.giver
}
