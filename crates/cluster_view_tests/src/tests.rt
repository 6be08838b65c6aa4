//! Rings of the rules' own examples: who gives, who takes, who loses its locks, and why there is no view.
use cluster_view::{
    Decision, Electorate, Hello, Mark, Part, Presence, Reason, Seat, State, Versions, View, decide,
    part_of, presence_of,
};
use std::process::Abort;
use std::test::Fail;

/// The votes of three nodes with one each.
const THREE: Electorate = Electorate {
    digest: 77,
    expected: 3,
};

/// The first view of the ring.
fn view(ring: u64) -> View {
    View { ring, count: 0 }
}

/// A member with one of three votes and no state.
fn newcomer(node: u16) -> Hello {
    Hello {
        state: no_state(),
        known: view(0),
        electorate: THREE,
        versions: Versions {
            table: 1,
            protocol: 1,
        },
        votes: 1,
        node,
        has_state: false,
    }
}

/// What stands for the state where there is none.
fn no_state() -> State {
    State {
        view: view(0),
        log: mark(0, 0),
        applied: mark(0, 0),
        electorate: Electorate {
            digest: 0,
            expected: 0,
        },
    }
}

/// So much, with this digest.
fn mark(length: u64, digest: u64) -> Mark {
    Mark { length, digest }
}

/// A member with a state of the ring's first view, and a log of this length.
fn holder(node: u16, ring: u64, length: u64) -> Hello {
    let mut hello = newcomer(node);
    hello.known = view(ring);
    hello.has_state = true;
    hello.state = State {
        view: view(ring),
        log: mark(length, length),
        applied: mark(0, 9),
        electorate: THREE,
    };
    hello
}

/// The members come to this.
fn assert_comes_to(rt: &impl Abort, hellos: &[Hello], wanted: Decision) {
    assert_eq!(rt; decide(9, hellos), wanted);
}

/// There is no view, for this reason.
fn assert_no_view(rt: &impl Abort, hellos: &[Hello], reason: Reason) {
    assert_comes_to(rt, hellos, Decision::NoView(reason));
}

/// The view goes on from this giver's log.
fn assert_goes_on(rt: &impl Abort, hellos: &[Hello], giver: u16, length: u64) {
    match decide(9, hellos) {
        Decision::GoesOn(next, base) => {
            assert_eq!(rt; next, view(9));
            assert_eq!(rt; base.giver, giver);
            assert_eq!(rt; base.log.length, length);
        }
        other => assert!(rt; false, "{other:?}"),
    }
}

/// The member does this.
fn assert_part(rt: &impl Abort, hellos: &[Hello], member: &Hello, wanted: Part) {
    assert!(rt; hellos.len() < 9);
    assert_eq!(rt; part_of(decide(9, hellos), hellos, member), wanted);
}

#[test]
fn the_longest_log_of_the_latest_view_goes_on(rt: HostRuntime) -> Result<(), Fail> {
    let hellos = [holder(3, 5, 7), holder(1, 5, 6), holder(2, 4, 99)];
    assert_goes_on(&rt, &hellos, 3, 7);
    assert_part(&rt, &hellos, &hellos[0], Part::Gives);
    assert_part(&rt, &hellos, &hellos[1], Part::CatchesUp);
    assert_part(&rt, &hellos, &hellos[2], Part::Takes);
    Ok(())
}

#[test]
fn the_least_node_gives(rt: HostRuntime) -> Result<(), Fail> {
    let hellos = [holder(3, 5, 7), holder(2, 5, 7), newcomer(1)];
    assert_goes_on(&rt, &hellos, 2, 7);
    assert_part(&rt, &hellos, &hellos[0], Part::HasAll);
    assert_part(&rt, &hellos, &hellos[2], Part::Takes);
    Ok(())
}

#[test]
fn a_state_that_a_majority_left_behind_is_gone(rt: HostRuntime) -> Result<(), Fail> {
    let hellos = [newcomer(1), holder(3, 5, 7)];
    assert_comes_to(&rt, &hellos, Decision::Begins(view(9)));
    assert_part(&rt, &hellos, &hellos[1], Part::BeginsAnew);
    Ok(())
}

#[test]
fn all_begin_with_none_at_the_first_start(rt: HostRuntime) -> Result<(), Fail> {
    let hellos = [newcomer(1), newcomer(2), newcomer(3)];
    assert_comes_to(&rt, &hellos, Decision::Begins(view(9)));
    assert_part(&rt, &hellos, &hellos[0], Part::BeginsAnew);
    Ok(())
}

#[test]
fn one_of_three_has_no_view(rt: HostRuntime) -> Result<(), Fail> {
    let hellos = [holder(1, 5, 7)];
    assert_no_view(&rt, &hellos, Reason::TooFewVotes);
    assert_part(&rt, &hellos, &hellos[0], Part::Suspended);
    Ok(())
}

#[test]
fn nobody_has_no_view(rt: HostRuntime) -> Result<(), Fail> {
    assert_no_view(&rt, &[], Reason::TooFewVotes);
    Ok(())
}

#[test]
fn two_of_four_votes_are_too_few(rt: HostRuntime) -> Result<(), Fail> {
    let mut one = newcomer(1);
    let mut two = newcomer(2);
    one.electorate.expected = 4;
    two.electorate.expected = 4;
    assert_no_view(&rt, &[one, two], Reason::TooFewVotes);
    one.votes = 2;
    assert_comes_to(&rt, &[one, two], Decision::Begins(view(9)));
    Ok(())
}

#[test]
fn a_node_speaks_once(rt: HostRuntime) -> Result<(), Fail> {
    assert_no_view(
        &rt,
        &[newcomer(1), newcomer(2), newcomer(1)],
        Reason::NodeTwice,
    );
    Ok(())
}

#[test]
fn versions_are_the_same(rt: HostRuntime) -> Result<(), Fail> {
    let mut two = newcomer(2);
    two.versions.table = 2;
    assert_no_view(
        &rt,
        &[newcomer(1), two, newcomer(3)],
        Reason::VersionsDiffer,
    );
    Ok(())
}

#[test]
fn votes_are_the_same_in_configurations_and_states(rt: HostRuntime) -> Result<(), Fail> {
    let mut two = newcomer(2);
    two.electorate.expected = 2;
    assert_no_view(&rt, &[newcomer(1), two, newcomer(3)], Reason::VotesDiffer);
    let mut three = holder(3, 5, 7);
    three.state.electorate.digest = 78;
    assert_no_view(&rt, &[newcomer(1), newcomer(2), three], Reason::VotesDiffer);
    Ok(())
}

#[test]
fn views_rise_within_a_ring(rt: HostRuntime) -> Result<(), Fail> {
    let mut two = newcomer(2);
    two.known = View { ring: 9, count: 4 };
    assert_comes_to(
        &rt,
        &[holder(1, 9, 7), two],
        Decision::Begins(View { ring: 9, count: 5 }),
    );
    Ok(())
}

#[test]
fn a_ring_that_went_back_has_no_view(rt: HostRuntime) -> Result<(), Fail> {
    assert_no_view(
        &rt,
        &[holder(1, 10, 7), holder(2, 10, 7)],
        Reason::RingNotRisen,
    );
    let mut two = newcomer(2);
    two.known = View {
        ring: 9,
        count: u64::MAX,
    };
    assert_no_view(&rt, &[newcomer(1), two], Reason::RingNotRisen);
    Ok(())
}

#[test]
fn a_table_that_differs_withdraws(rt: HostRuntime) -> Result<(), Fail> {
    let mut three = holder(3, 5, 7);
    three.state.applied = mark(0, 8);
    let hellos = [holder(1, 5, 7), holder(2, 5, 7), three];
    assert_no_view(&rt, &hellos, Reason::Diverged(view(5)));
    assert_part(&rt, &hellos, &hellos[0], Part::Suspended);
    assert_part(&rt, &hellos, &hellos[2], Part::Withdraws);
    Ok(())
}

#[test]
fn a_node_away_is_waited_for_where_the_view_begins(rt: HostRuntime) -> Result<(), Fail> {
    let hellos = [newcomer(1), newcomer(2)];
    let away = Seat {
        node: 3,
        in_ring: false,
    };
    let dead = Seat {
        node: 4,
        in_ring: true,
    };
    let member = Seat {
        node: 2,
        in_ring: true,
    };
    assert_eq!(rt; presence_of(&hellos, away, true), Presence::Awaited);
    assert_eq!(rt; presence_of(&hellos, away, false), Presence::Away);
    assert_eq!(rt; presence_of(&hellos, dead, true), Presence::Dead);
    assert_eq!(rt; presence_of(&hellos, member, true), Presence::Member);
    Ok(())
}
