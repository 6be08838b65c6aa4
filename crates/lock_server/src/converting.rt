//! flock requests that may convert a lock: that one goes, and the request is then tested (flock(2), "Converting a lock").
ghost use Rattle.std.specs.Prelude.{◌≡◌, false};
ghost use Rattle.range_core.specs.Ranges.{IsByteRange};
ghost use Rattle.wait_core.specs.declared.Family.TheVariants.{Whole};
ghost use Rattle.lock_server.specs.Calls.{flock_request as flock_request_of, FlockFrom, FlockWaitFrom, no_ticket, Releases, ReleasesOn};
ghost use Rattle.lock_server.specs.Calls.{TestAtOnceComesTo, TestComesTo, WaitAtOnceComesTo, WaitComesTo};
ghost use Rattle.lock_server.specs.Settling.{HasAlready};
ghost use Rattle.lock_server.specs.States.{State};
ghost use Rattle.lock_server.specs.TableRoom.{HasFlockPlace, HasRoomFor, KeepsRoomOn};
ghost use Rattle.lock_server.specs.TableView.{IsSwept, KeepsOthers, StaysSafe, table_state};

use crate::requests::{NO_TICKET, flock_request};
use crate::table::Table;
use crate::{Answer, Conversion, Family, Mode, Pending, Policy, Rules, WaitAnswer};

/// A flock request that doesn't wait, of an owner with another mode, if any, in the place that is kept.
pub(crate) fn flock(
    table: &mut Table,
    rules: Rules,
    file: u64,
    owner: u64,
    held: Option<Mode>,
    mode: Mode,
) -> Answer
    requires { HasFlockPlace table.old file owner }
    ensures comes_to { FlockFrom rules (table_state table.old) file
        (flock_request_of no_ticket owner mode) held result (table_state table.new) }
    ensures safe { StaysSafe rules.policy table.old table.new }
    ensures others { KeepsOthers table.old table.new file }
    ensures swept { IsSwept table.new file }
{
    match held {
        None => flock_or_refuse(table, rules.policy, file, owner, mode),
        Some(_) => match rules.conversion {
            Conversion::Stepwise => {
                convert(table, rules.policy, file, owner);
                flock_or_refuse(table, rules.policy, file, owner, mode)
            }
            Conversion::Atomic => convert_or_refuse(table, rules.policy, file, owner, mode),
        },
    }
}

/// A flock request that may wait, of an owner with another mode, if any, in the room that was taken.
pub(crate) fn flock_wait(
    table: &mut Table,
    rules: Rules,
    file: u64,
    held: Option<Mode>,
    wanted: Pending,
) -> WaitAnswer
    requires range { IsByteRange wanted.span }
    requires flock { (wanted.family ≡ Family.Whole) × (wanted.detect ≡ false) }
    requires room { HasRoomFor table.old file wanted }
    ensures comes_to { FlockWaitFrom rules (table_state table.old) file
        wanted held result (table_state table.new) }
    ensures safe { StaysSafe rules.policy table.old table.new }
    ensures others { KeepsOthers table.old table.new file }
    ensures swept { IsSwept table.new file }
{
    let Some(_) = held else {
        return flock_or_wait(table, rules.policy, file, wanted);
    };
    match rules.conversion {
        Conversion::Stepwise => {
            convert(table, rules.policy, file, wanted.owner);
            flock_or_wait(table, rules.policy, file, wanted)
        }
        Conversion::Atomic => convert_or_wait(table, rules.policy, file, wanted),
    }
}

/// The first half of a conversion step by step: the flock lock of the holder is removed, and the file is settled.
fn convert(table: &mut Table, policy: Policy, file: u64, holder: u64)
    requires { HasFlockPlace table.old file holder }
    ensures converts { Releases policy (table_state table.old) file Whole holder (table_state table.new) }
    ensures room { KeepsRoomOn table.old table.new file }
    ensures safe { StaysSafe policy table.old table.new }
    ensures others { KeepsOthers table.old table.new file }
{
    table.set_flock(file, holder, None);
    table.settle(policy, file);
}

/// The second half where the request doesn't wait: it is tested, and set in the place that is kept.
fn flock_or_refuse(table: &mut Table, policy: Policy, file: u64, owner: u64, mode: Mode) -> Answer
    requires { HasFlockPlace table.old file owner }
    ensures comes_to { TestComesTo policy (table_state table.old) file (flock_request_of no_ticket owner mode) result (table_state table.new) }
    ensures safe { StaysSafe policy table.old table.new }
    ensures others { KeepsOthers table.old table.new file }
    ensures swept { IsSwept table.new file }
{
    let wanted = flock_request(NO_TICKET, owner, mode);
    if table.holds_back(file, &wanted) {
        table.give_back_place(file, owner);
        return Answer::Blocked;
    }
    table.set_flock(file, owner, Some(mode));
    table.settle(policy, file);
    Answer::Done
}

/// The second half where the request may wait: it is set or joins the waits, in the room that was taken.
fn flock_or_wait(table: &mut Table, policy: Policy, file: u64, wanted: Pending) -> WaitAnswer
    requires range { IsByteRange wanted.span }
    requires flock { (wanted.family ≡ Family.Whole) × (wanted.detect ≡ false) }
    requires room { HasRoomFor table.old file wanted }
    ensures comes_to { WaitComesTo policy (table_state table.old) file wanted result (table_state table.new) }
    ensures safe { StaysSafe policy table.old table.new }
    ensures others { KeepsOthers table.old table.new file }
    ensures swept { IsSwept table.new file }
{
    if table.blocks(policy, file, &wanted) {
        table.join(file, wanted);
        return WaitAnswer::Waits;
    }
    table.set_flock(file, wanted.owner, Some(wanted.mode));
    table.give_back(wanted.ticket);
    table.settle(policy, file);
    WaitAnswer::Done
}

/// An atomic conversion that doesn't wait: the flock lock is removed, the request is tested and set in the place that is kept, and
/// then the file is settled.
fn convert_or_refuse(table: &mut Table, policy: Policy, file: u64, owner: u64, mode: Mode) -> Answer
    requires { HasFlockPlace table.old file owner }
    ensures comes_to { (between : State) × ReleasesOn (table_state table.old) file Whole owner between
        × TestAtOnceComesTo policy between file (flock_request_of no_ticket owner mode) result (table_state table.new) }
    ensures safe { StaysSafe policy table.old table.new }
    ensures others { KeepsOthers table.old table.new file }
    ensures swept { IsSwept table.new file }
{
    let wanted = flock_request(NO_TICKET, owner, mode);
    table.set_flock(file, owner, None);
    if table.holds_back(file, &wanted) {
        table.settle(policy, file);
        table.give_back_place(file, wanted.owner);
        return Answer::Blocked;
    }
    table.set_flock(file, owner, Some(mode));
    table.settle(policy, file);
    Answer::Done
}

/// The same where the request may wait: it joins the waits where it is blocked, in the room that was taken.
fn convert_or_wait(table: &mut Table, policy: Policy, file: u64, wanted: Pending) -> WaitAnswer
    requires range { IsByteRange wanted.span }
    requires flock { (wanted.family ≡ Family.Whole) × (wanted.detect ≡ false) }
    requires room { HasRoomFor table.old file wanted }
    ensures comes_to { (between : State) × ReleasesOn (table_state table.old) file Whole wanted.owner between
        × WaitAtOnceComesTo policy (HasAlready ((table_state table.old).files file) wanted) between file wanted result
        (table_state table.new) }
    ensures safe { StaysSafe policy table.old table.new }
    ensures others { KeepsOthers table.old table.new file }
    ensures swept { IsSwept table.new file }
{
    let had = table.has_already(file, &wanted);
    table.set_flock(file, wanted.owner, None);
    if table.blocks_unless(policy, file, &wanted, had) {
        table.join(file, wanted);
        table.settle(policy, file);
        table.sweep(file);
        return WaitAnswer::Waits;
    }
    table.set_flock(file, wanted.owner, Some(wanted.mode));
    table.give_back(wanted.ticket);
    table.settle(policy, file);
    WaitAnswer::Done
}
