ghost use Rattle.std.specs.Prelude.{◌≡◌, ◌≤◌, length, None, Some, IsOk, IfOk, OnOk, OnErr, true};
ghost use Rattle.pit_fib.specs.declared.face_set.TheConstants.{MAX_FACES};
ghost use Rattle.pit_fib.specs.FaceSet.{IsRising, has_face};
ghost use Rattle.mgmt_core.specs.Reading.{asked};
ghost use Rattle.mgmt_core.specs.Room.{IsKeptOrEnded, IsPrepared};
ghost use Rattle.mgmt_core.specs.declared.action.Action.TheVariants as actions;
ghost use Rattle.mgmt_core.specs.Tables.{AllAreUp, CachedAfter, choices_after, face_of, if_done, key_of, route_asked, routes_after, status_of, strategy_asked, with_choice};
ghost use Rattle.mgmt_core.specs.Steps.{add_status, register_status, set_status};
ghost use Rattle.mgmt_core.specs.Writing.{body_after};
ghost use Rattle.ndn_names.specs.View.{components};
ghost use Rattle.pit_fib.specs.Fib.{HasRoomFor, route_refusal, with_next_hop, with_route};
ghost use Rattle.pit_fib.specs.Refusal.{refusal};

use crate::action::Action;
use crate::command::Command;
use crate::outcome::{Applied, Octets};
use crate::tables::Tables;
use crate::types::{FACE_NOT_OPEN, OK, PREFIX_TOO_LONG, TABLE_FULL, UNKNOWN_STRATEGY};
use ndn_tlv::Memory;
use pit_fib::{Faces, Fib, MAX_DEPTH, StrategyTable};

/// Applies a command to the tables. The command came from `face`. `now` is in milliseconds since
/// 1970. `up` contains the faces that are up. Each face that has a next hop or a route must be in
/// `up`.
///
/// Returns the body of the reply, and the first status that applies, in this order:
/// - 414 if `command.name` has more than 32 components (`fib/add-nexthop`, `rib/register`,
///   `strategy-choice/set`);
/// - 410 if the face of the next hop or route is not up (`fib/add-nexthop`, `rib/register`);
/// - 404 if the strategy does not exist (`strategy-choice/set`);
/// - 503 if `command.name` is new and the table already has 4,096 names (`fib/add-nexthop`,
///   `rib/register`, `strategy-choice/set`), or the route is new and the table already has 16,384
///   routes (`rib/register`);
/// - 200 if none of these statuses applies. Commands that this list does not name, such as
///   `rib/unregister`, always have status 200.
///
/// Only a command with status 200 changes a table. If memory runs out, `Memory` is returned and no
/// table changes. Memory can run out only for a command whose status would be 200 and that was not
/// prepared.
///
/// If `rib/register` gives a lifetime, the registered route expires at the end of this lifetime, or
/// at the time `u64::MAX` if that is earlier. A registered route replaces the route with the same
/// name, face and origin.
pub fn apply(
    tables: &mut Tables,
    command: &Command<'_>,
    face: u64,
    up: &Faces,
    now: u64,
) -> Result<Applied, Memory>
    requires { AllAreUp tables.old.fib.table up.now }
    ensures status { IfOk result (λ a. a.status ≡ status_of (asked command.now) face up.now
        tables.old.fib.table tables.old.strategies.table) }
    ensures body { IfOk result (λ a. a.body ≡ body_after (asked command.now) face a.status) }
    ensures routes { IfOk result (λ a. tables.new.fib.table ≡ if_done a.status
        (routes_after (asked command.now) face now tables.old.fib.table) tables.old.fib.table) }
    ensures choices { IfOk result (λ a. tables.new.strategies.table ≡ if_done a.status
        (choices_after (asked command.now) tables.old.strategies.table)
        tables.old.strategies.table) }
    ensures cached { OnOk result (CachedAfter (asked command.now)
        tables.old.store.cached tables.new.store.cached) }
    ensures capacity { tables.new.store.capacity ≡ tables.old.store.capacity }
    ensures err_routes { OnErr result (tables.new.fib.table ≡ tables.old.fib.table) }
    ensures err_choices { OnErr result (tables.new.strategies.table ≡ tables.old.strategies.table) }
    ensures err_store { OnErr result (tables.new.store ≡ tables.old.store) }
    ensures cause { OnErr result (status_of (asked command.now) face up.now
        tables.old.fib.table tables.old.strategies.table ≡ OK) }
    ensures left_routes { IsKeptOrEnded tables.old.fib.prepared tables.new.fib.prepared }
    ensures left_choices { IsKeptOrEnded
        tables.old.strategies.prepared tables.new.strategies.prepared }
    ensures promised { IsPrepared tables.old (asked command.now) → IsOk result }
{
    let status = status_in(tables, command, face, up);
    if status != OK {
        return Ok(Applied {
            status,
            body: Octets::new(tables.alloc),
        });
    }
    let face = command.face_from(face);
    let body = tables.room.body_of(tables.alloc, command, face)?;
    match command.action {
        Action::AddNexthop => add_nexthop(&mut tables.fib, command, face)?,
        Action::RemoveNexthop => tables.fib.remove(command.name, face),
        Action::Register => register(&mut tables.fib, command, face, now)?,
        Action::Unregister => tables.fib.unregister(command.name, face, command.origin),
        Action::SetStrategy => set_strategy(&mut tables.strategies, command)?,
        Action::UnsetStrategy => tables.strategies.unset(command.name),
        Action::EraseCache => {
            tables.store.erase(command.name, command.count);
        }
    }
    Ok(Applied { status, body })
}

/// Returns the status of a command.
fn status_in(tables: &Tables, command: &Command<'_>, face: u64, up: &Faces) -> u16
    requires { AllAreUp tables.now.fib.table up.now }
    ensures exact { result ≡ status_of (asked command.now) face up.now
        tables.now.fib.table tables.now.strategies.table }
    ensures room_to_add { command.now.action ≡ actions.AddNexthop → result ≡ OK
        → HasRoomFor tables.now.fib.table (face_of (asked command.now) face) }
    ensures room_to_register { command.now.action ≡ actions.Register → result ≡ OK
        → HasRoomFor tables.now.fib.table (face_of (asked command.now) face) }
{
    match command.action {
        Action::AddNexthop => add_status(&tables.fib, command, command.face_from(face), up),
        Action::Register => register_status(&tables.fib, command, command.face_from(face), up),
        Action::SetStrategy => set_status(&tables.strategies, command),
        Action::RemoveNexthop | Action::Unregister | Action::UnsetStrategy | Action::EraseCache =>
            OK,
    }
}

/// Returns the status of a command that adds a next hop on this face.
fn add_status(fib: &Fib, command: &Command<'_>, face: u64, up: &Faces) -> u16
    requires { AllAreUp fib.now.table up.now }
    ensures exact { result ≡ add_status (components command.now.name) face up.now fib.now.table }
    ensures room { result ≡ OK → HasRoomFor fib.now.table face }
{
    if command.name.len() > MAX_DEPTH {
        return PREFIX_TOO_LONG;
    }
    if !is_up(face, up) {
        return FACE_NOT_OPEN;
    }
    if fib.refusal_of(command.name).is_some() {
        return TABLE_FULL;
    }
    OK
}

/// Returns the status of a command that registers a route on this face.
fn register_status(fib: &Fib, command: &Command<'_>, face: u64, up: &Faces) -> u16
    requires { AllAreUp fib.now.table up.now }
    ensures exact { result ≡ register_status (components command.now.name)
        (record { face = face; origin = command.now.origin }) up.now fib.now.table }
    ensures room { result ≡ OK → HasRoomFor fib.now.table face }
{
    if command.name.len() > MAX_DEPTH {
        return PREFIX_TOO_LONG;
    }
    if !is_up(face, up) {
        return FACE_NOT_OPEN;
    }
    if fib
        .route_refusal_of(command.name, face, command.origin)
        .is_some()
    {
        return TABLE_FULL;
    }
    OK
}

/// Returns the status of a command that sets a strategy.
fn set_status(choices: &StrategyTable, command: &Command<'_>) -> u16
    ensures { result ≡ set_status (components command.now.name)
        (strategy_asked (asked command.now)) choices.now.table }
{
    if command.name.len() > MAX_DEPTH {
        return PREFIX_TOO_LONG;
    }
    if command.strategy().is_none() {
        return UNKNOWN_STRATEGY;
    }
    if choices.refusal_of(command.name).is_some() {
        return TABLE_FULL;
    }
    OK
}

/// Gives `command.name` a next hop on this face. If the name already has a next hop on this face,
/// sets the cost of this next hop. Precondition: the command is not refused.
fn add_nexthop(fib: &mut Fib, command: &Command<'_>, face: u64) -> Result<(), Memory>
    requires room { HasRoomFor fib.old.table face }
    requires taken { refusal fib.old.table (components command.now.name) ≡ None }
    ensures ok { OnOk result (fib.new.table
        ≡ with_next_hop fib.old.table (components command.now.name) face command.now.cost) }
    ensures err { OnErr result (fib.new.table ≡ fib.old.table) }
    ensures ended { fib.new.prepared ≡ None }
    ensures promised { fib.old.prepared ≡ Some (components command.now.name) → IsOk result }
{
    match fib.add(command.name, face, command.cost) {
        Ok(()) => Ok(()),
        Err(_) => Err(Memory),
    }
}

/// Registers a route on this face at the time `now`. Precondition: no status other than 200
/// applies.
fn register(fib: &mut Fib, command: &Command<'_>, face: u64, now: u64) -> Result<(), Memory>
    requires room { HasRoomFor fib.old.table face }
    requires taken { route_refusal fib.old.table (components command.now.name)
        (record { face = face; origin = command.now.origin }) ≡ None }
    ensures ok { OnOk result (fib.new.table ≡ with_route fib.old.table
        (components command.now.name) (record { face = face; origin = command.now.origin })
        (route_asked (asked command.now) now)) }
    ensures err { OnErr result (fib.new.table ≡ fib.old.table) }
    ensures ended { fib.new.prepared ≡ None }
    ensures promised { fib.old.prepared ≡ Some (components command.now.name) → IsOk result }
{
    let deadline = command.deadline_from(now);
    match fib.register(
        command.name,
        face,
        command.origin,
        command.cost,
        command.flags,
        deadline,
    ) {
        Ok(()) => Ok(()),
        Err(_) => Err(Memory),
    }
}

/// Sets the command's strategy for `command.name`. Changes nothing if the command names no known
/// strategy. Precondition: the table does not refuse `command.name`.
fn set_strategy(choices: &mut StrategyTable, command: &Command<'_>) -> Result<(), Memory>
    requires { refusal choices.old.table (components command.now.name) ≡ None }
    ensures ok { OnOk result (choices.new.table ≡ with_choice choices.old.table
        (components command.now.name) (strategy_asked (asked command.now))) }
    ensures err { OnErr result (choices.new.table ≡ choices.old.table) }
    ensures left { IsKeptOrEnded choices.old.prepared choices.new.prepared }
    ensures promised { choices.old.prepared ≡ Some (components command.now.name) → IsOk result }
{
    let Some(strategy) = command.strategy() else {
        return Ok(());
    };
    match choices.set(command.name, strategy) {
        Ok(()) => Ok(()),
        Err(_) => Err(Memory),
    }
}

/// Returns whether the face is up.
fn is_up(face: u64, up: &Faces) -> bool
    ensures exact { result ≡ has_face face up.now }
    ensures small { result ≡ true → length up.now ≤ MAX_FACES }
    ensures rising { result ≡ true → IsRising up.now }
{
    up.len() > 0 && up.contains(face)
}
