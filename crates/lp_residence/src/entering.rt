//! Objects come back.
ghost use Rattle.std.specs.Prelude.{◌≡◌, All, IfErr, IfOk, IsSome, List, None, Ok, OnErr, OnOk, Some, length, ℕ};
ghost use Rattle.std.specs.Option.{option_copied};
ghost use Rattle.lp_cells.specs.Cells.{IsThere};
ghost use Rattle.lp_code.specs.declared.program.RawProgram.{RawProgram as Raw};
ghost use Rattle.lp_language.specs.World.{World};
ghost use Rattle.lp_swapfile.specs.Counts.{Counts};
ghost use Rattle.lp_swapper.specs.Swap.{IsOutAt};
ghost use Rattle.lp_swapper.specs.declared.ticket.Ticket.{Ticket as T};
ghost use Rattle.lp_world.specs.Closed.{IsClosed, variables_in};
ghost use Rattle.lp_world.specs.Rows.{object_ticket, row_at, state_in};
ghost use Rattle.lp_world.specs.Stands.{Stands};
ghost use Rattle.lp_world.specs.declared.objects.Object.{Object as O};
ghost use Rattle.lp_residence.specs.Entering.{AreTakenWithout, AreValuesOf, CanGiveBack, IsCaused, IsCausedBy, IsEntered, IsHonest, is_read_fault, object_back, room_back};
ghost use Rattle.lp_residence.specs.Owners.{ticket_at, ticket_of_state};
ghost use Rattle.lp_residence.specs.declared.owner.Owner.TheVariants as owners;

use crate::answers::EnterFault;
use crate::owner::Owner;
use crate::reading::look_at;
use crate::unpacking::{are_fit, values_in};
use lp_cells::cells::Cells;
use lp_cells::content::Items;
use lp_swapfile::SwapFile;
use lp_swapper::{Swapper, Ticket};
use lp_values::id::{ObjId, ProgId};
use lp_world::live::Live;
use lp_world::objects::{ObjectState, ObjectTable};
use lp_world::versions::VersionTable;
use std::alloc::{AllocError, Global};

/// The ticket of an object that is out.
pub(crate) fn out_ticket(objects: &ObjectTable, ob: ObjId) -> Option<&Ticket>
    ensures { option_copied result ≡ ticket_of_state (state_in (row_at objects.now ob.0)) }
{
    match objects.get(ob) {
        Some(o) => match &o.state {
            ObjectState::Resident(_) => None,
            ObjectState::Swapped { ticket, .. } => Some(ticket),
        },
        None => None,
    }
}

/// How many variables an object of a version has.
fn variable_count(versions: &VersionTable, p: ProgId) -> u32
    ensures { result ≡ variables_in (row_at versions.now p.0) }
{
    match versions.get(p) {
        Some(v) => v.outline.variables,
        None => 0,
    }
}

/// How many variables an object has.
fn count_of(live: &Live, ob: ObjId) -> u32
    ensures { (o : O) → row_at live.now.objects ob.0 ≡ Some o → result ≡ variables_in (row_at live.now.versions o.program.0) }
{
    match live.objects.get(ob) {
        Some(o) => variable_count(&live.versions, o.program),
        None => 0,
    }
}

/// The values that bytes have for an object of a version with so many variables.
fn fit_values(alloc: Global, cells: &Cells, bytes: &[u8], count: u32) -> Result<Items, AllocError>
    ensures values { IfOk result (λ vs. AreValuesOf bytes.now vs) }
    ensures fit { IfOk result (λ vs. (length vs ≡ count) × All (IsThere cells.now) vs) }
{
    match values_in(alloc, bytes) {
        Ok(values) => {
            if are_fit(cells, values.as_slice(), count) {
                Ok(values)
            } else {
                Err(AllocError)
            }
        }
        Err(e) => Err(e),
    }
}

/// Reads the values of an object that is out.
fn read_values<W: SwapFile>(
    live: &Live,
    swap: &mut W,
    ob: ObjId,
    count: u32,
    ticket: &Ticket,
) -> Result<Items, EnterFault>
    ensures fit { IfOk result (λ vs. (length vs ≡ count) × All (IsThere live.now.cells) vs) }
    ensures cause { IfErr result (λ e. IsCaused (owners.Object ob) ticket.now (W.content swap.old) (W.last swap.new) e) }
    ensures faults { Counts (is_read_fault result) (W.read_faults swap.old) (W.read_faults swap.new) }
    ensures write_faults { W.write_faults swap.new ≡ W.write_faults swap.old }
    ensures kept { W.content swap.new ≡ W.content swap.old }
    ensures honest { W.is_honest swap.new → W.is_honest swap.old × ((was : List ℕ) → IsOutAt (W.content swap.old) ticket.now was → IsHonest result) }
    ensures truthful { W.is_truthful swap.new → W.is_truthful swap.old × ((was : List ℕ) → IsOutAt (W.content swap.old) ticket.now was → IfOk result (λ vs. AreValuesOf was vs)) }
{
    match look_at(&live.swapper, swap, Owner::Object(ob), ticket) {
        Ok(bytes) => match fit_values(live.alloc, &live.cells, bytes.as_slice(), count) {
            Ok(values) => Ok(values),
            Err(_) => Err(EnterFault::NoMemory),
        },
        Err(e) => Err(e),
    }
}

/// Gives the room of an object's ticket back, where it is out.
pub(crate) fn give_back(swapper: &mut Swapper, state: ObjectState)
    requires { CanGiveBack (object_ticket state) swapper.old }
    ensures after { swapper.new ≡ room_back (object_ticket state) swapper.old }
    ensures taken { AreTakenWithout (object_ticket state) swapper.old swapper.new }
{
    match &state {
        ObjectState::Resident(_) => {}
        ObjectState::Swapped { ticket, .. } => swapper.drop_ticket(ticket),
    }
}

/// Puts values in the place of a ticket, whose room is free then.
fn bring_back(live: &mut Live, ob: ObjId, values: Items)
    requires there { IsSome (row_at live.old.objects ob.0) }
    requires taken { CanGiveBack (ticket_of_state (state_in (row_at live.old.objects ob.0))) live.old.swapper }
    ensures after { (t : T) → ticket_of_state (state_in (row_at live.old.objects ob.0)) ≡ Some t → live.new ≡ object_back live.old ob values t }
    ensures taken { AreTakenWithout (ticket_of_state (state_in (row_at live.old.objects ob.0))) live.old.swapper live.new.swapper }
{
    let state = live
        .objects
        .replace_state(ob, ObjectState::Resident(values));
    give_back(&mut live.swapper, state);
}

/// Brings an object back into memory, where it is out. Where it is in memory nothing is read, no memory is
/// taken and nothing changes. It needs an object that is live, or that died in memory in this turn.
///
/// - `Swap(Read)`: the read of its record failed, and the count of read faults rose.
/// - `Swap(Changed)`: other bytes stand in place of the record, as their digest shows.
/// - `NoMemory`: memory ran out. It also comes where the bytes have the right length and digest, but are no
///   record that fits the object.
///
/// After a refusal nothing has changed but the device, by the read.
pub fn enter<W: SwapFile>(live: &mut Live, swap: &mut W, ob: ObjId) -> Result<(), EnterFault>
    requires closed { IsClosed live.old }
    requires there { IsSome (row_at live.old.objects ob.0) }
    ensures entered { OnOk result (IsEntered (owners.Object ob) live.old live.new (ticket_at live.old (owners.Object ob))) }
    ensures same { OnErr result (live.new ≡ live.old) }
    ensures closed { IsClosed live.new }
    ensures stands { W.is_truthful swap.new → (programs : List Raw) (w : World) → Stands (W.content swap.old) programs live.old w → Stands (W.content swap.new) programs live.new w }
    ensures quiet { ticket_at live.old (owners.Object ob) ≡ None → (result ≡ Ok tt) × (swap.new ≡ swap.old) }
    ensures cause { IfErr result (λ e. IsCausedBy (owners.Object ob) (ticket_at live.old (owners.Object ob)) (W.content swap.old) (W.last swap.new) e) }
    ensures faults { Counts (is_read_fault result) (W.read_faults swap.old) (W.read_faults swap.new) }
    ensures write_faults { W.write_faults swap.new ≡ W.write_faults swap.old }
    ensures kept { W.content swap.new ≡ W.content swap.old }
    ensures truthful { W.is_truthful swap.new → W.is_truthful swap.old }
    ensures honest { W.is_honest swap.new → W.is_honest swap.old × ((programs : List Raw) (w : World) → Stands (W.content swap.old) programs live.old w → IsHonest result) }
{
    match out_ticket(&live.objects, ob) {
        None => Ok(()),
        Some(ticket) => {
            let count = count_of(live, ob);
            match read_values(live, swap, ob, count, ticket) {
                Ok(values) => {
                    live.swapper.law();
                    bring_back(live, ob, values);
                    Ok(())
                }
                Err(e) => Err(e),
            }
        }
    }
}
