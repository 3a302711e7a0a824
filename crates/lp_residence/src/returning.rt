//! Programs come back.
ghost use Rattle.std.specs.Prelude.{◌≡◌, IfErr, IfOk, IsSome, List, None, Ok, OnErr, OnOk, Some, option_map, ℕ};
ghost use Rattle.lp_code.specs.declared.program.RawProgram.{RawProgram as Raw};
ghost use Rattle.lp_encoding.specs.Programs.{IsEncoding};
ghost use Rattle.lp_language.specs.World.{World};
ghost use Rattle.lp_swapfile.specs.Counts.{Counts};
ghost use Rattle.lp_swapper.specs.Swap.{IsOutAt};
ghost use Rattle.lp_swapper.specs.declared.ticket.Ticket.{Ticket as T};
ghost use Rattle.lp_world.specs.Closed.{IsClosed, IsProgramClosed};
ghost use Rattle.lp_world.specs.Rows.{program_ticket, row_at, version_state};
ghost use Rattle.lp_world.specs.Stands.{Stands};
ghost use Rattle.lp_world.specs.declared.versions.Version.{Version as V};
ghost use Rattle.lp_residence.specs.Entering.{AreTakenWithout, CanGiveBack, IsCaused, IsCausedBy, IsEntered, IsHonest, IsProgramOf, is_read_fault, room_back, version_back};
ghost use Rattle.lp_residence.specs.Owners.{ticket_at, ticket_of_version};
ghost use Rattle.lp_residence.specs.Programs.{behind_mark};
ghost use Rattle.lp_residence.specs.declared.owner.Owner.TheVariants as owners;

use crate::answers::EnterFault;
use crate::fitting::fits;
use crate::owner::Owner;
use crate::reading::look_at;
use lp_code::program::Program;
use lp_encoding::{decode, law_prefix_free};
use lp_swapfile::SwapFile;
use lp_swapper::{Swapper, Ticket};
use lp_values::id::ProgId;
use lp_world::live::Live;
use lp_world::shared::SharedProgram;
use lp_world::versions::{ProgramState, Version, VersionTable};
use std::alloc::{AllocError, Global};

/// The program that an encoding is of.
fn decoded(alloc: Global, encoding: &[u8]) -> Result<Program, AllocError>
    ensures { IfOk result (λ p. IsEncoding p encoding.now) }
{
    match decode(alloc, encoding) {
        Ok(program) => Ok(program),
        Err(_) => Err(AllocError),
    }
}

/// What follows the mark of a program.
#[tactic(auto, unfolding(crate::specs::Programs::behind_mark))]
fn behind_mark(bytes: &[u8]) -> Option<&[u8]>
    ensures { option_map (λ r. r.now) result ≡ behind_mark bytes.now }
{
    match bytes {
        [b'L', b'P', b'P', b'1', rest @ ..] => Some(rest),
        _ => None,
    }
}

/// The program that bytes are the image of.
fn program_in(alloc: Global, bytes: &[u8]) -> Result<Program, AllocError>
    ensures { IfOk result (λ p. IsProgramOf bytes.now p) }
{
    law_prefix_free();
    match behind_mark(bytes) {
        Some(encoding) => decoded(alloc, encoding),
        None => Err(AllocError),
    }
}

/// The program that bytes are the image of, where it fits a version.
fn fit_program(
    alloc: Global,
    versions: &VersionTable,
    version: &Version,
    bytes: &[u8],
) -> Result<SharedProgram, AllocError>
    ensures is { IfOk result (λ p. IsProgramOf bytes.now p) }
    ensures fits { IfOk result (λ p. IsProgramClosed versions.now version.now p) }
{
    let program = program_in(alloc, bytes)?;
    if !fits(alloc, versions, version, program.raw())? {
        return Err(AllocError);
    }
    SharedProgram::new(alloc, program)
}

/// Reads the program of a version that is out.
fn read_program<W: SwapFile>(
    live: &Live,
    swap: &mut W,
    p: ProgId,
    version: &Version,
    ticket: &Ticket,
) -> Result<SharedProgram, EnterFault>
    ensures fits { IfOk result (λ raw. IsProgramClosed live.now.versions version.now raw) }
    ensures cause { IfErr result (λ e. IsCaused (owners.Program p) ticket.now (W.content swap.old) (W.last swap.new) e) }
    ensures faults { Counts (is_read_fault result) (W.read_faults swap.old) (W.read_faults swap.new) }
    ensures write_faults { W.write_faults swap.new ≡ W.write_faults swap.old }
    ensures kept { W.content swap.new ≡ W.content swap.old }
    ensures honest { W.is_honest swap.new → W.is_honest swap.old × ((was : List ℕ) → IsOutAt (W.content swap.old) ticket.now was → IsHonest result) }
    ensures truthful { W.is_truthful swap.new → W.is_truthful swap.old × ((was : List ℕ) → IsOutAt (W.content swap.old) ticket.now was → IfOk result (λ raw. IsProgramOf was raw)) }
{
    match look_at(&live.swapper, swap, Owner::Program(p), ticket) {
        Ok(bytes) => match fit_program(live.alloc, &live.versions, version, bytes.as_slice()) {
            Ok(program) => Ok(program),
            Err(_) => Err(EnterFault::NoMemory),
        },
        Err(e) => Err(e),
    }
}

/// Gives the room of a program's ticket back, where it is out.
fn give_back(swapper: &mut Swapper, state: ProgramState)
    requires { CanGiveBack (program_ticket state) swapper.old }
    ensures after { swapper.new ≡ room_back (program_ticket state) swapper.old }
    ensures taken { AreTakenWithout (program_ticket state) swapper.old swapper.new }
{
    match &state {
        ProgramState::Resident(_) => {}
        ProgramState::Swapped(ticket) => swapper.drop_ticket(ticket),
    }
}

/// Puts a program in the place of a ticket, whose room is free then.
fn bring_back(live: &mut Live, p: ProgId, program: SharedProgram)
    requires there { IsSome (row_at live.old.versions p.0) }
    requires taken { CanGiveBack (ticket_of_version (version_state (row_at live.old.versions p.0))) live.old.swapper }
    ensures after { (t : T) → ticket_of_version (version_state (row_at live.old.versions p.0)) ≡ Some t → live.new ≡ version_back live.old p program t }
    ensures taken { AreTakenWithout (ticket_of_version (version_state (row_at live.old.versions p.0))) live.old.swapper live.new.swapper }
{
    let state = live
        .versions
        .replace_state(p, ProgramState::Resident(program));
    give_back(&mut live.swapper, state);
}

/// Brings the program of a version back, where it is out, reading it for its ticket.
fn enter_version<W: SwapFile>(
    live: &Live,
    swap: &mut W,
    p: ProgId,
) -> Result<Option<SharedProgram>, EnterFault>
    requires there { IsSome (row_at live.now.versions p.0) }
    ensures in_memory { ticket_at live.now (owners.Program p) ≡ None → (result ≡ Ok None) × (swap.new ≡ swap.old) }
    ensures out { (t : T) → ticket_at live.now (owners.Program p) ≡ Some t → IfOk result IsSome }
    ensures fits { IfOk result (λ o. (raw : Raw) → o ≡ Some raw → (v : V) → row_at live.now.versions p.0 ≡ Some v → IsProgramClosed live.now.versions v raw) }
    ensures cause { IfErr result (λ e. IsCausedBy (owners.Program p) (ticket_at live.now (owners.Program p)) (W.content swap.old) (W.last swap.new) e) }
    ensures faults { Counts (is_read_fault result) (W.read_faults swap.old) (W.read_faults swap.new) }
    ensures write_faults { W.write_faults swap.new ≡ W.write_faults swap.old }
    ensures kept { W.content swap.new ≡ W.content swap.old }
    ensures honest { W.is_honest swap.new → W.is_honest swap.old × ((t : T) (was : List ℕ) → ticket_at live.now (owners.Program p) ≡ Some t → IsOutAt (W.content swap.old) t was → IsHonest result) }
    ensures truthful { W.is_truthful swap.new → W.is_truthful swap.old × ((t : T) (was : List ℕ) → ticket_at live.now (owners.Program p) ≡ Some t → IsOutAt (W.content swap.old) t was → IfOk result (λ o. (raw : Raw) → o ≡ Some raw → IsProgramOf was raw)) }
{
    match live.versions.get(p) {
        Some(v) => match &v.state {
            ProgramState::Resident(_) => Ok(None),
            ProgramState::Swapped(ticket) => match read_program(live, swap, p, v, ticket) {
                Ok(program) => Ok(Some(program)),
                Err(e) => Err(e),
            },
        },
        None => Ok(None),
    }
}

/// Brings the program of a version back into memory, where it is out. Where it is in memory nothing is read, no
/// memory is taken and nothing changes. It needs a version that the state has.
///
/// - `Swap(Read)`: the read of its record failed, and the count of read faults rose.
/// - `Swap(Changed)`: other bytes stand in place of the record, as their digest shows.
/// - `NoMemory`: memory ran out. It also comes where the bytes have the right length and digest, but are no
///   program that fits the version.
///
/// After a refusal nothing has changed but the device, by the read.
pub fn enter_program<W: SwapFile>(
    live: &mut Live,
    swap: &mut W,
    p: ProgId,
) -> Result<(), EnterFault>
    requires closed { IsClosed live.old }
    requires there { IsSome (row_at live.old.versions p.0) }
    ensures entered { OnOk result (IsEntered (owners.Program p) live.old live.new (ticket_at live.old (owners.Program p))) }
    ensures same { OnErr result (live.new ≡ live.old) }
    ensures closed { IsClosed live.new }
    ensures stands { W.is_truthful swap.new → (programs : List Raw) (w : World) → Stands (W.content swap.old) programs live.old w → Stands (W.content swap.new) programs live.new w }
    ensures quiet { ticket_at live.old (owners.Program p) ≡ None → (result ≡ Ok tt) × (swap.new ≡ swap.old) }
    ensures cause { IfErr result (λ e. IsCausedBy (owners.Program p) (ticket_at live.old (owners.Program p)) (W.content swap.old) (W.last swap.new) e) }
    ensures faults { Counts (is_read_fault result) (W.read_faults swap.old) (W.read_faults swap.new) }
    ensures write_faults { W.write_faults swap.new ≡ W.write_faults swap.old }
    ensures kept { W.content swap.new ≡ W.content swap.old }
    ensures truthful { W.is_truthful swap.new → W.is_truthful swap.old }
    ensures honest { W.is_honest swap.new → W.is_honest swap.old × ((programs : List Raw) (w : World) → Stands (W.content swap.old) programs live.old w → IsHonest result) }
{
    match enter_version(live, swap, p) {
        Ok(Some(program)) => {
            live.swapper.law();
            bring_back(live, p, program);
            Ok(())
        }
        Ok(None) => Ok(()),
        Err(e) => Err(e),
    }
}
