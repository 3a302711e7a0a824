//! A closed state and a swap file, and what is done on both. What is named is looked at first, so that a call is made
//! only where it may be.
ghost use Rattle.std.specs.Prelude.{◌≤◌, ◌^◌, All, IsTrue};
ghost use Rattle.lp_cells.specs.Cells.{IsThere};
ghost use Rattle.lp_world.specs.Closed.{IsClosed};

use crate::programs::program;
use lp_cells::cells::Cells;
use lp_cells::content::Items;
use lp_instr::instr::Instr;
use lp_residence::adding::{add_object, add_version};
use lp_residence::answers::{EnterFault, PutOut, SwapCause};
use lp_residence::ending::destroy;
use lp_residence::entering::enter;
use lp_residence::idling::idle;
use lp_residence::owner::Owner;
use lp_residence::putting::put_out;
use lp_residence::returning::enter_program;
use lp_swapfile::MemSwap;
use lp_values::id::{CellId, ObjId, ProgId};
use lp_values::text::Text;
use lp_values::value::{Living, Value};
use lp_world::additions::empty_state;
use lp_world::laws::cells_stay_closed;
use lp_world::live::Live;
use lp_world::objects::ObjectState;
use lp_world::versions::ProgramState;
use std::alloc::{AllocError, Global};
use std::marker::Model;

/// A closed state and a swap file.
#[derive(Drop)]
pub struct State {
    pub live: Live,
    pub swap: MemSwap,
}

impl Model for State {
    ghost use Rattle.lp_cells.specs.Cells.{Store};
    ghost use Rattle.lp_world.specs.Closed.{IsClosed};

    ghost Value = { Store };

    ghost view = { λ s. s.live.cells };

    ghost invariant = { λ s. IsClosed s.live };
}

// Whether the arrays and mappings among these values are there.
fn has_all(cells: &Cells, values: &[Value]) -> bool
    ensures { IsTrue result → All (IsThere cells.now) values.now }
{
    values.iter().all(|v| cells.is_there(v))
}

// Another clock, in seconds.
fn set_clock(live: &mut Live, clock: u64)
    requires closed { IsClosed live.old }
    requires clock { clock ≤ 10 ^ 12 }
    ensures { IsClosed live.new }
{
    live.clock = clock;
}

// An array comes to the state.
fn new_array(live: &mut Live, items: Vec<Value>) -> Result<CellId, AllocError>
    requires { IsClosed live.old }
    ensures { IsClosed live.new }
{
    cells_stay_closed();
    if !has_all(&live.cells, items.as_slice()) {
        return Err(AllocError);
    }
    match live.cells.new_array(items) {
        Ok(c) => Ok(c),
        Err(_) => Err(AllocError),
    }
}

// Writes the first item of an array, if there is one.
fn set_first(live: &mut Live, c: CellId, v: Value) -> bool
    requires { IsClosed live.old }
    ensures { IsClosed live.new }
{
    cells_stay_closed();
    if !live.cells.is_there(&Value::Arr(c)) {
        return false;
    }
    if !live.cells.is_there(&v) {
        return false;
    }
    live.cells.set(c, 0, v).is_ok()
}

// Destructs an object, if it is live.
fn end_object(live: &mut Live, ob: ObjId) -> bool
    requires { IsClosed live.old }
    ensures { IsClosed live.new }
{
    if !live.objects.is_live(ob) {
        return false;
    }
    destroy(live, ob);
    true
}

// Brings an object back, if it is there.
fn bring_back(live: &mut Live, swap: &mut MemSwap, ob: ObjId) -> Option<Result<(), EnterFault>>
    requires { IsClosed live.old }
    ensures { IsClosed live.new }
{
    if live.objects.get(ob).is_none() {
        return None;
    }
    Some(enter(live, swap, ob))
}

// Brings a program back, if its version is there.
fn bring_program(live: &mut Live, swap: &mut MemSwap, p: ProgId) -> Option<Result<(), EnterFault>>
    requires { IsClosed live.old }
    ensures { IsClosed live.new }
{
    if live.versions.get(p).is_none() {
        return None;
    }
    Some(enter_program(live, swap, p))
}

/// A number, or an array.
#[derive(Clone, Copy)]
pub enum Var {
    /// A number.
    Int(i64),
    /// An array.
    Arr(CellId),
}

// The value.
fn value_of(x: Var) -> Value {
    match x {
        Var::Int(n) => Value::Int(n),
        Var::Arr(c) => Value::Arr(c),
    }
}

// Whether a value is this.
fn is_var(v: &Value, x: Var) -> bool {
    match (v, x) {
        (Value::Int(m), Var::Int(n)) => *m == n,
        (Value::Arr(c), Var::Arr(d)) => *c == d,
        _ => false,
    }
}

// Whether a value at a place is this.
fn is_at(values: &[Value], at: usize, x: Var) -> bool {
    match values.get(at) {
        Some(v) => is_var(v, x),
        None => false,
    }
}

// Whether this was answered.
fn is_answer(found: Result<PutOut, AllocError>, answer: PutOut) -> bool {
    match found {
        Ok(a) => a == answer,
        Err(_) => false,
    }
}

/// Which calls of a swap file fail or lie, by their numbers: reads, writes, and reads that lie about the byte at an offset.
#[derive(Clone, Copy)]
pub struct Trouble<'a> {
    pub reads: &'a [u64],
    pub writes: &'a [u64],
    pub lies: &'a [(u64, u64)],
}

/// None fails or lies.
pub const NO_TROUBLE: Trouble<'static> = Trouble {
    reads: &[],
    writes: &[],
    lies: &[],
};

/// An empty swap file.
pub fn swap_file(alloc: Global, trouble: &Trouble<'_>) -> Result<MemSwap, AllocError> {
    let reads = Vec::from_slice(alloc, trouble.reads)?;
    let writes = Vec::from_slice(alloc, trouble.writes)?;
    let lies = Vec::from_slice(alloc, trouble.lies)?;
    Ok(MemSwap::new(alloc, reads, writes, lies))
}

/// What is done on a state, and what has to come of it. The one version is the first one, and objects and arrays have the
/// serials 0, 1 and so on in the order of their making.
#[derive(Clone, Copy)]
pub enum Step {
    /// A version of `/a.c` of two variables comes.
    Version,
    /// An object of a name comes, with two variables.
    Object(&'static str, Var, Var),
    /// An array of one item comes.
    Array(Var),
    /// The first item of an array is written.
    Writes(CellId, Var),
    /// The first item of an array is this.
    First(CellId, Var),
    /// A variable of an object that is in memory, at a place, is this.
    Has(ObjId, usize, Var),
    /// Another clock.
    At(u32),
    /// An object is to go out, and this becomes of it.
    Goes(ObjId, PutOut),
    /// Whether an object comes back.
    Comes(ObjId, bool),
    /// An object stays out, since other bytes were found than went out for it.
    Changed(ObjId),
    /// A live object is destructed.
    Ends(ObjId),
    /// The place of an object's record, where it is out.
    Place(ObjId, Option<u64>),
    /// The program goes out.
    ProgramGoes,
    /// The program comes back.
    ProgramComes,
    /// The place of the program's record, where it is out.
    ProgramPlace(Option<u64>),
    /// The version is that of a file.
    IsOf(&'static str),
    /// With a swap time, so many go out that are idle, and so many are kept since a write failed.
    Idles(u64, u64, u64),
    /// So many reads failed.
    ReadFaults(u64),
    /// So many writes failed.
    WriteFaults(u64),
}

/// The one version.
const P: ProgId = ProgId(0);

impl State {
    /// A state without anything, and an empty swap file.
    fn new(alloc: Global, trouble: &Trouble<'_>) -> Result<State, AllocError> {
        let swap = swap_file(alloc, trouble)?;
        Ok(State {
            live: empty_state(alloc, 0, 0),
            swap,
        })
    }

    /// A version of `/a.c`, of two variables, comes to the state. Its function gives 0.
    fn version(&mut self) -> Result<ProgId, AllocError> {
        let number = self.live.versions.len() as u64;
        let program = program(self.live.alloc, number, 2, &[Instr::ReturnZero])?;
        let path = Text::from_str(self.live.alloc, "/a.c")?;
        add_version(&mut self.live, path, program)
    }

    /// Whether such a version comes.
    fn makes_version(&mut self) -> bool {
        self.version().is_ok()
    }

    /// An object of the first version with two variables comes to the state.
    fn object(&mut self, name: &str, x: Var, y: Var) -> Result<ObjId, AllocError> {
        let values = vec![in self.live.alloc; value_of(x), value_of(y)]?;
        match add_object(&mut self.live, name, ProgId(0), Items::from_vec(values)) {
            Ok(id) => Ok(id),
            Err(_) => Err(AllocError),
        }
    }

    /// Whether such an object comes.
    fn makes_object(&mut self, name: &str, x: Var, y: Var) -> bool {
        self.object(name, x, y).is_ok()
    }

    /// An array of one item comes to the state.
    fn array(&mut self, x: Var) -> Result<CellId, AllocError> {
        let items = vec![in self.live.alloc; value_of(x)]?;
        new_array(&mut self.live, items)
    }

    /// Whether such an array comes.
    fn makes_array(&mut self, x: Var) -> bool {
        self.array(x).is_ok()
    }

    /// Writes the first item of an array, if there is one.
    fn writes_first(&mut self, c: CellId, x: Var) -> bool {
        set_first(&mut self.live, c, value_of(x))
    }

    /// Whether the first item of an array is this.
    fn is_first(&self, c: CellId, x: Var) -> bool {
        if !self.live.cells.is_there(&Value::Arr(c)) {
            return false;
        }
        match self.live.cells.items(c).get(0) {
            Some(v) => is_var(v, x),
            None => false,
        }
    }

    /// Another clock, up to 10^12.
    fn at(&mut self, clock: u32) -> bool {
        set_clock(&mut self.live, clock as u64);
        true
    }

    /// Whether an object is in memory, and this is its variable at a place.
    fn has_var(&self, ob: ObjId, at: usize, x: Var) -> bool {
        match self.live.objects.get(ob) {
            Some(o) => match &o.state {
                ObjectState::Resident(items) => is_at(items.as_slice(), at, x),
                ObjectState::Swapped { .. } => false,
            },
            None => false,
        }
    }

    /// The place of an object's record, where it is out.
    fn place(&self, ob: ObjId) -> Option<u64> {
        match self.live.objects.get(ob) {
            Some(o) => match &o.state {
                ObjectState::Resident(_) => None,
                ObjectState::Swapped { ticket, .. } => Some(ticket.place),
            },
            None => None,
        }
    }

    /// The place of the program's record, where it is out.
    fn program_place(&self) -> Option<u64> {
        match self.live.versions.get(P) {
            Some(v) => match &v.state {
                ProgramState::Resident(_) => None,
                ProgramState::Swapped(ticket) => Some(ticket.place),
            },
            None => None,
        }
    }

    /// Whether the version is that of a file.
    fn is_of(&self, path: &str) -> bool {
        match Text::from_str(self.live.alloc, path) {
            Ok(path) => self.live.versions.path(P) == Some(&path),
            Err(_) => false,
        }
    }

    /// Whether the program goes out.
    fn program_goes(&mut self) -> bool {
        is_answer(
            put_out(&mut self.live, &mut self.swap, Owner::Program(P)),
            PutOut::Out,
        )
    }

    /// Whether the program comes back.
    fn program_comes_back(&mut self) -> bool {
        match bring_program(&mut self.live, &mut self.swap, P) {
            Some(Ok(())) => true,
            _ => false,
        }
    }

    /// Whether this becomes of an object that is to go out.
    fn becomes(&mut self, ob: ObjId, answer: PutOut) -> bool {
        is_answer(
            put_out(&mut self.live, &mut self.swap, Owner::Object(ob)),
            answer,
        )
    }

    /// Whether an object that is there comes back.
    fn comes_back(&mut self, ob: ObjId) -> bool {
        match bring_back(&mut self.live, &mut self.swap, ob) {
            Some(Ok(())) => true,
            _ => false,
        }
    }

    /// Whether an object that is out stays there, since other bytes were found than went out for it.
    fn is_changed(&mut self, ob: ObjId) -> bool {
        match bring_back(&mut self.live, &mut self.swap, ob) {
            Some(Err(EnterFault::Swap(SwapCause::Changed { owner, .. }))) => {
                owner == Owner::Object(ob)
            }
            _ => false,
        }
    }

    /// Destructs an object, if it is live.
    fn end(&mut self, ob: ObjId) -> bool {
        end_object(&mut self.live, ob)
    }

    /// Whether so many go out that are idle, and so many are kept since a write failed.
    fn idles(&mut self, swap_time: u64, out: u64, fault: u64) -> bool {
        match idle(&mut self.live, &mut self.swap, swap_time) {
            Ok(n) => n.out == out && n.fault == fault && n.full == 0,
            Err(_) => false,
        }
    }

    /// Whether that comes of a step.
    fn holds(&mut self, step: Step) -> bool {
        match step {
            Step::Version => self.makes_version(),
            Step::Object(name, x, y) => self.makes_object(name, x, y),
            Step::Array(x) => self.makes_array(x),
            Step::Writes(c, x) => self.writes_first(c, x),
            Step::First(c, x) => self.is_first(c, x),
            Step::Has(ob, at, x) => self.has_var(ob, at, x),
            Step::At(clock) => self.at(clock),
            Step::Goes(ob, answer) => self.becomes(ob, answer),
            Step::Comes(ob, comes) => self.comes_back(ob) == comes,
            Step::Changed(ob) => self.is_changed(ob),
            Step::Ends(ob) => self.end(ob),
            Step::Place(ob, place) => self.place(ob) == place,
            Step::ProgramGoes => self.program_goes(),
            Step::ProgramComes => self.program_comes_back(),
            Step::ProgramPlace(place) => self.program_place() == place,
            Step::IsOf(path) => self.is_of(path),
            Step::Idles(swap_time, out, fault) => self.idles(swap_time, out, fault),
            Step::ReadFaults(count) => self.swap.read_faults() == count,
            Step::WriteFaults(count) => self.swap.write_faults() == count,
        }
    }

    /// The place of the first step that does not hold, if one does not.
    fn first_wrong(&mut self, steps: &[Step]) -> Option<usize> {
        for i in 0..steps.len() {
            if !self.holds(steps[i]) {
                return Some(i);
            }
        }
        None
    }

    /// Whether steps hold four times, the time with a number by others.
    fn holds_in_turn(&mut self, steps: &[Step], number: u64, others: &[Step]) -> bool {
        for k in 1..5 {
            let these = if k == number { others } else { steps };
            if self.first_wrong(these).is_some() {
                return false;
            }
        }
        true
    }
}

/// The place of the first of these steps that does not hold in a state without anything, if one does not.
pub fn first_wrong(
    alloc: Global,
    trouble: &Trouble<'_>,
    steps: &[Step],
) -> Result<Option<usize>, AllocError> {
    let mut state = State::new(alloc, trouble)?;
    let found = state.first_wrong(steps);
    drop(state);
    Ok(found)
}

/// Steps that are taken four times behind others, where other steps stand in for those of one time, and what holds then.
pub struct Rounds {
    pub before: &'static [Step],
    pub usual: &'static [Step],
    pub other: &'static [Step],
    pub then: Step,
}

/// Whether rounds hold, of which the one with a number, 1 to 4, is the other one.
pub fn holds_but_at(
    alloc: Global,
    trouble: &Trouble<'_>,
    rounds: &Rounds,
    number: u64,
) -> Result<bool, AllocError> {
    let mut state = State::new(alloc, trouble)?;
    let found = state.first_wrong(rounds.before).is_none()
        && state.holds_in_turn(rounds.usual, number, rounds.other)
        && state.holds(rounds.then);
    drop(state);
    Ok(found)
}
