//! Objects of the state, by their serials.
ghost use Rattle.std.specs.Prelude.{◌≡◌, ◌∷◌, ◌++◌, [], IfOk, IsSome, List, None, OnErr, OnOk, Option, Some, length, slice_get, slice_set};
ghost use Rattle.std.specs.Option.{option_copied};
ghost use Rattle.lp_values.specs.declared.value.Value.{Value as V};
ghost use Rattle.lp_world.specs.declared.objects.Object.{Object as O};
ghost use Rattle.lp_world.specs.Additions.{new_object};
ghost use Rattle.lp_world.specs.Rows.{HasPlace, IsWritten, is_live_row, is_out_row, live_in, object_aged, object_animated, row_after_death, row_at, row_with_state, state_in, variables_at, variables_in, variables_of, with_value};

use crate::serials::Serials;
use lp_cells::content::Items;
use lp_swapper::Ticket;
use lp_values::id::{ObjId, ProgId};
use lp_values::value::{Living, Value};
use std::alloc::{AllocError, Global};
use std::marker::Model;
use std::mem;

/// An object's variables in memory, or the ticket of its record.
#[derive(Drop)]
pub enum ObjectState {
    /// The variables, the inherited ones first.
    Resident(Items),
    /// A record in the swap file.
    Swapped {
        /// What brings it back.
        ticket: Ticket,
        /// The cells in memory that the record names, each as often as it names it.
        shared: Serials,
        /// The cells in the record, in its order. They keep their serials.
        own: Serials,
    },
}

/// An object. Its name is found in the table of names.
#[derive(Drop)]
pub struct Object {
    /// Its version.
    pub program: ProgId,
    /// Whether it is live.
    pub is_live: bool,
    /// Whether it is living.
    pub is_living: bool,
    /// When it was made, or the latest entry of a function counted for it.
    pub latest: u64,
    /// Its variables.
    pub state: ObjectState,
}

/// The place of an object. The object lies behind it, so that the place of one that ended costs a word.
#[derive(Drop)]
struct Row {
    object: Option<Box<Object>>,
}

impl Model for Row {
    ghost use Rattle.std.specs.Prelude.{Option};
    ghost use Rattle.std.specs.Option.{option_map};
    ghost use Rattle.lp_world.specs.declared.objects.Object.{Object};

    ghost Value = { Option Object };

    ghost view = { λ r. option_map (λ b. b.value) r.object };
}

/// The objects by their serials. One that died before this turn, or that died while it was out, is none.
#[derive(Drop)]
pub struct ObjectTable {
    alloc: Global,
    rows: Vec<Row>,
}

impl Model for ObjectTable {
    ghost use Rattle.std.specs.Prelude.{List, Option};
    ghost use Rattle.lp_world.specs.declared.objects.Object.{Object};

    ghost Value = { List (Option Object) };

    ghost view = { λ t. t.rows.items };
}

/// Whether a row is that of a live object.
fn is_live_row(row: &Row) -> bool
    ensures { result ≡ is_live_row row.now }
{
    match &row.object {
        Some(o) => o.is_live,
        None => false,
    }
}

impl Living for ObjectTable {
    ghost use Rattle.lp_world.specs.Rows.{live_in};

    ghost live = { live_in };

    #[tactic(auto, unfolding(crate::specs::Rows::live_in))]
    fn is_live(&self, id: ObjId) -> bool {
        if self.rows.len() <= id.0 as usize {
            return false;
        }
        is_live_row(&self.rows[id.0 as usize])
    }
}

/// Writes a variable of an object that is in memory, in its state.
fn write_state(state: &mut ObjectState, i: usize, v: Value)
    requires { HasPlace (variables_of state.old) i }
    ensures { (vs : List V) → state.old ≡ ObjectState.Resident vs → state.new ≡ ObjectState.Resident (slice_set vs i v) }
{
    match state {
        ObjectState::Resident(items) => items.write(i, v),
        ObjectState::Swapped { .. } => unreachable!(),
    }
}

/// The same, in its row.
fn write_row(row: &mut Row, i: usize, v: Value)
    requires { HasPlace (variables_in row.old) i }
    ensures { (o : O) (vs : List V) → row.old ≡ Some o → o.state ≡ ObjectState.Resident vs → row.new ≡ Some (with_value o vs i v) }
{
    match &mut row.object {
        Some(o) => write_state(&mut o.state, i, v),
        None => unreachable!(),
    }
}

/// Puts another state in a row that is there, and gives the one it had.
fn replace_state_of(row: &mut Row, state: ObjectState) -> ObjectState
    requires { IsSome row.old }
    ensures before { state_in row.old ≡ Some result }
    ensures after { row.new ≡ row_with_state row.old state }
{
    match &mut row.object {
        Some(o) => mem::replace(&mut o.state, state),
        None => unreachable!(),
    }
}

/// Notes the moment of the latest entry, in a row that is there.
fn age_row(row: &mut Row, latest: u64)
    ensures { row.new ≡ object_aged latest row.old }
{
    if let Some(o) = &mut row.object {
        o.latest = latest;
    }
}

/// Notes whether the object of a row that is there is living.
fn animate_row(row: &mut Row, is_living: bool)
    ensures { row.new ≡ object_animated is_living row.old }
{
    if let Some(o) = &mut row.object {
        o.is_living = is_living;
    }
}

/// Whether an object is out.
fn is_out(row: &Row) -> bool
    ensures { result ≡ is_out_row row.now }
{
    match &row.object {
        Some(o) => matches!(o.state, ObjectState::Swapped { .. }),
        None => false,
    }
}

/// The row of an object that dies.
fn kill_row(row: &mut Row)
    ensures { row.new ≡ row_after_death row.old }
{
    if is_out(row) {
        row.object = None;
        return;
    }
    if let Some(o) = &mut row.object {
        o.is_live = false;
        o.is_living = false;
    }
}

impl ObjectTable {
    /// No objects. Takes no memory.
    pub fn new(alloc: Global) -> ObjectTable
        ensures { result ≡ [] }
    {
        ObjectTable {
            alloc,
            rows: Vec::new(alloc),
        }
    }

    /// The value of a variable of an object that is in memory. Takes no memory.
    pub fn variable(&self, id: ObjId, i: usize) -> &Value
        requires { HasPlace (variables_at self.now id) i }
        ensures { (vs : List V) → variables_at self.now id ≡ Some vs → slice_get vs i ≡ Some result.now }
    {
        match &self.rows[id.0 as usize].object {
            Some(o) => match &o.state {
                ObjectState::Resident(items) => &items.as_slice()[i],
                ObjectState::Swapped { .. } => unreachable!(),
            },
            None => unreachable!(),
        }
    }

    /// Writes a variable of an object that is in memory. Takes no memory.
    pub fn set_variable(&mut self, id: ObjId, i: usize, v: Value)
        requires { HasPlace (variables_at self.old id) i }
        ensures { IsWritten self.old self.new id i v }
    {
        write_row(&mut self.rows[id.0 as usize], i, v);
    }

    /// Notes that a function of an object was entered at a moment, in seconds. Nothing else changes. Takes no memory.
    pub fn note_entry(&mut self, id: ObjId, latest: u64)
        requires { IsSome (row_at self.old id.0) }
        ensures { self.new ≡ slice_set self.old id.0 (object_aged latest (row_at self.old id.0)) }
    {
        age_row(&mut self.rows[id.0 as usize], latest);
    }

    /// Makes an object living, or no longer so. Nothing else changes. Takes no memory.
    pub fn set_living(&mut self, id: ObjId, is_living: bool)
        requires { IsSome (row_at self.old id.0) }
        ensures { self.new ≡ slice_set self.old id.0 (object_animated is_living (row_at self.old id.0)) }
    {
        animate_row(&mut self.rows[id.0 as usize], is_living);
    }

    /// How many serials were given out. Takes no memory.
    pub fn len(&self) -> usize
        ensures { result ≡ length self.now }
    {
        self.rows.len()
    }

    /// The object with a serial, where the state has it. Takes no memory.
    pub fn get(&self, id: ObjId) -> Option<&Object>
        ensures { option_copied result ≡ row_at self.now id.0 }
    {
        if self.rows.len() <= id.0 as usize {
            return None;
        }
        match &self.rows[id.0 as usize].object {
            Some(o) => Some(&**o),
            None => None,
        }
    }

    /// The variables of an object that is in memory. Takes no memory.
    pub fn variables(&self, id: ObjId) -> &[Value]
        requires { IsSome (variables_at self.now id) }
        ensures { variables_at self.now id ≡ Some result.now }
    {
        match &self.rows[id.0 as usize].object {
            Some(o) => match &o.state {
                ObjectState::Resident(items) => items.as_slice(),
                ObjectState::Swapped { .. } => unreachable!(),
            },
            None => unreachable!(),
        }
    }

    /// Puts other variables, or a ticket, in the place of what an object has, and gives that. Takes no memory.
    pub fn replace_state(&mut self, id: ObjId, state: ObjectState) -> ObjectState
        requires { IsSome (row_at self.old id.0) }
        ensures before { state_in (row_at self.old id.0) ≡ Some result }
        ensures after { self.new ≡ slice_set self.old id.0 (row_with_state (row_at self.old id.0) state) }
    {
        replace_state_of(&mut self.rows[id.0 as usize], state)
    }

    /// An object dies. One in memory keeps its variables until the turn ends, of one that is out nothing
    /// stays. Takes no memory.
    pub fn kill(&mut self, id: ObjId)
        requires { IsSome (row_at self.old id.0) }
        ensures { self.new ≡ slice_set self.old id.0 (row_after_death (row_at self.old id.0)) }
    {
        kill_row(&mut self.rows[id.0 as usize]);
    }

    /// Nothing stays of an object with this serial, where one was made. Its serial is not given out again. Takes no memory.
    pub fn forget(&mut self, id: ObjId)
        ensures { self.new ≡ slice_set self.old id.0 None }
    {
        if (id.0 as usize) < self.rows.len() {
            self.rows[id.0 as usize] = Row { object: None };
        }
    }

    /// A live object in memory comes behind the others and has the next serial. It is not living. `latest` is a
    /// clock, in seconds. After want of memory all is as it was.
    pub fn add(
        &mut self,
        program: ProgId,
        latest: u64,
        variables: Items,
    ) -> Result<ObjId, AllocError>
        ensures serial { IfOk result (λ id. id.0 ≡ length self.old) }
        ensures ok { OnOk result (self.new ≡ self.old ++ Some (new_object program latest variables) ∷ []) }
        ensures err { OnErr result (self.new ≡ self.old) }
    {
        let serial = self.rows.len() as u64;
        let object = Object {
            program,
            is_live: true,
            is_living: false,
            latest,
            state: ObjectState::Resident(variables),
        };
        let object = Some(Box::new(self.alloc, object)?);
        self.rows.push(Row { object })?;
        Ok(ObjId(serial))
    }

    /// The object that was added last is gone, and its serial is the next one again. Takes no memory.
    pub fn take_back(&mut self)
        ensures { (rows : List (Option O)) (row : Option O) → self.old ≡ rows ++ row ∷ [] → self.new ≡ rows }
    {
        self.rows.pop();
    }
}
