//! Connections, and functions that wait for their lines.
ghost use Rattle.std.specs.Prelude.{◌≡◌, ◌∷◌, ◌++◌, [], OnErr, OnOk, filter, find, length, map, nat_eq, not, option_map};
ghost use Rattle.std.specs.List.{list_any};
ghost use Rattle.std.specs.Option.{option_copied};
ghost use Rattle.lp_world.specs.Connecting.{given_to};

use lp_cells::content::Items;
use lp_values::id::ObjId;
use lp_values::text::Text;
use std::alloc::{AllocError, Global};
use std::marker::Model;

/// An open connection and the object that has it.
#[derive(Clone, Copy, Debug, PartialEq, Eq)]
pub struct Connection {
    /// Its number.
    pub number: u32,
    /// Its object.
    pub object: ObjId,
}

/// A function that waits for the next line of a connection.
#[derive(Drop)]
pub struct Waiting {
    /// The connection.
    pub connection: u32,
    /// The object whose function it is.
    pub object: ObjId,
    /// The function's name.
    pub function: Text,
    /// Whether the line is hidden as it is typed.
    pub hides: bool,
    /// What it is called with behind the line.
    pub arguments: Items,
}

/// The connections that are open, in the order of their opening; the highest number so far; the numbers
/// that were connected and are not gone; and what waits for lines.
#[derive(Drop)]
pub struct Connections {
    open: Vec<Connection>,
    highest: u32,
    present: Vec<u32>,
    waiting: Vec<Waiting>,
}

impl Model for Connections {
    ghost use Rattle.lp_world.specs.Connecting.{Connecting};

    ghost Value = { Connecting };

    ghost view = { λ c. record { opened = c.open.items; highest = c.highest; present = c.present.items; waiting = c.waiting.items } };
}

/// The number of the first connection of an object.
fn first_of(open: &[Connection], ob: ObjId) -> Option<u32>
    ensures { result ≡ option_map (λ c. c.number) (find (λ c. nat_eq c.object.0 ob.0) open.now) }
{
    for c in open {
        if c.object == ob {
            return Some(c.number);
        }
    }
    None
}

/// The object of the first connection with a number.
fn holder_of(open: &[Connection], number: u32) -> Option<ObjId>
    ensures { result ≡ option_map (λ c. c.object) (find (λ c. nat_eq c.number number) open.now) }
{
    for c in open {
        if c.number == number {
            return Some(c.object);
        }
    }
    None
}

/// A connection of that number with another object, and every other one as it is.
fn given(c: Connection, number: u32, ob: ObjId) -> Connection
    ensures { result ≡ given_to ob number c }
{
    if c.number == number {
        return Connection {
            number: c.number,
            object: ob,
        };
    }
    c
}

/// Gives the connections of a number to an object.
#[tactic(auto, using(std::proofs::lemmas::List::Edits::map_over_more))]
fn give_in(open: &mut [Connection], number: u32, ob: ObjId)
    ensures { open.new ≡ map (given_to ob number) open.old }
{
    for i in 0..open.len() {
        open[i] = given(open[i], number, ob);
    }
}

/// Whether something waits for the lines of a connection.
fn is_awaited_in(waiting: &[Waiting], number: u32) -> bool
    ensures { result ≡ list_any (λ x. nat_eq x.connection number) waiting.now }
{
    for x in waiting {
        if x.connection == number {
            return true;
        }
    }
    false
}

/// The first that waits for the lines of a connection.
fn waiting_in(waiting: &[Waiting], number: u32) -> Option<&Waiting>
    ensures { option_copied result ≡ find (λ x. nat_eq x.connection number) waiting.now }
{
    for x in waiting {
        if x.connection == number {
            return Some(x);
        }
    }
    None
}

/// Takes a number out.
fn forget_in(present: &mut Vec<u32>, number: u32)
    ensures { present.new.items ≡ filter (λ n. not (nat_eq n number)) present.old.items }
{
    present.retain(
        |n: &u32| -> bool
            ensures { result ≡ not (nat_eq n.now number) }
        { *n != number },
    );
}

/// Takes a connection out.
fn close_in(open: &mut Vec<Connection>, number: u32)
    ensures { open.new.items ≡ filter (λ c. not (nat_eq c.number number)) open.old.items }
{
    open.retain(
        |c: &Connection| -> bool
            ensures { result ≡ not (nat_eq c.now.number number) }
        { c.number != number },
    );
}

/// Takes out what waits for the lines of a connection.
fn wait_no_more(waiting: &mut Vec<Waiting>, number: u32)
    ensures { waiting.new.items ≡ filter (λ x. not (nat_eq x.connection number)) waiting.old.items }
{
    waiting.retain(
        |x: &Waiting| -> bool
            ensures { result ≡ not (nat_eq x.now.connection number) }
        { x.connection != number },
    );
}

impl Connections {
    /// No connection was opened yet. Takes no memory.
    pub fn new(alloc: Global) -> Connections
        ensures { result ≡ record { opened = []; highest = 0; present = []; waiting = [] } }
    {
        Connections {
            open: Vec::new(alloc),
            highest: 0,
            present: Vec::new(alloc),
            waiting: Vec::new(alloc),
        }
    }

    /// The connection of an object. Takes no memory.
    pub fn of(&self, ob: ObjId) -> Option<u32>
        ensures { result ≡ option_map (λ c. c.number) (find (λ c. nat_eq c.object.0 ob.0) self.now.opened) }
    {
        first_of(self.open.as_slice(), ob)
    }

    /// A connection is open no longer, and what waited for its next line ends with it. Takes no memory.
    pub fn close(&mut self, number: u32)
        ensures { self.new ≡ record { opened = filter (λ c. not (nat_eq c.number number)) self.old.opened; highest = self.old.highest; present = self.old.present; waiting = filter (λ x. not (nat_eq x.connection number)) self.old.waiting } }
    {
        close_in(&mut self.open, number);
        wait_no_more(&mut self.waiting, number);
    }

    /// The object of an open connection. Takes no memory.
    pub fn holder(&self, number: u32) -> Option<ObjId>
        ensures { result ≡ option_map (λ c. c.object) (find (λ c. nat_eq c.number number) self.now.opened) }
    {
        holder_of(self.open.as_slice(), number)
    }

    /// The open connections, in the order of their opening. Takes no memory.
    pub fn opened(&self) -> &[Connection]
        ensures { result.now ≡ self.now.opened }
    {
        self.open.as_slice()
    }

    /// A number was connected: it is the highest so far, and is not gone. After want of memory nothing has changed.
    pub fn number(&mut self, number: u32) -> Result<(), AllocError>
        ensures ok { OnOk result (self.new ≡ record { opened = self.old.opened; highest = number; present = self.old.present ++ number ∷ []; waiting = self.old.waiting }) }
        ensures err { OnErr result (self.new ≡ self.old) }
    {
        self.present.push(number)?;
        self.highest = number;
        Ok(())
    }

    /// A number is gone. Its connection, if it is open, stays so. Takes no memory.
    pub fn forget(&mut self, number: u32)
        ensures { self.new ≡ record { opened = self.old.opened; highest = self.old.highest; present = filter (λ n. not (nat_eq n number)) self.old.present; waiting = self.old.waiting } }
    {
        forget_in(&mut self.present, number);
    }

    /// An object gets a connection, which is open from now on. After want of memory nothing has changed.
    pub fn open(&mut self, number: u32, object: ObjId) -> Result<(), AllocError>
        ensures ok { OnOk result (self.new ≡ record { opened = self.old.opened ++ record { number = number; object = object } ∷ []; highest = self.old.highest; present = self.old.present; waiting = self.old.waiting }) }
        ensures err { OnErr result (self.new ≡ self.old) }
    {
        self.open.push(Connection { number, object })?;
        Ok(())
    }

    /// A connection goes to another object. Takes no memory.
    pub fn give(&mut self, number: u32, object: ObjId)
        ensures { self.new ≡ record { opened = map (given_to object number) self.old.opened; highest = self.old.highest; present = self.old.present; waiting = self.old.waiting } }
    {
        give_in(&mut self.open, number, object);
    }

    /// Whether something waits for the next line of a connection. Takes no memory.
    pub fn is_awaited(&self, number: u32) -> bool
        ensures { result ≡ list_any (λ x. nat_eq x.connection number) self.now.waiting }
    {
        is_awaited_in(self.waiting.as_slice(), number)
    }

    /// What waits for the next line of a connection. Takes no memory.
    pub fn waiting_for(&self, number: u32) -> Option<&Waiting>
        ensures { option_copied result ≡ find (λ x. nat_eq x.connection number) self.now.waiting }
    {
        waiting_in(self.waiting.as_slice(), number)
    }

    /// A function waits for the next line of a connection. After want of memory nothing has changed.
    pub fn wait(&mut self, waiting: Waiting) -> Result<(), AllocError>
        ensures ok { OnOk result (self.new ≡ record { opened = self.old.opened; highest = self.old.highest; present = self.old.present; waiting = self.old.waiting ++ waiting ∷ [] }) }
        ensures err { OnErr result (self.new ≡ self.old) }
    {
        self.waiting.push(waiting)?;
        Ok(())
    }

    /// Nothing waits for the next line of a connection any more. Takes no memory.
    pub fn take_line(&mut self, number: u32)
        ensures { self.new ≡ record { opened = self.old.opened; highest = self.old.highest; present = self.old.present; waiting = filter (λ x. not (nat_eq x.connection number)) self.old.waiting } }
    {
        wait_no_more(&mut self.waiting, number);
    }
}
