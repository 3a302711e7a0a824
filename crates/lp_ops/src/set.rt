//! Sets of values as read.
ghost use Rattle.std.specs.Prelude.{◌≡◌, ◌||◌, [], IfOk, OnOk};
ghost use Rattle.std.specs.List.{list_any};
ghost use Rattle.lp_values.specs.Read.{as_read, value_eq};

use indexmap::IndexSet;
use lp_values::value::{Living, Value, as_read};
use std::alloc::{AllocError, Global};
use std::marker::Model;

/// A set of values. A value is found by hashing.
#[derive(Drop)]
pub struct ValueSet {
    values: IndexSet<Value>,
}

impl Model for ValueSet {
    ghost use Rattle.std.specs.Prelude.{List};
    ghost use Rattle.lp_values.specs.declared.value.Value.{Value as V};

    ghost Value = { List V };

    ghost view = { λ t. t.values.keys };
}

impl ValueSet {
    /// The values that these items read as.
    pub fn of<L: Living>(alloc: Global, items: &[Value], live: &L) -> Result<ValueSet, AllocError>
        ensures { IfOk result (λ s. (q : Value) → list_any (value_eq q) s ≡ list_any (λ y. value_eq q (as_read (L.live live.now) y)) items.now) }
    {
        let mut set = ValueSet {
            values: IndexSet::new(alloc),
        };
        for y in items {
            set.add(y.copy_as_read(live)?)?;
        }
        Ok(set)
    }

    /// Adds a value.
    fn add(&mut self, v: Value) -> Result<(), AllocError>
        ensures { OnOk result ((q : Value) → list_any (value_eq q) self.new ≡ (list_any (value_eq q) self.old || value_eq q v)) }
    {
        self.values.insert(v)?;
        Ok(())
    }

    /// Whether the set has a value, taken as it stands. Takes no memory.
    fn has(&self, v: &Value) -> bool
        ensures { result ≡ list_any (value_eq v.now) self.now }
    {
        self.values.contains(v)
    }

    /// Whether the set has what a value reads as. Takes no memory.
    pub fn has_read<L: Living>(&self, v: &Value, live: &L) -> bool
        ensures { result ≡ list_any (value_eq (as_read (L.live live.now) v.now)) self.now }
    {
        match as_read(v, live) {
            Some(v) => self.has(v),
            None => self.has(&Value::Int(0)),
        }
    }
}
