//! Values of LPC, and what they read as.
ghost use Rattle.std.specs.Prelude.{◌≡◌, ◌↔◌, IfOk, IsTrue, pos};
ghost use Rattle.std.specs.Option.{option_copied};
ghost use Rattle.lp_values.specs.Read.{as_read, is_zero, live_part, same};

use crate::id::{CellId, ObjId};
use crate::text::Text;
use std::alloc::AllocError;

/// A value. A variable that was never assigned is the integer 0.
#[derive(Debug, PartialEq, Eq, Hash, Drop)]
pub enum Value {
    /// An integer.
    Int(i64),
    /// A text.
    Str(Text),
    /// A reference to an array.
    Arr(CellId),
    /// A reference to a mapping.
    Map(CellId),
    /// A reference to an object, which may be destructed.
    Obj(ObjId),
}

/// Which objects are live.
pub trait Living {
    ghost use Rattle.std.specs.Prelude.{Bool};
    ghost use Rattle.lp_values.specs.declared.id.ObjId.{ObjId};

    ghost live: { Self → ObjId → Bool };

    /// Whether the object is live.
    fn is_live(&self, id: ObjId) -> bool
        ensures { result ≡ live self.now id };
}

/// The value, or none where it names a destructed object, which reads as 0. Takes no memory.
pub fn as_read<'a, L: Living>(v: &'a Value, live: &L) -> Option<&'a Value>
    ensures { option_copied result ≡ live_part (L.live live.now) v.now }
{
    match v {
        Value::Obj(o) => if live.is_live(*o) { Some(v) } else { None },
        _ => Some(v),
    }
}

/// Equality as read: whether both read as one value. Takes no memory.
pub fn same<L: Living>(a: &Value, b: &Value, live: &L) -> bool
    ensures value { result ≡ same (L.live live.now) a.now b.now }
    ensures one { IsTrue result ↔ (as_read (L.live live.now) a.now ≡ as_read (L.live live.now) b.now) }
{
    match (as_read(a, live), as_read(b, live)) {
        (Some(a), Some(b)) => *a == *b,
        (Some(a), None) => a.is_integer_zero(),
        (None, Some(b)) => b.is_integer_zero(),
        (None, None) => true,
    }
}

/// Whether the value reads as 0, the one value that is false. Takes no memory.
pub fn is_zero<L: Living>(v: &Value, live: &L) -> bool
    ensures { result ≡ is_zero (L.live live.now) v.now }
{
    match v {
        Value::Int(n) => *n == 0,
        Value::Obj(o) => !live.is_live(*o),
        _ => false,
    }
}

impl Value {
    /// The same value. A text keeps its memory, an array or a mapping is not copied.
    pub fn copy(&self) -> Result<Value, AllocError>
        ensures { IfOk result (λ v. v ≡ self.now) }
    {
        match self {
            Value::Int(n) => Ok(Value::Int(*n)),
            Value::Str(s) => Ok(Value::Str(s.copy()?)),
            Value::Arr(c) => Ok(Value::Arr(*c)),
            Value::Map(c) => Ok(Value::Map(*c)),
            Value::Obj(o) => Ok(Value::Obj(*o)),
        }
    }

    /// What the value reads as.
    pub fn copy_as_read<L: Living>(&self, live: &L) -> Result<Value, AllocError>
        ensures { IfOk result (λ v. v ≡ as_read (L.live live.now) self.now) }
    {
        match as_read(self, live) {
            Some(v) => v.copy(),
            None => Ok(Value::Int(0)),
        }
    }

    /// What the value reads as, from the value itself. Takes no memory.
    pub fn into_read<L: Living>(self, live: &L) -> Value
        ensures { result ≡ as_read (L.live live.now) self }
    {
        match self {
            Value::Obj(o) => if live.is_live(o) {
                Value::Obj(o)
            } else {
                Value::Int(0)
            },
            v => v,
        }
    }

    fn is_integer_zero(&self) -> bool
        ensures { IsTrue result ↔ (self.now ≡ Value.Int (pos 0)) }
    {
        matches!(self, Value::Int(0))
    }
}
