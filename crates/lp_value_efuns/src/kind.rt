//! Kinds of values.
ghost use Rattle.std.specs.Prelude.{◌≡◌, Bool};
ghost use Rattle.lp_values.specs.declared.id.ObjId.{ObjId};
ghost use Rattle.lp_cells.specs.Cells.{Store};
ghost use Rattle.lp_ops.specs.Operands.{opened};
ghost use Rattle.lp_meaning.specs.ComputingEfuns.{is_array_value, is_int_value, is_mapping_value, is_object_value, is_text_value};

use lp_values::value::Value;

/// `objectp`: whether a value that was read is an object.
pub fn is_object(v: &Value) -> bool
    ensures { (live : ObjId → Bool) (cells : Store) → result ≡ is_object_value (opened live cells v.now) }
{
    matches!(v, Value::Obj(_))
}

/// `intp`: whether a value that was read is an integer.
pub fn is_int(v: &Value) -> bool
    ensures { (live : ObjId → Bool) (cells : Store) → result ≡ is_int_value (opened live cells v.now) }
{
    matches!(v, Value::Int(_))
}

/// `stringp`: whether a value that was read is a text.
pub fn is_text(v: &Value) -> bool
    ensures { (live : ObjId → Bool) (cells : Store) → result ≡ is_text_value (opened live cells v.now) }
{
    matches!(v, Value::Str(_))
}

/// `pointerp`: whether a value that was read is an array.
pub fn is_array(v: &Value) -> bool
    ensures { (live : ObjId → Bool) (cells : Store) → result ≡ is_array_value (opened live cells v.now) }
{
    matches!(v, Value::Arr(_))
}

/// `mappingp`: whether a value that was read is a mapping.
pub fn is_mapping(v: &Value) -> bool
    ensures { (live : ObjId → Bool) (cells : Store) → result ≡ is_mapping_value (opened live cells v.now) }
{
    matches!(v, Value::Map(_))
}
