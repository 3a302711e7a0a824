use lp_values::decimal::{signed_spelling, spelling};
use lp_values::error::{ErrorKind, RunError};
use lp_values::id::{CellId, ObjId};
use lp_values::text::Text;
use lp_values::value::{Living, Value, as_read, is_zero, same};
use std::alloc::{AllocError, Global};
use std::test::Fail;

/// Objects with an even serial are live.
struct Even;

impl Living for Even {
    ghost use Rattle.std.specs.Prelude.{nat_eq, ◌%◌};

    ghost live = { λ _ o. nat_eq (o.0 % 2) 0 };

    fn is_live(&self, id: ObjId) -> bool {
        id.0 % 2 == 0
    }
}

/// The value with this number.
fn value_of(alloc: Global, n: u64) -> Result<Value, AllocError> {
    match n {
        0 => Ok(Value::Int(0)),
        1 => Ok(Value::Int(7)),
        2 => Ok(Value::Str(Text::from_str(alloc, "ab")?)),
        3 => Ok(Value::Arr(CellId(4))),
        4 => Ok(Value::Map(CellId(4))),
        5 => Ok(Value::Obj(ObjId(6))),
        6 => Ok(Value::Obj(ObjId(7))),
        _ => Ok(Value::Obj(ObjId(9))),
    }
}

/// Whether the value with this number is read as it should be: those above 5 are dead objects.
fn is_read(a: &Value, i: u64) -> Result<bool, AllocError> {
    let copied = a.copy_as_read(&Even)?;
    let read = a.copy()?.into_read(&Even);
    Ok(
        as_read(a, &Even).is_none() == (i > 5)
            && is_zero(a, &Even) == (i == 0 || i > 5)
            && same(&copied, a, &Even)
            && same(&read, a, &Even),
    )
}

/// Whether the value with the first number is the same as the one with the second exactly where it should be.
fn is_same_as(alloc: Global, a: &Value, i: u64, j: u64) -> Result<bool, AllocError> {
    let b = value_of(alloc, j)?;
    let zeroes = (i == 0 || i > 5) && (j == 0 || j > 5);
    Ok(same(a, &b, &Even) == (i == j || zeroes))
}

fn are_same(alloc: Global, a: &Value, i: u64) -> Result<bool, AllocError> {
    for j in 0..8u64 {
        if !is_same_as(alloc, a, i, j)? {
            return Ok(false);
        }
    }
    Ok(true)
}

fn is_equal_as_read(alloc: Global, i: u64) -> Result<bool, AllocError> {
    let a = value_of(alloc, i)?;
    Ok(is_read(&a, i)? && are_same(alloc, &a, i)?)
}

/// Whether an error has a text.
fn says(error: &RunError, text: &str) -> bool {
    error.text.as_slice().len() == text.len() && spells(error.text.as_slice(), text.as_bytes())
}

/// Whether letters are these bytes, of which there are as many.
fn spells(letters: &[char], bytes: &[u8]) -> bool {
    for i in 0..letters.len().min(bytes.len()) {
        if letters[i] as u32 != bytes[i] as u32 {
            return false;
        }
    }
    true
}

fn is_plain(alloc: Global) -> Result<bool, AllocError> {
    let error = RunError::plain(alloc, ErrorKind::TooLong)?;
    Ok(says(&error, "Array too long\n"))
}

fn is_bad_arg(alloc: Global) -> Result<bool, AllocError> {
    let error = RunError::bad_arg(alloc, 2, "strstr")?;
    Ok(says(&error, "Bad argument 2 to strstr\n"))
}

fn is_not_loaded(alloc: Global) -> Result<bool, AllocError> {
    let error = RunError::could_not_load(alloc, "/x")?;
    Ok(says(&error, "Could not load /x\n"))
}

fn is_bad_save(alloc: Global) -> Result<bool, AllocError> {
    let error = RunError::bad_save(alloc, "/f.o", 3)?;
    Ok(says(&error, "Illegal save text in /f.o line 3\n"))
}

/// Whether an error has a copy of a text of its own.
fn is_raised(alloc: Global) -> Result<bool, AllocError> {
    let own = Text::from_str(alloc, "no\n")?.copy()?;
    let error = RunError::new(alloc, ErrorKind::Raised, own.as_slice())?;
    Ok(says(&error, "no\n"))
}

/// Whether a long text is kept whole.
fn is_whole(alloc: Global) -> Result<bool, AllocError> {
    let mut many = Vec::new(alloc);
    many.resize(1001, 'x')?;
    let error = RunError::new(alloc, ErrorKind::Raised, many.as_slice())?;
    Ok(error.text.as_slice().len() == 1001)
}

/// Whether numbers are spelled in decimals.
fn are_spelled(alloc: Global) -> Result<bool, AllocError> {
    let low = signed_spelling(alloc, i64::MIN)?;
    let ten = spelling(alloc, 10)?;
    Ok(
        spells(low.as_slice(), b"-9223372036854775808")
            && low.len() == 20
            && ten.as_slice() == ['1', '0'].as_slice(),
    )
}

fn is_text(alloc: Global) -> Result<bool, AllocError> {
    let text = Text::from_slice(alloc, &['a'])?;
    Ok(text.as_slice() == ['a'].as_slice())
}

#[test]
fn values_hold(rt: HostRuntime) -> Result<(), Fail> {
    let alloc = rt.alloc();
    for i in 0..8u64 {
        assert!(rt; is_equal_as_read(alloc, i)?, "{i}");
    }
    assert!(rt; is_plain(alloc)?);
    assert!(rt; is_bad_arg(alloc)?);
    assert!(rt; is_not_loaded(alloc)?);
    assert!(rt; is_bad_save(alloc)?);
    assert!(rt; is_raised(alloc)?);
    assert!(rt; is_whole(alloc)?);
    assert!(rt; are_spelled(alloc)?);
    assert!(rt; is_text(alloc)?);
    Ok(())
}
