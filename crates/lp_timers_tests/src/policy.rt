//! Paths, and what the master says of them.
ghost use Rattle.std.specs.Prelude.{nat_le};

use lp_policy::answer::{Answer, read_answer};
use lp_policy::path::path_ok;
use lp_values::id::{CellId, ObjId};
use lp_values::text::Text;
use lp_values::value::{Living, Value};
use std::alloc::{AllocError, Global};
use std::test::Fail;

/// The objects with a serial of at least 5 are live.
#[derive(Clone, Copy)]
struct Late;

impl Living for Late {
    ghost live = { λ _ o. nat_le 5 o.0 };

    fn is_live(&self, id: ObjId) -> bool {
        5 <= id.0
    }
}

static WORDS: [(&str, bool); 10] = [
    ("/a.txt", true),
    ("/data/m.o", true),
    ("/a..b", true),
    ("a.txt", false),
    ("", false),
    ("/", false),
    ("/a/", false),
    ("/a/../b", false),
    ("/ä", false),
    ("/a b", false),
];

/// What the master gives.
#[derive(Clone, Copy)]
enum Given {
    Int(i64),
    Arr(u64),
    Map(u64),
    Obj(u64),
    Str(&'static str),
}

/// What its answer is: nothing is left, all is, or a path is named.
#[derive(Clone, Copy)]
enum Read {
    Denied,
    Given,
    Named(&'static [char]),
}

static ANSWERS: [(Given, Read); 9] = [
    (Given::Int(0), Read::Denied),
    (Given::Int(1), Read::Given),
    (Given::Int(-1), Read::Given),
    (Given::Arr(0), Read::Given),
    (Given::Map(0), Read::Given),
    (Given::Obj(5), Read::Given),
    (Given::Obj(4), Read::Denied),
    (Given::Str(""), Read::Named(&[])),
    (Given::Str("/b"), Read::Named(&['/', 'b'])),
];

fn value_of(alloc: Global, given: Given) -> Result<Value, AllocError> {
    match given {
        Given::Int(n) => Ok(Value::Int(n)),
        Given::Arr(c) => Ok(Value::Arr(CellId(c))),
        Given::Map(c) => Ok(Value::Map(CellId(c))),
        Given::Obj(o) => Ok(Value::Obj(ObjId(o))),
        Given::Str(text) => Ok(Value::Str(Text::from_str(alloc, text)?)),
    }
}

fn reads_as(value: &Value, wanted: Read) -> bool {
    match (read_answer(value, &Late), wanted) {
        (Answer::Denied, Read::Denied) => true,
        (Answer::Given, Read::Given) => true,
        (Answer::Named(path), Read::Named(chars)) => path.as_slice() == chars,
        _ => false,
    }
}

fn is_read_as(alloc: Global, given: Given, wanted: Read) -> Result<bool, AllocError> {
    let value = value_of(alloc, given)?;
    Ok(reads_as(&value, wanted))
}

/// The place of the first of what is given that is not read so.
fn first_misread(alloc: Global) -> Result<Option<usize>, AllocError> {
    for i in 0..ANSWERS.len() {
        if !is_read_as(alloc, ANSWERS[i].0, ANSWERS[i].1)? {
            return Ok(Some(i));
        }
    }
    Ok(None)
}

#[test]
fn paths_and_answers(rt: HostRuntime) -> Result<(), Fail> {
    for i in 0..WORDS.len() {
        let (word, is_path) = WORDS[i];
        assert_eq!(rt; path_ok(word), is_path, "{word}");
    }
    assert_eq!(rt; first_misread(rt.alloc())?, None);
    Ok(())
}
