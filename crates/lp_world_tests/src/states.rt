//! Arrays that are shared, arrays in themselves, and the room of objects that end, through a swap.
use crate::state::{NO_TROUBLE, Rounds, Step, Trouble, Var, first_wrong, holds_but_at};
use lp_residence::answers::PutOut;
use lp_values::id::{CellId, ObjId};
use std::alloc::{AllocError, Global};
use std::test::Fail;

const A: ObjId = ObjId(0);

const B: ObjId = ObjId(1);

const C: CellId = CellId(0);

const D: CellId = CellId(1);

/// An array that two objects have is the same one after one of them was out, and what was written to it while that one was out is
/// read from it.
static STAYS_SHARED: [Step; 12] = [
    Step::Version,
    Step::Array(Var::Int(7)),
    Step::Object("/a#1", Var::Arr(C), Var::Int(1)),
    Step::Object("/a#2", Var::Int(2), Var::Arr(C)),
    Step::Goes(A, PutOut::Out),
    Step::Writes(C, Var::Int(9)),
    Step::Comes(A, true),
    Step::Has(A, 0, Var::Arr(C)),
    Step::Has(A, 1, Var::Int(1)),
    Step::Has(B, 0, Var::Int(2)),
    Step::Has(B, 1, Var::Arr(C)),
    Step::First(C, Var::Int(9)),
];

/// It is so after both were out.
static STAYS_SHARED_BY_TWO: [Step; 13] = [
    Step::Version,
    Step::Array(Var::Int(7)),
    Step::Object("/a#1", Var::Arr(C), Var::Int(1)),
    Step::Object("/a#2", Var::Int(2), Var::Arr(C)),
    Step::Goes(A, PutOut::Out),
    Step::Goes(B, PutOut::Out),
    Step::Comes(B, true),
    Step::Comes(A, true),
    Step::Has(A, 0, Var::Arr(C)),
    Step::Has(A, 1, Var::Int(1)),
    Step::Has(B, 0, Var::Int(2)),
    Step::Has(B, 1, Var::Arr(C)),
    Step::First(C, Var::Int(7)),
];

/// An array that is its own item is so after its object was out.
static STAYS_IN_ITSELF: [Step; 9] = [
    Step::Version,
    Step::Array(Var::Int(0)),
    Step::Writes(C, Var::Arr(C)),
    Step::Object("/a#1", Var::Arr(C), Var::Arr(C)),
    Step::Goes(A, PutOut::Out),
    Step::Comes(A, true),
    Step::Has(A, 0, Var::Arr(C)),
    Step::Has(A, 1, Var::Arr(C)),
    Step::First(C, Var::Arr(C)),
];

/// Two arrays, each of which is in the other, are so after their object was out.
static STAY_IN_EACH_OTHER: [Step; 11] = [
    Step::Version,
    Step::Array(Var::Int(0)),
    Step::Array(Var::Arr(C)),
    Step::Writes(C, Var::Arr(D)),
    Step::Object("/a#1", Var::Arr(C), Var::Int(5)),
    Step::Goes(A, PutOut::Out),
    Step::Comes(A, true),
    Step::Has(A, 0, Var::Arr(C)),
    Step::Has(A, 1, Var::Int(5)),
    Step::First(C, Var::Arr(D)),
    Step::First(D, Var::Arr(C)),
];

/// The second of two objects that go out stands behind the first one. A record of two numbers: the mark, the owner, the number of
/// variables, the values and the number of cells are 4, 8, 4, 18 and 4 bytes.
static IS_BEHIND: [Step; 6] = [
    Step::Version,
    Step::Object("/a#1", Var::Int(1), Var::Int(2)),
    Step::Object("/a#2", Var::Int(3), Var::Int(4)),
    Step::Goes(A, PutOut::Out),
    Step::Goes(B, PutOut::Out),
    Step::Place(B, Some(38)),
];

/// It stands in the room of the first one, where that was destructed while it was out.
static IS_IN_ITS_ROOM: [Step; 7] = [
    Step::Version,
    Step::Object("/a#1", Var::Int(1), Var::Int(2)),
    Step::Object("/a#2", Var::Int(3), Var::Int(4)),
    Step::Goes(A, PutOut::Out),
    Step::Ends(A),
    Step::Goes(B, PutOut::Out),
    Step::Place(B, Some(0)),
];

/// A destructed object that was out is gone: it neither goes out nor comes back.
static IS_GONE: [Step; 8] = [
    Step::Version,
    Step::Object("/a#1", Var::Int(1), Var::Int(2)),
    Step::Object("/a#2", Var::Int(3), Var::Int(4)),
    Step::Goes(A, PutOut::Out),
    Step::Goes(A, PutOut::Already),
    Step::Ends(A),
    Step::Goes(A, PutOut::NotThere),
    Step::Comes(A, false),
];

/// A version keeps the path of its file while its program is out, and afterwards.
static KEEPS_PATH: [Step; 6] = [
    Step::Version,
    Step::IsOf("/a.c"),
    Step::ProgramGoes,
    Step::IsOf("/a.c"),
    Step::ProgramComes,
    Step::IsOf("/a.c"),
];

#[test]
fn states_hold(rt: HostRuntime) -> Result<(), Fail> {
    let alloc = rt.alloc();
    assert_eq!(rt; first_wrong(alloc, &NO_TROUBLE, &STAYS_SHARED)?, None);
    assert_eq!(rt;
        first_wrong(alloc, &NO_TROUBLE, &STAYS_SHARED_BY_TWO)?,
        None
    );
    assert_eq!(rt; first_wrong(alloc, &NO_TROUBLE, &STAYS_IN_ITSELF)?, None);
    assert_eq!(rt; first_wrong(alloc, &NO_TROUBLE, &STAY_IN_EACH_OTHER)?, None);
    assert_eq!(rt; first_wrong(alloc, &NO_TROUBLE, &IS_BEHIND)?, None);
    assert_eq!(rt; first_wrong(alloc, &NO_TROUBLE, &IS_IN_ITS_ROOM)?, None);
    assert_eq!(rt; first_wrong(alloc, &NO_TROUBLE, &IS_GONE)?, None);
    assert_eq!(rt; first_wrong(alloc, &NO_TROUBLE, &KEEPS_PATH)?, None);
    Ok(())
}

/// Two objects of numbers.
const TWO: [Step; 3] = [
    Step::Version,
    Step::Object("/a#1", Var::Int(1), Var::Int(2)),
    Step::Object("/a#2", Var::Int(3), Var::Int(4)),
];

/// The first, which is in memory, goes out and comes back, with both variables as they were.
const TURN: [Step; 4] = [
    Step::Goes(A, PutOut::Out),
    Step::Comes(A, true),
    Step::Has(A, 0, Var::Int(1)),
    Step::Has(A, 1, Var::Int(2)),
];

/// It goes out, its read fails, and the next one does not.
const TURN_TWICE: [Step; 6] = [
    Step::Goes(A, PutOut::Out),
    Step::Comes(A, false),
    Step::Goes(A, PutOut::Already),
    Step::Comes(A, true),
    Step::Has(A, 0, Var::Int(1)),
    Step::Has(A, 1, Var::Int(2)),
];

/// It goes out, its read lies, and the next one does not.
const TURN_IN_SPITE_OF_A_LIE: [Step; 5] = [
    Step::Goes(A, PutOut::Out),
    Step::Changed(A),
    Step::Comes(A, true),
    Step::Has(A, 0, Var::Int(1)),
    Step::Has(A, 1, Var::Int(2)),
];

/// Its write fails, so that it stays, and the next one does not.
const GO_LATE: [Step; 7] = [
    Step::Goes(A, PutOut::KeptFault),
    Step::Has(A, 0, Var::Int(1)),
    Step::Has(A, 1, Var::Int(2)),
    Step::Goes(A, PutOut::Out),
    Step::Comes(A, true),
    Step::Has(A, 0, Var::Int(1)),
    Step::Has(A, 1, Var::Int(2)),
];

/// Each return, one of which fails.
const RETURNS: Rounds = Rounds {
    before: &TWO,
    usual: &TURN,
    other: &TURN_TWICE,
    then: Step::ReadFaults(1),
};

/// Each return, one of which is lied to.
const RETURNS_WITH_A_LIE: Rounds = Rounds {
    before: &TWO,
    usual: &TURN,
    other: &TURN_IN_SPITE_OF_A_LIE,
    then: Step::ReadFaults(0),
};

/// Each going, one of which fails.
const GOINGS: Rounds = Rounds {
    before: &TWO,
    usual: &TURN,
    other: &GO_LATE,
    then: Step::WriteFaults(1),
};

/// Whether the object comes back where the read with a number fails.
fn fails_at(alloc: Global, n: u64) -> Result<bool, AllocError> {
    let trouble = Trouble {
        reads: &[n],
        ..NO_TROUBLE
    };
    holds_but_at(alloc, &trouble, &RETURNS, n)
}

/// Whether it comes back where that one lies about its first byte.
fn lies_at(alloc: Global, n: u64) -> Result<bool, AllocError> {
    let trouble = Trouble {
        lies: &[(n, 0)],
        ..NO_TROUBLE
    };
    holds_but_at(alloc, &trouble, &RETURNS_WITH_A_LIE, n)
}

/// Whether it is kept where the write with a number fails.
fn is_kept_at(alloc: Global, n: u64) -> Result<bool, AllocError> {
    let trouble = Trouble {
        writes: &[n],
        ..NO_TROUBLE
    };
    holds_but_at(alloc, &trouble, &GOINGS, n)
}

#[test]
fn each_turn_may_fail(rt: HostRuntime) -> Result<(), Fail> {
    for n in 1..5 {
        assert!(rt; fails_at(rt.alloc(), n)?, "read {n}");
        assert!(rt; lies_at(rt.alloc(), n)?, "lie {n}");
        assert!(rt; is_kept_at(rt.alloc(), n)?, "write {n}");
    }
    Ok(())
}
