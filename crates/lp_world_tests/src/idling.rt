//! What is idle goes out: which, in which order, and how many. Each record of an object has 38 bytes.
use crate::state::{NO_TROUBLE, Step, Trouble, Var, first_wrong};
use lp_residence::answers::PutOut;
use lp_values::id::ObjId;
use std::test::Fail;

const A: ObjId = ObjId(0);

const B: ObjId = ObjId(1);

const C: ObjId = ObjId(2);

/// Never, and not yet; then the version, which is as old as the swap time. It and three objects are made at the clocks 0, 10, 20 and
/// 30.
static IN_TURN: [Step; 17] = [
    Step::Version,
    Step::At(10),
    Step::Object("/a#1", Var::Int(1), Var::Int(2)),
    Step::At(20),
    Step::Object("/a#2", Var::Int(1), Var::Int(2)),
    Step::At(30),
    Step::Object("/a#3", Var::Int(1), Var::Int(2)),
    Step::At(100),
    Step::Idles(0, 0, 0),
    Step::At(30),
    Step::Idles(31, 0, 0),
    Step::At(30),
    Step::Idles(30, 1, 0),
    Step::ProgramPlace(Some(0)),
    Step::Place(A, None),
    Step::Place(B, None),
    Step::Place(C, None),
];

/// Objects by serial, and then the version.
static IN_ORDER: [Step; 13] = [
    Step::Version,
    Step::At(10),
    Step::Object("/a#1", Var::Int(1), Var::Int(2)),
    Step::At(20),
    Step::Object("/a#2", Var::Int(1), Var::Int(2)),
    Step::At(30),
    Step::Object("/a#3", Var::Int(1), Var::Int(2)),
    Step::At(40),
    Step::Idles(20, 3, 0),
    Step::Place(A, Some(0)),
    Step::Place(B, Some(38)),
    Step::Place(C, None),
    Step::ProgramPlace(Some(76)),
];

/// All of them.
static ALL: [Step; 13] = [
    Step::Version,
    Step::At(10),
    Step::Object("/a#1", Var::Int(1), Var::Int(2)),
    Step::At(20),
    Step::Object("/a#2", Var::Int(1), Var::Int(2)),
    Step::At(30),
    Step::Object("/a#3", Var::Int(1), Var::Int(2)),
    Step::At(40),
    Step::Idles(10, 4, 0),
    Step::Place(A, Some(0)),
    Step::Place(B, Some(38)),
    Step::Place(C, Some(76)),
    Step::ProgramPlace(Some(114)),
];

/// The object whose write fails is kept, and the program too, where the writes 2 and 4 fail.
static KEPT: [Step; 13] = [
    Step::Version,
    Step::At(10),
    Step::Object("/a#1", Var::Int(1), Var::Int(2)),
    Step::At(20),
    Step::Object("/a#2", Var::Int(1), Var::Int(2)),
    Step::At(30),
    Step::Object("/a#3", Var::Int(1), Var::Int(2)),
    Step::At(40),
    Step::Idles(10, 2, 2),
    Step::Place(A, Some(0)),
    Step::Place(B, None),
    Step::Place(C, Some(38)),
    Step::ProgramPlace(None),
];

/// Neither what is out already nor what is destructed goes out, and what came back does.
static ONCE: [Step; 15] = [
    Step::Version,
    Step::At(10),
    Step::Object("/a#1", Var::Int(1), Var::Int(2)),
    Step::At(20),
    Step::Object("/a#2", Var::Int(1), Var::Int(2)),
    Step::At(30),
    Step::Object("/a#3", Var::Int(1), Var::Int(2)),
    Step::Goes(A, PutOut::Out),
    Step::Ends(B),
    Step::At(100),
    Step::Idles(10, 2, 0),
    Step::Idles(10, 0, 0),
    Step::Comes(C, true),
    Step::Idles(10, 1, 0),
    Step::Place(B, None),
];

const TWO_WRITES: Trouble<'static> = Trouble {
    reads: &[],
    writes: &[2, 4],
    lies: &[],
};

#[test]
fn what_is_idle_goes_out(rt: HostRuntime) -> Result<(), Fail> {
    let alloc = rt.alloc();
    assert_eq!(rt; first_wrong(alloc, &NO_TROUBLE, &IN_TURN)?, None);
    assert_eq!(rt; first_wrong(alloc, &NO_TROUBLE, &IN_ORDER)?, None);
    assert_eq!(rt; first_wrong(alloc, &NO_TROUBLE, &ALL)?, None);
    assert_eq!(rt; first_wrong(alloc, &TWO_WRITES, &KEPT)?, None);
    assert_eq!(rt; first_wrong(alloc, &NO_TROUBLE, &ONCE)?, None);
    Ok(())
}
