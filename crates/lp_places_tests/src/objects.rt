//! Names, serials and the limit of live objects.
use lp_objects::fault::ObjectFault;
use lp_objects::objects::Objects;
use lp_values::id::{ObjId, ProgId};
use std::alloc::{AllocError, Global};
use std::test::Fail;

/// What is done, and what has to come of it.
#[derive(Clone, Copy)]
enum Step {
    /// An object of a name and a program comes, with this serial.
    Adds(&'static str, u64, u64),
    /// A name is taken.
    Taken(&'static str),
    /// None of a name comes, since there are as many as may be.
    Full(&'static str),
    /// The live object of a name.
    Finds(&'static str, Option<ObjId>),
    /// Whether an object is live.
    Lives(u64, bool),
    /// Whether an object dies.
    Dies(u64, bool),
    /// The name of an object.
    Name(u64, Option<&'static str>),
    /// The program of an object.
    Program(u64, Option<ProgId>),
    /// The objects that died.
    Died(&'static [ObjId]),
    /// They are forgotten.
    Forgets,
    /// The number of a new clone.
    NextClone(u64),
}

static A_LIFE: [Step; 26] = [
    Step::Adds("/v", 3, 0),
    Step::Adds("/v#1", 4, 1),
    Step::Taken("/v"),
    Step::Finds("/v", Some(ObjId(0))),
    Step::Finds("/v#1", Some(ObjId(1))),
    Step::Finds("/v#", None),
    Step::Lives(1, true),
    Step::Lives(2, false),
    Step::Dies(0, true),
    Step::Dies(0, false),
    Step::Dies(7, false),
    Step::Lives(0, false),
    Step::Finds("/v", None),
    Step::Name(0, Some("/v")),
    Step::Program(0, Some(ProgId(3))),
    Step::Adds("/v", 6, 2),
    Step::Finds("/v", Some(ObjId(2))),
    Step::Dies(2, true),
    Step::Died(&[ObjId(0), ObjId(2)]),
    Step::Forgets,
    Step::Died(&[]),
    Step::Name(0, None),
    Step::Program(2, None),
    Step::Name(1, Some("/v#1")),
    Step::Adds("/v", 6, 3),
    Step::Lives(3, true),
];

static CLONES: [Step; 4] = [
    Step::NextClone(1),
    Step::NextClone(2),
    Step::Adds("/v#2", 0, 0),
    Step::NextClone(3),
];

/// Behind as many objects as may be live, `/v#0` and so on.
static TOO_MANY: [Step; 5] = [
    Step::Full("/v"),
    Step::Taken("/v#7"),
    Step::Dies(50000, true),
    Step::Adds("/v", 0, 100000),
    Step::Full("/w"),
];

fn adds(objects: &mut Objects, name: &str, program: u64, serial: u64) -> bool {
    match objects.add(name, ProgId(program)) {
        Ok(id) => id.0 == serial,
        Err(_) => false,
    }
}

fn refuses(objects: &mut Objects, name: &str, fault: &ObjectFault) -> bool {
    match objects.add(name, ProgId(0)) {
        Ok(_) => false,
        Err(e) => e == *fault,
    }
}

/// Whether that comes of a step.
fn holds(objects: &mut Objects, step: Step) -> bool {
    match step {
        Step::Adds(name, program, serial) => adds(objects, name, program, serial),
        Step::Taken(name) => refuses(objects, name, &ObjectFault::NameTaken),
        Step::Full(name) => refuses(objects, name, &ObjectFault::TooMany),
        Step::Finds(name, found) => objects.find(name) == found,
        Step::Lives(id, is) => objects.is_live(ObjId(id)) == is,
        Step::Dies(id, is) => objects.kill(ObjId(id)) == is,
        Step::Name(id, name) => objects.name(ObjId(id)) == name,
        Step::Program(id, program) => objects.program(ObjId(id)) == program,
        Step::Died(all) => objects.died() == all,
        Step::Forgets => {
            objects.forget_dead();
            true
        }
        Step::NextClone(number) => objects.next_clone() == Some(number),
    }
}

/// The place of the first step that does not hold, if one does not.
fn first_wrong_on(objects: &mut Objects, steps: &[Step]) -> Option<usize> {
    for i in 0..steps.len() {
        if !holds(objects, steps[i]) {
            return Some(i);
        }
    }
    None
}

fn first_wrong(alloc: Global, steps: &[Step]) -> Option<usize> {
    let mut objects = Objects::new(alloc);
    let found = first_wrong_on(&mut objects, steps);
    drop(objects);
    found
}

/// Whether as many objects come as may be live.
fn fills(alloc: Global, objects: &mut Objects) -> Result<bool, AllocError> {
    for i in 0..100000u64 {
        let name = format!(in alloc; "/v#{}", i)?;
        if !adds(objects, name.as_str(), 0, i) {
            return Ok(false);
        }
    }
    Ok(true)
}

fn hold_when_full(alloc: Global) -> Result<bool, AllocError> {
    let mut objects = Objects::new(alloc);
    let filled = fills(alloc, &mut objects);
    let found = first_wrong_on(&mut objects, &TOO_MANY);
    drop(objects);
    Ok(filled? && found.is_none())
}

#[test]
fn objects_live(rt: HostRuntime) -> Result<(), Fail> {
    assert_eq!(rt; first_wrong(rt.alloc(), &A_LIFE), None);
    assert_eq!(rt; first_wrong(rt.alloc(), &CLONES), None);
    Ok(())
}

#[test]
fn too_many(rt: HostRuntime) -> Result<(), Fail> {
    assert!(rt; hold_when_full(rt.alloc())?);
    Ok(())
}
