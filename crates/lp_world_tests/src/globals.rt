//! Variables of an object that a running function writes and reads, before and after the object was out. The object has two
//! parts of two variables each, and one variable more; a function of either part runs.
ghost use Rattle.std.specs.Prelude.{◌≡◌, ◌+◌, ◌<◌, ◌^◌, All, IfOk, IfSome, IsTrue, OnOk, Some};
ghost use Rattle.lp_cells.specs.Cells.{IsThere};
ghost use Rattle.lp_step.specs.Steps.{CanStep, Finds, instr_at};
ghost use Rattle.lp_world.specs.Closed.{IsClosed};
ghost use Rattle.lp_world.specs.Rows.{HasPlace, variables_at};

use crate::programs::child;
use lp_cells::cells::Cells;
use lp_cells::content::Items;
use lp_instr::instr::Instr;
use lp_residence::adding::{add_object, add_version};
use lp_residence::answers::PutOut;
use lp_residence::entering::enter;
use lp_residence::owner::Owner;
use lp_residence::putting::put_out;
use lp_step::fault::StepFault;
use lp_step::next::Next;
use lp_step::step::step;
use lp_swapfile::MemSwap;
use lp_tree::expr::Edge;
use lp_tree::operator::BinOp;
use lp_values::id::{ObjId, ProgId};
use lp_values::text::Text;
use lp_values::value::Value;
use lp_world::additions::empty_state;
use lp_world::frame::Frame;
use lp_world::live::Live;
use lp_world::objects::ObjectState;
use lp_world::shared::SharedProgram;
use lp_world::versions::ProgramState;
use std::alloc::{AllocError, Global};
use std::test::Fail;

/// The object.
const A: ObjId = ObjId(0);

/// A function that runs, and what it touches.
#[derive(Drop)]
struct Running {
    live: Live,
    swap: MemSwap,
    stack: Vec<Value>,
    frame: Frame,
    budget: u64,
}

/// What a function comes to.
#[derive(Clone, Copy, Debug, PartialEq, Eq)]
enum Course {
    /// It ends with this integer.
    Int(i64),
    /// It ends with another value.
    Other,
    /// It ends in another way, does not find its operands, or its object does not go out or come back.
    Stuck,
}

/// A version of `/a.c` comes to the state.
fn add(live: &mut Live, parents: &[ProgId], n: u32, instrs: &[Instr]) -> Result<(), AllocError>
    requires { IsClosed live.old }
    ensures { IsClosed live.new }
{
    let number = live.versions.len() as u64;
    let program = child(live.alloc, parents, number, n, instrs)?;
    let path = Text::from_str(live.alloc, "/a.c")?;
    add_version(live, path, program)?;
    Ok(())
}

/// A version of two variables comes to the state, whose function has these instructions or gives 0.
fn add_part(live: &mut Live, runs: bool, instrs: &[Instr]) -> Result<(), AllocError>
    requires { IsClosed live.old }
    ensures { IsClosed live.new }
{
    if runs {
        add(live, &[], 2, instrs)
    } else {
        add(live, &[], 2, &[Instr::ReturnZero])
    }
}

/// Two versions come to the state, of which one has a function of these instructions, and one that inherits both.
fn add_versions(live: &mut Live, part: u16, instrs: &[Instr]) -> Result<(), AllocError>
    requires { IsClosed live.old }
    ensures { IsClosed live.new }
{
    add_part(live, part == 0, instrs)?;
    add_part(live, part == 1, instrs)?;
    add(live, &[ProgId(0), ProgId(1)], 5, &[Instr::ReturnZero])
}

/// The integers from 10 to 14.
fn first_values(alloc: Global) -> Result<Items, AllocError> {
    Ok(Items::from_vec(vec![in alloc;
        Value::Int(10),
        Value::Int(11),
        Value::Int(12),
        Value::Int(13),
        Value::Int(14),
    ]?))
}

/// An object of the third version comes to the state.
fn make_object(live: &mut Live) -> Result<(), AllocError>
    requires { IsClosed live.old }
    ensures { IsClosed live.new }
{
    let values = first_values(live.alloc)?;
    match add_object(live, "/a#1", ProgId(2), values) {
        Ok(_) => Ok(()),
        Err(_) => Err(AllocError),
    }
}

/// The program of a version that is in memory.
fn code_of(live: &Live, p: ProgId) -> Result<SharedProgram, AllocError> {
    match live.versions.get(p) {
        Some(v) => match &v.state {
            ProgramState::Resident(program) => program.share(),
            ProgramState::Swapped(_) => Err(AllocError),
        },
        None => Err(AllocError),
    }
}

/// The frame of the function of the first or the second part, which begins.
fn frame(live: &Live, part: u16) -> Result<Frame, AllocError> {
    Ok(Frame {
        this: A,
        program: ProgId(part as u64),
        part,
        base: 2 * part as u32,
        at: 0,
        bottom: 0,
        fun: 0,
        catches: Vec::new(live.alloc),
        code: code_of(live, ProgId(part as u64))?,
    })
}

/// The three versions and the object come to the state.
fn fill(live: &mut Live, part: u16, instrs: &[Instr]) -> Result<(), AllocError>
    requires { IsClosed live.old }
    ensures { IsClosed live.new }
{
    add_versions(live, part, instrs)?;
    make_object(live)
}

/// The state of them.
fn filled(alloc: Global, part: u16, instrs: &[Instr]) -> Result<Live, AllocError>
    ensures { IfOk result (λ l. IsClosed l) }
{
    let mut live = empty_state(alloc, 0, 0);
    match fill(&mut live, part, instrs) {
        Ok(()) => Ok(live),
        Err(e) => {
            drop(live);
            Err(e)
        }
    }
}

/// A frame that begins, with its one local, on a state.
fn begun(alloc: Global, live: Live, frame: Frame, stack: Vec<Value>) -> Running
    requires { IsClosed live }
    ensures { IsClosed result.live }
{
    Running {
        live,
        swap: MemSwap::new(alloc, Vec::new(alloc), Vec::new(alloc), Vec::new(alloc)),
        stack,
        frame,
        budget: 1000,
    }
}

/// A function of these instructions of the first part (0) or the second one (1), which begins.
fn start(alloc: Global, part: u16, instrs: &[Instr]) -> Result<Running, AllocError>
    ensures { IfOk result (λ r. IsClosed r.live) }
{
    let stack = vec![in alloc; Value::Int(0)]?;
    let live = filled(alloc, part, instrs)?;
    match frame(&live, part) {
        Ok(frame) => Ok(begun(alloc, live, frame, stack)),
        Err(e) => {
            drop(live);
            Err(e)
        }
    }
}

/// Whether an object is in memory and has a variable at a place.
fn has_place(live: &Live, ob: ObjId, i: usize) -> bool
    ensures { IsTrue result → HasPlace (variables_at live.now.objects ob) i }
{
    match live.objects.get(ob) {
        Some(o) => match &o.state {
            ObjectState::Resident(items) => i < items.as_slice().len(),
            ObjectState::Swapped { .. } => false,
        },
        None => false,
    }
}

/// Whether an instruction finds what it needs. Of others than those of the tests nothing is known.
fn finds(live: &Live, stack: &Vec<Value>, frame: &Frame, instr: Instr) -> bool
    ensures { IsTrue result → Finds live.now stack.now.items frame.now instr }
{
    let height = stack.len();
    match instr {
        Instr::PushInt(_) => true,
        Instr::PushLocal(k) => frame.bottom as usize + (k as usize) < height,
        Instr::SetLocal(k) => frame.bottom as usize + (k as usize) < height,
        Instr::PushGlobal(k) => has_place(live, frame.this, frame.base as usize + k as usize),
        Instr::SetGlobal(k) => {
            1 <= height && has_place(live, frame.this, frame.base as usize + k as usize)
        }
        Instr::Pop => 1 <= height,
        Instr::Return => 1 <= height,
        Instr::Index(_) => 2 <= height,
        Instr::Binary(_) => 2 <= height,
        Instr::SetIndex(_) => 3 <= height,
        Instr::MakeArray(n) => n as usize <= height,
        Instr::MakeMap(n) => 2 * n as usize <= height,
        _ => false,
    }
}

/// The next instruction, if there is one and the place behind it has a number.
fn next_instr(frame: &Frame) -> Option<Instr>
    ensures { IfSome result (λ i. (instr_at frame.now ≡ Some i) × (frame.now.at + 1 < 2 ^ 32)) }
{
    if frame.at == u32::MAX {
        return None;
    }
    frame
        .code
        .raw()
        .instrs
        .as_slice()
        .get(frame.at as usize)
        .copied()
}

/// Whether the arrays and mappings among these values are there.
fn has_all(cells: &Cells, values: &Vec<Value>) -> bool
    ensures { IsTrue result → All (IsThere cells.now) values.now.items }
{
    values.iter().all(|v| cells.is_there(v))
}

/// Whether one step can be taken.
fn can_step(live: &Live, stack: &Vec<Value>, frame: &Frame) -> bool
    ensures { IsTrue result → IsClosed live.now → CanStep live.now stack.now.items frame.now }
{
    if !has_all(&live.cells, stack) {
        return false;
    }
    match next_instr(frame) {
        Some(instr) => finds(live, stack, frame, instr),
        None => false,
    }
}

/// What a value is.
fn course_of(v: &Value) -> Course {
    match v {
        Value::Int(n) => Course::Int(*n),
        _ => Course::Other,
    }
}

/// What the function comes to, where it ends with a step.
fn end_of(next: &Next) -> Option<Course> {
    match next {
        Next::Again => None,
        Next::Done(v) => Some(course_of(v)),
        Next::Error(_) => Some(Course::Stuck),
        Next::Spent => Some(Course::Stuck),
        Next::Call(_) => Some(Course::Stuck),
        Next::Back(_) => Some(Course::Stuck),
    }
}

/// One step, if one can be taken; what the function comes to, where it ends.
fn advance(r: &mut Running) -> Result<Option<Course>, StepFault>
    requires { IsClosed r.old.live }
    ensures { OnOk result (IsClosed r.new.live) }
{
    let can = can_step(&r.live, &r.stack, &r.frame);
    if !can {
        return Ok(Some(Course::Stuck));
    }
    let next = step(&mut r.live, &mut r.stack, &mut r.frame, &mut r.budget)?;
    let course = end_of(&next);
    drop(next);
    Ok(course)
}

/// Whether the object goes out.
fn goes(r: &mut Running) -> bool
    requires { IsClosed r.old.live }
    ensures { IsClosed r.new.live }
{
    match put_out(&mut r.live, &mut r.swap, Owner::Object(A)) {
        Ok(answer) => answer == PutOut::Out,
        Err(_) => false,
    }
}

/// Whether the object comes back.
fn comes_back(r: &mut Running) -> bool
    requires { IsClosed r.old.live }
    ensures { IsClosed r.new.live }
{
    if r.live.objects.get(A).is_none() {
        return false;
    }
    enter(&mut r.live, &mut r.swap, A).is_ok()
}

/// The step with a number, before which the object goes out or comes back where these are its numbers.
fn turn(r: &mut Running, n: u32, out: u32, back: u32) -> Result<Option<Course>, StepFault>
    requires { IsClosed r.old.live }
    ensures { OnOk result (IsClosed r.new.live) }
{
    if n == out && !goes(r) {
        return Ok(Some(Course::Stuck));
    }
    if n == back && !comes_back(r) {
        return Ok(Some(Course::Stuck));
    }
    advance(r)
}

/// Steps until the function ends. The object goes out after so many, and is back after so many.
fn run(r: &mut Running, out: u32, back: u32) -> Result<Course, StepFault>
    requires { IsClosed r.old.live }
    ensures { OnOk result (IsClosed r.new.live) }
{
    for n in 0..100 {
        if let Some(course) = turn(r, n, out, back)? {
            return Ok(course);
        }
    }
    Ok(Course::Stuck)
}

/// What a function of these instructions comes to.
fn run_alone(
    alloc: Global,
    part: u16,
    instrs: &[Instr],
    out: u32,
    back: u32,
) -> Result<Course, StepFault> {
    let mut r = start(alloc, part, instrs)?;
    let course = run(&mut r, out, back);
    drop(r);
    course
}

const FRONT: Instr = Instr::Index(Edge::Front);

const SET: Instr = Instr::SetIndex(Edge::Front);

/// The instructions, after how many the object goes out and is back, and the integer with which the function ends.
type Row = (&'static [Instr], u32, u32, i64);

static ROWS: [Row; 9] = [
    // A variable is written and read, without a swap and with one between.
    (
        &[
            Instr::PushInt(7),
            Instr::SetGlobal(1),
            Instr::Pop,
            Instr::PushGlobal(1),
            Instr::Return,
        ],
        100,
        100,
        7,
    ),
    (
        &[
            Instr::PushInt(7),
            Instr::SetGlobal(1),
            Instr::Pop,
            Instr::PushGlobal(1),
            Instr::Return,
        ],
        3,
        3,
        7,
    ),
    // The value that was written stays on the stack, also while the object is out.
    (
        &[
            Instr::PushInt(7),
            Instr::SetGlobal(0),
            Instr::PushInt(2),
            Instr::Binary(BinOp::Mul),
            Instr::SetGlobal(1),
            Instr::PushGlobal(0),
            Instr::Binary(BinOp::Sub),
            Instr::Return,
        ],
        2,
        4,
        7,
    ),
    // An array in a variable and in a local: written through the local, read through the variable.
    (
        &[
            Instr::PushInt(1),
            Instr::MakeArray(1),
            Instr::SetGlobal(0),
            Instr::SetLocal(0),
            Instr::Pop,
            Instr::PushLocal(0),
            Instr::PushInt(0),
            Instr::PushInt(9),
            SET,
            Instr::Pop,
            Instr::PushGlobal(0),
            Instr::PushInt(0),
            FRONT,
            Instr::Return,
        ],
        5,
        5,
        9,
    ),
    // Likewise, written while the object is out.
    (
        &[
            Instr::PushInt(1),
            Instr::MakeArray(1),
            Instr::SetGlobal(0),
            Instr::SetLocal(0),
            Instr::Pop,
            Instr::PushLocal(0),
            Instr::PushInt(0),
            Instr::PushInt(9),
            SET,
            Instr::Pop,
            Instr::PushGlobal(0),
            Instr::PushInt(0),
            FRONT,
            Instr::Return,
        ],
        5,
        10,
        9,
    ),
    // Written through the variable, read through the local.
    (
        &[
            Instr::PushInt(1),
            Instr::MakeArray(1),
            Instr::SetGlobal(0),
            Instr::SetLocal(0),
            Instr::Pop,
            Instr::PushGlobal(0),
            Instr::PushInt(0),
            Instr::PushInt(9),
            SET,
            Instr::Pop,
            Instr::PushLocal(0),
            Instr::PushInt(0),
            FRONT,
            Instr::Return,
        ],
        5,
        5,
        9,
    ),
    // Both hold one array, by itself and not by what is in it.
    (
        &[
            Instr::MakeArray(0),
            Instr::SetGlobal(0),
            Instr::SetLocal(0),
            Instr::Pop,
            Instr::PushLocal(0),
            Instr::PushGlobal(0),
            Instr::Binary(BinOp::Eq),
            Instr::Return,
        ],
        4,
        4,
        1,
    ),
    // A mapping in two variables.
    (
        &[
            Instr::PushInt(1),
            Instr::PushInt(10),
            Instr::MakeMap(1),
            Instr::SetGlobal(0),
            Instr::SetGlobal(1),
            Instr::Pop,
            Instr::PushGlobal(0),
            Instr::PushInt(1),
            Instr::PushInt(20),
            SET,
            Instr::Pop,
            Instr::PushGlobal(1),
            Instr::PushInt(1),
            FRONT,
            Instr::Return,
        ],
        6,
        6,
        20,
    ),
    // The old value of a variable stays in a local.
    (
        &[
            Instr::PushInt(4),
            Instr::SetGlobal(0),
            Instr::Pop,
            Instr::PushGlobal(0),
            Instr::SetLocal(0),
            Instr::SetGlobal(1),
            Instr::PushInt(5),
            Instr::SetGlobal(0),
            Instr::Pop,
            Instr::PushGlobal(0),
            Instr::PushLocal(0),
            Instr::Binary(BinOp::Sub),
            Instr::Return,
        ],
        6,
        6,
        1,
    ),
];

/// The place of the first row that a function of a part does not come to, if there is one.
fn first_wrong(alloc: Global, part: u16) -> Result<Option<usize>, StepFault> {
    for i in 0..ROWS.len() {
        let (instrs, out, back, want) = ROWS[i];
        if run_alone(alloc, part, instrs, out, back)? != Course::Int(want) {
            return Ok(Some(i));
        }
    }
    Ok(None)
}

/// Whether a value is this integer.
fn is_int(v: &Value, n: i64) -> bool {
    match v {
        Value::Int(m) => *m == n,
        _ => false,
    }
}

/// Whether these are the variables of the object, which is in memory.
fn has_values(live: &Live, values: &[i64]) -> bool {
    match live.objects.get(A) {
        Some(o) => match &o.state {
            ObjectState::Resident(items) => are_ints(items.as_slice(), values),
            ObjectState::Swapped { .. } => false,
        },
        None => false,
    }
}

/// Whether values are these integers.
fn are_ints(values: &[Value], wanted: &[i64]) -> bool {
    if values.len() != wanted.len() {
        return false;
    }
    for i in 0..wanted.len() {
        if !is_int(&values[i], wanted[i]) {
            return false;
        }
    }
    true
}

/// Whether a function of a part that writes its second variable leaves the object with these.
fn leaves(alloc: Global, part: u16, wanted: &[i64]) -> Result<bool, StepFault> {
    let instrs = [Instr::PushInt(7), Instr::SetGlobal(1), Instr::Return];
    let mut r = start(alloc, part, &instrs)?;
    let course = run(&mut r, 2, 2);
    let is_left = has_values(&r.live, wanted);
    drop(r);
    Ok(course? == Course::Int(7) && is_left)
}

#[test]
fn variables_come_through_a_swap(rt: HostRuntime) -> Result<(), Fail> {
    assert_eq!(rt; first_wrong(rt.alloc(), 0)?, None);
    assert_eq!(rt; first_wrong(rt.alloc(), 1)?, None);
    assert!(rt; leaves(rt.alloc(), 0, &[10, 7, 12, 13, 14])?);
    assert!(rt; leaves(rt.alloc(), 1, &[10, 11, 12, 7, 14])?);
    Ok(())
}
