//! Laws of what a state stands for. Each has a clause and nothing to do.
ghost use Rattle.lp_world.specs.Laws.{CallOutStaysClosed, CellsStayClosed, NewCellStands, ObjectsHavePaths, PlacesStayClosed, TheSameLive, TheSameOperands, VariableStands, VariablesStayClosed, VersionsHavePaths, WriteStands};

/// The same objects are live in a state and in a world for which it stands.
pub fn same_live()
    ensures { TheSameLive }
{}

/// A value whose cell is there is one operand in both.
pub fn same_operands()
    ensures { TheSameOperands }
{}

/// A new cell in both leaves the state standing for the world.
pub fn new_cell_stands()
    ensures { NewCellStands }
{}

/// So does another content of a cell that the state has.
pub fn write_stands()
    ensures { WriteStands }
{}

/// So does another value of a variable of an object that is in memory.
pub fn variable_stands()
    ensures { VariableStands }
{}

/// A closed state stays closed where cells change so that nothing is lost and they are closed by themselves.
pub fn cells_stay_closed()
    ensures { CellsStayClosed }
{}

/// It does where a variable of an object in memory gets a value that is there.
pub fn variables_stay_closed()
    ensures { VariablesStayClosed }
{}

/// It does where other places come that stand for something.
pub fn places_stay_closed()
    ensures { PlacesStayClosed }
{}

/// It does where a call-out comes, with the next number, whose arguments are there.
pub fn call_out_stays_closed()
    ensures { CallOutStaysClosed }
{}

/// The path of a version of the state is that of the world's version with its number.
pub fn versions_have_paths()
    ensures { VersionsHavePaths }
{}

/// A closed state has the path of each object's version, and it is the one that the world has.
pub fn objects_have_paths()
    ensures { ObjectsHavePaths }
{}
