//! The tables of a version.
#![tactic(auto)]

ghost use Rattle.lp_inherit.specs.Examples.{Examples};
ghost use Rattle.lp_inherit.specs.Heirs.{RowsAreFunctions, NumbersLead, RowsAreVariables, SourcesAreFunctions, CountsAreTheTrees};

/// The law of tables: the rows of functions are what names mean in the inheritance tree.
pub fn law_rows()
    ensures { RowsAreFunctions }
{}

/// The law of numbers: the number of a row of functions is that of its function in the text of its part.
pub fn law_numbers()
    ensures { NumbersLead }
{}

/// The law of variables: where no name is used twice, the rows of variables that a child sees have the places of the variables that it sees.
pub fn law_variables()
    ensures { RowsAreVariables }
{}

/// The law of sources: which function a version shows of a name, and in the text of which version it stands, is told by its tables.
pub fn law_sources()
    ensures { SourcesAreFunctions }
{}

/// The law of counts: there are as many parts and variables as in the inheritance tree.
pub fn law_counts()
    ensures { CountsAreTheTrees }
{}

/// Small families of files have the faults that they should.
pub fn law_examples()
    ensures { Examples }
{}
