//! The tables of a version, and the layout that is made of them, are those of the version's names.
#![tactic(auto)]

ghost use Rattle.lp_plan_laws.specs.Lays.{LayoutsLay};
ghost use Rattle.lp_plan_laws.specs.Tables.{TablesStand};

/// The law of layouts: what the layout of a version's tables says of each name is what the name means in the inheritance
/// tree, where no file has more functions than rows can number, and no name of a variable is used twice.
pub fn law_layouts()
    ensures { LayoutsLay }
{}

/// The law of tables: a program whose functions are translated, and which has the tables of a version, stands for the version,
/// where no file has more functions than rows can number, or two of one name.
pub fn law_tables()
    ensures { TablesStand }
{}
