//! Saving values.
ghost use Rattle.std.specs.Prelude.{◌≡◌, All, IfOk, IsErrOf, None, OnOk, Some, encode_utf8_all, fold, map};
ghost use Rattle.lp_cells.specs.Cells.{IsClosed, IsThere};
ghost use Rattle.lp_save.specs.SaveText.{Walk, line_spelt, max_saved_levels, saved_text, shared_in, text_spelt, walked};
ghost use Rattle.lp_save.specs.States.{GoesOver, Spells, Stands};

use crate::cell_set::CellSet;
use crate::fault::SaveFault;
use crate::spell::{Speller, add, begin_text, spell};
use crate::walk::{Walker, begin_walk, walk};
use lp_cells::cells::Cells;
use lp_io::Octets;
use lp_values::text::Text;
use lp_values::value::{Living, Value};
use std::alloc::{AllocError, Global};

/// How deep arrays and mappings may lie in one another.
const LEVELS: u64 = 100;

/// Goes over the values of variables.
fn walk_all<L: Living>(
    walker: &mut Walker,
    vars: &[(Text, Value)],
    cells: &Cells,
    live: &L,
) -> Result<(), AllocError>
    requires closed { IsClosed cells.now }
    requires there { All (λ p. IsThere cells.now p.1) vars.now }
    ensures { OnOk result (GoesOver walker.old walker.new (λ w. fold (walked (L.live live.now) cells.now max_saved_levels) w (map (λ p. p.1) vars.now))) }
{
    for var in vars {
        walk(walker, &var.1, LEVELS, cells, live)?;
    }
    Ok(())
}

/// Spells the line of a variable.
fn spell_line<L: Living>(
    speller: &mut Speller,
    var: &(Text, Value),
    shared: &CellSet,
    cells: &Cells,
    live: &L,
) -> Result<(), AllocError>
    requires closed { IsClosed cells.now }
    requires there { IsThere cells.now var.now.1 }
    ensures { OnOk result (Spells speller.old speller.new (λ s. line_spelt (L.live live.now) cells.now shared.now s var.now)) }
{
    add(speller, var.0.as_slice())?;
    add(speller, &[' '])?;
    spell(speller, &var.1, LEVELS, shared, cells, live)?;
    add(speller, &['\n'])
}

/// Spells a line for each variable.
fn spell_all<L: Living>(
    speller: &mut Speller,
    vars: &[(Text, Value)],
    shared: &CellSet,
    cells: &Cells,
    live: &L,
) -> Result<(), AllocError>
    requires closed { IsClosed cells.now }
    requires there { All (λ p. IsThere cells.now p.1) vars.now }
    ensures { OnOk result (Spells speller.old speller.new (λ s. fold (line_spelt (L.live live.now) cells.now shared.now) s vars.now)) }
{
    for var in vars {
        spell_line(speller, var, shared, cells, live)?;
    }
    Ok(())
}

/// The cells that were met more than once.
fn shared_cells(walker: Walker) -> CellSet
    ensures { (w : Walk) → Stands walker w → result ≡ shared_in w }
{
    let Walker { mut met, again, .. } = walker;
    met.keep_in(&again);
    met
}

/// The bytes of a text.
fn utf8_of(alloc: Global, text: &[char]) -> Result<Octets, AllocError>
    ensures { IfOk result (λ bytes. bytes ≡ encode_utf8_all text.now) }
{
    let spelled: String = text.iter().copied().collect(alloc)?;
    Ok(Octets::from_vec(spelled.into_bytes()))
}

/// The text with a line for each variable, where these cells are shared.
fn text_of<L: Living>(
    alloc: Global,
    vars: &[(Text, Value)],
    shared: &CellSet,
    cells: &Cells,
    live: &L,
) -> Result<Octets, AllocError>
    requires closed { IsClosed cells.now }
    requires there { All (λ p. IsThere cells.now p.1) vars.now }
    ensures { IfOk result (λ bytes. bytes ≡ encode_utf8_all (text_spelt (L.live live.now) cells.now shared.now vars.now)) }
{
    let mut speller = begin_text(alloc);
    add(&mut speller, &['#', '2', ':', '0', '\n'])?;
    spell_all(&mut speller, vars, shared, cells, live)?;
    utf8_of(alloc, speller.text.as_slice())
}

/// The text of named values: the first line `#2:0`, and then a line for each variable. An array or a
/// mapping that occurs more than once is spelled once, at its first place, and named by its number
/// afterwards, so that its sharing is kept.
///
/// - `TooNested`: exactly where arrays and mappings lie more than 100 levels deep in one another.
pub fn save_text<L: Living>(
    alloc: Global,
    vars: &[(Text, Value)],
    cells: &Cells,
    live: &L,
) -> Result<Octets, SaveFault>
    requires closed { IsClosed cells.now }
    requires there { All (λ p. IsThere cells.now p.1) vars.now }
    ensures text { IfOk result (λ bytes. saved_text (L.live live.now) cells.now vars.now ≡ Some bytes) }
    ensures nested { IsErrOf result SaveFault.TooNested → saved_text (L.live live.now) cells.now vars.now ≡ None }
{
    let mut walker = begin_walk(alloc);
    walk_all(&mut walker, vars, cells, live)?;
    if walker.is_deep {
        return Err(SaveFault::TooNested);
    }
    let shared = shared_cells(walker);
    Ok(text_of(alloc, vars, &shared, cells, live)?)
}
