//! Parents that a call names.
ghost use Rattle.std.specs.Prelude.{◌≡◌, ◌∷◌, ◌++◌, IfOk, List, Some, [], codes, cond, filter, slice_get, take, ℕ};
ghost use Rattle.std.specs.List.{AllZip};
ghost use Rattle.lp_types_expr.specs.Known.{ends_in};
ghost use Rattle.lp_types_expr.specs.NameMaps.{named};
ghost use Rattle.lp_types_expr.specs.ParentRows.{Chooses, IsParent, parent_has, path_fits};
ghost use Rattle.lp_types_expr.specs.Signatures.{last_shown};
ghost use Rattle.lp_types_expr.specs.declared.parent.Parent.{Parent as OneParent};

use crate::chosen::Chosen;
use crate::names::letters;
use crate::parent::Parent;
use crate::shown::Shown;
use crate::signature::Signature;
use crate::tables::add_slots;
use lp_code::tables::Tables;
use std::alloc::{AllocError, Global};
use std::collections::HashMap;

// What one parent shows.
fn shown_by(
    alloc: Global,
    bodies: bool,
    parent: &Tables,
) -> Result<HashMap<Vec<char>, Signature>, AllocError>
    ensures { IfOk result (λ m. (w : List ℕ) → named m w ≡ last_shown bodies (parent.now ∷ []) w) }
{
    let mut map = HashMap::new(alloc);
    add_slots(alloc, &mut map, bodies, &parent.slots)?;
    Ok(map)
}

fn parent_of(alloc: Global, tables: &Tables) -> Result<Parent, AllocError>
    ensures { IfOk result (λ q. IsParent tables.now q) }
{
    let path = letters(alloc, tables.path.as_str())?;
    let bodies = shown_by(alloc, true, tables)?;
    let rows = shown_by(alloc, false, tables)?;
    Ok(Parent {
        path,
        shown: Shown { bodies, rows },
    })
}

/// Each of some parents.
pub(crate) fn each_of(alloc: Global, parents: &[Tables]) -> Result<Vec<Parent>, AllocError>
    ensures { IfOk result (λ v. AllZip IsParent parents.now v.items) }
{
    let mut each = Vec::new(alloc);
    for parent in parents {
        each.push(parent_of(alloc, parent)?)?;
    }
    Ok(each)
}

// Whether a path ends in `/` and a name.
fn ends_in(path: &[char], name: &[char]) -> bool
    ensures { result ≡ ends_in path.now (codes "/" ++ name.now) }
{
    if path.len() <= name.len() {
        return false;
    }
    let end = &path[path.len() - name.len() - 1..];
    end[0] == '/' && &end[1..] == name
}

/// Whether a path is a name, or ends in `/` and the name.
pub fn path_fits(path: &[char], name: &[char]) -> bool
    ensures { result ≡ path_fits name.now path.now }
{
    path == name || ends_in(path, name)
}

// What is chosen where one more parent is looked at.
fn choose(chosen: Chosen, fits: bool, place: usize) -> Chosen
    ensures { (all qs : List OneParent) (q : OneParent) → slice_get all place ≡ Some q → Chooses all qs chosen → Chooses all (qs ++ cond fits (q ∷ []) []) result }
{
    if !fits {
        return chosen;
    }
    match chosen {
        Chosen::Nothing => Chosen::One(place),
        Chosen::One(_) => Chosen::Several,
        Chosen::Several => Chosen::Several,
    }
}

/// Which parents have a path, or one that ends in `/` and it.
pub(crate) fn chosen_of(each: &[Parent], name: &[char]) -> Chosen
    ensures { Chooses each.now (filter (parent_has name.now) each.now) result }
{
    let mut chosen = Chosen::Nothing;
    for i in 0..each.len() {
        let fits = path_fits(each[i].path.as_slice(), name);
        chosen = choose(chosen, fits, i);
    }
    chosen
}
