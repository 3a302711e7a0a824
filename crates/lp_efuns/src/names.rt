//! Objects by their names.
ghost use Rattle.std.specs.Prelude.{◌≡◌, ◌∷◌, [], IfOk, drop, length, ◌-◌, codes, take, if◌then◌else◌};
ghost use Rattle.std.specs.Str.{chars};
ghost use Rattle.std.specs.String.{string_bytes};
ghost use Rattle.lp_cells.specs.Cells.{Store};
ghost use Rattle.lp_instr.specs.EfunList.{is_name};
ghost use Rattle.lp_ops.specs.Effects.{IsEffectThere};
ghost use Rattle.lp_language.specs.Resolve.{without_c};
ghost use Rattle.lp_meaning.specs.WorldSteps.{as_name, with_slash};
ghost use Rattle.lp_efuns.specs.Deeds.{Looks};
ghost use Rattle.lp_efuns.specs.declared.caller.Caller.{Caller as C};
ghost use Rattle.lp_efuns.specs.declared.caller.Turn.{Turn as T};

use crate::arguments::text_at;
use crate::subjects::object_effect;
use lp_instr::efun::Efun;
use lp_ops::effect::Effect;
use lp_values::value::Value;
use lp_world::live::Live;
use std::alloc::{AllocError, Global};

/// Whether a path begins with a `/`.
fn has_slash(path: &[char]) -> bool
    ensures { with_slash path.now ≡ (if result then path.now else 47 ∷ path.now) }
{
    match path {
        [c, ..] => *c == '/',
        [] => false,
    }
}

/// A path with a `/` before it.
fn with_slash(alloc: Global, path: &[char]) -> Result<Vec<char>, AllocError>
    ensures { IfOk result (λ v. v.items ≡ with_slash path.now) }
{
    let mut all = Vec::with_capacity(alloc, path.len() + 1)?;
    if !has_slash(path) {
        all.push('/')?;
    }
    all.extend_from_slice(path)?;
    Ok(all)
}

/// Whether a path ends in `.c`.
pub fn ends_in_c(path: &[char]) -> bool
    ensures { result ≡ is_name (drop (length path.now - 2) path.now) (codes ".c") }
{
    let n = path.len();
    if n < 2 {
        return false;
    }
    path[n - 2] == '.' && path[n - 1] == 'c'
}

/// Takes a `.c` from the end of a path.
fn cut_c(path: &mut Vec<char>)
    ensures { path.new.items ≡ without_c path.old.items }
{
    if ends_in_c(path.as_slice()) {
        let n = path.len();
        path.truncate(n - 2);
    }
}

/// Characters as a text of the program.
fn text_of(alloc: Global, all: &[char]) -> Result<String, AllocError>
    ensures { IfOk result (λ s. all.now ≡ chars (string_bytes s)) }
{
    let mut s = String::new(alloc);
    for c in all {
        s.push(*c)?;
    }
    Ok(s)
}

/// The name that a text means: with a `/` before it, and without `.c` at its end.
pub fn as_name(alloc: Global, text: &[char]) -> Result<String, AllocError>
    ensures { IfOk result (λ s. chars (string_bytes s) ≡ as_name text.now) }
{
    let mut all = with_slash(alloc, text)?;
    cut_c(&mut all);
    text_of(alloc, all.as_slice())
}

/// `find_object`: the live object with a name, or 0.
pub(crate) fn find_object(args: &[Value], live: &Live) -> Result<Effect, AllocError>
    ensures looks { IfOk result (λ e. (caller : C) (turn : T) → Looks Efun.FindObject caller args.now live.now turn e) }
    ensures there { IfOk result (λ e. (cells : Store) → IsEffectThere cells e) }
{
    let name = as_name(live.alloc, text_at(args, 0))?;
    Ok(object_effect(live.names.find(name.as_str()), &live.objects))
}
