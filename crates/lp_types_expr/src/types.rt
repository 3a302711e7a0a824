//! Types of expressions.
ghost use Rattle.std.specs.Prelude.{◌≡◌, cond};
ghost use Rattle.lp_tree.specs.TreeView.{tree_of};
ghost use Rattle.lp_types_expr.specs.Calls.{callee_of};
ghost use Rattle.lp_types_expr.specs.Kinds.{plain_type, Typed};
ghost use Rattle.lp_types_expr.specs.Known.{an_int, answer_of, is_comparison, is_int_efun, mixed, type_of, type_of_int, typed_or_mixed};
ghost use Rattle.lp_types_expr.specs.Scopes.{visible};
ghost use Rattle.lp_types_expr.specs.Surroundings.{around_of};

use crate::around::Surroundings;
use crate::called::Called;
use crate::kind::ExprType;
use crate::scopes::Scopes;
use crate::surroundings::efun_callee;
use lp_instr::efun::Efun;
use lp_tree::expr::Expr;
use lp_tree::keyword::Base;
use lp_tree::operator::BinOp;
use lp_tree::types::TypeName;

// A type with no stars.
fn plain_type(base: Base) -> ExprType
    ensures { result ≡ Typed (plain_type base) }
{
    ExprType::Typed(TypeName { base, stars: 0 })
}

// The literal 0 has a type of its own.
fn type_of_int(value: i64) -> ExprType
    ensures { result ≡ type_of_int value }
{
    if value == 0 {
        ExprType::Zero
    } else {
        plain_type(Base::Int)
    }
}

fn typed_or_mixed(kind: Option<TypeName>) -> ExprType
    ensures { result ≡ typed_or_mixed kind }
{
    match kind {
        None => plain_type(Base::Mixed),
        Some(ty) => ExprType::Typed(ty),
    }
}

// Whether an efun only answers integers.
fn is_int_efun(efun: Efun) -> bool
    ensures { result ≡ is_int_efun efun }
{
    matches!(
        efun,
        Efun::Clonep | Efun::Objectp | Efun::Intp | Efun::Stringp | Efun::Pointerp | Efun::Mappingp
    )
}

// `int`, or else `mixed`.
fn int_or_mixed(is_int: bool) -> ExprType
    ensures { result ≡ cond is_int an_int mixed }
{
    if is_int {
        plain_type(Base::Int)
    } else {
        plain_type(Base::Mixed)
    }
}

// What a call gives.
fn answer_of(called: Called<'_>) -> ExprType
    ensures { result ≡ answer_of (callee_of called.entry) }
{
    match called {
        Called::AFunction(signature) => ExprType::Typed(signature.answer),
        Called::AnEfun(efun) => int_or_mixed(is_int_efun(efun)),
        Called::ASimul | Called::TwoParents | Called::Nobody => plain_type(Base::Mixed),
    }
}

fn is_comparison(op: BinOp) -> bool
    ensures { result ≡ is_comparison op }
{
    matches!(
        op,
        BinOp::Eq | BinOp::Ne | BinOp::Lt | BinOp::Le | BinOp::Gt | BinOp::Ge
    )
}

/// The type of an expression.
pub fn type_of(around: &Surroundings<'_>, scopes: &Scopes, e: &Expr) -> ExprType
    ensures { result ≡ type_of (around_of around.now) (visible scopes.now) (tree_of e.now) }
{
    match e {
        Expr::Int { value, .. } => type_of_int(*value),
        Expr::Text { .. } => plain_type(Base::String),
        Expr::Name { name, .. } => typed_or_mixed(around.variable_kind(scopes, name)),
        Expr::Paren { inner, .. } => type_of(around, scopes, inner),
        Expr::Array { .. } => ExprType::Typed(TypeName {
            base: Base::Mixed,
            stars: 1,
        }),
        Expr::Mapping { .. } => plain_type(Base::Mapping),
        Expr::Call { name, .. } => answer_of(around.plain_callee(name)),
        Expr::EfunCall { name, .. } => answer_of(efun_callee(name)),
        Expr::ParentCall { name, .. } => answer_of(around.parent_callee(name)),
        Expr::NamedParentCall { parent, name, .. } => answer_of(around.named_callee(parent, name)),
        Expr::Unary { .. } => plain_type(Base::Int),
        Expr::Cast { to, .. } => ExprType::Typed(*to),
        Expr::Binary { op, .. } => int_or_mixed(is_comparison(*op)),
        _ => plain_type(Base::Mixed),
    }
}
