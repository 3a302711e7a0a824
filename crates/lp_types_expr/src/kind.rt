//! Types, and which of them fit.
ghost use Rattle.std.specs.Prelude.{◌≡◌};
ghost use Rattle.lp_types_expr.specs.Kinds.{base_number, bases_fit, fit, fits, is_mixed_base, is_same_base, is_void, kind_of, plain, types_fit};

use lp_tree::keyword::Base;
use lp_tree::types::TypeName;

/// The type of an expression.
#[derive(Clone, Copy, Debug, PartialEq, Eq)]
pub enum ExprType {
    /// That of the literal 0, which fits every type.
    Zero,
    /// A type.
    Typed(TypeName),
}

/// The type that is written, or `mixed` where none is.
pub fn kind_of(written: Option<TypeName>) -> TypeName
    ensures { result ≡ kind_of written }
{
    match written {
        None => TypeName {
            base: Base::Mixed,
            stars: 0,
        },
        Some(ty) => ty,
    }
}

// The bases in their order, with `status` as `int`.
fn number(base: Base) -> u8
    ensures { result ≡ base_number (plain base) }
{
    match base {
        Base::Int => 0,
        Base::Status => 0,
        Base::String => 2,
        Base::Object => 3,
        Base::Mapping => 4,
        Base::Mixed => 5,
        Base::Void => 6,
    }
}

fn is_same_base(a: Base, b: Base) -> bool
    ensures { result ≡ is_same_base a b }
{
    number(a) == number(b)
}

fn is_mixed_base(base: Base) -> bool
    ensures { result ≡ is_mixed_base base }
{
    is_same_base(base, Base::Mixed)
}

// Whether types with no stars fit.
fn plain_fit(a: Base, b: Base) -> bool
    ensures { result ≡ bases_fit a 0 b 0 }
{
    is_same_base(a, b) || (is_mixed_base(a) || is_mixed_base(b))
}

// Stars that both have are taken away from both: what is left decides.
fn types_fit(a: TypeName, b: TypeName) -> bool
    ensures { result ≡ types_fit a b }
{
    if a.stars < b.stars {
        return is_mixed_base(a.base);
    }
    if b.stars < a.stars {
        return is_mixed_base(b.base);
    }
    plain_fit(a.base, b.base)
}

/// Whether a type is `void` itself.
pub fn is_void(ty: TypeName) -> bool
    ensures { result ≡ is_void ty }
{
    ty.stars == 0 && is_same_base(ty.base, Base::Void)
}

/// Whether an expression's type fits a type.
pub fn fits(ty: TypeName, value: ExprType) -> bool
    ensures { result ≡ fits ty value }
{
    match value {
        ExprType::Zero => true,
        ExprType::Typed(other) => types_fit(ty, other),
    }
}

/// Whether the types of two expressions fit.
pub fn fit(a: ExprType, b: ExprType) -> bool
    ensures { result ≡ fit a b }
{
    match a {
        ExprType::Zero => true,
        ExprType::Typed(ty) => fits(ty, b),
    }
}
