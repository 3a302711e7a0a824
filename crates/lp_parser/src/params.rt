//! The parameters of a function.
ghost use Rattle.std.specs.Prelude.{◌≡◌, ◌+◌, ◌++◌, ◌∷◌, [], IfOk, Some};
ghost use Rattle.lp_parser.specs.Machine.{Before, BehindParam, param, behind_param as param_ended, need_open as open_needed, need_param as param_needed, next_param as param_begun, param_stars as stars_read};
ghost use Rattle.lp_parser.specs.Moves.{Goes, Moves};
ghost use Rattle.lp_parser.specs.View.{head_of};

use crate::focus::{Focus, Head, Header};
use lp_tree::chars::Chars;
use lp_tree::keyword::Keyword;
use lp_tree::operator::BinOp;
use lp_tree::seen::Sort;
use lp_tree::token::Mark;
use lp_tree::types::TypeName;
use lp_tree::unit::Param;
use std::alloc::{AllocError, Global};

/// The parenthesis behind the name of a function.
pub fn need_open(head: Head, sort: Sort) -> Option<Focus>
    ensures { (b : Before) → Goes (open_needed sort b (head_of head)) b result }
{
    match sort {
        Sort::Mark(Mark::OpenParen) => Some(Focus::NeedParam(head)),
        _ => None,
    }
}

// One more parameter.
fn with_param(header: Header, param: Param) -> Result<Header, AllocError>
    ensures head { IfOk result (λ h. h.head ≡ header.head) }
    ensures params { IfOk result (λ h. h.params.items ≡ header.params.items ++ param ∷ []) }
{
    let Header { head, params } = header;
    let mut params = params;
    params.push(param)?;
    Ok(Header { head, params })
}

// The name of a parameter.
fn named(
    header: Header,
    line: u32,
    type_name: Option<TypeName>,
    name: Chars,
) -> Result<Option<Focus>, AllocError>
    ensures { (b : Before) → Moves (Some (BehindParam b (head_of header.head) (header.params.items ++ param line type_name name ∷ []))) b result }
{
    let param = Param {
        line,
        type_name,
        name,
    };
    Ok(Some(Focus::BehindParam(with_param(header, param)?)))
}

/// A parameter begins.
pub fn next_param(header: Header, line: u32, sort: Sort) -> Result<Option<Focus>, AllocError>
    ensures { (b : Before) → Moves (param_begun sort line b (head_of header.head) header.params.items) b result }
{
    match sort {
        Sort::Name(name) => named(header, line, None, name),
        Sort::Reserved(Keyword::Base(base)) => {
            Ok(Some(Focus::ParamStars(header, line, TypeName { base, stars: 0 })))
        }
        _ => Ok(None),
    }
}

/// The first parameter, or the end of none.
pub fn need_param(
    alloc: Global,
    head: Head,
    line: u32,
    sort: Sort,
) -> Result<Option<Focus>, AllocError>
    ensures { (b : Before) → Moves (param_needed sort line b (head_of head)) b result }
{
    let header = Header {
        head,
        params: Vec::new(alloc),
    };
    match sort {
        Sort::Mark(Mark::CloseParen) => Ok(Some(Focus::HaveParams(header))),
        Sort::Name(name) => named(header, line, None, name),
        Sort::Reserved(Keyword::Base(base)) => {
            Ok(Some(Focus::ParamStars(header, line, TypeName { base, stars: 0 })))
        }
        _ => Ok(None),
    }
}

// One more star of a type.
fn with_star(of: TypeName) -> Result<TypeName, AllocError>
    ensures { IfOk result (λ t. (t.base ≡ of.base) × (t.stars ≡ of.stars + 1)) }
{
    if of.stars == u32::MAX {
        // so many stars are longer than any memory holds
        return Err(AllocError);
    }
    Ok(TypeName {
        base: of.base,
        stars: of.stars + 1,
    })
}

/// A star of the type of a parameter, or its name.
pub fn param_stars(
    header: Header,
    line: u32,
    of: TypeName,
    sort: Sort,
) -> Result<Option<Focus>, AllocError>
    ensures { (b : Before) → Moves (stars_read sort b (head_of header.head) header.params.items line of.base of.stars) b result }
{
    match sort {
        Sort::Mark(Mark::Binary(BinOp::Mul)) => {
            Ok(Some(Focus::ParamStars(header, line, with_star(of)?)))
        }
        Sort::Name(name) => named(header, line, Some(of), name),
        _ => Ok(None),
    }
}

/// What stands behind a parameter.
pub fn behind_param(header: Header, sort: Sort) -> Option<Focus>
    ensures { (b : Before) → Goes (param_ended sort b (head_of header.head) header.params.items) b result }
{
    match sort {
        Sort::Mark(Mark::Comma) => Some(Focus::NextParam(header)),
        Sort::Mark(Mark::CloseParen) => Some(Focus::HaveParams(header)),
        _ => None,
    }
}
