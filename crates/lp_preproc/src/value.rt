//! The value of a condition.
ghost use Rattle.std.specs.Prelude.{◌≡◌, IfOk, List, map, true};
ghost use Rattle.lp_parser_expr.specs.Theorem.{IsFault, IsRead};
ghost use Rattle.lp_tree.specs.declared.token.Token.{Token as Tok};
ghost use Rattle.lp_preproc.specs.declared.word.Word.{Word as AnyWord};
ghost use Rattle.lp_ops.specs.Operands.{Number};
ghost use Rattle.lp_ops.specs.Operators.{result_of, unary};
ghost use Rattle.lp_tree.specs.Seen.{seen};
ghost use Rattle.lp_tree.specs.TreeView.{tree_of};
ghost use Rattle.lp_preproc.specs.Conditions.{IsValue, as_operand, condition_value, integer_given, integer_of, is_condition as is_condition_tree, of_one, of_two, sight, value as value_of_tree};

use crate::word::{Word, copy_kind};
use lp_ops::effect::Effect;
use lp_ops::int::{divided, int, remainder, shifted_left, shifted_right, truth, whole};
use lp_parser_expr::law::one_tree_law;
use lp_parser_expr::{ParseFault, expr};
use lp_tree::expr::Expr;
use lp_tree::operator::{BinOp, UnOp};
use lp_tree::token::{Token, TokenKind};
use lp_values::value::Value;
use std::alloc::{AllocError, Global};

// The integer that a value is.
fn integer_of(value: Value) -> Option<i64>
    ensures { result ≡ integer_of value }
{
    match value {
        Value::Int(n) => Some(n),
        _ => None,
    }
}

// The integer that an operator gives.
fn integer_given(effect: Effect) -> Option<i64>
    ensures { result ≡ integer_given effect }
{
    match effect {
        Effect::Gives(value) => integer_of(value),
        _ => None,
    }
}

// What an operator does with one integer.
fn effect_of_one(alloc: Global, op: UnOp, n: i64) -> Result<Effect, AllocError>
    ensures { IfOk result (λ e. e ≡ unary op (Number n)) }
{
    match op {
        UnOp::Not => Ok(truth(n == 0)),
        UnOp::Flip => Ok(int(!n)),
        UnOp::Neg => whole(alloc, n.checked_neg()),
    }
}

// What an operator does with two integers.
fn effect_of_two(alloc: Global, op: BinOp, m: i64, n: i64) -> Result<Effect, AllocError>
    ensures { IfOk result (λ e. e ≡ result_of (λ _. true) op (Number m) (Number n)) }
{
    match op {
        BinOp::Add => whole(alloc, m.checked_add(n)),
        BinOp::Sub => whole(alloc, m.checked_sub(n)),
        BinOp::Mul => whole(alloc, m.checked_mul(n)),
        BinOp::Div => divided(alloc, m, n),
        BinOp::Rem => remainder(alloc, m, n),
        BinOp::And => Ok(int(m & n)),
        BinOp::Or => Ok(int(m | n)),
        BinOp::Xor => Ok(int(m ^ n)),
        BinOp::Shl => shifted_left(alloc, m, n),
        BinOp::Shr => shifted_right(alloc, m, n),
        BinOp::Lt => Ok(truth(m < n)),
        BinOp::Le => Ok(truth(m <= n)),
        BinOp::Gt => Ok(truth(n < m)),
        BinOp::Ge => Ok(truth(n <= m)),
        BinOp::Eq => Ok(truth(m == n)),
        BinOp::Ne => Ok(truth(m != n)),
    }
}

// The integer of an operator with one operand.
fn of_one(alloc: Global, op: UnOp, n: Option<i64>) -> Result<Option<i64>, AllocError>
    ensures { IfOk result (λ r. r ≡ of_one op n) }
{
    match n {
        Some(n) => {
            let effect = effect_of_one(alloc, op, n)?;
            Ok(integer_given(effect))
        }
        None => Ok(None),
    }
}

// The integer of an operator with two operands.
fn of_two(
    alloc: Global,
    op: BinOp,
    m: Option<i64>,
    n: Option<i64>,
) -> Result<Option<i64>, AllocError>
    ensures { IfOk result (λ r. r ≡ of_two op m n) }
{
    match (m, n) {
        (Some(m), Some(n)) => {
            let effect = effect_of_two(alloc, op, m, n)?;
            Ok(integer_given(effect))
        }
        _ => Ok(None),
    }
}

// Whether an expression is made of integers, parentheses and operators that take integers.
#[cycle(conditions)]
fn is_condition(e: &Expr) -> bool
    ensures { result ≡ is_condition_tree (tree_of e.now) }
{
    match e {
        Expr::Int { .. } => true,
        Expr::Paren { inner, .. } => is_condition(inner),
        Expr::Unary { of, .. } => is_condition(of),
        Expr::Binary { left, right, .. } => is_condition(left) && is_condition(right),
        Expr::AndThen { left, right, .. } => is_condition(left) && is_condition(right),
        Expr::OrElse { left, right, .. } => is_condition(left) && is_condition(right),
        Expr::Cond { test, yes, no, .. } => {
            is_condition(test) && (is_condition(yes) && is_condition(no))
        }
        _ => false,
    }
}

// The value of an expression, if it has one.
fn value(alloc: Global, e: &Expr) -> Result<Option<i64>, AllocError>
    ensures { IfOk result (λ r. r ≡ value_of_tree (tree_of e.now)) }
{
    match e {
        Expr::Int { value, .. } => Ok(Some(*value)),
        Expr::Paren { inner, .. } => value(alloc, inner),
        Expr::Unary { op, of, .. } => of_one(alloc, *op, value(alloc, of)?),
        Expr::Binary {
            op,
            left,
            right,
            ..
        } => {
            let m = value(alloc, left)?;
            let n = value(alloc, right)?;
            of_two(alloc, *op, m, n)
        }
        Expr::AndThen { left, right, .. } => match value(alloc, left)? {
            None => Ok(None),
            Some(0) => Ok(Some(0)),
            Some(_) => value(alloc, right),
        },
        Expr::OrElse { left, right, .. } => match value(alloc, left)? {
            None => Ok(None),
            Some(0) => value(alloc, right),
            Some(n) => Ok(Some(n)),
        },
        Expr::Cond { test, yes, no, .. } => match value(alloc, test)? {
            None => Ok(None),
            Some(0) => value(alloc, no),
            Some(_) => value(alloc, yes),
        },
        _ => Ok(None),
    }
}

// The value of an expression, if it is a condition.
fn condition_value(alloc: Global, e: &Expr) -> Result<Option<i64>, AllocError>
    ensures { IfOk result (λ r. r ≡ condition_value (tree_of e.now)) }
{
    if is_condition(e) {
        value(alloc, e)
    } else {
        Ok(None)
    }
}

// A name that is no macro is 0.
fn as_operand(kind: &TokenKind) -> Result<TokenKind, AllocError>
    ensures { IfOk result (λ k. k ≡ as_operand kind.now) }
{
    match kind {
        TokenKind::Name(_) => Ok(TokenKind::Int(0)),
        _ => copy_kind(kind),
    }
}

// A word as the grammar of expressions sees it.
fn operand(word: &Word) -> Result<Token, AllocError>
    ensures { IfOk result (λ t. seen t ≡ sight word.now) }
{
    Ok(Token {
        kind: as_operand(&word.kind)?,
        line: word.line,
        at: 0,
        len: 0,
        first: false,
    })
}

// Words as the grammar of expressions sees them.
fn operands(alloc: Global, words: &[Word]) -> Result<Vec<Token>, AllocError>
    ensures { IfOk result (λ ts. map seen ts.items ≡ map sight words.now) }
{
    let mut tokens = Vec::new(alloc);
    'words: for word in words {
        tokens.push(operand(word)?)?;
    }
    Ok(tokens)
}

// The value of an expression of so many tokens, if it is all of them.
fn whole_value(
    alloc: Global,
    tokens: &[Token],
    e: &Expr,
    count: usize,
) -> Result<Option<i64>, AllocError>
    ensures { (ws : List AnyWord) → map seen tokens.now ≡ map sight ws → IsRead 200 tokens.now count (tree_of e.now) → IfOk result (IsValue ws) }
{
    one_tree_law();
    if count == tokens.len() {
        return condition_value(alloc, e);
    }
    Ok(None)
}

// Tokens that are no expression have no value.
fn no_value(fault: ParseFault) -> Result<Option<i64>, AllocError>
    ensures { (ws : List AnyWord) (ts : List Tok) → map seen ts ≡ map sight ws → IsFault ts 0 1 fault → IfOk result (IsValue ws) }
{
    match fault {
        ParseFault::NoMemory => Err(AllocError),
        ParseFault::Unexpected { .. } => Ok(None),
        ParseFault::TooNested { .. } => Ok(None),
    }
}

// The value of the tokens of a condition.
fn read_value(alloc: Global, tokens: &[Token]) -> Result<Option<i64>, AllocError>
    ensures { (ws : List AnyWord) → map seen tokens.now ≡ map sight ws → IfOk result (IsValue ws) }
{
    match expr(alloc, tokens, 0, 1) {
        Ok((e, count)) => whole_value(alloc, tokens, &e, count),
        Err(fault) => no_value(fault),
    }
}

/// The value of a condition, or none where its words are no condition, or an operator is an error.
pub fn value_of(alloc: Global, words: &[Word]) -> Result<Option<i64>, AllocError>
    ensures { IfOk result (IsValue words.now) }
{
    let tokens = operands(alloc, words)?;
    read_value(alloc, tokens.as_slice())
}
