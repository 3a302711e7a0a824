use lp_parser_expr::fault::ParseFault;
use lp_parser_expr::reading::expr;
use lp_tree::chars::Chars;
use lp_tree::expr::Expr;
use lp_tree::operator::{AssignOp, BinOp, Step};
use lp_tree::token::{Mark, Token, TokenKind};
use std::alloc::{AllocError, Global};

// The tokens of marks, where `1` stands for an integer, each on a line of its own.
fn tokens(alloc: Global, marks: &[Option<Mark>]) -> Result<Vec<Token>, AllocError> {
    let mut all = Vec::new(alloc);
    let mut line: u32 = 0;
    for mark in marks {
        line = line.saturating_add(1);
        let kind = match mark {
            Some(mark) => TokenKind::Mark(*mark),
            None => TokenKind::Int(1),
        };
        all.push(Token {
            kind,
            line,
            at: 0,
            len: 1,
            first: true,
        })?;
    }
    Ok(all)
}

// What is read of tokens: the place behind the expression, or the line of the fault and whether it is one of nesting.
fn read(alloc: Global, all: &[Token], depth: u32) -> Result<(usize, u32, bool), AllocError> {
    match expr(alloc, all, 0, depth) {
        Ok((_tree, to)) => Ok((to, 0, false)),
        Err(ParseFault::NoMemory) => Err(AllocError),
        Err(ParseFault::Unexpected { line }) => Ok((0, line, false)),
        Err(ParseFault::TooNested { line }) => Ok((0, line, true)),
    }
}

// What is read of marks.
fn outcome(
    alloc: Global,
    marks: &[Option<Mark>],
    depth: u32,
) -> Result<(usize, u32, bool), AllocError> {
    let all = tokens(alloc, marks)?;
    read(alloc, all.as_slice(), depth)
}

const ADD: Option<Mark> = Some(Mark::Binary(BinOp::Add));

const MUL: Option<Mark> = Some(Mark::Binary(BinOp::Mul));

const OPEN: Option<Mark> = Some(Mark::OpenParen);

const CLOSE: Option<Mark> = Some(Mark::CloseParen);

const COMMA: Option<Mark> = Some(Mark::Comma);

const BRACKET: Option<Mark> = Some(Mark::OpenBracket);

const END: Option<Mark> = Some(Mark::CloseBracket);

const BACK: Option<Mark> = Some(Mark::Binary(BinOp::Lt));

const DOTS: Option<Mark> = Some(Mark::DotDot);

const ASKS: Option<Mark> = Some(Mark::Question);

const COLON: Option<Mark> = Some(Mark::Colon);

#[test]
fn reads_the_longest(rt: HostRuntime) -> Result<(), AllocError> {
    let alloc = rt.alloc();
    assert!(rt; outcome(alloc, &[None, ADD, None, MUL, None], 1)? == (5, 0, false));
    assert!(rt; outcome(alloc, &[None, ADD, None, MUL, None], 198)? == (5, 0, false));
    assert!(rt; outcome(alloc, &[None, ADD, None, MUL, None], 199)? == (0, 4, true));
    assert!(rt;
        outcome(alloc, &[None, Some(Mark::Assign(AssignOp::Set)), None], 1)? == (1, 0, false)
    );
    assert!(rt; outcome(alloc, &[None, BRACKET, DOTS, END], 1)? == (4, 0, false));
    assert!(rt;
        outcome(
            alloc,
            &[None, BRACKET, BACK, None, DOTS, BACK, None, END],
            1
        )? == (8, 0, false)
    );
    assert!(rt;
        outcome(
            alloc,
            &[None, ASKS, None, COLON, None, ASKS, None, COLON, None],
            1
        )? == (9, 0, false)
    );
    Ok(())
}

#[test]
fn refuses_at_the_token(rt: HostRuntime) -> Result<(), AllocError> {
    let alloc = rt.alloc();
    assert!(rt; outcome(alloc, &[], 1)? == (0, 0, false));
    assert!(rt; outcome(alloc, &[CLOSE], 1)? == (0, 1, false));
    assert!(rt; outcome(alloc, &[OPEN, None], 1)? == (0, 2, false));
    assert!(rt;
        outcome(alloc, &[OPEN, Some(Mark::OpenBrace), None, COMMA, COMMA], 1)? == (0, 5, false)
    );
    assert!(rt; outcome(alloc, &[OPEN, BRACKET, None, END, CLOSE], 1)? == (0, 4, false));
    assert!(rt; outcome(alloc, &[Some(Mark::Step(Step::Up)), None], 1)? == (0, 2, false));
    Ok(())
}

// The operator of a letter.
fn op_of(letter: u8) -> Option<BinOp> {
    match letter {
        b'+' => Some(BinOp::Add),
        b'-' => Some(BinOp::Sub),
        b'*' => Some(BinOp::Mul),
        b'/' => Some(BinOp::Div),
        b'%' => Some(BinOp::Rem),
        b'&' => Some(BinOp::And),
        b'|' => Some(BinOp::Or),
        b'^' => Some(BinOp::Xor),
        b'l' => Some(BinOp::Shl),
        b'r' => Some(BinOp::Shr),
        b'<' => Some(BinOp::Lt),
        b'm' => Some(BinOp::Le),
        b'>' => Some(BinOp::Gt),
        b'g' => Some(BinOp::Ge),
        b'q' => Some(BinOp::Eq),
        b'x' => Some(BinOp::Ne),
        _ => None,
    }
}

// The letter of an operator.
fn letter_of(op: BinOp) -> u8 {
    match op {
        BinOp::Add => b'+',
        BinOp::Sub => b'-',
        BinOp::Mul => b'*',
        BinOp::Div => b'/',
        BinOp::Rem => b'%',
        BinOp::And => b'&',
        BinOp::Or => b'|',
        BinOp::Xor => b'^',
        BinOp::Shl => b'l',
        BinOp::Shr => b'r',
        BinOp::Lt => b'<',
        BinOp::Le => b'm',
        BinOp::Gt => b'>',
        BinOp::Ge => b'g',
        BinOp::Eq => b'q',
        BinOp::Ne => b'x',
    }
}

// The mark of a letter that is no operator of two operands.
fn mark_of(letter: u8) -> Mark {
    match letter {
        b'(' => Mark::OpenParen,
        b')' => Mark::CloseParen,
        b'{' => Mark::OpenBrace,
        b'}' => Mark::CloseBrace,
        b'[' => Mark::OpenBracket,
        b']' => Mark::CloseBracket,
        b',' => Mark::Comma,
        b':' => Mark::Colon,
        b'P' => Mark::ColonColon,
        b'.' => Mark::DotDot,
        b'T' => Mark::Arrow,
        b'?' => Mark::Question,
        b'!' => Mark::Not,
        b'~' => Mark::Flip,
        b'n' => Mark::AndThen,
        b'o' => Mark::OrElse,
        b'U' => Mark::Step(Step::Up),
        b'D' => Mark::Step(Step::Down),
        b'=' => Mark::Assign(AssignOp::Set),
        b'A' => Mark::Assign(AssignOp::Add),
        _ => Mark::Semicolon,
    }
}

// A name of these letters.
fn name(alloc: Global, letters: &[char]) -> Result<TokenKind, AllocError> {
    Ok(TokenKind::Name(Chars::from_vec(alloc, letters.to_vec(alloc)?)?))
}

// The token of a letter.
fn kind_of(alloc: Global, letter: u8) -> Result<TokenKind, AllocError> {
    match letter {
        b'1' => Ok(TokenKind::Int(1)),
        b'a' => name(alloc, &['a']),
        b'e' => name(alloc, &['e', 'f', 'u', 'n']),
        b'i' => name(alloc, &['i', 'n', 't']),
        b'c' => name(alloc, &['c', 'a', 't', 'c', 'h']),
        b's' => name(alloc, &['s', 's', 'c', 'a', 'n', 'f']),
        b'"' => Ok(TokenKind::Text(Chars::from_vec(alloc, ['a'].to_vec(alloc)?)?)),
        other => match op_of(other) {
            Some(op) => Ok(TokenKind::Mark(Mark::Binary(op))),
            None => Ok(TokenKind::Mark(mark_of(other))),
        },
    }
}

// The tokens of letters, each on a line of its own.
fn spelled(alloc: Global, letters: &[u8]) -> Result<Vec<Token>, AllocError> {
    let mut all = Vec::new(alloc);
    let mut line: u32 = 0;
    for letter in letters {
        line = line.saturating_add(1);
        all.push(Token {
            kind: kind_of(alloc, *letter)?,
            line,
            at: 0,
            len: 1,
            first: true,
        })?;
    }
    Ok(all)
}

// What is read of letters.
fn told(alloc: Global, letters: &[u8]) -> Result<(usize, u32, bool), AllocError> {
    let all = spelled(alloc, letters)?;
    read(alloc, all.as_slice(), 1)
}

// A letter for what an expression is.
fn sort_of(tree: &Expr) -> u8 {
    match tree {
        Expr::Int { .. } => b'1',
        Expr::Text { .. } => b'"',
        Expr::Name { .. } => b'a',
        Expr::Paren { .. } => b'(',
        Expr::Array { .. } => b'{',
        Expr::Mapping { .. } => b'[',
        Expr::Call { .. } => b'f',
        Expr::EfunCall { .. } => b'e',
        Expr::ParentCall { .. } => b'P',
        Expr::NamedParentCall { .. } => b'N',
        Expr::Catch { .. } => b'c',
        Expr::Sscanf { .. } => b's',
        Expr::Index { .. } => b']',
        Expr::Range { .. } => b'.',
        Expr::CallOther { .. } => b'T',
        Expr::PostStep { .. } => b'U',
        Expr::PreStep { .. } => b'D',
        Expr::Unary { .. } => b'!',
        Expr::Cast { .. } => b'i',
        Expr::Binary { op, .. } => letter_of(*op),
        Expr::AndThen { .. } => b'n',
        Expr::OrElse { .. } => b'o',
        Expr::Cond { .. } => b'?',
        Expr::Assign { .. } => b'=',
        Expr::Sequence { .. } => b',',
    }
}

// What an expression is, and what its first and its last operand are; 0 where it has none.
fn sides_of(tree: &Expr) -> (u8, u8, u8) {
    match tree {
        Expr::Binary {
            op,
            left,
            right,
            ..
        } => (letter_of(*op), sort_of(left), sort_of(right)),
        Expr::AndThen { left, right, .. } => (b'n', sort_of(left), sort_of(right)),
        Expr::OrElse { left, right, .. } => (b'o', sort_of(left), sort_of(right)),
        Expr::Cond { test, no, .. } => (b'?', sort_of(test), sort_of(no)),
        Expr::Assign { place, value, .. } => (b'=', sort_of(place), sort_of(value)),
        Expr::PostStep { place, .. } => (b'U', sort_of(place), 0),
        Expr::Index { of, at, .. } => (b']', sort_of(of), sort_of(at)),
        Expr::CallOther { of, .. } => (b'T', sort_of(of), 0),
        Expr::PreStep { place, .. } => (b'D', 0, sort_of(place)),
        Expr::Unary { of, .. } => (b'!', 0, sort_of(of)),
        Expr::Cast { of, .. } => (b'i', 0, sort_of(of)),
        other => (sort_of(other), 0, 0),
    }
}

// The sides of the expression that letters spell.
fn sides(alloc: Global, letters: &[u8]) -> Result<(u8, u8, u8), AllocError> {
    let all = spelled(alloc, letters)?;
    match expr(alloc, all.as_slice(), 0, 1) {
        Ok((tree, _to)) => Ok(sides_of(&tree)),
        Err(ParseFault::NoMemory) => Err(AllocError),
        Err(_) => Ok((0, 0, 0)),
    }
}

// An expression of each production: its tokens, `y` for each one behind which an expression may end, and what it is.
const PRODUCTIONS: [(&str, &str, u8); 37] = [
    ("1", "y", b'1'),
    ("\"", "y", b'"'),
    ("a", "y", b'a'),
    ("(a)", "--y", b'('),
    ("({})", "---y", b'{'),
    ("({a,1})", "------y", b'{'),
    ("({a,})", "-----y", b'{'),
    ("([])", "---y", b'['),
    ("([a:1])", "------y", b'['),
    ("([a:1,1:a])", "----------y", b'['),
    ("([a:1,])", "-------y", b'['),
    ("a()", "y-y", b'f'),
    ("a(1,a)", "y----y", b'f'),
    ("ePa(1)", "y----y", b'e'),
    ("Pa(1)", "----y", b'P'),
    ("\"Pa(1)", "y----y", b'N'),
    ("c(a)", "---y", b'c'),
    ("c(a,1)", "-----y", b'c'),
    ("s(a,1)", "-----y", b's'),
    ("s(a,1,a,a[1])", "------------y", b's'),
    ("a[1]", "y--y", b']'),
    ("a[<1]", "y---y", b']'),
    ("a[1.1]", "y----y", b'.'),
    ("a[<1.<1]", "y------y", b'.'),
    ("a[.1]", "y---y", b'.'),
    ("a[1.]", "y---y", b'.'),
    ("1Ta(a)", "y----y", b'T'),
    ("aU", "yy", b'U'),
    ("Da", "-y", b'D'),
    ("!1", "-y", b'!'),
    ("(i**)a", "-----y", b'i'),
    ("a+1", "y-y", b'+'),
    ("an1", "y-y", b'n'),
    ("ao1", "y-y", b'o'),
    ("a?1:a", "y---y", b'?'),
    ("aA1", "y-y", b'='),
    ("a,1,a", "y-y-y", b','),
];

// How many of the cuts of these letters are not read as told: whole, or a fault of their last token.
fn wrong_cuts(alloc: Global, letters: &[u8], ends: &[u8]) -> Result<u32, AllocError> {
    let mut wrong: u32 = 0;
    let mut cut = Vec::new(alloc);
    let mut line: u32 = 0;
    for (letter, end) in letters.iter().zip(ends) {
        cut.push(*letter)?;
        line = line.saturating_add(1);
        let wanted = if *end == b'y' {
            (cut.len(), 0, false)
        } else {
            (0, line, false)
        };
        if told(alloc, cut.as_slice())? != wanted {
            wrong = wrong.saturating_add(1);
        }
    }
    Ok(wrong)
}

#[test]
fn reads_each_production(rt: HostRuntime) -> Result<(), AllocError> {
    let alloc = rt.alloc();
    for (source, ends, sort) in PRODUCTIONS {
        assert!(rt; source.len() == ends.len());
        assert!(rt; sides(alloc, source.as_bytes())?.0 == sort);
        assert!(rt; wrong_cuts(alloc, source.as_bytes(), ends.as_bytes())? == 0);
    }
    Ok(())
}

// Operators of neighbouring levels, the looser one first.
const LEVELS: [(u8, u8); 9] = [
    (b'o', b'n'),
    (b'n', b'|'),
    (b'|', b'^'),
    (b'^', b'&'),
    (b'&', b'q'),
    (b'q', b'<'),
    (b'<', b'l'),
    (b'l', b'+'),
    (b'+', b'*'),
];

// Operators of one level.
const SAME: [(u8, u8); 16] = [
    (b'o', b'o'),
    (b'n', b'n'),
    (b'|', b'|'),
    (b'^', b'^'),
    (b'&', b'&'),
    (b'q', b'x'),
    (b'x', b'q'),
    (b'<', b'm'),
    (b'm', b'>'),
    (b'>', b'g'),
    (b'g', b'<'),
    (b'l', b'r'),
    (b'r', b'l'),
    (b'+', b'-'),
    (b'-', b'+'),
    (b'/', b'%'),
];

#[test]
fn binds_by_levels(rt: HostRuntime) -> Result<(), AllocError> {
    let alloc = rt.alloc();
    for (loose, tight) in LEVELS {
        assert!(rt; sides(alloc, &[b'1', loose, b'a', tight, b'1'])? == (loose, b'1', tight));
        assert!(rt; sides(alloc, &[b'1', tight, b'a', loose, b'1'])? == (loose, tight, b'1'));
    }
    for (first, second) in SAME {
        assert!(rt; sides(alloc, &[b'1', first, b'a', second, b'1'])? == (second, first, b'1'));
    }
    Ok(())
}

#[test]
fn binds_beside_the_levels(rt: HostRuntime) -> Result<(), AllocError> {
    let alloc = rt.alloc();
    assert!(rt; sides(alloc, b"a=a=1")? == (b'=', b'a', b'='));
    assert!(rt; sides(alloc, b"a=1?a:1")? == (b'=', b'a', b'?'));
    assert!(rt; sides(alloc, b"a?1:a?1:a")? == (b'?', b'a', b'?'));
    assert!(rt; sides(alloc, b"ao1?1:ao1")? == (b'?', b'o', b'o'));
    assert!(rt; told(alloc, b"a?1:a=1")? == (5, 0, false));
    assert!(rt; sides(alloc, b"a=1,a=1")?.0 == b',');
    assert!(rt; sides(alloc, b"!a*1")? == (b'*', b'!', b'1'));
    assert!(rt; sides(alloc, b"(i)a*1")? == (b'*', b'i', b'1'));
    assert!(rt; sides(alloc, b"-a[1]")? == (b'!', 0, b']'));
    assert!(rt; sides(alloc, b"~aTa()")? == (b'!', 0, b'T'));
    assert!(rt; sides(alloc, b"(i)aU")? == (b'i', 0, b'U'));
    assert!(rt; sides(alloc, b"!Da[1]")? == (b'!', 0, b'D'));
    assert!(rt; sides(alloc, b"1-!a")? == (b'-', b'1', b'!'));
    Ok(())
}

// This letter so many times, an integer, and the other letter so many times.
fn nested(alloc: Global, count: u32, open: u8, close: u8) -> Result<Vec<u8>, AllocError> {
    let mut letters = Vec::new(alloc);
    for _ in 0..count {
        letters.push(open)?;
    }
    letters.push(b'1')?;
    for _ in 0..count {
        letters.push(close)?;
    }
    Ok(letters)
}

// So many prefix operators before an integer.
fn prefixed(alloc: Global, count: u32) -> Result<Vec<u8>, AllocError> {
    let mut letters = Vec::new(alloc);
    for _ in 0..count {
        letters.push(b'!')?;
    }
    letters.push(b'1')?;
    Ok(letters)
}

// A sum of one integer more than this.
fn sum(alloc: Global, count: u32) -> Result<Vec<u8>, AllocError> {
    let mut letters = Vec::new(alloc);
    letters.push(b'1')?;
    for _ in 0..count {
        letters.push(b'+')?;
        letters.push(b'1')?;
    }
    Ok(letters)
}

#[test]
fn nests_as_deep_as_told(rt: HostRuntime) -> Result<(), AllocError> {
    let alloc = rt.alloc();
    assert!(rt; told(alloc, nested(alloc, 198, b'(', b')')?.as_slice())? == (397, 0, false));
    assert!(rt; told(alloc, nested(alloc, 199, b'(', b')')?.as_slice())? == (399, 0, false));
    assert!(rt; told(alloc, nested(alloc, 200, b'(', b')')?.as_slice())? == (0, 201, true));
    assert!(rt; told(alloc, prefixed(alloc, 198)?.as_slice())? == (199, 0, false));
    assert!(rt; told(alloc, prefixed(alloc, 199)?.as_slice())? == (200, 0, false));
    assert!(rt; told(alloc, prefixed(alloc, 200)?.as_slice())? == (0, 200, true));
    assert!(rt; told(alloc, sum(alloc, 198)?.as_slice())? == (397, 0, false));
    assert!(rt; told(alloc, sum(alloc, 199)?.as_slice())? == (399, 0, false));
    assert!(rt; told(alloc, sum(alloc, 200)?.as_slice())? == (0, 400, true));
    Ok(())
}

// These letters so many times, an integer, and the other letters so many times.
fn within(alloc: Global, count: u32, open: [u8; 2], close: &[u8]) -> Result<Vec<u8>, AllocError> {
    let mut letters = Vec::new(alloc);
    for _ in 0..count {
        letters.push(open[0])?;
        letters.push(open[1])?;
    }
    letters.push(b'1')?;
    for _ in 0..count {
        for letter in close {
            letters.push(*letter)?;
        }
    }
    Ok(letters)
}

#[test]
fn nests_literals_and_calls_as_deep(rt: HostRuntime) -> Result<(), AllocError> {
    let alloc = rt.alloc();
    for (open, close) in [([b'(', b'{'], "})"), ([b'a', b'('], ")")] {
        let ends = close.len();
        for count in [198u32, 199] {
            let letters = within(alloc, count, open, close.as_bytes())?;
            let len = letters.len();
            assert!(rt; len == 1 + (2 + ends) * count as usize);
            assert!(rt; told(alloc, letters.as_slice())? == (len, 0, false));
        }
        let letters = within(alloc, 200, open, close.as_bytes())?;
        assert!(rt; told(alloc, letters.as_slice())? == (0, 401, true));
    }
    for count in [201u32, 202] {
        assert!(rt; told(alloc, nested(alloc, count, b'(', b')')?.as_slice())? == (0, 201, true));
        assert!(rt; told(alloc, prefixed(alloc, count)?.as_slice())? == (0, 200, true));
        assert!(rt; told(alloc, sum(alloc, count)?.as_slice())? == (0, 400, true));
    }
    Ok(())
}

#[test]
fn reads_up_to_what_is_refused(rt: HostRuntime) -> Result<(), AllocError> {
    let alloc = rt.alloc();
    // No place stands left of the `=`, so the sum is all.
    assert!(rt; told(alloc, b"a+a=1")? == (3, 0, false));
    assert!(rt; told(alloc, b"aUU")? == (2, 0, false));
    assert!(rt; sides(alloc, b"-aU")? == (b'!', 0, b'U'));
    assert!(rt; sides(alloc, b"(i)a[1]")? == (b'i', 0, b']'));
    assert!(rt; told(alloc, b"({1,,})")? == (0, 5, false));
    assert!(rt; told(alloc, b"([1])")? == (0, 4, false));
    assert!(rt; told(alloc, b"a(,)")? == (0, 3, false));
    assert!(rt; told(alloc, b"a?1;")? == (0, 4, false));
    assert!(rt; told(alloc, b"a()=1")? == (3, 0, false));
    Ok(())
}
