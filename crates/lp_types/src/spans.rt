//! The integers that the labels of a switch cover: spans in a tree that finds one which meets another, in time by the
//! bits of an integer.
ghost use Rattle.std.specs.Prelude.{◌≡◌, ℤ, [], ◌∷◌, ◌++◌, ◌||◌, ◌&&◌, int_le, MatchOption};
ghost use Rattle.lp_types.specs.Spans.{IsOpened, IsSummed, IsWider, IsWith, all_begin, any_begins, any_ends, are_hit, is_hit, spans_in};

use std::alloc::{AllocError, Global};
use std::mem;

/// The integers from one on, up to another, that one too.
#[derive(Clone, Copy, Drop)]
pub(crate) struct Span {
    pub(crate) from: i64,
    pub(crate) to: i64,
}

/// Spans, no two of which begin at one integer.
#[cycle(tree)]
#[derive(Drop)]
pub(crate) enum Tree {
    Leaf,
    Fork(Box<Branch>),
}

/// A span with others. Those of its left branch begin where a bit, which is the next one at each level, is 0, and those of
/// its right branch where it is 1: so there are no more levels than bits. Of all these spans it keeps where the first and
/// the last begin, and how far they reach.
#[cycle(tree)]
#[derive(Drop)]
pub(crate) struct Branch {
    left: Tree,
    span: Span,
    first: i64,
    last: i64,
    reach: i64,
    right: Tree,
}

/// A branch in parts, and its box, to be filled again.
#[derive(Drop)]
pub(crate) struct Opened {
    spare: Box<Branch>,
    left: Tree,
    span: Span,
    right: Tree,
}

// Whether two spans meet, where each of the two has integers.
fn is_met(own: &Span, other: &Span) -> bool
    ensures { result ≡ is_hit other.now.from other.now.to own.now }
{
    own.from <= other.to && other.from <= own.to
}

// Whether one of a branch's spans may meet another.
fn is_near(b: &Branch, other: &Span) -> bool
    ensures { result ≡ (int_le b.now.first other.now.to && int_le other.now.from b.now.reach) }
{
    b.first <= other.to && other.from <= b.reach
}

// Whether each of a branch's spans begins at the end of another, or before it.
fn is_before(b: &Branch, other: &Span) -> bool
    ensures { result ≡ int_le b.now.last other.now.to }
{
    b.last <= other.to
}

// Of two spans that begin at one integer, that which reaches further.
fn wider(one: Span, other: Span) -> Span
    requires { one.from ≡ other.from }
    ensures { IsWider other one result }
{
    if one.to < other.to { other } else { one }
}

/// Room for a branch.
pub(crate) fn room(alloc: Global) -> Result<Box<Branch>, AllocError> {
    let none = Span { from: 0, to: 0 };
    let branch = Branch {
        left: Tree::Leaf,
        span: none,
        first: 0,
        last: 0,
        reach: 0,
        right: Tree::Leaf,
    };
    Ok(Box::new(alloc, branch)?)
}

impl Tree {
    /// The first of an integer and those at which the spans begin.
    fn first(&self, own: i64) -> i64
        requires { IsSummed self.now }
        ensures { (n : ℤ) → int_le result n ≡ (int_le own n || any_begins n (spans_in self.now)) }
    {
        match self {
            Tree::Leaf => own,
            Tree::Fork(b) => own.min(b.first),
        }
    }

    /// The last of an integer and those at which the spans begin.
    fn last(&self, own: i64) -> i64
        requires { IsSummed self.now }
        ensures { (n : ℤ) → int_le result n ≡ (int_le own n && all_begin n (spans_in self.now)) }
    {
        match self {
            Tree::Leaf => own,
            Tree::Fork(b) => own.max(b.last),
        }
    }

    /// The last of an integer and those at which the spans end.
    fn reach(&self, own: i64) -> i64
        requires { IsSummed self.now }
        ensures { (n : ℤ) → int_le n result ≡ (int_le n own || any_ends n (spans_in self.now)) }
    {
        match self {
            Tree::Leaf => own,
            Tree::Fork(b) => own.max(b.reach),
        }
    }

    /// The parts of a tree that has spans.
    fn open(self) -> Option<Opened>
        requires { IsSummed self }
        ensures { MatchOption result (spans_in self ≡ []) (IsOpened (spans_in self)) }
    {
        match self {
            Tree::Leaf => None,
            Tree::Fork(mut b) => {
                let left = mem::replace(&mut b.left, Tree::Leaf);
                let right = mem::replace(&mut b.right, Tree::Leaf);
                Some(Opened {
                    span: b.span,
                    spare: b,
                    left,
                    right,
                })
            }
        }
    }

    /// A span between those of two trees, in a box that is there.
    fn fork(mut spare: Box<Branch>, left: Tree, span: Span, right: Tree) -> Tree
        requires left { IsSummed left }
        requires right { IsSummed right }
        ensures spans { spans_in result ≡ spans_in left ++ span ∷ spans_in right }
        ensures summed { IsSummed result }
    {
        let first = right.first(left.first(span.from));
        let last = right.last(left.last(span.from));
        let reach = right.reach(left.reach(span.to));
        *spare = Branch {
            left,
            span,
            first,
            last,
            reach,
            right,
        };
        Tree::Fork(spare)
    }

    /// The spans, and one more; in a box that is there. `bit` is the one that this level looks at.
    pub(crate) fn with(self, spare: Box<Branch>, span: Span, bit: u64) -> Tree
        requires { IsSummed self }
        ensures hits { IsWith span (spans_in self) (spans_in result) }
        ensures summed { IsSummed result }
    {
        let Some(o) = self.open() else {
            return Tree::fork(spare, Tree::Leaf, span, Tree::Leaf);
        };
        if o.span.from == span.from {
            return Tree::fork(o.spare, o.left, wider(o.span, span), o.right);
        }
        if span.from.cast_unsigned() & bit == 0 {
            let left = o.left.with(spare, span, bit >> 1);
            return Tree::fork(o.spare, left, o.span, o.right);
        }
        let right = o.right.with(spare, span, bit >> 1);
        Tree::fork(o.spare, o.left, o.span, right)
    }

    /// Whether a span, which has integers, meets one of these.
    pub(crate) fn meets(&self, other: &Span) -> bool
        requires { IsSummed self.now }
        ensures { result ≡ are_hit other.now.from other.now.to (spans_in self.now) }
    {
        match self {
            Tree::Leaf => false,
            Tree::Fork(b) => {
                let b: &Branch = b;
                if !is_near(b, other) {
                    return false;
                }
                if is_before(b, other) {
                    return true;
                }
                if is_met(&b.span, other) {
                    return true;
                }
                if b.left.meets(other) {
                    return true;
                }
                b.right.meets(other)
            }
        }
    }
}
