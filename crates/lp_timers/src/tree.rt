//! Lines in order of their numbers, in a tree that finds a number, and those that are due, in time by
//! its height.
ghost use Rattle.std.specs.Prelude.{◌≡◌, [], ◌∷◌, ◌++◌, MatchOption, OnOk};
ghost use Rattle.lp_timers.specs.Lines.{due_objects, lines_cut, lines_set, moment_of, AreFrom, AreRising};
ghost use Rattle.lp_timers.specs.Tree.{lines_of, IsOpened, KnowsSoonest};

use crate::kind::Kind;
use crate::line::Line;
use lp_values::id::ObjId;
use std::alloc::AllocError;
use std::mem;

/// Lines by rising number.
#[cycle(tree)]
#[derive(Drop)]
pub(crate) enum Tree {
    Leaf,
    Fork(Box<Branch>),
}

/// A line with those before it and those behind it. `soonest` is the earliest moment of all these,
/// and `rank` is at least that of each branch below; ranks at random keep the tree flat.
#[cycle(tree)]
#[derive(Drop)]
pub(crate) struct Branch {
    left: Tree,
    line: Line,
    soonest: u64,
    rank: u64,
    right: Tree,
}

/// A branch in parts, and its box, to be filled again.
#[derive(Drop)]
pub(crate) struct Opened {
    spare: Box<Branch>,
    left: Tree,
    line: Line,
    rank: u64,
    right: Tree,
}

impl Tree {
    /// The earliest moment of a line, the last of all where there is none.
    fn soonest(&self) -> u64
        requires { KnowsSoonest self.now }
        ensures { AreFrom result (lines_of self.now) }
    {
        match self {
            Tree::Leaf => u64::MAX,
            Tree::Fork(b) => b.soonest,
        }
    }

    /// The parts of a tree that has lines.
    fn open(self) -> Option<Opened>
        requires { KnowsSoonest self }
        ensures { MatchOption result (lines_of self ≡ []) (IsOpened (lines_of self)) }
    {
        match self {
            Tree::Leaf => None,
            Tree::Fork(mut b) => {
                let left = mem::replace(&mut b.left, Tree::Leaf);
                let right = mem::replace(&mut b.right, Tree::Leaf);
                Some(Opened {
                    line: b.line,
                    rank: b.rank,
                    spare: b,
                    left,
                    right,
                })
            }
        }
    }

    /// A tree of these parts, in a box that is there.
    fn close(o: Opened) -> Tree
        requires left { KnowsSoonest o.left }
        requires right { KnowsSoonest o.right }
        ensures lines { lines_of result ≡ lines_of o.left ++ o.line ∷ lines_of o.right }
        ensures knows { KnowsSoonest result }
    {
        let Opened {
            mut spare,
            left,
            line,
            rank,
            right,
        } = o;
        let soonest = left.soonest().min(line.next.min(right.soonest()));
        *spare = Branch {
            left,
            line,
            soonest,
            rank,
            right,
        };
        Tree::Fork(spare)
    }

    /// A tree of one line, in a box that is there.
    fn single(spare: Box<Branch>, line: Line, rank: u64) -> Tree
        ensures lines { lines_of result ≡ line ∷ [] }
        ensures knows { KnowsSoonest result }
    {
        Tree::close(Opened {
            spare,
            left: Tree::Leaf,
            line,
            rank,
            right: Tree::Leaf,
        })
    }

    /// The lines of one tree, and behind them those of another.
    fn join(a: Tree, b: Tree) -> Tree
        requires first { KnowsSoonest a }
        requires second { KnowsSoonest b }
        ensures lines { lines_of result ≡ lines_of a ++ lines_of b }
        ensures knows { KnowsSoonest result }
    {
        let Some(mut x) = a.open() else { return b };
        let Some(mut y) = b.open() else {
            return Tree::close(x);
        };
        if x.rank < y.rank {
            y.left = Tree::join(Tree::close(x), y.left);
            return Tree::close(y);
        }
        x.right = Tree::join(x.right, Tree::close(y));
        Tree::close(x)
    }

    /// The lines with one more behind them, in a box that is there.
    pub(crate) fn with_last(self, spare: Box<Branch>, line: Line, rank: u64) -> Tree
        requires { KnowsSoonest self }
        ensures lines { lines_of result ≡ lines_of self ++ line ∷ [] }
        ensures knows { KnowsSoonest result }
    {
        Tree::join(self, Tree::single(spare, line, rank))
    }

    /// The lines, with that of a number at another moment. Takes no memory.
    pub(crate) fn set(self, number: u64, at: u64) -> Tree
        requires knows { KnowsSoonest self }
        requires rising { AreRising (lines_of self) }
        ensures lines { lines_of result ≡ lines_set (lines_of self) number at }
        ensures knows { KnowsSoonest result }
    {
        let Some(mut o) = self.open() else {
            return Tree::Leaf;
        };
        if number < o.line.number {
            o.left = o.left.set(number, at);
            return Tree::close(o);
        }
        if o.line.number < number {
            o.right = o.right.set(number, at);
            return Tree::close(o);
        }
        o.line.next = at;
        Tree::close(o)
    }

    /// The lines without that of a number. Takes no memory.
    pub(crate) fn cut(self, number: u64) -> Tree
        requires knows { KnowsSoonest self }
        requires rising { AreRising (lines_of self) }
        ensures lines { lines_of result ≡ lines_cut (lines_of self) number }
        ensures knows { KnowsSoonest result }
    {
        let Some(mut o) = self.open() else {
            return Tree::Leaf;
        };
        if number < o.line.number {
            o.left = o.left.cut(number);
            return Tree::close(o);
        }
        if o.line.number < number {
            o.right = o.right.cut(number);
            return Tree::close(o);
        }
        Tree::join(o.left, o.right)
    }

    /// The moment of the line with a number, if there is one.
    pub(crate) fn moment(&self, number: u64) -> Option<u64>
        requires { AreRising (lines_of self.now) }
        ensures { result ≡ moment_of (lines_of self.now) number }
    {
        match self {
            Tree::Leaf => None,
            Tree::Fork(b) => {
                let b: &Branch = b;
                if number < b.line.number {
                    return b.left.moment(number);
                }
                if b.line.number < number {
                    return b.right.moment(number);
                }
                Some(b.line.next)
            }
        }
    }

    /// Puts the objects of the lines of a kind that are due at a moment behind others, in order.
    pub(crate) fn tell_due(
        &self,
        kind: Kind,
        t: u64,
        found: &mut Vec<ObjId>,
    ) -> Result<(), AllocError>
        requires { KnowsSoonest self.now }
        ensures { OnOk result (found.new.items ≡ found.old.items ++ due_objects kind t (lines_of self.now)) }
    {
        match self {
            Tree::Leaf => Ok(()),
            Tree::Fork(b) => {
                let b: &Branch = b;
                if t < b.soonest {
                    return Ok(());
                }
                b.left.tell_due(kind, t, found)?;
                b.line.tell_due(kind, t, found)?;
                b.right.tell_due(kind, t, found)
            }
        }
    }
}

impl Branch {
    /// A branch of its own, for its box.
    pub(crate) fn empty() -> Branch {
        Branch {
            left: Tree::Leaf,
            line: Line {
                number: 0,
                ob: ObjId(0),
                kind: Kind::Beat,
                next: 0,
            },
            soonest: 0,
            rank: 0,
            right: Tree::Leaf,
        }
    }
}
