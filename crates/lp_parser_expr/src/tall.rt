//! Expressions with their levels of nesting.
ghost use Rattle.std.specs.Prelude.{◌≡◌, ◌+◌, ◌++◌, ◌∷◌, [], IfOk, map, max};
ghost use Rattle.lp_tree.specs.Trees.{height as levels, end_height, Open, At};
ghost use Rattle.lp_tree.specs.TreeView.{tree_of};
ghost use Rattle.lp_parser_expr.specs.Depth.{tallest as levels_of_tallest, tallest_pair as levels_of_pairs};
ghost use Rattle.lp_parser_expr.specs.Capped.{capped, pair_of, end_of};

use lp_tree::expr::{Bound, Edge, Expr};
use std::alloc::{AllocError, Global};

/// An expression with its levels of nesting.
#[derive(Drop)]
pub struct Tall {
    /// The expression.
    pub expr: Box<Expr>,
    /// Its levels. 4294967295 stands for all numbers from there on.
    pub height: u32,
    ghost right: { height ≡ capped (levels (tree_of expr.value)) },
}

/// Expressions with the levels of the tallest, or 0 where there are none.
#[derive(Drop)]
pub struct Talls {
    /// The expressions.
    pub items: Vec<Expr>,
    /// The levels of the tallest.
    pub tallest: u32,
    ghost right: { tallest ≡ capped (levels_of_tallest (map tree_of items.items)) },
}

/// Pairs of a mapping with the levels of the tallest part, or 0 where there are none.
#[derive(Drop)]
pub struct TallPairs {
    /// The pairs.
    pub pairs: Vec<(Expr, Expr)>,
    /// The levels of the tallest part.
    pub tallest: u32,
    ghost right: { tallest ≡ capped (levels_of_pairs (map pair_of pairs.items)) },
}

/// An end of a range with its levels, or 0 where it is missing.
#[derive(Drop)]
pub struct TallEnd {
    /// The end.
    pub bound: Bound<Box<Expr>>,
    /// Its levels.
    pub height: u32,
    ghost right: { height ≡ capped (end_height (end_of bound)) },
}

/// One level more.
pub fn deeper(height: u32) -> u32
    ensures { result ≡ capped (height + 1) }
{
    height.saturating_add(1)
}

impl Talls {
    /// No expressions.
    pub fn new(alloc: Global) -> Talls
        ensures { result.items.items ≡ [] }
    {
        Talls {
            items: Vec::new(alloc),
            tallest: 0,
        }
    }

    /// These expressions and one more.
    pub fn with(self, tree: Tall) -> Result<Talls, AllocError>
        ensures { IfOk result (λ a. map tree_of a.items.items ≡ map tree_of self.items.items ++ tree_of tree.expr.value ∷ []) }
    {
        let tallest = self.tallest.max(tree.height);
        let mut items = self.items;
        let one = Box::into_inner(tree.expr);
        items.push(one)?;
        Ok(Talls { items, tallest })
    }
}

impl TallPairs {
    /// No pairs.
    pub fn new(alloc: Global) -> TallPairs
        ensures { result.pairs.items ≡ [] }
    {
        TallPairs {
            pairs: Vec::new(alloc),
            tallest: 0,
        }
    }

    /// These pairs and one more.
    pub fn with(self, key: Tall, value: Tall) -> Result<TallPairs, AllocError>
        ensures { IfOk result (λ a. map pair_of a.pairs.items ≡ map pair_of self.pairs.items ++ (tree_of key.expr.value, tree_of value.expr.value) ∷ []) }
    {
        let tallest = self.tallest.max(key.height.max(value.height));
        let mut pairs = self.pairs;
        let first = Box::into_inner(key.expr);
        let second = Box::into_inner(value.expr);
        pairs.push((first, second))?;
        Ok(TallPairs { pairs, tallest })
    }
}

impl TallEnd {
    /// A missing end.
    pub fn open() -> TallEnd
        ensures { end_of result.bound ≡ Open }
    {
        TallEnd {
            bound: Bound::Open,
            height: 0,
        }
    }

    /// The end at this index.
    pub fn at(alloc: Global, edge: Edge, index: Tall) -> Result<TallEnd, AllocError>
        ensures { IfOk result (λ a. end_of a.bound ≡ At edge (tree_of index.expr.value)) }
    {
        Ok(TallEnd {
            bound: Bound::At(edge, index.expr),
            height: index.height,
        })
    }
}
