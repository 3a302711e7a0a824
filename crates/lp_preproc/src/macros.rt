//! Macros.
ghost use Rattle.std.specs.Prelude.{◌≡◌, IfOk};

use crate::params::Params;
use lp_tree::token::TokenKind;
use std::alloc::{AllocError, Global};
use std::marker::Model;
use std::rc::Rc;

/// The tokens of a macro's body, without their places. Copies share their memory.
#[derive(Debug, Drop)]
pub struct Kinds {
    kinds: Rc<Vec<TokenKind>>,
}

impl Model for Kinds {
    ghost use Rattle.std.specs.Prelude.{List};
    ghost use Rattle.lp_tree.specs.declared.token.TokenKind.{TokenKind};

    ghost Value = { List TokenKind };

    ghost view = { λ k. k.kinds.value.items };
}

impl Kinds {
    /// These tokens.
    pub fn from_vec(alloc: Global, kinds: Vec<TokenKind>) -> Result<Kinds, AllocError>
        ensures { IfOk result (λ k. k ≡ kinds.items) }
    {
        Ok(Kinds {
            kinds: Rc::new(alloc, kinds)?,
        })
    }

    /// The tokens.
    pub fn as_slice(&self) -> &[TokenKind]
        ensures { result.now ≡ self.now }
    {
        self.kinds.as_slice()
    }

    /// The same tokens, in the same memory.
    pub fn copy(&self) -> Result<Kinds, AllocError>
        ensures { IfOk result (λ k. k ≡ self.now) }
    {
        Ok(Kinds {
            kinds: self.kinds.clone()?,
        })
    }
}

/// What stands for a macro's name.
#[derive(Debug, Drop)]
pub enum Body {
    /// Tokens, parameters among them.
    Tokens(Kinds),
    /// The path of the file that is compiled, as a text.
    File,
    /// The line of the use in it.
    Line,
    /// Its folder, as a text.
    Folder,
}

impl Body {
    /// The same body.
    pub fn copy(&self) -> Result<Body, AllocError>
        ensures { IfOk result (λ b. b ≡ self.now) }
    {
        Ok(match self {
            Body::Tokens(kinds) => Body::Tokens(kinds.copy()?),
            Body::File => Body::File,
            Body::Line => Body::Line,
            Body::Folder => Body::Folder,
        })
    }
}

/// A macro.
#[derive(Debug, Drop)]
pub struct Macro {
    /// The parameters of a macro that was defined with parentheses.
    pub params: Option<Params>,
    /// What stands for it.
    pub body: Body,
}
