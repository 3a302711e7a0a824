//! Outputs of a turn.
ghost use Rattle.std.specs.Prelude.{◌≡◌, ◌++◌, ◌∷◌, [], OnOk, OnErr};
ghost use Rattle.lp_events.specs.declared.out.Out.{Out as O};

use lp_values::text::Text;
use std::alloc::{AllocError, Global};
use std::marker::Model;

/// What the driver gives out. Connections are named by their numbers.
#[derive(Debug, Drop)]
pub enum Out {
    /// A text to a connection.
    Text(u32, Text),
    /// The input of a connection is hidden.
    Hide(u32),
    /// It is shown again.
    Show(u32),
    /// The driver closes a connection.
    Close(u32),
    /// A log record.
    Log(Text),
}

/// The outputs of one turn, in order.
#[derive(Debug, Drop)]
pub struct Outs {
    outs: Vec<Out>,
}

impl Model for Outs {
    ghost use Rattle.std.specs.Prelude.{List};
    ghost use Rattle.lp_events.specs.declared.out.Out.{Out};

    ghost Value = { List Out };

    ghost view = { λ o. o.outs.items };
}

impl Outs {
    /// No outputs. Takes no memory.
    pub fn new(alloc: Global) -> Outs
        ensures { result ≡ [] }
    {
        Outs {
            outs: Vec::new(alloc),
        }
    }

    /// One more output, the last. Where memory is wanting nothing changes.
    pub fn push(&mut self, out: Out) -> Result<(), AllocError>
        ensures ok { OnOk result (self.new ≡ self.old ++ out ∷ []) }
        ensures err { OnErr result (self.new ≡ self.old) }
    {
        self.outs.push(out)?;
        Ok(())
    }

    /// The outputs, in order.
    pub fn as_slice(&self) -> &[Out]
        ensures { result.now ≡ self.now }
    {
        self.outs.as_slice()
    }
}
