//! The labels of a switch.
ghost use Rattle.std.specs.Prelude.{◌≡◌, [], OnOk};
ghost use Rattle.lp_types.specs.Labels.{Covers, HasMore, Knows, TellsLabel, is_met};
ghost use Rattle.lp_types.specs.Spans.{IsSummed};
ghost use Rattle.lp_types.specs.TypeFaults.{label_line};

use crate::found::tell;
use crate::names::NameSet;
use crate::spans::{Span, Tree, room};
use lp_tree::fault::FaultKind;
use lp_tree::stmt::{Constant, Label};
use lp_types_expr::fault::FaultAt;
use std::alloc::{AllocError, Global};
use std::mem;

/// The labels so far of a switch. Whether one meets another takes the time of one look-up.
#[derive(Drop)]
pub(crate) struct Labels {
    spans: Tree,
    texts: NameSet,
    has_default: bool,
}

impl Labels {
    /// No labels.
    pub(crate) fn new(alloc: Global) -> Labels
        ensures { Knows result [] }
    {
        Labels {
            spans: Tree::Leaf,
            texts: NameSet::new(alloc),
            has_default: false,
        }
    }

    /// Whether a label meets one of these.
    fn meets(&self, label: &Label) -> bool
        requires { IsSummed self.now.spans }
        ensures { result ≡ is_met self.now label.now }
    {
        match label {
            Label::Case { value, .. } => match value {
                Constant::Int(n) => self.spans.meets(&Span { from: *n, to: *n }),
                Constant::Text(text) => self.texts.has(text),
            },
            Label::Range { from, to, .. } => {
                if *to < *from {
                    return false;
                }
                self.spans.meets(&Span {
                    from: *from,
                    to: *to,
                })
            }
            Label::Default { .. } => self.has_default,
        }
    }

    // One span more.
    fn cover(&mut self, alloc: Global, span: Span) -> Result<(), AllocError>
        requires { IsSummed self.old.spans }
        ensures { OnOk result (Covers span self.old self.new) }
    {
        let spare = room(alloc)?;
        let spans = mem::replace(&mut self.spans, Tree::Leaf);
        self.spans = spans.with(spare, span, 1 << 63);
        Ok(())
    }

    // One label more.
    fn add(&mut self, alloc: Global, label: &Label) -> Result<(), AllocError>
        requires { IsSummed self.old.spans }
        ensures { OnOk result (HasMore label.now self.old self.new) }
    {
        match label {
            Label::Case { value, .. } => match value {
                Constant::Int(n) => {
                    self.cover(alloc, Span { from: *n, to: *n })?;
                    Ok(())
                }
                Constant::Text(text) => {
                    self.texts.add(alloc, text)?;
                    Ok(())
                }
            },
            Label::Range { from, to, .. } => {
                if *to < *from {
                    return Ok(());
                }
                let span = Span {
                    from: *from,
                    to: *to,
                };
                self.cover(alloc, span)?;
                Ok(())
            }
            Label::Default { .. } => {
                self.has_default = true;
                Ok(())
            }
        }
    }
}

// The line of a label.
fn line_of(label: &Label) -> u32
    ensures { result ≡ label_line label.now }
{
    match label {
        Label::Case { line, .. } => *line,
        Label::Range { line, .. } => *line,
        Label::Default { line } => *line,
    }
}

/// Adds the fault of a label that meets an earlier one, and then counts it among these.
pub(crate) fn label_faults(
    alloc: Global,
    labels: &mut Labels,
    label: &Label,
    faults: &mut Vec<FaultAt>,
) -> Result<(), AllocError>
    requires { IsSummed labels.old.spans }
    ensures { OnOk result (TellsLabel label.now labels.old labels.new faults.old.items faults.new.items) }
{
    let met = labels.meets(label);
    tell(faults, line_of(label), FaultKind::DoubleCase, met)?;
    labels.add(alloc, label)?;
    Ok(())
}
