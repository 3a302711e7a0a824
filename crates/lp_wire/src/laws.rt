//! What the definitions of wires come to.
ghost use Rattle.lp_wire.specs.WireText.{TextsAreOutputs};

/// The text of a connection is the bytes of the outputs for it, in order, up to the driver's close.
#[tactic(auto, using(crate::proofs::Texts::texts_hold))]
pub fn texts_are_outputs()
    ensures { TextsAreOutputs }
{}
