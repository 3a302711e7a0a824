//! Laws of steps: sound code meets what a step asks, and each step leaves what the next one asks, and less to do.
#![tactic(auto)]

ghost use Rattle.lp_step_laws.specs.Running.{SoundCodeCanStep, SoundCodeGoesOn, SoundCodeRunsOn};

/// A function of a sound program, whose frame matches a moment of the machine, with a closed state and with its object in
/// memory, may take its next step.
pub fn sound_code_can_step()
    ensures { SoundCodeCanStep }
{}

/// Each of its steps leaves a frame that matches what the instruction table leads to, in the one shape of that place,
/// with a closed state, with its object still in memory, and with less to do.
pub fn sound_code_goes_on()
    ensures { SoundCodeGoesOn }
{}

/// Where the code goes on, the function runs as it did before: it may take its next step, and there is less to do.
pub fn sound_code_runs_on()
    ensures { SoundCodeRunsOn }
{}
