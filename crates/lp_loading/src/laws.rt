//! Laws of what reading a file leads to. Each has a clause and nothing to do.
ghost use Rattle.lp_loading.specs.Readings.{FaultyEnds, MissingGoesOn, SoundGoesOn};

/// The faults of a file end the load.
pub fn law_faulty_ends()
    ensures { FaultyEnds }
{}

/// A load goes on with the parent that is missing.
pub fn law_missing_goes_on()
    ensures { MissingGoesOn }
{}

/// A load goes on with the version of a file without faults.
pub fn law_sound_goes_on()
    ensures { SoundGoesOn }
{}
