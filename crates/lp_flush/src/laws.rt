//! What tries to write changed files come to. Each function has a clause and nothing to do.
ghost use Rattle.lp_flush.specs.Laws.{ChangedFilesAreKept};

/// Where the files tell what they hold, behind the tries a file that was tried and is no longer on the list of changes is outside as it is in
/// the store, and one that was not tried is as it was. Where one stays on the list, the count of faults rose.
#[tactic(auto, using(crate::proofs::Kept::changed_kept))]
pub fn changed_files_are_kept()
    ensures { ChangedFilesAreKept }
{}
