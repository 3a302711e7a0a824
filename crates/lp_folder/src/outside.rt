//! Files outside, with what each call promises.
ghost use Rattle.std.specs.Prelude.{◌≡◌, ◌≤◌, ℕ, List, Option, IfOk, OnOk, OnErr, Some, None};
ghost use Rattle.lp_io.specs.Counts.{Counts};
ghost use Rattle.lp_folder.specs.Held.{ArePaths, Held, HoldsAll, HoldsBut, HoldsWith, is_failed};

use lp_events::octets::Octets;
use lp_tree::path::FilePath;

/// Why files were not read or written.
#[derive(Debug, Clone, Copy, PartialEq, Eq)]
pub enum FilesError {
    /// They failed.
    Failed,
    /// There was no memory.
    NoMemory,
}

/// A file: its path and its bytes.
#[derive(Debug, Drop)]
pub struct Loaded {
    /// Its path.
    pub path: FilePath,
    /// Its bytes.
    pub bytes: Octets,
}

/// Files by their paths. They count their faults; the count never falls, and stands still at `u64::MAX`. They tell what they hold, or
/// nothing: a form in memory tells it, a folder does not. Files that tell may stop telling, and then never tell again.
pub trait Files {
    ghost use Rattle.lp_folder.specs.Held.{Held};

    ghost faults: { Self → ℕ };

    ghost held: { Self → Option Held };

    /// All files whose paths are paths of a script, by rising path. It fails only where the count of faults rises.
    fn load_all(&mut self) -> Result<Vec<Loaded>, FilesError>
        ensures all { IfOk result (λ files. HoldsAll files.items (held self.old)) }
        ensures paths { IfOk result (λ files. ArePaths files.items) }
        ensures kept { held self.new ≡ held self.old }
        ensures faults { Counts (is_failed result) (faults self.old) (faults self.new) }
        ensures no_fall { faults self.old ≤ faults self.new };

    /// The bytes of a file. It fails only where the count of faults rises, as it does where there is no such file.
    fn read(&mut self, path: &str) -> Result<Octets, FilesError>
        ensures bytes { IfOk result (λ bytes. (h : Held) → held self.old ≡ Some h → h path.now ≡ Some bytes) }
        ensures kept { held self.new ≡ held self.old }
        ensures faults { Counts (is_failed result) (faults self.old) (faults self.new) }
        ensures no_fall { faults self.old ≤ faults self.new };

    /// Writes a file, whether it is there or not. It fails only where the count of faults rises; then, and where memory is wanting, nothing is
    /// known of that file.
    fn write(&mut self, path: &str, bytes: &[u8]) -> Result<(), FilesError>
        ensures ok { OnOk result (HoldsWith path.now (Some bytes.now) (held self.old) (held self.new)) }
        ensures err { OnErr result (HoldsBut path.now (held self.old) (held self.new)) }
        ensures faults { Counts (is_failed result) (faults self.old) (faults self.new) }
        ensures no_fall { faults self.old ≤ faults self.new };

    /// Removes a file, if it is there. It fails only where the count of faults rises; then, and where memory is wanting, nothing is known of
    /// that file.
    fn remove(&mut self, path: &str) -> Result<(), FilesError>
        ensures ok { OnOk result (HoldsWith path.now None (held self.old) (held self.new)) }
        ensures err { OnErr result (HoldsBut path.now (held self.old) (held self.new)) }
        ensures faults { Counts (is_failed result) (faults self.old) (faults self.new) }
        ensures no_fall { faults self.old ≤ faults self.new };
}
