//! Lists of paths in order.
ghost use Rattle.std.specs.Prelude.{◌≡◌, false, IfErr, IfOk, OnErr, OnOk, [], map, not, string_bytes};
ghost use Rattle.lp_files.specs.Paths.{IsAt, IsGapFor, IsRising, lists, path_cmp, with_path, without_path};

use std::alloc::{AllocError, Global};
use std::cmp::Ordering;
use std::marker::Model;

/// Paths in rising order of their bytes, each once.
#[derive(Drop)]
pub struct Paths {
    paths: Vec<String>,
}

impl Model for Paths {
    ghost use Rattle.std.specs.Prelude.{List, map, string_bytes, ℕ};

    ghost Value = { List (List ℕ) };

    ghost view = { λ p. map string_bytes p.paths.items };

    ghost use Rattle.lp_files.specs.Paths.{IsRising};

    ghost invariant = { λ p. IsRising (map string_bytes p.paths.items) };
}

impl Paths {
    /// No paths. Takes no memory.
    pub fn new(alloc: Global) -> Paths
        ensures { result ≡ [] }
    {
        Paths {
            paths: Vec::new(alloc),
        }
    }

    /// The paths.
    pub fn as_slice(&self) -> &[String]
        ensures all { map string_bytes result.now ≡ self.now }
        ensures rising { IsRising self.now }
    {
        &self.paths
    }

    // Where a path is, or where it would go.
    fn place(&self, path: &str) -> Result<usize, usize>
        ensures found { IfOk result (λ i. IsAt path.now self.now i) }
        ensures gap { IfErr result (λ i. IsGapFor path.now self.now i) }
    {
        self.paths.binary_search_by(
            |own: &String| -> Ordering
                ensures { result ≡ path_cmp (string_bytes own.now) path.entry.now }
            { own.as_str().cmp(&path) },
        )
    }

    /// Puts a path in, and tells whether it was not there.
    pub fn add(&mut self, alloc: Global, path: &str) -> Result<bool, AllocError>
        ensures ok { OnOk result (self.new ≡ with_path path.now self.old) }
        ensures fresh { IfOk result (λ b. b ≡ not (lists path.now self.old)) }
        ensures there { IfOk result (λ b. b ≡ false → self.new ≡ self.old) }
        ensures err { OnErr result (self.new ≡ self.old) }
    {
        match self.place(path) {
            Ok(_) => Ok(false),
            Err(i) => {
                let own = String::from_str(alloc, path)?;
                self.paths.insert(i, own)?;
                Ok(true)
            }
        }
    }

    /// Takes a path out, if it is there. Takes no memory.
    pub fn remove(&mut self, path: &str)
        ensures { self.new ≡ without_path path.now self.old }
    {
        if let Ok(i) = self.place(path) {
            self.paths.remove(i);
        }
    }
}
