//! What is loaded while a file is compiled.
ghost use Rattle.std.specs.Prelude.{◌≡◌, ◌∷◌, [], IfSome, Some};
ghost use Rattle.std.specs.Option.{option_map};
ghost use Rattle.lp_layout.specs.Layout.{AreInside};
ghost use Rattle.lp_front.specs.Settling.{own_version};
ghost use Rattle.lp_unit_laws.specs.Versions.{IsOfVersion};

use lp_code::names::Names2;
use lp_code::tables::Tables;
use lp_values::id::ProgId;

/// What a file that is compiled meets: the versions of the files that it inherits, as far as they are loaded, and the
/// functions of the simul-efun object.
pub trait Loaded {
    ghost use Rattle.std.specs.Prelude.{List, ℕ};
    ghost use Rattle.lp_compile.specs.Known.{Known};

    ghost known: { Self → Known };

    ghost simuls: { Self → List (List ℕ) };

    /// The version of a file with its tables, or None where it is not loaded. The version is the last part of its tables, which
    /// are those of a version of files without faults, as `compile` gives them. Takes no memory.
    fn parent(&self, path: &str) -> Option<(ProgId, &Tables)>
        ensures known { option_map (λ p. p.1.now) result ≡ known self.now path.now }
        ensures version { IfSome result (λ p. own_version p.1.now ≡ Some p.0) }
        ensures inside { IfSome result (λ p. AreInside (p.1.now ∷ [])) }
        ensures of { IfSome result (λ p. IsOfVersion p.1.now) };

    /// The names of the functions of the simul-efun object. Takes no memory.
    fn simul(&self) -> &Names2
        ensures { result.now ≡ simuls self.now };
}
