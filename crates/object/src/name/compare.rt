//! Whether two names are one.
ghost use Rattle.std.specs.Prelude.{◌≡◌, Decides};

use crate::name::Name;

impl Name {
    /// Whether two names are one.
    #[tactic(auto, using(crate::proofs::Stored::name_decides))]
    pub fn same(&self, other: &Name) -> bool
        ensures { Decides result (self.now ≡ other.now) }
    {
        self == other
    }
}
