//! What lends the register.
ghost use Rattle.std.specs.Prelude.{◌≡◌};
ghost use Rattle.boxcar.specs.Table.{Shelves};

use live_store::ArticleLog;

/// What lends the register: in the program the register itself. What threads share is a type that
/// takes this as a parameter, since a struct that names the register isn't found to be one that
/// threads may share.
pub trait RegisterRef {
    /// The register that it lends.
    ghost lent: { Self → Shelves };

    /// The register.
    fn register(&self) -> &ArticleLog
        ensures { result.now ≡ lent self.now };
}

impl RegisterRef for ArticleLog {
    ghost lent = { λ register. register };

    fn register(&self) -> &ArticleLog {
        self
    }
}
