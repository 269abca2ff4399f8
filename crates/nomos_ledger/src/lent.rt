//! Programs that are lent, also to threads.
ghost use Rattle.std.specs.Prelude.{◌≡◌};
ghost use Rattle.nomos_types.specs.Acceptance.{Acceptance};

use nomos_types::accepted::Accepted;

/// What lends an accepted program, as a reference does; contracts see it as `program`.
pub trait Lent: Send + Sync + Drop {
    ghost program: { Self → Acceptance };

    /// The program.
    fn accepted(&self) -> &Accepted
        ensures { result.now ≡ program self.now };

    /// The same program, lent once more.
    fn again(&self) -> Self
        ensures { program result ≡ program self.now };
}

impl<'a> Lent for &'a Accepted {
    ghost program = { λ accepted. accepted.now };

    fn accepted(&self) -> &Accepted {
        *self
    }

    fn again(&self) -> &'a Accepted {
        *self
    }
}
