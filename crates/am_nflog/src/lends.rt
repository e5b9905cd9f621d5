//! `Lends`: what an alert of a row can be compared with. So a caller that has the alerts inside of
//! larger things makes no list of them.
ghost use Rattle.std.specs.Prelude.{◌≡◌};

/// What has an alert inside, and lends it.
pub trait Lends<N> {
    /// The alert.
    ghost lent: { Self → N };

    /// Lends the alert.
    fn lend(&self) -> &N
        ensures { result.now ≡ lent self.now };
}

impl<N> Lends<N> for &N {
    ghost lent = { λ r. r.now };

    fn lend(&self) -> &N {
        &**self
    }
}
