//! A value for each packet number space.
use crate::space::Space;

/// A value for each packet number space.
#[derive(Clone, Copy, Drop)]
pub struct PerSpace<T> {
    /// That of the Initial space.
    pub initial: T,
    /// That of the Handshake space.
    pub handshake: T,
    /// That of the application data space.
    pub app: T,
}

impl<T> PerSpace<T> {
    ghost use Rattle.std.specs.Prelude.{◌≡◌};
    ghost use Rattle.std.specs.Borrow.{Lends, sem};
    ghost use Rattle.qa_base.specs.values.PerSpace.{of_space, with_space};
    ghost use Rattle.qa_base.specs.contracts.per_space.PerSpace.{the_row};

    /// That of a space.
    pub fn of(&self, space: Space) -> &T
        ensures { result.now ≡ of_space space self.now }
    {
        match space {
            Space::Initial => &self.initial,
            Space::Handshake => &self.handshake,
            Space::App => &self.app,
        }
    }

    /// That of a space, to be changed.
    pub fn of_mut(&mut self, space: Space) -> &mut T
        ensures* writes_back { sem 𝓛
            (Lends (the_row T.row) T.row self.entry result (with_space space self.old)) }
        ensures value { result.now ≡ of_space space self.old }
    {
        match space {
            Space::Initial => &mut self.initial,
            Space::Handshake => &mut self.handshake,
            Space::App => &mut self.app,
        }
    }
}
