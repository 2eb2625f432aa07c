// A count of steps.
ghost use Rattle.std.specs.Prelude.{◌≡◌, ℕ};
ghost use Rattle.xa_io.specs.Causes.{counted};

use crate::counts::count_up;
use std::marker::{Model, PhantomData};

/// Counts the steps of a call, so that its contract can say how many it took. `L` marks whose ledger it is.
///
/// A count that stands at the last value of a `u64` stays there.
#[derive(Drop)]
pub struct Steps<L> {
    count: u64,
    ledger: PhantomData<L>,
}

impl<L> Model for Steps<L> {
    ghost Value = { ℕ };

    ghost view = { λ s. s.count };
}

impl<L> Steps<L> {
    /// No step yet.
    pub fn new() -> Steps<L>
        ensures { result ≡ 0 }
    {
        Steps {
            count: 0,
            ledger: PhantomData,
        }
    }

    /// One step more.
    pub fn tick(&mut self)
        ensures { self.new ≡ counted self.old 1 }
    {
        self.count = count_up(self.count, 1);
    }
}
