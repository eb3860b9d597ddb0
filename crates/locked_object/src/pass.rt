ghost use Rattle.std.specs.Prelude.{◌≡◌, ◌<◌};
ghost use Rattle.recorded_calls.specs.Seats as seats;

/// One caller: the calls that it has made, and the history that it has seen.
#[derive(Drop)]
pub struct Pass<D, C, R> {
    pub(crate) seat: recorded_calls::Pass<D, C, R>,
    pub(crate) number: u32,
    ghost numbered: { number ≡ seats.number seat },
    ghost few: { number < 16 },
}

impl<D, C, R> Pass<D, C, R> {
    ghost use Rattle.locked_object.specs.Passes.{number};

    /// Its number, from 0.
    pub fn number(&self) -> u32
        ensures { result ≡ number self.now }
    {
        self.number
    }
}
