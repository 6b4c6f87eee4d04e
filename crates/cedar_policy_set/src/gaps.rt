// Places in a row that closes up.
ghost use Rattle.std.specs.Prelude.{◌≡◌, ◌<◌, ◌+◌, ◌^◌, ℕ, [], true, length, OnOk, OnErr};
ghost use Rattle.std.specs.List.Sorted.{IsNonDecreasing};
ghost use Rattle.cedar_policy_set.specs.ClosedPlaces.{position_of, closed_up, AreTakenOnce, AreBefore};

use std::alloc::{AllocError, Global};

// Places that were taken out of a row of them. Each other place keeps its number, and the position at which it
// stands is told by how many are taken out before it.
pub(crate) struct Gaps {
    // in rising order
    taken: Vec<usize>,
    ghost rising: { IsNonDecreasing taken.items },
    ghost once: { AreTakenOnce taken.items },
}

// Written by hand, so that a function which may return early lets go of them by a call.
impl Drop for Gaps {
    fn drop(self) {
        let Gaps { taken: _taken } = self;
    }
}

impl Gaps {
    ghost use Rattle.cedar_policy_set.specs.ScopeFinding.{is_listed};

    // No place is taken out; takes no memory.
    pub(crate) fn new(alloc: Global) -> Gaps
        ensures { result.taken.items ≡ [] }
    {
        Gaps {
            taken: Vec::new(alloc),
        }
    }

    // How many places are taken out.
    pub(crate) fn len(&self) -> usize
        ensures { result ≡ length self.now.taken.items }
    {
        self.taken.len()
    }

    // The positions at which these places stand. One that was taken out stands where the next one does.
    pub(crate) fn positions(&self, mut places: Vec<usize>) -> Vec<usize>
        ensures { (t : ℕ) → is_listed places.items t ≡ true → is_listed result.items (position_of self.now.taken.items t) ≡ true }
    {
        if !self.taken.is_empty() {
            for place in places.iter_mut() {
                *place = self.position(*place);
            }
        }
        places
    }

    // The place that stands at a position.
    pub(crate) fn place(&self, position: usize) -> usize
        requires { position < 2 ^ 63 }
        ensures here { position_of self.now.taken.items result ≡ position }
        ensures next { position_of self.now.taken.items (result + 1) ≡ position + 1 }
    {
        let last = position + self.taken.len();
        if self.position(last) <= position {
            return last;
        }
        let mut low = position;
        let mut high = last;
        while high - low > 1 {
            let middle = low + (high - low) / 2;
            if self.position(middle) <= position {
                low = middle;
            } else {
                high = middle;
            }
        }
        low
    }

    // Takes out the place that stands at a position: those behind it move up. Refused for memory alone, and
    // nothing is then taken out.
    pub(crate) fn take_out(&mut self, position: usize) -> Result<(), AllocError>
        requires { position < 2 ^ 63 }
        ensures closed { OnOk result ((t : ℕ) → position_of self.new.taken.items t ≡ closed_up position (position_of self.old.taken.items t)) }
        ensures err { OnErr result (self.new.taken.items ≡ self.old.taken.items) }
    {
        let place = self.place(position);
        let before = self.before(place);
        self.taken.insert(before, place)?;
        Ok(())
    }

    // The position at which a place stands.
    pub(crate) fn position(&self, place: usize) -> usize
        ensures { result ≡ position_of self.now.taken.items place }
    {
        place - self.before(place)
    }

    // How many of the places that are taken out are below this one.
    fn before(&self, place: usize) -> usize
        ensures { AreBefore self.now.taken.items place result }
    {
        self.taken.partition_point(|taken| *taken < place)
    }
}
