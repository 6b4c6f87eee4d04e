// The ids `policy0`, `policy1`, .. of a policy set.
ghost use Rattle.std.specs.Prelude.{◌≡◌, ◌≢◌, ◌≤◌, ◌<◌, ◌^◌, ℕ, length, IfOk, IsTrue, Some, true};
ghost use Rattle.cedar_grammar.specs.Syntax.{numbered};
ghost use Rattle.cedar_policy_set.specs.Entries.{is_bound};
ghost use Rattle.cedar_policy_set.specs.Bounds.{entries_of};
ghost use Rattle.cedar_policy_set.specs.Numbers.{BindsNumbers};

use crate::bounds::Bound;
use crate::policy_map::PolicyMap;
use cedar_policy_parts::PolicyID;
use std::alloc::{AllocError, Global};
use std::collections::BTreeSet;

// Which of these ids count as bound, so that a free one is found without a look at each below it.
#[derive(Debug, Drop)]
pub(crate) struct Numbers {
    // each number below this one counts, but for the freed ones
    below: u64,
    // numbers whose ids were taken away, of which some may be bound again
    freed: BTreeSet<u64>,
}

impl Numbers {
    ghost use Rattle.cedar_policy_set.specs.Numbers.{Counts, AreBound};

    // No number counts; takes no memory.
    pub(crate) fn new(alloc: Global) -> Numbers
        ensures { result.below ≡ 0 }
    {
        Numbers {
            below: 0,
            freed: BTreeSet::new(alloc),
        }
    }

    // The first number from this one on that doesn't count.
    pub(crate) fn next(&self, from: u64) -> u64
        ensures from { from ≤ result }
        ensures passed { (k : ℕ) → from ≤ k → k < result → Counts self.now k }
    {
        if from >= self.below {
            return from;
        }
        match self.freed.range(from..).next() {
            Some(number) => self.below.min(*number),
            None => self.below,
        }
    }

    // An id is taken away, whose number counts no longer.
    pub(crate) fn take_away(&mut self, id: &PolicyID)
        ensures { (k : ℕ) → Counts self.new k → (id.now ≢ numbered k) × Counts self.old k }
    {
        let below = self.below;
        match number_of(id) {
            Some(number) if number < below => self.free(number),
            _ => {}
        }
    }

    // The number counts no longer. Without memory to tell, no number from it on does.
    fn free(&mut self, number: u64)
        requires { number < self.old.below }
        ensures { (k : ℕ) → Counts self.new k → (k ≢ number) × Counts self.old k }
    {
        if self.freed.insert(number).is_err() {
            self.below = number;
        }
    }

    // Ids were bound, whose numbers count as far as no lower one is free.
    pub(crate) fn advance(&mut self, bound: &PolicyMap<Bound>)
        requires { AreBound (entries_of bound.now) self.old }
        ensures { AreBound (entries_of bound.now) self.new }
    {
        while self.refill(bound) {}
        self.below = counted(bound, self.below);
    }

    // Whether the least of the freed numbers is seen to be bound again, and so counts.
    fn refill(&mut self, bound: &PolicyMap<Bound>) -> bool
        requires { AreBound (entries_of bound.now) self.old }
        ensures bound { AreBound (entries_of bound.now) self.new }
        ensures fewer { IsTrue result → length self.new.freed.keys < length self.old.freed.keys }
    {
        match self.freed.first() {
            Some(number) if binds(bound, *number) => {
                let number = *number;
                self.freed.remove(&number)
            }
            _ => false,
        }
    }
}

/// The id of this number: `policy0`, `policy1`, ..; refused for memory alone.
pub fn numbered_id(alloc: Global, number: u64) -> Result<PolicyID, AllocError>
    ensures { IfOk result (λ id. id ≡ numbered number) }
{
    let text = format!(in alloc; "policy{number}")?;
    PolicyID::from_string(alloc, text.as_str())
}

// The first number from this one on whose id isn't bound; an earlier one where there is no memory to look.
fn counted(bound: &PolicyMap<Bound>, from: u64) -> u64
    ensures { BindsNumbers (entries_of bound.now) from result }
{
    for number in from..u64::MAX {
        if !binds(bound, number) {
            return number;
        }
    }
    u64::MAX
}

// Whether this number's id is seen to be bound, for which there may be no memory.
fn binds(bound: &PolicyMap<Bound>, number: u64) -> bool
    ensures { IsTrue result → is_bound (entries_of bound.now) (numbered number) ≡ true }
{
    match numbered_id(*bound.allocator(), number) {
        Ok(id) => bound.contains_key(&id),
        Err(_) => false,
    }
}

// The number of an id `policyN`.
fn number_of(id: &PolicyID) -> Option<u64>
    ensures { (k : ℕ) → k < 2 ^ 64 → id.now ≡ numbered k → result ≡ Some k }
{
    let digits = id.as_str().strip_prefix("policy")?;
    digits.parse::<u64>().ok()
}
