// Ids that rise in a few runs, as numbered ones do: those of one figure, then those of two.
ghost use Rattle.std.specs.Prelude.{◌≡◌, ◌≤◌, ◌<◌, length, IsTrue};
ghost use Rattle.std.specs.List.Sorted.{IsPermutation, IsStrictlySortedBy};
ghost use Rattle.std.specs.Ordering.{is_lt};
ghost use Rattle.cedar_world.specs.Orders.{text_cmp};

use cedar_policy_parts::PolicyID;

/// More ids than these aren't moved into the next run.
const MOST: usize = 64;

/// Whether each id stands behind the one before it.
pub(crate) fn rise(ids: &[PolicyID]) -> bool
    ensures { IsTrue result → IsStrictlySortedBy text_cmp ids.now }
{
    ids.is_sorted_by(
        |one: &PolicyID, next: &PolicyID| -> bool
            ensures { result ≡ is_lt (text_cmp one.now next.now) }
        { one.cmp(next).is_lt() },
    )
}

/// Where the run ends that begins here.
fn run_end(ids: &[PolicyID], from: usize) -> usize
    requires { from < length ids.now }
    ensures further { from < result }
    ensures within { result ≤ length ids.now }
{
    let mut end = from + 1;
    while end < ids.len() && ids[end - 1] < ids[end] {
        end += 1;
    }
    end
}

/// Moves the first of these ids to its place among the others.
fn settle_first(ids: &mut [PolicyID])
    ensures len { length ids.new ≡ length ids.old }
    ensures same { IsPermutation ids.old ids.new }
{
    let Some((first, others)) = ids.split_first() else {
        return;
    };
    let place = others.partition_point(|id| id < first);
    ids[..place + 1].rotate_left(1);
}

/// Merges two runs, of which the second begins here: each id of the first moves to its place in the second.
fn merge(ids: &mut [PolicyID], from: usize)
    requires { from ≤ length ids.old }
    ensures len { length ids.new ≡ length ids.old }
    ensures same { IsPermutation ids.old ids.new }
{
    let mut left = from;
    while left > 0 {
        left -= 1;
        settle_first(&mut ids[left..]);
    }
}

/// Merges runs from the first on, as long as what is merged is short and the next run no shorter.
pub(crate) fn merge_runs(ids: &mut [PolicyID])
    ensures len { length ids.new ≡ length ids.old }
    ensures same { IsPermutation ids.old ids.new }
{
    let mut from = 0;
    while from < ids.len() && from <= MOST {
        let end = run_end(&*ids, from);
        if end - from < from {
            return;
        }
        merge(&mut ids[..end], from);
        from = end;
    }
}
