// What can still be read once the first k have been read.
ghost use Rattle.std.specs.Prelude.{◌≡◌, ◌++◌, map, ◌+◌, ◌-◌, ◌≤◌, length, take, get_or};
ghost use Rattle.limits.specs.Limits.{max_vectors};
ghost use Rattle.order.specs.Pair.{sort, ranked, numbers_of, count_from};
ghost use Rattle.order.specs.Pairs.{pair, pairs_of, keys_of};
ghost use Rattle.order.specs.Rank.{key_at, ranking};
ghost use Rattle.selection.specs.Reading.{least_pair};
ghost use Rattle.selection.specs.Candidates.{candidates, is_candidate, numbers_passing};
ghost use Rattle.least_reading.specs.Selected.{most_selected};

use best_pairs::is_candidate;

// So many of the first are selected, more are found by ranking all.
pub(crate) const SELECTED: usize = 16;

// The numbers of the least lows, least first, as many as `first` has room for, in the reading order; the last one's low.
pub(crate) fn select_first(lows: &[u64], first: &mut [u32], least: &mut [u64]) -> u64
    requires { (1 ≤ length first.old) × (length first.old ≤ most_selected) × (length first.old ≤ length lows.now)
        × (length lows.now ≤ max_vectors) × (length least.old ≡ length first.old) }
    ensures value { result ≡ key_at lows.now (get_or (ranking lows.now) (length first.old - 1) 0) }
    ensures first_after { first.new ≡ take (length first.old) (ranking lows.now) }
{
    let k = first.len();
    let mut room = [0u64; SELECTED];
    // Nothing refuses: at least as many lows are there as are selected, and the room is as long as the selection.
    let _ = least::select(lows, first, least, &mut room[..k]);
    least[k - 1]
}

// Sorts few pairs of keys and numbers.
pub(crate) fn sort_few(keys: &mut [u64], numbers: &mut [u32])
    requires { (1 ≤ length keys.old) × (length keys.old ≤ most_selected) × (length numbers.old ≡ length keys.old) }
    ensures keys_after { keys.new ≡ keys_of (sort (pairs_of keys.old numbers.old)) }
    ensures numbers_after { numbers.new ≡ numbers_of (sort (pairs_of keys.old numbers.old)) }
{
    let k = keys.len();
    let mut room = [0u64; SELECTED];
    // Nothing refuses: the three lengths are equal.
    let _ = sorting::sort(keys, numbers, &mut room[..k]);
}

// Ranks the numbers that can still be read once the first k have been, behind these in `order`, and their lows from the front on; how many
// they are. The last of the first has the low `last`, and the k-th best stands last in `best` and at its place in `words`, whose rest is
// room.
pub(crate) fn rank_candidates(
    last: u64,
    lows: &mut [u64],
    order: &mut [u32],
    words: &mut [u64],
    best: &[u32],
) -> usize
    requires in_bounds { (1 ≤ length best.now) × (length best.now ≤ length lows.old) × (length lows.old ≤ max_vectors)
        × (length order.old ≡ length lows.old) × (length words.old ≡ length lows.old) }
    requires least_pair_value { let k = length best.now in
        get_or (ranked (key_at lows.old) (count_from 0 (length lows.old))) (k - 1) least_pair ≡ pair last (get_or order.old (k - 1) 0) }
    ensures { let k = length best.now in let lows₀ = lows.old in
        let all = candidates k (ranked (key_at lows₀) (count_from 0 (length lows₀)))
        (pair (get_or words.old (k - 1) 0) (get_or best.now (k - 1) 0)) in
        (result ≡ length all) × (take result lows.new ≡ keys_of all)
        × (take (k + result) order.new ≡ take k order.old ++ numbers_of all)
        × (take k words.new ≡ take k words.old) }
{
    let k = best.len();
    let number = order[k - 1];
    let count = gather(
        last,
        number,
        words[k - 1],
        best[k - 1],
        lows,
        &mut order[k..],
    );
    // Nothing refuses: there are as many lows as numbers, and room for them behind the first k words.
    let _ = sorting::sort(
        &mut lows[..count],
        &mut order[k..k + count],
        &mut words[k..],
    );
    count
}

// Of the numbers from 0 on, as many as there are lows, those whose pair is below the bound and behind the last: their lows and they
// themselves, at the front of the two slices in the order of the numbers. Gives how many they are.
fn gather(
    last: u64,
    last_number: u32,
    bound: u64,
    bound_number: u32,
    lows: &mut [u64],
    numbers: &mut [u32],
) -> usize
    requires { (length lows.old ≤ max_vectors)
        × (length (numbers_passing (is_candidate (pair last last_number) (pair bound bound_number)) (key_at lows.old) (count_from 0 (length lows.old))) ≤ length numbers.old) }
    ensures { let all = numbers_passing (is_candidate (pair last last_number) (pair bound bound_number)) (key_at lows.old) (count_from 0 (length lows.old)) in
        (result ≡ length all) × (take result lows.new ≡ map (key_at lows.old) all) × (take result numbers.new ≡ all) }
{
    let mut count = 0;
    for i in 0..lows.len() {
        let low = lows[i];
        if is_candidate(last, last_number, bound, bound_number, low, i as u32) {
            lows[count] = low;
            numbers[count] = i as u32;
            count += 1;
        }
    }
    count
}
