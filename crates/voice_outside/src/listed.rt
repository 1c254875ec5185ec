//! The calls that a fake was told to fail.

ghost use Rattle.std.specs.Prelude.{ℕ, ◌≡◌, ◌≤◌, ◌+◌, ◌↔◌, Contains, if◌then◌else◌, true};
ghost use Rattle.voice_outside.specs.Counters.{next_count, HasRisen};

// Counts a call, and a fault where its number is listed. Whether it is.
pub fn next_call_fails(fails: &[u64], calls: &mut u64, faults: &mut u64) -> bool
    ensures calls { calls.new ≡ next_count calls.old }
    ensures listed { result ≡ true ↔ Contains fails.now (next_count calls.old) }
    ensures faults { faults.new ≡ (if result then next_count faults.old else faults.old) }
    ensures later { faults.old ≤ faults.new }
    ensures rose { result ≡ true → HasRisen faults.old faults.new }
{
    *calls = calls.saturating_add(1);
    let listed = fails.contains(calls);
    if listed {
        *faults = faults.saturating_add(1);
    }
    listed
}
