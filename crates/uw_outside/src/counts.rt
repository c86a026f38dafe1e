// Counts of calls and of faults, which stay at the last value of their type.
ghost use Rattle.std.specs.Prelude.{◌≡◌, ◌↔◌, IsTrue, true};
ghost use Rattle.uw_outside.specs.Counts.{next_count, IsListed};
ghost use Rattle.uw_outside.specs.Faults.{HasCause};

/// Counts a call, and says whether it is listed. A call past the last number of the type is not.
pub fn count_call(calls: &mut u64, listed: &[u64]) -> bool
    ensures counted { calls.new ≡ next_count calls.old }
    ensures listed { IsTrue result ↔ IsListed listed.now calls.old }
{
    match calls.checked_add(1) {
        Some(number) => {
            *calls = number;
            listed.contains(&number)
        }
        None => false,
    }
}

/// Counts a fault.
pub fn count_fault(faults: &mut u64)
    ensures counted { faults.new ≡ next_count faults.old }
    ensures cause { HasCause faults.old faults.new true }
{
    *faults = faults.saturating_add(1);
}
