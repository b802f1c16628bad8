ghost use Rattle.std.specs.Prelude.{◌≡◌, ◌≤◌};
ghost use Rattle.cd_outside.specs.Counts.{next};

use cd_outside::Failed;

/// Counts a fault.
pub fn failed(faults: &mut u64) -> Failed
    ensures next { faults.new ≡ next faults.old }
    ensures later { faults.old ≤ faults.new }
{
    *faults = faults.saturating_add(1);
    Failed
}
