ghost use Rattle.std.specs.Prelude.{◌≡◌};
ghost use Rattle.pr_world.specs.Controllers.{wait_end_of};

use pr_model::Call;

/// The moment at which the wait of a call ends in any case; 0 sets no end.
pub fn wait_end_of(call: &Call) -> u64
    ensures { result ≡ wait_end_of call.now }
{
    match call {
        Call::CtlWait { until, .. } => *until,
        Call::Until { moment } => *moment,
        _ => 0,
    }
}
