ghost use Rattle.std.specs.Prelude.{◌≡◌};
ghost use Rattle.pr_model.specs.Order.{is_after};

/// Whether the lwp `x` comes after the lwp `after`: by process, and then by lwp. Each comes after none. Both are the
/// ids of a process and of its lwp.
#[tactic(auto, unfolding(crate::specs::Order::is_after))]
pub fn is_after(after: Option<(u32, u32)>, x: (u32, u32)) -> bool
    ensures { result ≡ is_after after x }
{
    match after {
        None => true,
        Some((pid, lwp)) => pid < x.0 || (pid == x.0 && lwp < x.1),
    }
}
