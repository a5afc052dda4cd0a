use pr_num::{Info, Sig};

/// A real-time signal that waits in a queue, with what came with it (sigqueue(3C)).
#[derive(Clone, Copy, Debug, PartialEq, Eq)]
pub struct Queued {
    pub signal: Sig,
    pub info: Info,
}

/// What lies in the places of a queue that are not in use.
impl Default for Queued {
    ghost use Rattle.std.specs.Prelude.{◌≡◌};
    ghost use Rattle.pr_num.specs.Infos.{no_info};
    ghost use Rattle.pr_num.specs.declared.signals.Sig.TheVariants.{Rt0};

    ghost is_default = { λ queued. queued ≡ record { signal = Rt0; info = no_info } };

    fn default() -> Queued {
        Queued {
            signal: Sig::Rt0,
            info: Info::none(),
        }
    }
}
