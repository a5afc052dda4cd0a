//! How the kinds of refusals of scenarios are called.
ghost use Rattle.std.specs.Prelude.{◌≡◌};
ghost use Rattle.pr_input.specs.Kinds.{kind_name};

use pr_scen::ScenKind;

/// The name of a kind of refusal.
#[tactic(auto, unfolding(crate::specs::Kinds::kind_name))]
pub fn kind_name(kind: ScenKind) -> &'static [u8]
    ensures { result.now ≡ kind_name kind }
{
    match kind {
        ScenKind::TooLong => b"TooLong",
        ScenKind::NotAscii => b"NotAscii",
        ScenKind::UnknownWord => b"UnknownWord",
        ScenKind::BadOperand => b"BadOperand",
        ScenKind::UnknownName => b"UnknownName",
        ScenKind::Double => b"Double",
        ScenKind::TooMany => b"TooMany",
        ScenKind::TooBig => b"TooBig",
        ScenKind::NoEnd => b"NoEnd",
    }
}
