ghost use Rattle.std.specs.Prelude.{◌≡◌};
ghost use Rattle.pr_rec.specs.Fields.{front_words};
ghost use Rattle.pr_tools.specs.Texts.{name_in, name_of_words};

use pr_text::before_zero;

/// The name in a field of a record.
pub fn name_in(field: &[u8; 32]) -> &[u8]
    ensures { result.now ≡ name_of_words (front_words 4 field.now) }
{
    before_zero(field)
}
