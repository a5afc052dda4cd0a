ghost use Rattle.std.specs.Prelude.{◌≡◌};
ghost use Rattle.pr_num.specs.Records.{name_field};

use pr_num::Name;

/// A name as it stands in a record: 32 bytes, with zeros after the name.
pub fn name_field(name: &Name) -> [u8; 32]
    ensures { result ≡ name_field name.now }
{
    let mut field = [0; 32];
    let bytes = name.as_slice();
    field[..bytes.len()].copy_from_slice(bytes);
    field
}
