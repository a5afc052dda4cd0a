ghost use Rattle.std.specs.Prelude.{◌≡◌, ◌<◌, false, replicate, take, drop};
ghost use Rattle.std.specs.Fmt.{digit_glyph, digits};
ghost use Rattle.pr_text.specs.Bytes.{digit_zero};

/// The hex digit of a number below 16, in lower case.
pub fn hex_digit(d: u8) -> u8
    requires { d < 16 }
    ensures { result ≡ digit_glyph false d }
{
    if d < 10 { b'0' + d } else { b'a' + (d - 10) }
}

/// The hex digits of a number, after zeros that make them 16, and the place of the first.
pub fn hex_digits(n: u64) -> ([u8; 16], usize)
    ensures place { result.1 < 16 }
    ensures zeros { take result.1 result.0 ≡ replicate result.1 digit_zero }
    ensures digits { drop result.1 result.0 ≡ digits 16 false n }
{
    let mut digits = [b'0'; 16];
    let mut rest = n;
    for at in (0..16).rev() {
        digits[at] = hex_digit((rest % 16) as u8);
        rest /= 16;
        if rest == 0 {
            return (digits, at);
        }
    }
    unreachable!()
}
