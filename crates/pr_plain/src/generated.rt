//! A scenario of any size, for measurements.
ghost use Rattle.std.specs.Prelude.{◌≡◌, ℕ, decimal};
ghost use Rattle.std.specs.List.{flat_map};
ghost use Rattle.pr_plain.specs.Generated.{generated_text};

/// What stands before the first number.
const HEAD: &[u8] = b"turns 100000\nprogram g\nset r4, ";

/// What stands between the two numbers.
const MIDDLE: &[u8] =
    b"\nset r5, 1\nmore:\nsys fork\njz r0, kid\nsub r4, r5\njnz r4, more\nset r4, ";

/// What stands behind the second number.
const TAIL: &[u8] =
    b"\nreap:\nset r1, 0\nsys wait\nsub r4, r5\njnz r4, reap\nset r1, 0\nsys exit\nkid:\nset r2, 20\nagain:\nsys getpid\nsub r2, r5\njnz r2, again\nset r1, 0\nsys exit\nend\ntruss -f -c -s !CLD g\n";

/// The scenario for so many children, of which these are the digits, in pieces that stand one behind the other. Takes
/// no memory.
pub fn generated_pieces(digits: &[u8]) -> [&[u8]; 5]
    ensures { (n : ℕ) → digits.now ≡ decimal n → flat_map (λ piece. piece.now) result ≡ generated_text n }
{
    [HEAD, digits, MIDDLE, digits, TAIL]
}
