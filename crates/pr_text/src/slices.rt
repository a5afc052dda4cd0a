//! Parts of what stands in a row.
ghost use Rattle.std.specs.Prelude.{◌≡◌, ◌≤◌, drop, length, take};
ghost use Rattle.std.specs.List.{before_first};
ghost use Rattle.pr_num.specs.Padding.{is_zero};

use pr_num::zero_in;

/// The first items, `most` where there are more.
pub fn front<T>(items: &[T], most: usize) -> &[T]
    ensures value { result.now ≡ take most items.now }
    ensures within { length result.now ≤ most }
{
    if items.len() > most {
        &items[..most]
    } else {
        items
    }
}

/// The items behind the first `n`, none where there are not more than `n`.
pub fn behind<T>(items: &[T], n: usize) -> &[T]
    ensures { result.now ≡ drop n items.now }
{
    if n < items.len() { &items[n..] } else { &[] }
}

/// The bytes up to the first zero, all where there is none.
pub fn before_zero(bytes: &[u8]) -> &[u8]
    ensures { result.now ≡ before_first is_zero bytes.now }
{
    match zero_in(bytes) {
        Some(place) => &bytes[..place],
        None => bytes,
    }
}
