ghost use Rattle.std.specs.Prelude.{◌≡◌, ◌<◌, ◌≤◌, ◌+◌, vec_len, vec_capacity, position, is_none, length, IfSome};
ghost use Rattle.pr_parts.specs.FileTables.{with_placed, free_place};

/// The least free place, `None` exactly where all are taken.
pub(crate) fn first_free<T>(places: &[Option<T>]) -> Option<usize>
    ensures place { result ≡ position is_none places.now }
    ensures within { IfSome result (λ place. place < length places.now) }
{
    places.iter().position(|place| place.is_none())
}

/// Puts something at the least free place of a list with room for one more place, and answers the place. Takes no
/// memory.
#[tactic(auto, using(pr_file_laws::proofs::PlaceLemmas::placings))]
pub(crate) fn put<T: Drop>(places: &mut Vec<Option<T>>, item: T) -> usize
    requires { vec_len places.old < vec_capacity places.old }
    ensures items { places.new.items ≡ with_placed places.old.items item }
    ensures place { result ≡ free_place places.old.items }
    ensures within { result ≤ vec_len places.old }
    ensures len { vec_len places.new ≤ vec_len places.old + 1 }
    ensures capacity { vec_capacity places.new ≡ vec_capacity places.old }
{
    match first_free(places) {
        Some(place) => {
            places[place] = Some(item);
            place
        }
        None => {
            let place = places.len();
            places.push_reserved(Some(item));
            place
        }
    }
}
