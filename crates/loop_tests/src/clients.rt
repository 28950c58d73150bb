// The wishes of c1.

ghost use Rattle.std.specs.Prelude.{◌≡◌, ◌≤◌, length, All, IfOk};
ghost use Rattle.lock_model.specs.Ballots.{HasPlace};
ghost use Rattle.client_loop.specs.Visits.{ArePlaced};
ghost use Rattle.loop_tests.specs.Fresh.{two_nodes};

use event_lines::{MAX_WISHES, Wish, read_wish};
use std::alloc::Global;
use test_outcomes::Failure;

/// A wish of c1, as `c1 read a`.
fn wish(text: &str) -> Result<Wish, Failure>
    ensures own { IfOk result (λ w. w.client ≡ 1) }
    ensures placed { IfOk result (λ w. HasPlace two_nodes w.place) }
{
    let Ok(wish) = read_wish(text.as_bytes()) else {
        return Err(Failure::Wrong(0));
    };
    if wish.client.get() == 1 && wish.place == 1 {
        Ok(wish)
    } else {
        Err(Failure::Wrong(0))
    }
}

/// The wishes of a row, as `c1 read a, c1 write b`.
pub(crate) fn wishes(alloc: Global, row: &str) -> Result<Vec<Wish>, Failure>
    ensures own { IfOk result (λ v. All (λ wish. wish.client ≡ 1) v.items) }
    ensures placed { IfOk result (λ v. ArePlaced two_nodes v.items) }
    ensures few { IfOk result (λ v. length v.items ≤ MAX_WISHES) }
{
    let mut wishes = Vec::new(alloc);
    for text in row.split(", ") {
        if !text.is_empty() {
            wishes.push(wish(text)?)?;
        }
    }
    if wishes.len() > MAX_WISHES {
        return Err(Failure::Wrong(0));
    }
    Ok(wishes)
}
