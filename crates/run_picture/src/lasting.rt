// What lasts: which of it goes on behind a step, which ends there and which begins.

ghost use Rattle.std.specs.Prelude.{◌≡◌, ◌++◌, ◌∷◌, [], map, IfOk, OnOk};
ghost use Rattle.std.specs.List.{filter, flat_map, list_any};
ghost use Rattle.std.specs.Option.{option_to_list};
ghost use Rattle.run_picture.specs.Pictures.{told, same_lasting, wants_lasting, goes_on, begins, ends, is_seen, ended_mark, open_mark, since_here};

use crate::asking::{same_actor, same_lasting, whose};
use crate::marks::put;
use crate::picking::wants_lasting;
use crate::{Lasting, Mark, Part, Place, Sign, Step};
use std::alloc::{AllocError, Global};

/// What lasts, and since when.
#[derive(Clone, Copy, Debug)]
pub struct Since {
    pub what: Lasting,
    pub since: Place,
}

/// Whether something of a stretch from the one place to the other is seen.
pub(crate) fn is_seen(from: &Place, upto: &Place) -> bool
    ensures { result ≡ is_seen from.now upto.now }
{
    from.height < upto.height
}

/// Whether it is among these.
fn is_told(what: &Lasting, told: &[Lasting]) -> bool
    ensures { result ≡ list_any (same_lasting what.now) told.now }
{
    told.iter().any(|other| same_lasting(what, other))
}

/// Whether it lasts already.
fn is_known(lasts: &[Since], what: &Lasting) -> bool
    ensures { result ≡ list_any (λ o. same_lasting o.what what.now) lasts.now }
{
    lasts.iter().any(|one| same_lasting(&one.what, what))
}

/// Whether it goes on behind the step.
fn goes_on(step: &Step, one: &Since) -> bool
    ensures { result ≡ goes_on (told step.now) one.now }
{
    !same_actor(&step.event.actor(), &whose(&one.what))
        || is_told(&one.what, step.lasting.as_slice())
}

/// Whether it begins to last, and is drawn.
fn begins(part: &Part, known: &[Since], what: &Lasting) -> bool
    ensures { result ≡ begins part.now known.now what.now }
{
    wants_lasting(part, what) && !is_known(known, what)
}

/// What goes on behind the step.
fn going_on(alloc: Global, step: &Step, lasts: &[Since]) -> Result<Vec<Since>, AllocError>
    ensures { IfOk result (λ v. v.items ≡ filter (goes_on (told step.now)) lasts.now) }
{
    let mut kept = Vec::new(alloc);
    for one in lasts {
        if goes_on(step, one) {
            kept.push(*one)?;
        }
    }
    Ok(kept)
}

/// Adds what is drawn of this, and lasts from this place on.
fn add_all(
    lasts: &mut Vec<Since>,
    part: &Part,
    known: &[Since],
    told: &[Lasting],
    at: &Place,
) -> Result<(), AllocError>
    ensures { OnOk result (lasts.new.items ≡ lasts.old.items ++ map (since_here at.now) (filter (begins part.now known.now) told.now)) }
{
    for what in told {
        if begins(part, known, what) {
            lasts.push(Since {
                what: *what,
                since: *at,
            })?;
        }
    }
    Ok(())
}

/// What lasts behind the step.
pub(crate) fn lasting_behind(
    alloc: Global,
    part: &Part,
    lasts: &[Since],
    step: &Step,
    at: &Place,
) -> Result<Vec<Since>, AllocError>
    ensures { IfOk result (λ v. v.items ≡ filter (goes_on (told step.now)) lasts.now ++ map (since_here at.now) (filter (begins part.now lasts.now) (told step.now).lasting)) }
{
    let mut kept = going_on(alloc, step, lasts)?;
    add_all(&mut kept, part, lasts, step.lasting.as_slice(), at)?;
    Ok(kept)
}

/// What lasts before the first step.
pub(crate) fn lasting_first(
    alloc: Global,
    part: &Part,
    told: &[Lasting],
    at: &Place,
) -> Result<Vec<Since>, AllocError>
    ensures { IfOk result (λ v. v.items ≡ map (since_here at.now) (filter (wants_lasting part.now) told.now)) }
{
    let mut lasts = Vec::new(alloc);
    for what in told {
        if wants_lasting(part, what) {
            lasts.push(Since {
                what: *what,
                since: *at,
            })?;
        }
    }
    Ok(lasts)
}

/// The bar of what ends with the step, if it does and is seen.
fn ended_mark(step: &Step, one: &Since, at: &Place) -> Option<Mark>
    ensures { option_to_list result ≡ flat_map (ended_mark at.now) (filter (ends (told step.now)) (one.now ∷ [])) }
{
    if goes_on(step, one) || !is_seen(&one.since, at) {
        return None;
    }
    Some(Mark {
        sign: Sign::Ended(one.what),
        from: one.since,
        upto: *at,
    })
}

/// Adds the bars of what ends with the step.
pub(crate) fn add_ended(
    marks: &mut Vec<Mark>,
    step: &Step,
    lasts: &[Since],
    at: &Place,
) -> Result<(), AllocError>
    ensures { OnOk result (marks.new.items ≡ marks.old.items ++ flat_map (ended_mark at.now) (filter (ends (told step.now)) lasts.now)) }
{
    for one in lasts {
        put(marks, ended_mark(step, one, at))?;
    }
    Ok(())
}

/// The bar of what lasts up to this place, if it is seen.
fn open_mark(one: &Since, at: &Place) -> Option<Mark>
    ensures { option_to_list result ≡ open_mark at.now one.now }
{
    if !is_seen(&one.since, at) {
        return None;
    }
    Some(Mark {
        sign: Sign::Open(one.what),
        from: one.since,
        upto: *at,
    })
}

/// The bars of what lasts up to this place.
pub(crate) fn open_marks(
    alloc: Global,
    lasts: &[Since],
    at: &Place,
) -> Result<Vec<Mark>, AllocError>
    ensures { IfOk result (λ v. v.items ≡ flat_map (open_mark at.now) lasts.now) }
{
    let mut marks = Vec::new(alloc);
    for one in lasts {
        put(&mut marks, open_mark(one, at))?;
    }
    Ok(marks)
}
