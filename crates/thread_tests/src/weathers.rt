//! Weathers and their fates.

use lossy_link::{Fate, LinkFault, Weather};
use test_outcomes::{Outcome, check_answer, check_answers};

/// The number of the fault, or 0.
fn refusal(lose: u16, twice: u16, late: u16) -> u16 {
    match Weather::of(1, lose, twice, late) {
        Ok(_) => 0,
        Err(fault) => fault.number(),
    }
}

#[test]
fn refused_weather() -> Outcome {
    check_answers(&[
        Some(refusal(500, 300, 201) == 901),
        Some(refusal(65_535, 65_535, 65_535) == 901),
        Some(refusal(500, 300, 200) == 0),
        Some(LinkFault::Closed.number() == 902),
        Some(LinkFault::Memory.number() == 903),
    ])
}

/// How many of so many fates are lost, twice, late and plain.
fn counted(weather: &mut Weather, fates: u32) -> [u32; 4] {
    let mut lost = 0u32;
    let mut twice = 0u32;
    let mut late = 0u32;
    let mut plain = 0u32;
    for _ in 0..fates {
        match weather.fate() {
            Fate::Lost => lost = lost.wrapping_add(1),
            Fate::Twice => twice = twice.wrapping_add(1),
            Fate::Late => late = late.wrapping_add(1),
            Fate::Plain => plain = plain.wrapping_add(1),
        }
    }
    [lost, twice, late, plain]
}

/// A weather's seed and its odds, and of how many fates how many are to be lost, twice, late and plain, or how
/// far from it.
type Drawn = (u64, (u16, u16, u16), u32, [u32; 4], u32);

/// Whether there are of each kind as many fates as are wanted, or as far from it as said.
fn are_near((seed, (lose, twice, late), fates, want, stray): &Drawn) -> Option<bool> {
    let Ok(mut weather) = Weather::of(*seed, *lose, *twice, *late) else {
        return None;
    };
    let counts = counted(&mut weather, *fates);
    let mut near = true;
    for (count, want) in counts.iter().zip(want.iter()) {
        near &= count.abs_diff(*want) <= *stray;
    }
    Some(near)
}

fn all_are_near(rows: &[Drawn]) -> Outcome {
    for (row, drawn) in rows.iter().enumerate() {
        check_answer(are_near(drawn), row)?;
    }
    Ok(())
}

/// Odds with one kind of fate, and with two.
const ALONE: [Drawn; 5] = [
    (1, (1_000, 0, 0), 1_000, [1_000, 0, 0, 0], 0),
    (1, (0, 1_000, 0), 1_000, [0, 1_000, 0, 0], 0),
    (1, (0, 0, 1_000), 1_000, [0, 0, 1_000, 0], 0),
    (1, (0, 0, 0), 1_000, [0, 0, 0, 1_000], 0),
    (1, (0, 500, 500), 1_000, [0, 500, 500, 0], 80),
];

#[test]
fn one_fate_alone() -> Outcome {
    all_are_near(&ALONE)
}

/// Of 100,000 draws with a chance of up to a half the count strays by 158 at most (one standard
/// deviation). That one of twelve counts strays five times as far has a chance below one in 100,000.
const STRAY: u32 = 790;

/// How many of the fates that are drawn below are wanted of each kind.
const WANT: [u32; 4] = [25_000, 10_000, 50_000, 15_000];

/// The same odds under three seeds.
const DRAWN: [Drawn; 3] = [
    (1, (250, 100, 500), 100_000, WANT, STRAY),
    (1971, (250, 100, 500), 100_000, WANT, STRAY),
    (
        9_223_372_036_854_775_807,
        (250, 100, 500),
        100_000,
        WANT,
        STRAY,
    ),
];

#[test]
fn fates_by_the_thousandths() -> Outcome {
    all_are_near(&DRAWN)
}

/// Whether two weathers agree in their next hundred fates.
fn agree(one: &mut Weather, other: &mut Weather) -> bool {
    let mut same = true;
    for _ in 0..100 {
        same &= one.fate() == other.fate();
    }
    same
}

/// Whether the first fates at a place are those of the sum.
fn same_words(seed: u64, place: u32, sum: u64) -> Option<bool> {
    let Ok(mut here) = Weather::of(seed, 250, 250, 250) else {
        return None;
    };
    let Ok(mut same) = Weather::of(sum, 250, 250, 250) else {
        return None;
    };
    let _first = here.fate();
    Some(agree(&mut here.at(place), &mut same))
}

#[test]
fn weather_of_a_place() -> Outcome {
    check_answers(&[
        same_words(7, 0, 7),
        same_words(7, 3, 10),
        same_words(18_446_744_073_709_551_615, 2, 1),
    ])
}
