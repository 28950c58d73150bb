// The weather of a link.

ghost use Rattle.std.specs.Prelude.{◌≡◌, OkIff};
ghost use Rattle.lossy_link.specs.Weathers.{odds_of, AreOdds, climate_of, climate_at, next_fate, after_fate};

use crate::{Fate, WeatherFault};
use rand_core::SeedableRng;
use rand_core::utils::NextWord;
use rand_pcg::Pcg32;
use std::marker::Model;

/// How the parcels of a link fare. A generator of words, made of a number, decides one fate after
/// another; which words it gives is what the crate `rand_pcg` states of its `Pcg32`. None of its
/// calls takes memory. The rules are our own.
#[derive(Debug, Drop)]
pub struct Weather {
    number: u64,
    lost: u16,
    doubled: u16,
    held: u16,
    words: Pcg32,
}

impl Model for Weather {
    ghost use Rattle.std.specs.Prelude.{◌+◌, ◌≤◌};
    ghost use Rattle.lossy_link.specs.Weathers.{Climate};

    ghost Value = { Climate };

    ghost view = { λ w. record { seed = w.number; odds = record { lose = w.lost; twice = w.doubled; late = w.held }; generator = w.words } };

    ghost invariant = { λ w. w.lost + w.doubled + w.held ≤ 1000 };
}

impl Weather {
    /// The weather of a number under which so many parcels of a thousand are lost, go twice and are
    /// late. 901, exactly where these are over a thousand together.
    pub fn of(seed: u64, lose: u16, twice: u16, late: u16) -> Result<Weather, WeatherFault>
        ensures { let odds = odds_of lose twice late in OkIff result (AreOdds odds) (climate_of seed odds) }
    {
        if u32::from(lose) + u32::from(twice) + u32::from(late) > 1_000 {
            return Err(WeatherFault::OverThousand);
        }
        Ok(Weather {
            number: seed,
            lost: lose,
            doubled: twice,
            held: late,
            words: Pcg32::seed_from_u64(seed),
        })
    }

    /// The weather at a place: with the same odds, and with its number moved on by the place, in 64
    /// bits. Each link has a place of its own, so each has its own words.
    pub fn at(&self, place: u32) -> Weather
        ensures { result ≡ climate_at self.now place }
    {
        let number = self.number.wrapping_add(u64::from(place));
        Weather {
            number,
            lost: self.lost,
            doubled: self.doubled,
            held: self.held,
            words: Pcg32::seed_from_u64(number),
        }
    }

    /// The fate of the next parcel, by the generator's next word.
    pub fn fate(&mut self) -> Fate
        ensures fate { result ≡ next_fate self.old }
        ensures after { self.new ≡ after_fate self.old }
    {
        let draw = self.words.next_word() % 1_000;
        let lost = u32::from(self.lost);
        let twice = lost + u32::from(self.doubled);
        let late = twice + u32::from(self.held);
        if draw < lost {
            Fate::Lost
        } else if draw < twice {
            Fate::Twice
        } else if draw < late {
            Fate::Late
        } else {
            Fate::Plain
        }
    }
}
