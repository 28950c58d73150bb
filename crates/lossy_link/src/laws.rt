//! Laws of the definitions. Each function computes nothing: its contract is a theorem.

ghost use Rattle.lossy_link.specs.Laws.{FatesFollowWords, OddsCount};

/// Fate number n of a weather is decided by word number n of its generator.
pub fn fates_follow_words()
    ensures { FatesFollowWords }
{}

/// Of the thousand words below 1000 just as many lose a parcel, send it twice and make it late as the
/// odds say, which are a thousand together at most.
pub fn odds_are_thousandths()
    ensures { OddsCount }
{}
