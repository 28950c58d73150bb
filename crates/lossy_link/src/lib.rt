//! The links between nodes and clients: what carries frames, and the weather on the way.
//!
//! An actor has one `Link`. Over it parcels are sent to actors, words are told to every client, and
//! posts are received. A `Weather` decides each parcel's `Fate` by a generator of fixed words: it is
//! lost, goes twice, goes late or goes plainly. A lost or late parcel brings its client a nudge that
//! names its node, so that who waits asks again; a nudge is no message.
//!
//! The crate promises that each fate is a stated function of the generator's next word; that a link
//! draws one for each parcel, holds just the late one that is to go next, and brings its own actor
//! what the fates make of its parcels, in order; that a `ListLink` gives just the posts that it was
//! made of, in order, lists all that was sent and told, and knows whether memory was refused for that;
//! that a call which is refused memory adds nothing to what a link remembers to have been given; and
//! that no call answers another fault than it tells. It promises nothing of what a `ChannelLink` brings
//! from others: of a post that is received only its type is known, and any parcel may be missing, come
//! again or come in another order. That parcels come as their fates say is tested, and so is that links
//! which have come to rest are closed: once every actor waits for a post and none is on its way,
//! `receive` answers 902.
//!
//! Only `receive` of a `ChannelLink` waits for another actor. The crate stands on `lock_messages`,
//! `bytes` for frames that several links share, `crossbeam_channel` for inboxes, `rand_pcg` and
//! `rand_core` for the weather's words, and `thiserror`.
#![tactic(auto)]

mod channel_links;
mod fates;
mod faults;
pub mod laws;
mod links;
mod list_links;
mod parcels;
mod passages;
mod rests;
mod weathers;

pub use channel_links::ChannelLink;
pub use fates::Fate;
pub use faults::{LinkFault, WeatherFault};
pub use links::Link;
pub use list_links::ListLink;
pub use parcels::{Parcel, Post, Sending};
pub use weathers::Weather;
