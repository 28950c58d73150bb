// Where each client's entry was put last.

use crate::Entry;
use lock_messages::ClientId;
use std::alloc::{AllocError, Global};

/// Where each client's entry was put last, by the client's number. A place may be out of date: whoever
/// asks looks whether the entry is there. So no clause speaks of places. `bench/voter` measures how fast
/// look-ups are.
#[derive(Debug, Drop)]
pub(crate) struct Places {
    places: Vec<u16>,
}

impl Places {
    /// No places. It takes no memory.
    pub(crate) fn new(alloc: Global) -> Places {
        Places {
            places: Vec::new(alloc),
        }
    }

    /// A copy. The only error is want of memory.
    pub(crate) fn copy(&self, alloc: Global) -> Result<Places, AllocError> {
        Ok(Places {
            places: Vec::from_slice(alloc, &self.places)?,
        })
    }

    /// Where the client's entry may be.
    pub(crate) fn of(&self, client: ClientId) -> Option<usize> {
        match self.places.get(client.get() as usize - 1) {
            Some(place) => Some(*place as usize),
            None => None,
        }
    }

    /// Makes room for the client. The only error is want of memory.
    pub(crate) fn make_room(&mut self, client: ClientId) -> Result<(), AllocError> {
        let size = client.get() as usize;
        if self.places.len() < size {
            self.places.resize(size, 0)?;
        }
        Ok(())
    }

    /// Notes where the client's entry is. It takes no memory.
    pub(crate) fn note(&mut self, place: usize, client: ClientId) {
        let at = client.get() as usize - 1;
        if let Ok(place) = u16::try_from(place) {
            if at < self.places.len() {
                self.places[at] = place;
            }
        }
    }

    /// Notes where the entries are, from this place on. It takes no memory.
    pub(crate) fn note_from(&mut self, first: usize, list: &[Entry]) {
        for place in first..list.len() {
            self.note(place, list[place].client);
        }
    }
}
