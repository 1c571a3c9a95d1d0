// The map of live places.
ghost use Rattle.std.specs.Prelude.{◌≡◌, ◌≤◌, ◌+◌, ◌<◌, ◌↔◌, ◌^◌, length, IfOk, IfSome, IsSome};
ghost use Rattle.spatial_base.specs.Key.{text_of};
ghost use Rattle.place_values.specs.State.{opening};
ghost use Rattle.place_values.specs.Restored.{AreStatePlaces, places_in};
ghost use Rattle.place_values.specs.Update.{Gives, NamesText, effect_of, put_at, removed_at, key_for, serial_after};
ghost use Rattle.std.specs.List.{flat_map};
ghost use Rattle.place_values.specs.First.{ranked, first};
ghost use Rattle.place_values.specs.Hit.{comes_before};
ghost use Rattle.place_values.specs.declared.query.Answer.TheVariants as answers;
ghost use Rattle.place_values.specs.Answer.{answer_of, hits_of};
ghost use Rattle.place_values.specs.Group.{choices, least_by};
ghost use Rattle.place_values.specs.Query.{IsTerms, IsWeights, IsWithinLimits};
ghost use Rattle.place_values.specs.Rarity.{weighed_by_rarity};
ghost use Rattle.place_values.specs.State.{IsSerialAbove, place_at, shown};
ghost use Rattle.place_map.specs.Prices.{price_of};

use crate::group::{Price, least_choice};
use crate::rare::weighed;
use crate::restored::{are_state_places, map_of};
use crate::scan::{all_hits, first_hits};
use place_values::{
    Answer, Applied, Hits, NUMBER_MAX, PLACES_MAX, Place, Query, Update, UpdateFault, Weights,
};
use spatial_base::{Key, Memory, Origin, Point};
use std::alloc::Global;
use std::collections::BTreeMap;
use std::marker::Model;
use term_impacts::{Label, Word, Words};

/// The live places by key, the next serial and the update number.
///
/// Contracts see it as a record: the list of keys and places in the order of the keys, and the two numbers. The next serial is at least
/// 1 and at most the update number plus 1. It is above each live automatic key, so the automatic key that a `Put` takes is never
/// already in use.
#[derive(Drop)]
pub struct State {
    alloc: Global,
    places: BTreeMap<Key, Place>,
    serial: u64,
    number: u64,
}

impl Model for State {
    ghost use Rattle.place_values.specs.State.{Contents, IsState};

    ghost Value = { Contents };

    ghost view = { λ s. record { places = s.places.entries; serial = s.serial; number = s.number } };

    ghost invariant = { λ s. IsState (record { places = s.places.entries; serial = s.serial; number = s.number }) };
}

impl State {
    /// Returns the state with no place, next serial 1 and update number 0. It allocates no memory.
    pub fn new(alloc: Global) -> State
        ensures { result ≡ opening }
    {
        State::with_number(alloc, 0)
    }

    /// Returns the state with no place, next serial 1 and this update number, at most 2^40.
    pub fn with_number(alloc: Global, number: u64) -> State
        requires { number ≤ 2 ^ 40 }
        ensures { result ≡ record opening { number = number } }
    {
        State {
            alloc,
            places: BTreeMap::new(alloc),
            serial: 1,
            number,
        }
    }

    /// Returns the state with these places, this next serial and this update number, or `None` exactly if no state has them.
    ///
    /// No state has them if:
    ///
    /// - the keys do not ascend strictly,
    /// - the serial is 0 or above the number plus 1,
    /// - the number is above 2^40, or
    /// - an automatic key is not below the serial.
    ///
    /// Refuses only with `Memory`. It takes time in proportion to n log n for n places.
    pub fn with_places(
        alloc: Global,
        serial: u64,
        number: u64,
        places: Vec<(Key, Point, Words, Label)>,
    ) -> Result<Option<State>, Memory>
        requires { length places.items < 2 ^ 32 }
        ensures same { IfOk result (λ made. IfSome made (λ state. state ≡ record { places = places_in places.items; serial = serial; number = number })) }
        ensures exact { IfOk result (λ made. IsSome made ↔ AreStatePlaces places.items serial number) }
    {
        if !are_state_places(serial, number, places.as_slice()) {
            return Ok(None);
        }
        let places = map_of(alloc, places)?;
        Ok(Some(State {
            alloc,
            places,
            serial,
            number,
        }))
    }

    /// Returns how many places are live.
    pub fn count(&self) -> u32
        ensures { result ≡ length self.now.places }
    {
        self.places.len() as u32
    }

    /// Returns the update number: how many updates have changed the map.
    pub fn number(&self) -> u64
        ensures value { result ≡ self.now.number }
        ensures most { result ≤ 2 ^ 40 }
    {
        self.number
    }

    /// Changes the map by one update. It looks the key up once, or twice if 1,000,000 places are live.
    ///
    /// The key of a `Put` is a text key or `None`: only the state gives automatic keys.
    ///
    /// Refuses with `Full` exactly if 1,000,000 or more places are live and the key is new. Otherwise refuses with `Worn` exactly if the
    /// update number is 2^40 and the update would change the map. `Memory` may come in place of any result. After a refusal the state
    /// is as before.
    pub fn apply(&mut self, update: Update) -> Result<Applied, UpdateFault>
        requires { NamesText update }
        ensures { Gives self.old (effect_of self.old update) self.new result }
    {
        match update {
            Update::Put {
                key,
                point,
                words,
                label,
            } => {
                let (key, serial) = self.named(key);
                self.put(
                    key,
                    serial,
                    Place {
                        point,
                        words,
                        label,
                    },
                )
            }
            Update::Remove { key } => self.remove(&key),
        }
    }

    // The key that a place is put at, and the next serial after that.
    fn named(&self, key: Option<Key>) -> (Key, u64)
        requires { IfSome key (λ name. IsSome (text_of name)) }
        ensures key { result.0 ≡ key_for self.now key }
        ensures serial { result.1 ≡ serial_after self.now key }
        ensures rises { self.now.serial ≤ result.1 }
        ensures few { result.1 ≤ self.now.number + 2 }
        ensures above { IsSerialAbove result.1 result.0 }
    {
        match key {
            Some(key) => (key, self.serial),
            None => (Key::auto(self.serial), self.serial + 1),
        }
    }

    // Puts a place at a key, and sets the next serial.
    fn put(&mut self, key: Key, serial: u64, place: Place) -> Result<Applied, UpdateFault>
        requires rises { self.old.serial ≤ serial }
        requires few { serial ≤ self.old.number + 2 }
        requires above { IsSerialAbove serial key }
        ensures { Gives self.old (put_at self.old key serial place) self.new result }
    {
        if self.places.len() >= PLACES_MAX && !self.places.contains_key(&key) {
            return Err(UpdateFault::Full);
        }
        if self.number == NUMBER_MAX {
            return Err(UpdateFault::Worn);
        }
        let old = self.places.insert(key, place)?;
        self.serial = serial;
        self.number += 1;
        Ok(if old.is_some() {
            Applied::Replaced
        } else {
            Applied::New
        })
    }

    // Removes a key and its place.
    fn remove(&mut self, key: &Key) -> Result<Applied, UpdateFault>
        ensures { Gives self.old (removed_at self.old key.now) self.new result }
    {
        if self.number == NUMBER_MAX {
            return if self.places.contains_key(key) {
                Err(UpdateFault::Worn)
            } else {
                Ok(Applied::Absent)
            };
        }
        if self.places.remove(key).is_none() {
            return Ok(Applied::Absent);
        }
        self.number += 1;
        Ok(Applied::Gone)
    }

    /// Returns the place at a key, or `None` if there is none.
    pub fn show(&self, key: &Key) -> Option<(Point, &Words, Label)>
        ensures { shown result ≡ place_at key.now self.now.places }
    {
        let place = self.places.get(key)?;
        Some((place.point, &place.words, place.label))
    }

    /// Returns the answer to a query, by a scan of all live places.
    ///
    /// A range or box query gathers its hits and sorts them. A nearest or top query keeps only the best `k` hits during the scan. A
    /// query by rarity first counts the places that have each word. A group or gather query goes over the choices of a place for each
    /// word, and skips those whose first places already cost too much.
    ///
    /// Refuses only with `Memory`.
    pub fn answer(&self, query: &Query) -> Result<Answer, Memory>
        requires { IsWithinLimits query.now }
        ensures { IfOk result (λ answer. answer ≡ answer_of self.now query.now) }
    {
        match query {
            Query::Range { .. } | Query::Inside { .. } => self.all_hits(query),
            Query::Nearest { k, .. } | Query::Top { k, .. } => self.first_hits(query, *k),
            Query::Rare {
                at,
                scale,
                k,
                alpha,
                reach,
                words,
            } => {
                let words = self.weighed(words.as_slice())?;
                let asked = Query::Top {
                    at: *at,
                    scale: *scale,
                    k: *k,
                    alpha: *alpha,
                    reach: *reach,
                    words,
                };
                self.first_hits(&asked, *k)
            }
            Query::Group { at, scale, words } => {
                let at = Origin::at(*at, *scale);
                self.least_choice(&at, Price::Reach(at), words.as_slice())
            }
            Query::Gather { at, scale, words } => {
                self.least_choice(&Origin::at(*at, *scale), Price::Sum, words.as_slice())
            }
        }
    }

    // The words with their weights by rarity.
    fn weighed(&self, words: &[Word]) -> Result<Weights, Memory>
        requires { IsTerms words.now }
        ensures weights { IfOk result (λ terms. terms ≡ weighed_by_rarity self.now.places words.now) }
        ensures sound { IfOk result IsWeights }
    {
        let terms = weighed(self.alloc, &self.places, words).map_err(|_| Memory)?;
        Ok(Weights::from_vec(terms))
    }

    // The choice of least cost of a place for each word.
    fn least_choice(&self, at: &Origin, price: Price, words: &[Word]) -> Result<Answer, Memory>
        requires { length words.now ≤ 8 }
        ensures { IfOk result (λ answer. answer ≡ answers.Group (least_by (price_of price) (choices self.now.places at.now words.now))) }
    {
        let chosen = least_choice(self.alloc, &self.places, at, price, words).map_err(|_| Memory)?;
        Ok(Answer::Group(chosen))
    }

    // All hits of a query, in order.
    fn all_hits(&self, query: &Query) -> Result<Answer, Memory>
        requires { IsWithinLimits query.now }
        ensures { IfOk result (λ answer. answer ≡ answers.Hits (ranked comes_before (flat_map (hits_of query.now) self.now.places))) }
    {
        let hits = all_hits(self.alloc, &self.places, query).map_err(|_| Memory)?;
        Ok(Answer::Hits(Hits::from_vec(hits)))
    }

    // The first k hits of a query.
    fn first_hits(&self, query: &Query, k: u16) -> Result<Answer, Memory>
        requires { IsWithinLimits query.now }
        ensures { IfOk result (λ answer. answer ≡ answers.Hits (first comes_before k (flat_map (hits_of query.now) self.now.places))) }
    {
        let hits = first_hits(self.alloc, &self.places, query, k).map_err(|_| Memory)?;
        Ok(Answer::Hits(Hits::from_vec(hits)))
    }
}
