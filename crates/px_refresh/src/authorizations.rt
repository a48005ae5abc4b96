//! What is kept of authorizations.
ghost use Rattle.std.specs.Prelude.{◌≡◌, ◌<◌, ◌∷◌, ◌++◌, [], map, length, IfOk, OnOk, OnErr};
ghost use Rattle.px_refresh.specs.Authorized.{authorizations, value_for};
ghost use Rattle.px_refresh.specs.Index.{HasNowhere, IsPlaceOf};
ghost use Rattle.px_refresh.specs.Kept.{with_value};
ghost use Rattle.px_refresh.specs.Text.{is_same_text};

use crate::ordered::OrderedBytes;
use px_message::{Host, Value};
use px_text::{Bytes, NoMemory};
use std::alloc::Global;
use std::collections::BTreeMap;
use std::marker::Model;

/// Values of `Authorization` under hosts, each host in the place where it was first shown one, with the value that it was shown last. In a
/// contract they are a list of pairs.
#[derive(Debug, Drop)]
pub struct Authorizations {
    shown: Vec<(OrderedBytes, Value)>,
    // Where each host stands; a host that no pair has may be in it.
    places: BTreeMap<OrderedBytes, usize>,
}

impl Model for Authorizations {
    ghost use Rattle.std.specs.Prelude.{List, map};
    ghost use Rattle.px_refresh.specs.Authorized.{Authorization};
    ghost use Rattle.px_refresh.specs.Index.{IsPlaced};

    ghost Value = { List Authorization };

    ghost view = { λ a. a.shown.items };

    ghost invariant = { λ a. IsPlaced ⟦<OrderedBytes as Ord>⟧.cmp a.places (map (λ pair. pair.0) a.shown.items) };
}

impl Authorizations {
    /// None. It takes no memory.
    pub fn new(alloc: Global) -> Authorizations
        ensures { result ≡ [] }
    {
        Authorizations {
            shown: Vec::new(alloc),
            places: BTreeMap::new(alloc),
        }
    }

    /// Keeps the value for the host: in place of the one that it was shown before, or else behind all others. After `NoMemory` nothing has
    /// changed.
    pub fn keep(&mut self, alloc: Global, host: &Host, value: &Value) -> Result<(), NoMemory>
        ensures kept { OnOk result (self.new ≡ authorizations (self.old ++ (host.now, value.now) ∷ [])) }
        ensures unchanged { OnErr result (self.new ≡ self.old) }
    {
        let host = OrderedBytes::new(Bytes::copied(alloc, host.bytes())?);
        let value = Value::of_text(alloc, value.bytes())?;
        self.is_kept();
        match self.place_of(&host) {
            Some(place) => {
                self.put(place, value);
                Ok(())
            }
            None => self.add(host, value),
        }
    }

    /// A law: what is kept is kept as it is. It only looks at it.
    pub fn is_kept(&self)
        ensures { authorizations self.now ≡ self.now }
    {
        let _places = &self.places;
    }

    // Where the host stands, if it was shown a value.
    fn place_of(&self, host: &OrderedBytes) -> Option<usize>
        ensures { IsPlaceOf is_same_text host.now (map (λ pair. pair.0) self.now) result }
    {
        let place = *self.places.get(host)?;
        match self.shown.get(place) {
            Some(pair) if pair.0.is_same(host) => Some(place),
            _ => None,
        }
    }

    // Puts the value at that place.
    fn put(&mut self, place: usize, value: Value)
        requires { place < length self.old }
        ensures { self.new ≡ with_value place value self.old }
    {
        self.shown[place].1 = value;
    }

    // Adds the pair, whose host no other has, behind all others.
    fn add(&mut self, host: OrderedBytes, value: Value) -> Result<(), NoMemory>
        requires { HasNowhere is_same_text host (map (λ pair. pair.0) self.old) }
        ensures added { OnOk result (self.new ≡ self.old ++ (host, value) ∷ []) }
        ensures unchanged { OnErr result (self.new ≡ self.old) }
    {
        self.places.insert(host.try_clone()?, self.shown.len())?;
        self.shown.push((host, value))?;
        Ok(())
    }

    /// The value that the host was shown last, shared.
    pub fn value_for(&self, alloc: Global, host: &Host) -> Result<Option<Value>, NoMemory>
        ensures { IfOk result (λ value. value ≡ value_for host.now self.now) }
    {
        let host = OrderedBytes::new(Bytes::copied(alloc, host.bytes())?);
        match self.place_of(&host) {
            Some(place) => Ok(Some(self.shown[place].1.try_clone()?)),
            None => Ok(None),
        }
    }
}
