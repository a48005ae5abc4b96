//! Places of the cookies of a site.
ghost use Rattle.std.specs.Prelude.{◌≡◌, ◌∷◌, ◌++◌, [], IfOk, OnOk, OnErr};
ghost use Rattle.px_refresh.specs.Index.{Adds, Stays};

use crate::key::Site;
use px_text::NoMemory;
use std::alloc::Global;
use std::collections::BTreeMap;
use std::marker::Model;

/// Places in a list, in rising order.
#[derive(Debug, Drop)]
pub struct Places {
    all: Vec<usize>,
}

impl Model for Places {
    ghost use Rattle.std.specs.Prelude.{List, ℕ};

    ghost Value = { List ℕ };

    ghost view = { λ p. p.all.items };
}

impl Places {
    /// This place alone.
    pub fn one(alloc: Global, place: usize) -> Result<Places, NoMemory>
        ensures { IfOk result (λ made. made ≡ place ∷ []) }
    {
        let mut all = Vec::new(alloc);
        all.push(place)?;
        Ok(Places { all })
    }

    /// Adds a place behind them. After `NoMemory` nothing has changed.
    pub fn push(&mut self, place: usize) -> Result<(), NoMemory>
        ensures added { OnOk result (self.new ≡ self.old ++ place ∷ []) }
        ensures unchanged { OnErr result (self.new ≡ self.old) }
    {
        self.all.push(place)?;
        Ok(())
    }

    /// The places.
    pub fn as_slice(&self) -> &[usize]
        ensures { result.now ≡ self.now }
    {
        self.all.as_slice()
    }
}

/// Adds the place behind those of the site. After `NoMemory` each site has the places that it had.
pub fn add_place(
    alloc: Global,
    sites: &mut BTreeMap<Site, Places>,
    site: &Site,
    place: usize,
) -> Result<(), NoMemory>
    ensures adds { OnOk result (Adds ⟦<Site as Ord>⟧.cmp site.now place sites.old sites.new) }
    ensures stays { OnErr result (Stays ⟦<Site as Ord>⟧.cmp sites.old sites.new) }
{
    if let Some(places) = sites.get_mut(site) {
        places.push(place)?;
        return Ok(());
    }
    let places = Places::one(alloc, place)?;
    sites.insert(site.try_clone()?, places)?;
    Ok(())
}
