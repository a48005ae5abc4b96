//! What is kept of cookies.
ghost use Rattle.std.specs.Prelude.{◌≡◌, ◌<◌, ◌∷◌, ◌++◌, [], true, length, map, filter, if◌then◌else◌, All, IfOk, OnOk, OnErr};
ghost use Rattle.px_message.specs.Value.{is_value};
ghost use Rattle.px_refresh.specs.Cookies.{cookie_text, is_at, is_for, jar, pair_text, sent_to, separated, with_pair};
ghost use Rattle.px_refresh.specs.Index.{HasNowhere, IsPlaceOf, at_places, places_from};
ghost use Rattle.px_refresh.specs.Kept.{with_value};
ghost use Rattle.px_refresh.specs.Site.{is_same_cookie};

use crate::key::{CookieKey, Site};
use crate::places::{Places, add_place};
use px_message::Value;
use px_text::NoMemory;
use std::alloc::Global;
use std::collections::BTreeMap;
use std::marker::Model;

/// Cookies, each in the place where it was first set, with the value that it was set to last. In a contract they are a list of them.
#[derive(Debug, Drop)]
pub struct Jar {
    alloc: Global,
    cookies: Vec<(CookieKey, Value)>,
    // Where each key stands; a key that no cookie has may be in it.
    places: BTreeMap<CookieKey, usize>,
    // Where the cookies of each site stand.
    sites: BTreeMap<Site, Places>,
}

impl Model for Jar {
    ghost use Rattle.std.specs.Prelude.{List, map};
    ghost use Rattle.px_refresh.specs.Cookies.{Cookie};
    ghost use Rattle.px_refresh.specs.Index.{IsIndexed};

    ghost Value = { List Cookie };

    ghost view = { λ j. j.cookies.items };

    ghost invariant = { λ j. IsIndexed ⟦<CookieKey as Ord>⟧.cmp ⟦<Site as Ord>⟧.cmp j.places j.sites (map (λ cookie. cookie.0) j.cookies.items) };
}

impl Jar {
    /// No cookies. It takes no memory.
    pub fn new(alloc: Global) -> Jar
        ensures { result ≡ [] }
    {
        Jar {
            alloc,
            cookies: Vec::new(alloc),
            places: BTreeMap::new(alloc),
            sites: BTreeMap::new(alloc),
        }
    }

    /// Keeps the cookie: its value in place of that of the same key, or else behind all others. After `NoMemory` nothing has changed.
    pub fn keep(&mut self, key: CookieKey, value: Value) -> Result<(), NoMemory>
        ensures kept { OnOk result (self.new ≡ jar (self.old ++ (key, value) ∷ [])) }
        ensures unchanged { OnErr result (self.new ≡ self.old) }
    {
        self.is_kept();
        match self.place_of(&key) {
            Some(place) => {
                self.put(place, value);
                Ok(())
            }
            None => self.add(key, value),
        }
    }

    /// A law: what is kept is kept as it is. It only looks at it.
    pub fn is_kept(&self)
        ensures { jar self.now ≡ self.now }
    {
        let _places = &self.places;
    }

    // Where the key stands, if a cookie has it.
    fn place_of(&self, key: &CookieKey) -> Option<usize>
        ensures { IsPlaceOf is_same_cookie key.now (map (λ cookie. cookie.0) self.now) result }
    {
        let place = *self.places.get(key)?;
        match self.cookies.get(place) {
            Some(cookie) if cookie.0.is_same(key) => Some(place),
            _ => None,
        }
    }

    // Puts the value of the cookie at that place.
    fn put(&mut self, place: usize, value: Value)
        requires { place < length self.old }
        ensures { self.new ≡ with_value place value self.old }
    {
        self.cookies[place].1 = value;
    }

    // Adds the cookie, whose key no other has, behind all others.
    fn add(&mut self, key: CookieKey, value: Value) -> Result<(), NoMemory>
        requires { HasNowhere is_same_cookie key (map (λ cookie. cookie.0) self.old) }
        ensures added { OnOk result (self.new ≡ self.old ++ (key, value) ∷ []) }
        ensures unchanged { OnErr result (self.new ≡ self.old) }
    {
        self.cookies.try_reserve(1)?;
        let place = self.cookies.len();
        self.places.insert(key.try_clone()?, place)?;
        add_place(self.alloc, &mut self.sites, &key.site, place)?;
        self.cookies.push((key, value))?;
        Ok(())
    }

    // Where the cookies of the site stand, in rising order.
    fn places_of(&self, site: &Site) -> &[usize]
        ensures places { result.now ≡ places_from 0 (is_at site.now) (map (λ cookie. cookie.0) self.now) }
        ensures within { All (λ place. place < length self.now) result.now }
    {
        match self.sites.get(site) {
            Some(places) => places.as_slice(),
            None => &[],
        }
    }

    /// The cookies of the site whose path is the beginning of this one, as a request has them in its `Cookie`; nothing where there are none.
    /// It looks at the cookies of the site alone.
    pub fn text_for(&self, site: &Site, path: &[u8]) -> Result<Vec<u8>, NoMemory>
        ensures text { IfOk result (λ text. text.items ≡ cookie_text (sent_to site.now path.now self.now)) }
        ensures valid { IfOk result (λ text. is_value text.items ≡ true) }
    {
        text_of(self.alloc, &self.cookies, self.places_of(site), path)
    }
}

// The text of the cookies at these places whose path is the beginning of this one.
fn text_of(
    alloc: Global,
    cookies: &[(CookieKey, Value)],
    places: &[usize],
    path: &[u8],
) -> Result<Vec<u8>, NoMemory>
    requires { All (λ place. place < length cookies.now) places.now }
    ensures text { IfOk result (λ text. text.items ≡ cookie_text (filter (λ cookie. is_for path.now cookie.0) (at_places cookies.now places.now))) }
    ensures valid { IfOk result (λ text. is_value text.items ≡ true) }
{
    let mut text = Vec::new(alloc);
    for place in places {
        push_cookie(&mut text, &cookies[*place], path)?;
    }
    Ok(text)
}

// Appends the cookie to the text of others, if its path is the beginning of this one.
fn push_cookie(text: &mut Vec<u8>, cookie: &(CookieKey, Value), path: &[u8]) -> Result<(), NoMemory>
    ensures pushed { OnOk result (text.new.items ≡ (if is_for path.now cookie.now.0 then with_pair text.old.items (pair_text cookie.now) else text.old.items)) }
    ensures valid { is_value text.old.items ≡ true → OnOk result (is_value text.new.items ≡ true) }
{
    if !cookie.0.is_for(path) {
        return Ok(());
    }
    push_separator(text)?;
    text.extend_from_slice(cookie.0.name())?;
    text.push(b'=')?;
    text.extend_from_slice(cookie.1.bytes())?;
    Ok(())
}

// Appends what stands between two pairs, unless nothing stands in front.
fn push_separator(text: &mut Vec<u8>) -> Result<(), NoMemory>
    ensures pushed { OnOk result (text.new.items ≡ separated text.old.items) }
    ensures valid { is_value text.old.items ≡ true → OnOk result (is_value text.new.items ≡ true) }
{
    if !text.is_empty() {
        text.extend_from_slice(b"; ")?;
    }
    Ok(())
}
