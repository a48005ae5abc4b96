//! Field sections: the lists of fields of messages and of trailers (RFC 9110 section 5).
//!
//! A list keeps the sender's order and spelling, and fields of one name may stand in it more than once. Names are
//! compared without the case of ASCII letters (section 5.1). What a field means is told by all values of its name in
//! their order (section 5.3): they are read by `get_all`, or by `has_element` where they are comma lists.
//! Each change is one of the whole list: `add` puts a field at the end, `remove` takes away all of a name, and `set`
//! leaves one of a name, at the place of the first.
ghost use Rattle.std.specs.Prelude.{◌≡◌, ◌<◌, ◌≤◌, ◌==◌, [], ◌∷◌, ◌++◌, not, filter, length, take, drop, position, nat_eq, slice_get, IfOk, OnOk, OnErr};
ghost use Rattle.std.specs.Iterator.{YieldsFirstRef, item_count};
ghost use Rattle.std.specs.List.{AllPass, list_any};
ghost use Rattle.std.specs.Ordering.{eq_of_both, on};
ghost use Rattle.std.specs.Cmp.Lexicographic.{pointwise};
ghost use Rattle.std.proofs.Common.{rules};
ghost use Rattle.std.specs.Cmp.Rules.{comparing};
ghost use Rattle.px_message.specs.Fields.{has_element, is_named, is_valued, set_in, values_of, without};
ghost use Rattle.px_message.specs.Valid.{is_field};

mod framing;

use crate::elements::{is_among_elements, is_same_name};
use crate::{Name, Value};
pub use framing::settle_streamed;
use px_text::NoMemory;
use std::alloc::{AllocError, Global};
use std::marker::Model;
use std::rc::Rc;

/// A list of fields, in the sender's order and spelling (RFC 9110 section 5.2). Names are compared without case.
///
/// Copies of a list share it, until one of them is changed: that one gets a list of its own then.
#[derive(Debug, Drop)]
pub struct Fields {
    alloc: Global,
    // None where there are no fields.
    shared: Option<Rc<Vec<(Name, Value)>>>,
}

impl Model for Fields {
    ghost use Rattle.std.specs.Prelude.{List, ℕ};
    ghost use Rattle.px_message.specs.Shared.{items_in};

    ghost Value = { List (List ℕ × List ℕ) };

    ghost view = { λ f. items_in (λ shared. shared.value.items) f.shared };
}

impl PartialEq for Fields {
    ghost eq = { pointwise (eq_of_both (on (λ p. p.0) (pointwise nat_eq)) (on (λ p. p.1) (pointwise nat_eq))) };

    ghost laws = { Prim.search (comparing, rules) };

    fn eq(&self, other: &Fields) -> bool {
        self.pairs() == other.pairs()
    }
}

impl Eq for Fields {
    ghost laws = { Prim.search (comparing, rules) };
}

impl Clone for Fields {
    ghost is_clone = { λ x y. y ≡ x };

    fn clone(&self) -> Result<Fields, AllocError> {
        Ok(Fields {
            alloc: self.alloc,
            shared: self.shared.clone()?,
        })
    }
}

impl Fields {
    /// No fields. The allocator is kept for those that are added.
    pub fn new(alloc: Global) -> Fields
        ensures { result ≡ [] }
    {
        Fields {
            alloc,
            shared: None,
        }
    }

    // The allocator that is kept for fields that are added.
    pub(crate) fn allocator(&self) -> Global {
        self.alloc
    }

    // The pairs.
    fn pairs(&self) -> &[(Name, Value)]
        ensures { result.now ≡ self.now }
    {
        match &self.shared {
            Some(shared) => shared.as_slice(),
            None => &[],
        }
    }

    /// How many fields there are.
    pub fn len(&self) -> usize
        ensures { result ≡ length self.now }
    {
        self.pairs().len()
    }

    /// Whether there are none.
    pub fn is_empty(&self) -> bool
        ensures { result ≡ (length self.now == 0) }
    {
        self.pairs().is_empty()
    }

    /// The name and the value of the field at that index, counted from 0.
    pub fn pair(&self, i: usize) -> (&Name, &Value)
        requires { i < length self.now }
        ensures { slice_get self.now i ≡ Some (result.0.now, result.1.now) }
    {
        let pair = &self.pairs()[i];
        (&pair.0, &pair.1)
    }

    /// The values of the fields of that name, in any case, in their order. It takes no memory.
    pub fn get_all<'a>(&'a self, name: &'a [u8]) -> FieldsOf<'a>
        ensures { result ≡ values_of name.now self.now }
    {
        FieldsOf {
            name,
            rest: self.pairs(),
        }
    }

    /// Whether a field of that name has the element in its comma list, both in any case (RFC 9110 section 5.6.1). It
    /// takes no memory.
    pub fn has_element(&self, name: &[u8], element: &[u8]) -> bool
        ensures { result ≡ has_element name.now element.now self.now }
    {
        self.get_all(name)
            .any(|value| is_among_elements(value.bytes(), element))
    }

    /// Puts a field at the end. After `NoMemory` the list is as before.
    pub fn add(&mut self, name: Name, value: Value) -> Result<(), NoMemory>
        ensures added { OnOk result (self.new ≡ self.old ++ (name, value) ∷ []) }
        ensures unchanged { OnErr result (self.new ≡ self.old) }
    {
        match &mut self.shared {
            Some(shared) => push_shared(shared, name, value),
            None => {
                self.shared = Some(share(self.alloc, name, value)?);
                Ok(())
            }
        }
    }

    /// Takes away all fields of that name, in any case. A list that has none of them stays shared. After `NoMemory` the list
    /// is as before.
    pub fn remove(&mut self, name: &[u8]) -> Result<(), NoMemory>
        ensures removed { OnOk result (self.new ≡ without name.now self.old) }
        ensures unchanged { OnErr result (self.new ≡ self.old) }
    {
        match &mut self.shared {
            Some(shared) => remove_shared(shared, name),
            None => Ok(()),
        }
    }

    /// Whether a field of that name with that value stands, both in any case.
    pub fn has_value(&self, name: &[u8], value: &[u8]) -> bool
        ensures { result ≡ list_any (is_valued name.now value.now) self.now }
    {
        self.pairs().iter().any(|pair| is_valued(pair, name, value))
    }

    /// Takes away the fields of that name with that value, both in any case. After `NoMemory` the list is as before.
    pub fn remove_value(&mut self, name: &[u8], value: &[u8]) -> Result<(), NoMemory>
        ensures removed { OnOk result (self.new ≡ filter (λ field. not (is_valued name.now value.now field)) self.old) }
        ensures unchanged { OnErr result (self.new ≡ self.old) }
    {
        match &mut self.shared {
            Some(shared) => remove_value_shared(shared, name, value),
            None => Ok(()),
        }
    }

    /// Puts the field at the place of the first of its name, in any case, and takes away the others of that name; without
    /// one it puts the field at the end. After `NoMemory` the list is as before.
    pub fn set(&mut self, name: Name, value: Value) -> Result<(), NoMemory>
        ensures set { OnOk result (self.new ≡ set_in name value self.old) }
        ensures unchanged { OnErr result (self.new ≡ self.old) }
    {
        match &mut self.shared {
            Some(shared) => set_shared(shared, name, value),
            None => self.add(name, value),
        }
    }

    /// A copy with the same fields.
    pub fn try_clone(&self) -> Result<Fields, NoMemory>
        ensures { IfOk result (λ copy. copy ≡ self.now) }
    {
        Ok(self.clone()?)
    }
}

// A list of this field alone.
fn share(alloc: Global, name: Name, value: Value) -> Result<Rc<Vec<(Name, Value)>>, NoMemory>
    ensures { IfOk result (λ shared. shared.value.items ≡ (name, value) ∷ []) }
{
    let mut pairs = Vec::new(alloc);
    pairs.push((name, value))?;
    Ok(Rc::new(alloc, pairs)?)
}

fn push_shared(
    shared: &mut Rc<Vec<(Name, Value)>>,
    name: Name,
    value: Value,
) -> Result<(), NoMemory>
    ensures added { OnOk result (shared.new.value.items ≡ shared.old.value.items ++ (name, value) ∷ []) }
    ensures unchanged { OnErr result (shared.new.value.items ≡ shared.old.value.items) }
{
    push_pair(Rc::make_mut(shared)?, name, value)
}

fn remove_shared(shared: &mut Rc<Vec<(Name, Value)>>, name: &[u8]) -> Result<(), NoMemory>
    ensures removed { OnOk result (shared.new.value.items ≡ without name.now shared.old.value.items) }
    ensures unchanged { OnErr result (shared.new.value.items ≡ shared.old.value.items) }
{
    match position_of(shared.as_slice(), name) {
        None => Ok(()),
        Some(_) => remove_from_own(shared, name),
    }
}

fn remove_from_own(shared: &mut Rc<Vec<(Name, Value)>>, name: &[u8]) -> Result<(), NoMemory>
    ensures removed { OnOk result (shared.new.value.items ≡ without name.now shared.old.value.items) }
    ensures unchanged { OnErr result (shared.new.value.items ≡ shared.old.value.items) }
{
    remove_named(Rc::make_mut(shared)?, name);
    Ok(())
}

fn remove_named(pairs: &mut Vec<(Name, Value)>, name: &[u8])
    ensures { pairs.new.items ≡ without name.now pairs.old.items }
{
    pairs.retain(|pair| !is_same_name(pair.0.bytes(), name));
}

fn remove_value_shared(
    shared: &mut Rc<Vec<(Name, Value)>>,
    name: &[u8],
    value: &[u8],
) -> Result<(), NoMemory>
    ensures removed { OnOk result (shared.new.value.items ≡ filter (λ field. not (is_valued name.now value.now field)) shared.old.value.items) }
    ensures unchanged { OnErr result (shared.new.value.items ≡ shared.old.value.items) }
{
    remove_valued(Rc::make_mut(shared)?, name, value);
    Ok(())
}

fn remove_valued(pairs: &mut Vec<(Name, Value)>, name: &[u8], value: &[u8])
    ensures { pairs.new.items ≡ filter (λ field. not (is_valued name.now value.now field)) pairs.old.items }
{
    pairs.retain(|pair| !is_valued(pair, name, value));
}

fn set_shared(shared: &mut Rc<Vec<(Name, Value)>>, name: Name, value: Value) -> Result<(), NoMemory>
    ensures set { OnOk result (shared.new.value.items ≡ set_in name value shared.old.value.items) }
    ensures unchanged { OnErr result (shared.new.value.items ≡ shared.old.value.items) }
{
    set_among(Rc::make_mut(shared)?, name, value)
}

fn push_pair(pairs: &mut Vec<(Name, Value)>, name: Name, value: Value) -> Result<(), NoMemory>
    ensures added { OnOk result (pairs.new.items ≡ pairs.old.items ++ (name, value) ∷ []) }
    ensures unchanged { OnErr result (pairs.new.items ≡ pairs.old.items) }
{
    pairs.push((name, value))?;
    Ok(())
}

fn set_among(pairs: &mut Vec<(Name, Value)>, name: Name, value: Value) -> Result<(), NoMemory>
    ensures set { OnOk result (pairs.new.items ≡ set_in name value pairs.old.items) }
    ensures unchanged { OnErr result (pairs.new.items ≡ pairs.old.items) }
{
    match position_of(pairs, name.bytes()) {
        None => push_pair(pairs, name, value),
        Some(first) => {
            remove_from(pairs, first + 1, name.bytes());
            pairs[first] = (name, value);
            Ok(())
        }
    }
}

// The field has that name and that value, both in any case.
fn is_valued(pair: &(Name, Value), name: &[u8], value: &[u8]) -> bool
    ensures { result ≡ is_valued name.now value.now pair.now }
{
    is_same_name(pair.0.bytes(), name) && is_same_name(pair.1.bytes(), value)
}

/// A law: what the type guarantees of a list of fields. Each name is a token, and no value has a CR, an LF or a NUL. It
/// only looks at them.
pub fn fields_are_valid(fields: &Fields)
    ensures { AllPass is_field fields.now }
{
    for i in 0..fields.len() {
        let (name, value) = fields.pair(i);
        let _name = name.bytes();
        let _value = value.bytes();
    }
}

// Where the first field of that name stands.
fn position_of(pairs: &[(Name, Value)], name: &[u8]) -> Option<usize>
    ensures { result ≡ position (is_named name.now) pairs.now }
{
    pairs
        .iter()
        .position(|pair| is_same_name(pair.0.bytes(), name))
}

// Takes away the fields of that name that stand at `start` or later.
fn remove_from(pairs: &mut Vec<(Name, Value)>, start: usize, name: &[u8])
    requires { start ≤ length pairs.old.items }
    ensures { pairs.new.items ≡ take start pairs.old.items ++ without name.now (drop start pairs.old.items) }
{
    let mut i = start;
    while i < pairs.len() {
        if is_same_name(pairs[i].0.bytes(), name) {
            pairs.remove(i);
        } else {
            i += 1;
        }
    }
}

/// The values of the fields of one name, in their order. Contracts see those that are still to come.
#[derive(Debug, Drop)]
pub struct FieldsOf<'a> {
    name: &'a [u8],
    rest: &'a [(Name, Value)],
}

impl<'a> Model for FieldsOf<'a> {
    ghost use Rattle.std.specs.Prelude.{List, ℕ};
    ghost use Rattle.px_message.specs.Fields.{values_of};

    ghost Value = { List (List ℕ) };

    ghost view = { λ f. values_of f.name.now f.rest.now };
}

impl<'a> Iterator for FieldsOf<'a> {
    type Item = &'a Value;

    ghost next_gives = { YieldsFirstRef (λ s. s) };

    ghost remaining = { item_count (λ s. s) };

    fn next(&mut self) -> Option<&'a Value> {
        while let Some((first, others)) = self.rest.split_first() {
            self.rest = others;
            if is_same_name(first.0.bytes(), self.name) {
                return Some(&first.1);
            }
        }
        None
    }
}
