ghost use Rattle.std.specs.Prelude.{◌≡◌, [], ◌∷◌, ◌++◌, ◌<◌, length, slice_get, Some, IfOk, IfErr, MatchOption, OnOk, OnErr};

use crate::value::{Elem, ElemList, KeyVal};
use pg_bytes::{Bytes, Items};
use std::alloc::{AllocError, Global};
use std::marker::Model;

/// The values of several columns, seen by contracts as the list of them.
#[derive(Debug, Drop)]
pub struct KeyList {
    values: Items<KeyVal>,
}

impl Model for KeyList {
    ghost use Rattle.std.specs.Prelude.{List};
    ghost use Rattle.opclass.specs.declared.value.KeyVal.{KeyVal};

    ghost Value = { List KeyVal };

    ghost view = { λ list. list.values };
}

impl KeyList {
    /// The empty list, which takes no memory.
    pub fn new(alloc: Global) -> Self
        ensures { result ≡ [] }
    {
        KeyList {
            values: Items::new(alloc),
        }
    }

    /// The list of a vector's values, which takes no memory.
    pub fn from_vec(values: Vec<KeyVal>) -> Self
        ensures { result ≡ values.items }
    {
        KeyList {
            values: Items::from_vec(values),
        }
    }

    /// Gives the vector of values back, which takes no memory.
    pub fn into_vec(self) -> Vec<KeyVal>
        ensures { result.items ≡ self }
    {
        let KeyList { values } = self;
        values.into_vec()
    }

    /// Adds the value at the end. On want of memory it hands the value back and changes nothing.
    pub fn push(&mut self, value: KeyVal) -> Result<(), KeyVal>
        ensures ok { OnOk result (self.new ≡ self.old ++ value ∷ []) }
        ensures err { OnErr result (self.new ≡ self.old) }
        ensures handed_back { IfErr result (λ back. back ≡ value) }
    {
        self.values.push(value)
    }

    /// Takes the last value. None comes exactly where the list is empty.
    pub fn pop(&mut self) -> Option<KeyVal>
        ensures { MatchOption result ((self.old ≡ []) × (self.new ≡ [])) (λ last.
            self.old ≡ self.new ++ last ∷ []) }
    {
        self.values.pop()
    }

    /// How many values there are.
    pub fn len(&self) -> usize
        ensures { result ≡ length self.now }
    {
        self.values.len()
    }

    /// The values.
    pub fn as_slice(&self) -> &[KeyVal]
        ensures { result.now ≡ self.now }
    {
        self.values.as_slice()
    }

    /// The value at a place, counted from 0.
    pub fn get(&self, at: usize) -> &KeyVal
        requires { at < length self.now }
        ensures { slice_get self.now at ≡ Some result.now }
    {
        self.values.get(at)
    }

    /// A list of the same values.
    pub fn copy(&self, alloc: Global) -> Result<KeyList, AllocError>
        ensures { IfOk result (λ copy. copy ≡ self.now) }
    {
        let mut values = Vec::with_capacity(alloc, self.len())?;
        for value in self.as_slice() {
            values.push(copy_of_value(alloc, value)?)?;
        }
        Ok(KeyList::from_vec(values))
    }
}

fn copy_of_value(alloc: Global, value: &KeyVal) -> Result<KeyVal, AllocError>
    ensures { IfOk result (λ copy. copy ≡ value.now) }
{
    match value {
        KeyVal::Nil => Ok(KeyVal::Nil),
        KeyVal::Num(number) => Ok(KeyVal::Num(*number)),
        KeyVal::Raw(bytes) => Ok(KeyVal::Raw(copy_of_bytes(alloc, bytes)?)),
        KeyVal::Items(elements) => Ok(KeyVal::Items(copy_of_elements(alloc, elements)?)),
    }
}

fn copy_of_elements(alloc: Global, elements: &ElemList) -> Result<ElemList, AllocError>
    ensures { IfOk result (λ copy. copy ≡ elements.now) }
{
    let mut copies = Vec::with_capacity(alloc, elements.len())?;
    for element in elements.as_slice() {
        copies.push(copy_of_element(alloc, element)?)?;
    }
    Ok(Items::from_vec(copies))
}

fn copy_of_element(alloc: Global, element: &Elem) -> Result<Elem, AllocError>
    ensures { IfOk result (λ copy. copy ≡ element.now) }
{
    match element {
        Elem::Null => Ok(Elem::Null),
        Elem::Num(number) => Ok(Elem::Num(*number)),
        Elem::Raw(bytes) => Ok(Elem::Raw(copy_of_bytes(alloc, bytes)?)),
    }
}

fn copy_of_bytes(alloc: Global, bytes: &Bytes) -> Result<Bytes, AllocError>
    ensures { IfOk result (λ copy. copy ≡ bytes.now) }
{
    let copy = Vec::from_slice(alloc, bytes.as_slice())?;
    Ok(Items::from_vec(copy))
}
