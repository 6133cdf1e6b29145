ghost use Rattle.std.specs.Prelude.{◌≡◌, ◌≢◌, IfOk, MatchOption};
ghost use Rattle.gin_entry.specs.Entries.{entry_of, key_entry, number_of_category, placeholder};

use opclass::{Elem, KeyVal};
use pg_bytes::{Bytes, Items};
use std::alloc::{AllocError, Global};

/// What an entry stands for (`GinNullCategory` of `ginblock.h`).
#[derive(Clone, Copy, Debug, PartialEq, Eq)]
pub enum Category {
    /// An element, which is the entry's key.
    Key,
    /// Elements that are null.
    NullKey,
    /// An array without elements.
    EmptyItem,
    /// A value that is null.
    NullItem,
}

impl Category {
    ghost use Rattle.gin_entry.specs.declared.entry.Category.{Category};

    /// The number by which an entry and its tuple tell the category.
    pub fn number(self) -> u8
        ensures { result ≡ number_of_category self }
    {
        match self {
            Category::Key => 0,
            Category::NullKey => 1,
            Category::EmptyItem => 2,
            Category::NullItem => 3,
        }
    }

    /// The category of a number. None comes exactly where no category has it.
    pub fn of(number: u8) -> Option<Category>
        ensures { MatchOption result
            ((category : Category) → number_of_category category ≢ number)
            (λ category. number_of_category category ≡ number) }
    {
        match number {
            0 => Some(Category::Key),
            1 => Some(Category::NullKey),
            2 => Some(Category::EmptyItem),
            3 => Some(Category::NullItem),
            _ => None,
        }
    }
}

/// An entry of a GIN index, under which rows are found. It has a key where its category is that of
/// keys, and else Nil.
#[derive(Debug, Drop)]
pub struct Entry {
    pub category: u8,
    pub key: KeyVal,
}

/// Entries, as a value has them.
pub type EntryList = Items<Entry>;

impl Entry {
    /// The entry of a category that has no key.
    pub fn placeholder(category: Category) -> Entry
        ensures { result ≡ placeholder category }
    {
        Entry {
            category: category.number(),
            key: KeyVal::Nil,
        }
    }

    /// The entry of an element. An error means that no memory was left.
    pub fn of(alloc: Global, element: &Elem) -> Result<Entry, AllocError>
        ensures { IfOk result (λ entry. entry ≡ entry_of element.now) }
    {
        match element {
            Elem::Null => Ok(Entry::placeholder(Category::NullKey)),
            Elem::Num(number) => Ok(of_key(KeyVal::Num(*number))),
            Elem::Raw(bytes) => Ok(of_key(KeyVal::Raw(copy_of(alloc, bytes)?))),
        }
    }
}

fn of_key(key: KeyVal) -> Entry
    ensures { result ≡ key_entry key }
{
    Entry {
        category: Category::Key.number(),
        key,
    }
}

fn copy_of(alloc: Global, bytes: &Bytes) -> Result<Bytes, AllocError>
    ensures { IfOk result (λ copy. copy ≡ bytes.now) }
{
    Ok(Items::from_vec(bytes.as_slice().to_vec(alloc)?))
}
