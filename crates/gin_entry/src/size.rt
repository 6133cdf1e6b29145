ghost use Rattle.std.specs.Prelude.{◌≡◌, ◌<◌, ◌^◌};
ghost use Rattle.gin_entry.specs.EntrySize.{entry_size, key_end};

use crate::entry::{Category, Entry};
use opclass::{ColType, Form};
use pg_bytes::{al2, al8};
use std::slice;
use tuple_data::data_size;

// The bytes of an index tuple's head.
const HEAD: u64 = 8;

// Where a placeholder's category ends: behind the tuple of a null.
const CATEGORY_END: u64 = 17;

/// The size of the tuple of an entry in an index over arrays of this type, where its posting list
/// stands in a tree of its own (`GinFormTuple` of `ginentrypage.c`). It takes no memory.
pub fn entry_size(kind: ColType, entry: &Entry) -> u64
    requires { entry_size kind entry.now < 2 ^ 63 }
    ensures { result ≡ entry_size kind entry.now }
{
    al8(al2(key_end(kind, entry)))
}

// Where what the entry is ends in its tuple.
fn key_end(kind: ColType, entry: &Entry) -> u64
    requires { key_end kind entry.now < 2 ^ 63 }
    ensures { result ≡ key_end kind entry.now }
{
    if entry.category != Category::Key.number() {
        return CATEGORY_END;
    }
    match kind.facts().form {
        Form::Array(element) => al8(HEAD + data_size(&[element], slice::from_ref(&entry.key))),
        _ => HEAD,
    }
}
