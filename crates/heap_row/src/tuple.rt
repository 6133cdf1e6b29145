ghost use Rattle.std.specs.Prelude.{◌≡◌, ◌<◌, ◌≤◌, All, length};
ghost use Rattle.heap_page.specs.Line.{IsNormal};
ghost use Rattle.heap_row.specs.Tuple.{is_null, tuple_of};

use crate::bytes::{from_place, is_set};
use heap_page::View;
use std::marker::Model;

// Where a tuple's null bitmap begins (`SizeofHeapTupleHeader` of htup_details.h).
const NULL_BITMAP: usize = 23;

// What stands behind a tuple's header: how many attributes it has, its null bitmap, and their data.
#[derive(Debug, Drop)]
pub struct HeapTuple<'a> {
    attributes: u16,
    bitmap: Option<&'a [u8]>,
    body: &'a [u8],
}

impl<'a> Model for HeapTuple<'a> {
    ghost use Rattle.std.specs.Prelude.{option_copied};
    ghost use Rattle.heap_row.specs.Tuple.{HeapTuple};

    ghost Value = { HeapTuple };

    ghost view = { λ tuple. record {
      attributes = tuple.attributes;
      bitmap = option_copied tuple.bitmap;
      body = tuple.body.now;
    } };
}

impl<'a> HeapTuple<'a> {
    // The tuple of a normal item.
    pub(crate) fn of(view: &View<'a>, item: u16) -> HeapTuple<'a>
        requires { IsNormal view.now.bytes item }
        ensures tuple { result ≡ tuple_of view.now.bytes item }
        ensures bytes { All (λ byte. byte < 256) result.body }
        ensures size { length result.body ≤ length view.now.bytes }
    {
        let header = view.header(item);
        let bytes = view.item(item);
        let bitmap = if header.infomask_bits().has_nulls() {
            Some(from_place(bytes, NULL_BITMAP))
        } else {
            None
        };
        HeapTuple {
            attributes: header.infomask2_bits().attributes(),
            bitmap,
            body: from_place(bytes, usize::from(header.hoff)),
        }
    }

    // The data of the attributes.
    pub(crate) fn body(&self) -> &'a [u8]
        ensures { result.now ≡ self.now.body }
    {
        self.body
    }

    // Whether the column behind so many others is null.
    pub(crate) fn is_null(&self, before: usize) -> bool
        ensures { result ≡ is_null self.now before }
    {
        if before >= usize::from(self.attributes) {
            return true;
        }
        match self.bitmap {
            Some(bitmap) => !is_set(bitmap, before),
            None => false,
        }
    }
}
