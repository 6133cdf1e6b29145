ghost use Rattle.std.specs.Prelude.{◌≡◌, ◌≤◌, ◌+◌, ◌-◌, ◌*◌, ◌^◌, ◌<◌, IfOk, IfSome, max, min, length, option_map};
ghost use Rattle.heap_row.specs.Array.{array_of, dims_place, element_at, element_behind, elements_behind, from_place, most_dimensions, most_elements, nulls_of, plain_at, product_of, shape_behind, shape_of, shape_with_dims, shape_with_nulls, size_of, word_at};
ghost use Rattle.heap_row.specs.NullBitmap.{is_absent};
ghost use Rattle.heap_row.specs.Pass.{IsBounded, most_dims_end};
ghost use Rattle.heap_row.specs.Varlena.{long_header, stored_at};

use crate::bytes::{from_place, is_set, rounded_up};
use crate::scalar::scalar_of;
use crate::varlena::{LONG_HEADER, Storage, Stored, stored_at};
use opclass::{ColType, Elem, ElemList, Width};
use pg_bytes::{Items, al8, u32_at};
use std::alloc::{AllocError, Global};

// Where the fields of an array stand (`ArrayType` of array.h), its header counted as four bytes.
const NDIM: usize = 4;

const DATAOFFSET: usize = 8;

const ELEMTYPE: usize = 12;

const DIMS: usize = 16;

// The most dimensions (`MAXDIM`), and the most elements (`MaxArraySize`).
const MOST_DIMENSIONS: u32 = 6;

const MOST_ELEMENTS: u64 = 134_217_727;

// The first number of 32 bits that is negative where it is read with a sign.
const NEGATIVE: u32 = 1 << 31;

// How an array's elements stand, by its fields: how many there are, where their null bitmap begins
// if it has one, and where the first stands or a place before it.
#[derive(Clone, Copy, Debug, PartialEq, Eq)]
pub struct Shape {
    pub count: usize,
    pub bitmap: Option<usize>,
    pub first: usize,
}

// The elements of the array that a content is, the bytes behind the value's header. None comes
// exactly where it is no array of this type of elements.
pub(crate) fn read_array(
    alloc: Global,
    element: ColType,
    content: &[u8],
) -> Result<Option<ElemList>, AllocError>
    ensures { IfOk result (λ elements. elements ≡ array_of element content.now) }
{
    match shape_of(element, content) {
        Some(shape) => read_elements(alloc, element, content, shape),
        None => Ok(None),
    }
}

fn shape_of(element: ColType, content: &[u8]) -> Option<Shape>
    ensures shape { result ≡ shape_of element content.now }
    ensures bounds { IfSome result IsBounded }
{
    if size_of(content) < DIMS {
        return None;
    }
    let ndim = word_at(content, NDIM);
    if ndim > MOST_DIMENSIONS || word_at(content, ELEMTYPE) != element.facts().oid {
        return None;
    }
    if ndim == 0 {
        return Some(Shape {
            count: 0,
            bitmap: None,
            first: DIMS,
        });
    }
    shape_with_dims(content, ndim)
}

fn shape_with_dims(content: &[u8], ndim: u32) -> Option<Shape>
    requires most { ndim ≤ most_dimensions }
    requires fields { dims_place ≤ size_of content.now }
    ensures shape { result ≡ shape_with_dims content.now ndim }
    ensures bounds { IfSome result IsBounded }
{
    let end = DIMS + 8 * ndim as usize;
    if size_of(content) < end {
        return None;
    }
    shape_behind(content, end, product_of(content, ndim as usize)?)
}

// The array of so many elements whose dimensions and lower bounds end at a place.
fn shape_behind(content: &[u8], end: usize, count: u64) -> Option<Shape>
    requires end { end ≤ most_dims_end }
    requires fields { dims_place ≤ size_of content.now }
    ensures shape { result ≡ shape_behind content.now end count }
    ensures bounds { IfSome result IsBounded }
{
    if count > MOST_ELEMENTS {
        return None;
    }
    let count = count as usize;
    if word_at(content, DATAOFFSET) == 0 {
        return Some(Shape {
            count,
            bitmap: None,
            first: al8(end as u64) as usize,
        });
    }
    shape_with_nulls(content, end, count)
}

fn shape_with_nulls(content: &[u8], bitmap: usize, count: usize) -> Option<Shape>
    requires end { bitmap ≤ most_dims_end }
    requires most { count ≤ most_elements }
    requires fields { dims_place ≤ size_of content.now }
    ensures shape { result ≡ shape_with_nulls content.now bitmap count }
    ensures bounds { IfSome result IsBounded }
{
    let first = word_at(content, DATAOFFSET);
    let end = bitmap + (count + 7) / 8;
    if first >= NEGATIVE || (first as usize) < end || size_of(content) < end {
        return None;
    }
    Some(Shape {
        count,
        bitmap: Some(bitmap),
        first: first as usize,
    })
}

// The product of so many dimensions, as far as 64 bits hold it. None comes exactly where one of
// them is negative.
fn product_of(content: &[u8], ndim: usize) -> Option<u64>
    requires { dims_place + 4 * ndim ≤ size_of content.now }
    ensures { result
        ≡ option_map (λ product. min product (2 ^ 64 - 1)) (product_of content.now ndim) }
{
    let mut product = 1u64;
    for n in 0..ndim {
        let dimension = word_at(content, DIMS + 4 * n);
        if dimension >= NEGATIVE {
            return None;
        }
        product = product.saturating_mul(u64::from(dimension));
    }
    Some(product)
}

fn word_at(content: &[u8], place: usize) -> u32
    requires behind { long_header ≤ place }
    requires inside { place + 4 ≤ size_of content.now }
    ensures { result ≡ word_at content.now place }
{
    u32_at(content, place - LONG_HEADER)
}

fn size_of(content: &[u8]) -> usize
    ensures { result ≡ size_of content.now }
{
    LONG_HEADER + content.len()
}

fn read_elements(
    alloc: Global,
    element: ColType,
    content: &[u8],
    shape: Shape,
) -> Result<Option<ElemList>, AllocError>
    requires { IsBounded shape }
    ensures { IfOk result (λ elements.
        elements ≡ elements_behind element content.now shape.first (nulls_of content.now shape)) }
{
    let mut elements = Vec::new(alloc);
    let mut place = shape.first;
    for n in 0..shape.count {
        let null = is_absent(content, &shape, n);
        let Some((value, end)) = element_behind(alloc, element, content, place, null)? else {
            return Ok(None);
        };
        elements.push(value)?;
        place = end;
    }
    Ok(Some(Items::from_vec(elements)))
}

// Whether the bitmap says that an element is null.
fn is_absent(content: &[u8], shape: &Shape, n: usize) -> bool
    ensures { result
        ≡ is_absent (option_map (from_place content.now) shape.now.bitmap) n }
{
    match shape.bitmap {
        Some(bitmap) => !is_set(behind(content, bitmap), n),
        None => false,
    }
}

// The element behind a place, and where it ends.
fn element_behind(
    alloc: Global,
    element: ColType,
    content: &[u8],
    place: usize,
    null: bool,
) -> Result<Option<(Elem, usize)>, AllocError>
    requires { place < 2 ^ 64 - 8 }
    ensures element { IfOk result (λ here.
        here ≡ element_behind element content.now place null) }
    ensures end { IfOk result (λ here. IfSome here (λ here.
        here.1 ≤ max (place + 8) (size_of content.now))) }
{
    if null {
        Ok(Some((Elem::Null, place)))
    } else {
        let unit = usize::from(element.facts().alignment);
        element_at(alloc, element, content, rounded_up(unit, place))
    }
}

// The element that begins at a place, and where it ends.
fn element_at(
    alloc: Global,
    element: ColType,
    content: &[u8],
    start: usize,
) -> Result<Option<(Elem, usize)>, AllocError>
    ensures element { IfOk result (λ here. here ≡ element_at element content.now start) }
    ensures end { IfOk result (λ here. IfSome here (λ here.
        here.1 ≤ max start (size_of content.now))) }
{
    let facts = element.facts();
    let bytes = behind(content, start);
    let Some(stored) = plain_at(facts.width, bytes) else {
        return Ok(None);
    };
    match scalar_of(Vec::new(alloc), facts.form, stored.content(bytes))? {
        Some(value) => Ok(Some((value, start + stored.total))),
        None => Ok(None),
    }
}

// The value that begins where bytes do, if it is stored as it is.
fn plain_at(width: Width, bytes: &[u8]) -> Option<Stored>
    ensures stored { result ≡ plain_at (stored_at width bytes.now) }
    ensures header { IfSome result (λ stored. stored.header ≤ stored.total) }
    ensures inside { IfSome result (λ stored. stored.total ≤ length bytes.now) }
{
    match stored_at(width, bytes) {
        Ok(stored) if stored.storage == Storage::Plain => Some(stored),
        _ => None,
    }
}

// The bytes from a place of the whole value on.
fn behind(content: &[u8], place: usize) -> &[u8]
    ensures { result.now ≡ from_place content.now place }
{
    from_place(content, place.saturating_sub(LONG_HEADER))
}
