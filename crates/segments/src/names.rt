ghost use Rattle.std.specs.Prelude.{◌≡◌, ◌<◌, ◌≤◌, IfOk};
ghost use Rattle.segments.specs.Names.{segment_name};

use crate::name::segment_name;
use std::alloc::{AllocError, Global};
use std::marker::Model;

/// The names of a relation's first segments, made before the first of them is written, so that
/// writing takes no memory.
#[derive(Debug, Drop)]
pub struct SegmentNames<'a> {
    name: &'a str,
    further: Vec<String>,
}

impl<'a> Model for SegmentNames<'a> {
    ghost use Rattle.std.specs.Prelude.{◌≡◌, ◌+◌, ◌<◌, ◌^◌, length, map, string_bytes};
    ghost use Rattle.std.specs.List.{range_with_len};
    ghost use Rattle.segments.specs.Names.{Series, segment_name};

    ghost Value = { Series };

    ghost view = { λ names. record {
      name = names.name.now;
      count = length names.further.items + 1;
    } };

    ghost invariant = { λ names. record {
      named : map string_bytes names.further.items
          ≡ map (segment_name names.name.now) (range_with_len 1 (length names.further.items));
      few : length names.further.items + 1 < 2 ^ 32;
    } };
}

impl<'a> SegmentNames<'a> {
    /// The names of so many segments, at least one. An error means that no memory was left.
    pub fn of(alloc: Global, name: &'a str, count: u32) -> Result<SegmentNames<'a>, AllocError>
        requires { 1 ≤ count }
        ensures name { IfOk result (λ names. names.name ≡ name.now) }
        ensures count { IfOk result (λ names. names.count ≡ count) }
    {
        let mut further = Vec::new(alloc);
        for number in 1..count {
            further.push(segment_name(alloc, name, number)?)?;
        }
        Ok(SegmentNames { name, further })
    }

    /// How many segments there are.
    pub fn len(&self) -> u32
        ensures { result ≡ self.now.count }
    {
        self.further.len() as u32 + 1
    }

    /// The name of a segment, counted from 0.
    pub fn get(&self, number: u32) -> &str
        requires { number < self.now.count }
        ensures { result.now ≡ segment_name self.now.name number }
    {
        if number == 0 {
            self.name
        } else {
            self.further[number as usize - 1].as_str()
        }
    }
}
