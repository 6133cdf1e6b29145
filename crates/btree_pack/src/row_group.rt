ghost use Rattle.std.specs.Prelude.{◌≡◌, ◌+◌, ◌++◌, ◌<◌, ◌≤◌, [], IfOk, OnOk, length};
ghost use Rattle.btree_pack.specs.Pass.Grouped.{HasRoom, IsGroupOf, group_image, separator_image};
ghost use Rattle.btree_pack.specs.Pass.Packing.{IsTuple};

use btree_item::{put_pivot, put_plain, put_posting};
use opclass::{ColType, KeyList};
use pg_bytes::RowPtr;
use std::alloc::{AllocError, Global};

/// Rows that share a leaf tuple, but for their row pointers: their values, the keys first, the size
/// of a tuple of one of them, and what the separator from the group before them keeps of the keys.
#[derive(Debug, Drop)]
pub struct RowGroup {
    pub values: KeyList,
    pub size: u64,
    pub kept: u16,
    pub pointer: Option<RowPtr>,
}

impl RowGroup {
    /// Puts the leaf tuple of the rows with these pointers into a buffer that is empty.
    pub fn put_tuple(
        &self,
        out: &mut Vec<u8>,
        kinds: &[ColType],
        keys: usize,
        ptrs: &[RowPtr],
    ) -> Result<(), AllocError>
        requires group { IsGroupOf kinds.now keys self.now }
        requires empty { out.old.items ≡ [] }
        requires some { 0 < length ptrs.now }
        requires room { HasRoom kinds.now keys self.now (length ptrs.now) }
        ensures value { OnOk result (out.new.items ≡ group_image kinds.now keys self.now ptrs.now) }
        ensures tuple { OnOk result (IsTuple out.new.items) }
        ensures size { OnOk result (self.now.size ≤ length out.new.items) }
        ensures small { OnOk result (length out.new.items ≤ 2704) }
    {
        let values = self.values.as_slice();
        if ptrs.len() == 1 {
            let ptr = ptrs[0];
            put_plain(out, kinds, values, self.size, ptr)?;
            return Ok(());
        }
        put_posting(out, &kinds[..keys], &values[..keys], ptrs)?;
        Ok(())
    }

    /// Puts what separates these rows from the group before them behind the bytes of a buffer, as a
    /// pivot tuple without a child.
    pub fn put_separator(
        &self,
        out: &mut Vec<u8>,
        kinds: &[ColType],
        keys: usize,
    ) -> Result<(), AllocError>
        requires { IsGroupOf kinds.now keys self.now }
        ensures value { OnOk result
            (out.new.items ≡ out.old.items ++ separator_image kinds.now keys self.now) }
        ensures tuple { IsTuple (separator_image kinds.now keys self.now) }
        ensures size { length (separator_image kinds.now keys self.now) ≤ self.now.size + 8 }
    {
        put_pivot(
            out,
            &kinds[..keys],
            &self.values.as_slice()[..keys],
            self.kept,
            self.pointer,
            0,
        )
    }

    /// The high key of a page that ends before these rows.
    pub fn high_key(
        &self,
        alloc: Global,
        kinds: &[ColType],
        keys: usize,
    ) -> Result<Vec<u8>, AllocError>
        requires group { IsGroupOf kinds.now keys self.now }
        ensures value { IfOk result (λ key. key.items ≡ separator_image kinds.now keys self.now) }
        ensures tuple { IfOk result (λ key. IsTuple key.items) }
        ensures size { IfOk result (λ key. length key.items ≤ self.now.size + 8) }
    {
        let mut high_key = Vec::new(alloc);
        self.put_separator(&mut high_key, kinds, keys)?;
        Ok(high_key)
    }
}
