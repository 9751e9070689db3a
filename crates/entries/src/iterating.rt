// The iterator over the journal's entries. It stands apart from its struct, whose ghost field may
// name nothing that names the struct.

ghost use Rattle.std.specs.Iterator.{YieldsLastBy, item_count};
ghost use Rattle.entries.specs.Iterating.{entries_left, entry_given};

use crate::{Entries, next_len};

impl<'a> Iterator for Entries<'a> {
    type Item = (u8, &'a [u8]);

    ghost next_gives = { YieldsLastBy entry_given entries_left };

    ghost remaining = { item_count entries_left };

    fn next(&mut self) -> Option<(u8, &'a [u8])> {
        let Some((kind, after)) = self.rest.split_first() else {
            return None;
        };
        let n = next_len(self.last, self.len, *kind);
        if n == 0 || after.len() < n {
            return None;
        }
        let (body, rest) = after.split_at(n);
        *self = Entries {
            rest,
            last: *kind,
            len: n,
        };
        Some((*kind, body))
    }
}
