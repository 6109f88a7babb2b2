ghost use Rattle.std.specs.Prelude.{◌≡◌, ◌<◌, ◌≤◌, ◌^◌, None, Some, false, length, true};
ghost use Rattle.rec_word.specs.Walk.{first_in, next_field, next_member};

/// Where a walk stands: a field of a member of its list.
#[derive(Clone, Copy)]
pub struct Member {
    /// The member, by its place in the list, from 0.
    pub index: u16,
    /// Its slot.
    pub slot: u16,
    /// Its field, from 0.
    pub field: u8,
}

impl Member {
    /// The first field of the first member of a list; None where the list is empty.
    #[inline(always)]
    pub fn first(slots: &[u16]) -> Option<Member>
        ensures first { result ≡ first_in slots.now }
    {
        let slot = *slots.first()?;
        Some(Member {
            index: 0,
            slot,
            field: 0,
        })
    }

    /// Moves on to the next field of the same member, if there is one, and says whether there is. Behind the last one nothing
    /// moves.
    #[inline(always)]
    pub fn next_field(&mut self, fields: u8) -> bool
        requires field { self.old.field < fields }
        ensures next { result ≡ true → next_field fields self.old ≡ Some self.new }
        ensures none { result ≡ false → next_field fields self.old ≡ None }
        ensures same { result ≡ false → self.new ≡ self.old }
    {
        if self.field + 1 < fields {
            self.field += 1;
            return true;
        }
        false
    }

    /// The first field of the next member of a list; None behind the last one. With `next_field` before it this is the field
    /// behind, and the list is asked for only where a member ends.
    #[inline(always)]
    pub fn next_member(self, slots: &[u16]) -> Option<Member>
        requires few { length slots.now ≤ 2 ^ 16 }
        ensures next { result ≡ next_member slots.now self }
    {
        let index = self.index as usize + 1;
        if index < slots.len() {
            return Some(Member {
                index: index as u16,
                slot: slots[index],
                field: 0,
            });
        }
        None
    }
}
