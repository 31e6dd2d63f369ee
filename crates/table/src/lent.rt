ghost use Rattle.table.specs.Tables.{entry, room, written};
ghost use Rattle.std.specs.Prelude.{◌≡◌, nat_lt};

use crate::id::{Id, IdKind};
use std::marker::PhantomData;

// How many numbers of the kind K name an entry of the slice.
pub fn capacity<K: IdKind, T>(entries: &[T]) -> usize
    ensures { result ≡ room K.LIMIT entries.now }
{
    entries.len().min(K::LIMIT as usize)
}

// The entry of a number.
pub fn read<K: IdKind, T: Copy>(entries: &[T], id: Id<K>) -> Option<T>
    ensures { result ≡ entry K.LIMIT entries.now id.number }
{
    let numbered = &entries[..capacity::<K, T>(entries)];
    numbered.get(id.number() as usize).copied()
}

// Writes the entry of a number; false where it names none. The bool is the whole answer, as a set's insert gives. By an
// index, since what std promises of get_mut does not tell the slice afterwards.
pub fn write<K: IdKind, T: Drop>(entries: &mut [T], id: Id<K>, value: T) -> bool
    ensures test { result ≡ nat_lt id.number (room K.LIMIT entries.old) }
    ensures after { entries.new ≡ written K.LIMIT entries.old id.number value }
{
    let number = id.number() as usize;
    let named = number < capacity::<K, T>(entries);
    if named {
        entries[number] = value;
    }
    named
}

// Entries of the type T by numbers of the kind K, over a lent slice.
#[derive(Drop)]
pub struct Table<'a, K, T> {
    entries: &'a mut [T],
    kind: PhantomData<K>,
}

// The methods pass the slice on to the functions above, which also serve slices without a Table.
impl<'a, K: IdKind, T> Table<'a, K, T> {
    pub fn over(entries: &'a mut [T]) -> Self
        ensures same { result.entries.now ≡ entries.old }
        ensures lent { result.entries.ghost_name ≡ entries.entry.ghost_name }
    {
        Table {
            entries,
            kind: PhantomData,
        }
    }

    pub fn capacity(&self) -> usize
        ensures { result ≡ room K.LIMIT self.now.entries.now }
    {
        capacity::<K, T>(self.entries)
    }

    pub fn get(&self, id: Id<K>) -> Option<T>
    where
        T: Copy,
        ensures { result ≡ entry K.LIMIT self.now.entries.now id.number }
    {
        read(self.entries, id)
    }

    // The answer is `write`'s.
    pub fn set(&mut self, id: Id<K>, value: T) -> bool
    where
        T: Drop,
        ensures test { result ≡ nat_lt id.number (room K.LIMIT self.old.entries.now) }
        ensures after { self.new.entries.now ≡ written K.LIMIT self.old.entries.now id.number value }
        ensures lent { self.new.entries.ghost_name ≡ self.old.entries.ghost_name }
    {
        write(self.entries, id, value)
    }
}
