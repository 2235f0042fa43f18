// A table that a caller lends, and how many items are listed in it. The count goes on where there is no room, since questions 10
// and 11 speak of how many there are: neither a slice nor an ArrayVec would tell that.
ghost use Rattle.std.specs.Prelude.{◌≡◌, [], ◌∷◌, ◌+◌, ◌^◌, ◌<◌, take};
ghost use Rattle.fields.specs.Lists.{Lists};

use super::bytes::keep;

#[derive(Drop)]
pub struct Table<'a, T> {
    pub items: &'a mut [T],
    pub count: usize,
}

// A lent table in which nothing is listed yet.
pub fn empty_table<T>(items: &mut [T]) -> Table<T>
    ensures same_reference { result.items.ghost_name ≡ items.entry.ghost_name }
    ensures items { result.items.now ≡ items.old }
    ensures none { result.count ≡ 0 }
{
    Table {
        items: items,
        count: 0,
    }
}

impl<'a, T: Copy> Table<'a, T> {
    // Lists one more. What has no room is counted all the same.
    pub fn note(&mut self, item: T)
        requires { self.old.count + 1 < 2 ^ 64 }
        ensures { Lists (item ∷ []) self.old self.new }
    {
        let at = self.count;
        let items = &mut *self.items;
        if at < items.len() {
            items[at] = item;
        }
        self.count = at + 1;
    }

    // Those that found room.
    pub fn listed(&self) -> &[T]
        ensures { result.now ≡ take self.now.count self.now.items.now }
    {
        keep(self.items, self.count)
    }
}

// What is listed in a table that nothing is listed in any more: it is only read, and can be copied.
#[derive(Clone, Copy)]
pub struct TableView<'a, T> {
    pub items: &'a [T],
    pub count: usize,
}

impl<'a, T: Copy> Table<'a, T> {
    // The table to be read.
    pub fn into_view(self) -> TableView<'a, T>
        ensures items { result.items.now ≡ self.entry.items.now }
        ensures count { result.count ≡ self.entry.count }
    {
        let count = self.count;
        let items = self.items;
        TableView { items, count }
    }
}

impl<'a, T: Copy> TableView<'a, T> {
    // Those that found room.
    pub fn listed(self) -> &'a [T]
        ensures { result.now ≡ take self.entry.count self.entry.items.now }
    {
        let items = self.items;
        keep(items, self.count)
    }
}
