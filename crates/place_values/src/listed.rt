// Lists that contracts see as lists.
ghost use Rattle.std.specs.Prelude.{◌≡◌};

use std::marker::Model;

/// A list, which contracts see as a list. Making one from a `Vec` and giving the `Vec` back allocate no memory.
#[derive(Drop)]
pub struct Listed<T> {
    list: Vec<T>,
}

impl<T> Model for Listed<T> {
    ghost use Rattle.std.specs.Prelude.{List};

    ghost Value = { List T };

    ghost view = { λ l. l.list.items };
}

impl<T> Listed<T> {
    /// Returns the list with these members, in order.
    pub fn from_vec(list: Vec<T>) -> Listed<T>
        ensures { result ≡ list.items }
    {
        Listed { list }
    }

    /// Returns the members, in order.
    pub fn as_slice(&self) -> &[T]
        ensures { result.now ≡ self.now }
    {
        &self.list
    }

    /// Returns the members in a `Vec`, in order.
    pub fn into_vec(self) -> Vec<T>
        ensures { result.items ≡ self }
    {
        self.list
    }
}
