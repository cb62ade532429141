//! Names, and lists that contracts see as plain lists: of names, of bytes, of sets and of whatever a crate
//! above keeps. They touch memory alone.

ghost use Rattle.std.specs.Prelude.{◌≡◌, [], ◌∷◌, ◌++◌, ◌↔◌, IsTrue, IfOk, OnOk, OnErr, All, Contains, length};
ghost use Rattle.std.specs.Prelude.{string_bytes};

use crate::memory::NoMemory;
use crate::sets::Set24;
use std::alloc::Global;
use std::marker::Model;

/// What can be copied where memory can be had. A copy equals what it copies.
pub trait TryCopy: Drop + Sized {
    fn try_copy(&self) -> Result<Self, NoMemory>
        ensures { IfOk result (λ copy. copy ≡ self.now) };
}

/// Items in order. Contracts see the list of them, so a copy equals what it copies.
#[derive(Debug, Drop)]
pub struct ListOf<T> {
    items: Vec<T>,
}

impl<T> Model for ListOf<T> {
    ghost use Rattle.std.specs.Prelude.{List};
    ghost use Rattle.std.specs.Coded.{coded_list};

    ghost Value = { List T };

    ghost coded = { coded_list T.code };

    ghost view = { λ l. l.items.items };
}

impl<T> ListOf<T> {
    pub fn new(alloc: Global) -> ListOf<T>
        ensures { result ≡ [] }
    {
        ListOf {
            items: Vec::new(alloc),
        }
    }

    pub fn from_vec(items: Vec<T>) -> ListOf<T>
        ensures { result ≡ items.items }
    {
        ListOf { items }
    }

    pub fn into_vec(self) -> Vec<T>
        ensures { result.items ≡ self }
    {
        let ListOf { items } = self;
        items
    }

    pub fn as_slice(&self) -> &[T]
        ensures { result.now ≡ self.now }
    {
        self.items.as_slice()
    }

    pub fn len(&self) -> usize
        ensures { result ≡ length self.now }
    {
        self.items.len()
    }

    pub fn is_empty(&self) -> bool
        ensures { IsTrue result ↔ (self.now ≡ []) }
    {
        self.items.is_empty()
    }
}

impl<T: Drop> ListOf<T> {
    /// Puts an item at the end.
    pub fn push(&mut self, item: T) -> Result<(), NoMemory>
        ensures ok { OnOk result (self.new ≡ self.old ++ item ∷ []) }
        ensures err { OnErr result (self.new ≡ self.old) }
    {
        self.items.push(item)?;
        Ok(())
    }
}

impl<T: TryCopy> ListOf<T> {
    pub fn copy(&self) -> Result<ListOf<T>, NoMemory>
        ensures { IfOk result (λ copy. copy ≡ self.now) }
    {
        let items = copies(*self.items.allocator(), self.items.as_slice())?;
        Ok(ListOf { items })
    }
}

impl<T: TryCopy> TryCopy for ListOf<T> {
    fn try_copy(&self) -> Result<ListOf<T>, NoMemory> {
        self.copy()
    }
}

fn copies<T: TryCopy>(alloc: Global, items: &[T]) -> Result<Vec<T>, NoMemory>
    ensures { IfOk result (λ copy. copy.items ≡ items.now) }
{
    let mut copies = Vec::new(alloc);
    for item in items {
        copies.push(item.try_copy()?)?;
    }
    Ok(copies)
}

impl<T: Copy + Drop> ListOf<T> {
    /// Puts items at the end.
    pub fn append(&mut self, more: &[T]) -> Result<(), NoMemory>
        ensures ok { OnOk result (self.new ≡ self.old ++ more.now) }
        ensures err { OnErr result (self.new ≡ self.old) }
    {
        self.items.extend_from_slice(more)?;
        Ok(())
    }
}

/// A name: a text that contracts see as the list of its bytes, in UTF-8.
#[derive(Debug, Drop)]
pub struct Name {
    text: String,
}

impl Model for Name {
    ghost use Rattle.std.specs.Prelude.{List, ℕ, string_bytes};

    ghost Value = { List ℕ };

    ghost view = { λ n. string_bytes n.text };
}

impl Name {
    /// The name with this text, a copy of it.
    pub fn new(alloc: Global, text: &str) -> Result<Name, NoMemory>
        ensures { IfOk result (λ name. name ≡ text.now) }
    {
        Ok(Name {
            text: String::from_str(alloc, text)?,
        })
    }

    /// The name that is this text.
    pub fn from_string(text: String) -> Name
        ensures { result ≡ string_bytes text }
    {
        Name { text }
    }

    /// The text of the name.
    pub fn as_str(&self) -> &str
        ensures { result.now ≡ self.now }
    {
        self.text.as_str()
    }

    /// Whether two names have the same bytes.
    pub fn same(&self, other: &Name) -> bool
        ensures { IsTrue result ↔ (self.now ≡ other.now) }
    {
        self.text.as_str() == other.text.as_str()
    }

    pub fn copy(&self) -> Result<Name, NoMemory>
        ensures { IfOk result (λ copy. copy ≡ self.now) }
    {
        Ok(Name {
            text: self.text.clone()?,
        })
    }
}

impl TryCopy for Name {
    fn try_copy(&self) -> Result<Name, NoMemory> {
        self.copy()
    }
}

/// Names in order.
pub type Names = ListOf<Name>;

/// Bytes in order.
pub type Bytes = ListOf<u8>;

/// The bytes of a text that is written out.
pub type Text = ListOf<u8>;

/// Sets in order.
pub type Sets = ListOf<Set24>;

/// Whether a name is one of these.
pub(crate) fn is_among(name: &Name, names: &[Name]) -> bool
    ensures { IsTrue result ↔ Contains names.now name.now }
{
    names.iter().any(|other| other.same(name))
}

/// Whether each name is one of the others.
pub(crate) fn are_among(names: &[Name], others: &[Name]) -> bool
    ensures { IsTrue result ↔ All (Contains others.now) names.now }
{
    for name in names {
        if !is_among(name, others) {
            return false;
        }
    }
    true
}
