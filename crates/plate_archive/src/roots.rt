// The three lists of a plate archive: of the numbers, of the casts, and of the parts that were cut from each plate.
ghost use Rattle.std.specs.Prelude.{◌≡◌, [], ◌∷◌, map, vec_items};
ghost use Rattle.plate_archive.specs.declared.roots.Which.{Which as Named};
ghost use Rattle.plate_archive.specs.declared.roots.Which.TheVariants.{Numbers as OfNumbers, Casts as OfCasts, Parts as OfParts};
ghost use Rattle.plate_archive.specs.Archives.{item as item_of, list, root, root_place};

use endian::order::LittleEndian;
use kind::Kind;
use links::RelativePtr;
use lists::ZeroSlice;
use std::fmt;
use texts::ZeroStr;

pub type Text = ZeroStr<LittleEndian>;

pub type Slice<K> = ZeroSlice<K, LittleEndian>;

pub type Pointer<K> = RelativePtr<Slice<K>, LittleEndian>;

// Which of the three lists.
#[derive(Clone, Copy, PartialEq, Eq, Debug)]
pub enum Which {
    Numbers,
    Casts,
    Parts,
}

// By hand: `thiserror` writes the words of errors, and a list is none.
impl fmt::Display for Which {
    fn fmt<W: fmt::Write>(&self, f: &mut fmt::Formatter<W>) -> fmt::Result {
        f.write_str(match self {
            Which::Numbers => "the list of plate numbers",
            Which::Casts => "the list of casts",
            Which::Parts => "the list of parts",
        })
    }
}

impl Which {
    // Where its pointer stands.
    pub(crate) fn place(self) -> usize
        ensures { result ≡ root_place self }
    {
        match self {
            Which::Numbers => 0,
            Which::Casts => 4,
            Which::Parts => 8,
        }
    }
}

// One of the three lists, as a type: the kinds of their items are two types.
pub trait Root {
    type Item: Kind + Drop;

    ghost which: { Named };

    fn which() -> Which
        ensures { result ≡ which };

    fn item() -> Self::Item
        ensures { Self.Item.Kind.meaning result ≡ item_of which };
}

pub struct Numbers;

pub struct Casts;

pub struct Parts;

impl Root for Numbers {
    type Item = Text;

    ghost which = { OfNumbers };

    fn which() -> Which {
        Which::Numbers
    }

    fn item() -> Text {
        Text::new()
    }
}

impl Root for Casts {
    type Item = Text;

    ghost which = { OfCasts };

    fn which() -> Which {
        Which::Casts
    }

    fn item() -> Text {
        Text::new()
    }
}

impl Root for Parts {
    type Item = Slice<Text>;

    ghost which = { OfParts };

    fn which() -> Which {
        Which::Parts
    }

    fn item() -> Slice<Text> {
        Slice::new(Text::new())
    }
}

pub(crate) fn list_of<R: Root>() -> Slice<R::Item>
    ensures { ⟦<Slice<R::Item> as Kind>⟧.meaning result ≡ list R.which }
{
    Slice::new(R::item())
}

pub(crate) fn pointer_to<R: Root>() -> Pointer<R::Item>
    ensures { ⟦<Pointer<R::Item> as Kind>⟧.meaning result ≡ root R.which }
{
    Pointer::new(list_of::<R>())
}

// Something of each of the three lists. What is done with each is written out three times: no loop goes over types.
#[derive(Drop)]
pub struct PerList<T> {
    pub numbers: T,
    pub casts: T,
    pub parts: T,
}

pub type Sheets = PerList<Vec<u8>>;

impl Sheets {
    pub fn each(&self) -> [&[u8]; 3]
        ensures { map (λ x. x.now) result ≡ vec_items self.now.numbers ∷ (vec_items self.now.casts ∷ (vec_items self.now.parts ∷ [])) }
    {
        [
            self.numbers.as_slice(),
            self.casts.as_slice(),
            self.parts.as_slice(),
        ]
    }
}
