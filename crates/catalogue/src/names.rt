// The kinds that a name can tell, outermost first: each leaf; each holding kind over each leaf; two holding kinds over some leaves; and some that are deeper.
ghost use Rattle.std.specs.Prelude.{◌≡◌, List, [], ◌∷◌, ◌++◌, MatchOption, nat_eq};
ghost use Rattle.std.specs.Cmp.Lexicographic.{pointwise};
ghost use Rattle.std.specs.Option.{option_map};
ghost use Rattle.naming.specs.Forms.{Form, number, text, leaves, held, deep_pointers, deep_slices, deep_counted, vast, bad_counts, named_among};
ghost use Rattle.naming.specs.Senses.{meant, sense_of};
ghost use Rattle.naming.proofs.Naming.{NoneHolds};
ghost use Rattle.catalogue.specs.Fronts.{letters};
ghost use Rattle.catalogue.specs.Orders.{order_of};
ghost use Rattle.catalogue.specs.Used.{Used};

use crate::holders::{Alone, Arrayed, Far, Hold, Pointed, Sliced};
use crate::missing::Missing;
use crate::order::Order;
use crate::purpose::Use;
use endian::order::{BigEndian, Endian, LittleEndian};
use endian::width::{Width1, Width2, Width4, Width8};
use scalars::{Character, Number, ScalarKind, Truth};
use std::marker::PhantomData;
use texts::{ZeroStr, ZeroString};

// The most items that an array may have, by a name; `kind` keeps its own to itself.
const MOST: u32 = 65_535;

// One more, which no array may have.
const OVER: u32 = 65_536;

// So many inline texts of the largest capacity are longer than any archive, though a sheet of them need not be.
const MANY: u32 = 32_767;

// Arrays of arrays whose true size is past 2^64.
type Vast<H> = Arrayed<Arrayed<Arrayed<Arrayed<H, MOST>, MOST>, MOST>, MOST>;

type Number1<E> = ScalarKind<Number<Width1>, E>;

type Number2<E> = ScalarKind<Number<Width2>, E>;

type Number4<E> = ScalarKind<Number<Width4>, E>;

type Number8<E> = ScalarKind<Number<Width8>, E>;

type Truths<E> = ScalarKind<Truth, E>;

type Characters<E> = ScalarKind<Character, E>;

// Some of the kinds that can be named. Each part's `run` is a function of its own in the machine code too: inlined into one, a name of
// one letter would wait while room is made for what all others answer.
trait Part {
    ghost forms: { List Form };

    // Uses the one of them that has this name, held by what the whole name has before it.
    fn run<H: Hold, E: Endian, U: Use>(name: &[u8], purpose: &mut U) -> Result<U::Answer, Missing>
        ensures { Used U.tells (option_map (λ f. H.Hold.holds E.Endian.order (meant E.Endian.order f)) (named_among forms name.now)) purpose.old result purpose.new };
}

struct Leaf;

impl Part for Leaf {
    ghost forms = { leaves };

    #[inline(never)]
    fn run<H: Hold, E: Endian, U: Use>(name: &[u8], purpose: &mut U) -> Result<U::Answer, Missing> {
        match name {
            b"1" => H::run::<_, E, U>(Number1::<E>::new(), purpose),
            b"2" => H::run::<_, E, U>(Number2::<E>::new(), purpose),
            b"4" => H::run::<_, E, U>(Number4::<E>::new(), purpose),
            b"8" => H::run::<_, E, U>(Number8::<E>::new(), purpose),
            b"b" => H::run::<_, E, U>(Truths::<E>::new(), purpose),
            b"c" => H::run::<_, E, U>(Characters::<E>::new(), purpose),
            b"t" => H::run::<_, E, U>(ZeroStr::<E>::new(), purpose),
            b"i2." => H::run::<_, E, U>(ZeroString::<E>::new(2)?, purpose),
            b"i5." => H::run::<_, E, U>(ZeroString::<E>::new(5)?, purpose),
            _ => Err(Missing::NoKind),
        }
    }
}

// The leaves that are held by two: few, since each is one more type to build for each pair of holders.
struct DeepLeaf;

impl Part for DeepLeaf {
    ghost forms = { number 2 ∷ text ∷ [] };

    fn run<H: Hold, E: Endian, U: Use>(name: &[u8], purpose: &mut U) -> Result<U::Answer, Missing> {
        match name {
            b"2" => H::run::<_, E, U>(Number2::<E>::new(), purpose),
            b"t" => H::run::<_, E, U>(ZeroStr::<E>::new(), purpose),
            _ => Err(Missing::NoKind),
        }
    }
}

// What holds the rest of a name, by the letters at its front.
#[derive(Clone, Copy)]
enum Front {
    Pointer,
    Array,
    Far,
    Slice,
}

fn split_front(name: &[u8]) -> Option<(Front, &[u8])>
    ensures { MatchOption result (NoneHolds name.now) (λ x. name.now ≡ letters x.0 ++ x.1.now) }
{
    match name {
        [b'p', rest @ ..] => Some((Front::Pointer, rest)),
        [b'r', b'2', b'.', rest @ ..] => Some((Front::Array, rest)),
        [b'a', b'3', b'.', rest @ ..] => Some((Front::Far, rest)),
        [b's', rest @ ..] => Some((Front::Slice, rest)),
        _ => None,
    }
}

// A leaf, or a kind that holds the rest of the name.
struct Layer<P: Part>(PhantomData<P>);

impl<P: Part> Part for Layer<P> {
    ghost forms = { leaves ++ held P.forms };

    #[inline(never)]
    fn run<H: Hold, E: Endian, U: Use>(name: &[u8], purpose: &mut U) -> Result<U::Answer, Missing> {
        match split_front(name) {
            Some((Front::Pointer, rest)) => P::run::<Pointed<H>, E, U>(rest, purpose),
            Some((Front::Array, rest)) => P::run::<Arrayed<H, 2>, E, U>(rest, purpose),
            Some((Front::Far, rest)) => P::run::<Far<H, 3>, E, U>(rest, purpose),
            Some((Front::Slice, rest)) => P::run::<Sliced<H>, E, U>(rest, purpose),
            None => Leaf::run::<H, E, U>(name, purpose),
        }
    }
}

// As `==`, which takes no byte string beside a slice.
fn is(name: &[u8], whole: &[u8]) -> bool
    ensures { result ≡ pointwise nat_eq name.now whole.now }
{
    name == whole
}

// Some kinds by their whole names, where what holds a leaf stands first here, and last in the name. First those that are pointers.
struct DeepPointer;

impl Part for DeepPointer {
    ghost forms = { deep_pointers };

    #[inline(never)]
    fn run<H: Hold, E: Endian, U: Use>(name: &[u8], purpose: &mut U) -> Result<U::Answer, Missing> {
        if is(name, b"psst") {
            Sliced::<Sliced<Pointed<H>>>::run::<_, E, U>(ZeroStr::<E>::new(), purpose)
        } else if is(name, b"pp8") {
            Pointed::<Pointed<H>>::run::<_, E, U>(Number8::<E>::new(), purpose)
        } else if is(name, b"ppp1") {
            Pointed::<Pointed<Pointed<H>>>::run::<_, E, U>(Number1::<E>::new(), purpose)
        } else if is(name, b"psa3.i5.") {
            Far::<Sliced<Pointed<H>>, 3>::run::<_, E, U>(ZeroString::<E>::new(5)?, purpose)
        } else if is(name, b"pr2.st") {
            Sliced::<Arrayed<Pointed<H>, 2>>::run::<_, E, U>(ZeroStr::<E>::new(), purpose)
        } else {
            Err(Missing::NoKind)
        }
    }
}

// Those that are slices.
struct DeepSlice;

impl Part for DeepSlice {
    ghost forms = { deep_slices };

    #[inline(never)]
    fn run<H: Hold, E: Endian, U: Use>(name: &[u8], purpose: &mut U) -> Result<U::Answer, Missing> {
        if is(name, b"ss8") {
            Sliced::<Sliced<H>>::run::<_, E, U>(Number8::<E>::new(), purpose)
        } else if is(name, b"sss2") {
            Sliced::<Sliced<Sliced<H>>>::run::<_, E, U>(Number2::<E>::new(), purpose)
        } else if is(name, b"spsb") {
            Sliced::<Pointed<Sliced<H>>>::run::<_, E, U>(Truths::<E>::new(), purpose)
        } else if is(name, b"sa3.r2.8") {
            Arrayed::<Far<Sliced<H>, 3>, 2>::run::<_, E, U>(Number8::<E>::new(), purpose)
        } else if is(name, b"ssr2.1") {
            Arrayed::<Sliced<Sliced<H>>, 2>::run::<_, E, U>(Number1::<E>::new(), purpose)
        } else if is(name, b"spst") {
            Sliced::<Pointed<Sliced<H>>>::run::<_, E, U>(ZeroStr::<E>::new(), purpose)
        } else {
            Err(Missing::NoKind)
        }
    }
}

// Those that have a count or a capacity of their own.
struct DeepCounted;

impl Part for DeepCounted {
    ghost forms = { deep_counted };

    #[inline(never)]
    fn run<H: Hold, E: Endian, U: Use>(name: &[u8], purpose: &mut U) -> Result<U::Answer, Missing> {
        if is(name, b"i4.") {
            H::run::<_, E, U>(ZeroString::<E>::new(4)?, purpose)
        } else if is(name, b"r2.pb") {
            Pointed::<Arrayed<H, 2>>::run::<_, E, U>(Truths::<E>::new(), purpose)
        } else if is(name, b"r2.sr2.c") {
            Arrayed::<Sliced<Arrayed<H, 2>>, 2>::run::<_, E, U>(Characters::<E>::new(), purpose)
        } else if is(name, b"a3.a3.a3.1") {
            Far::<Far<Far<H, 3>, 3>, 3>::run::<_, E, U>(Number1::<E>::new(), purpose)
        } else if is(name, b"r2.r2.r2.b") {
            Arrayed::<Arrayed<Arrayed<H, 2>, 2>, 2>::run::<_, E, U>(Truths::<E>::new(), purpose)
        } else if is(name, b"a3.pst") {
            Sliced::<Pointed<Far<H, 3>>>::run::<_, E, U>(ZeroStr::<E>::new(), purpose)
        } else {
            Err(Missing::NoKind)
        }
    }
}

// The kinds whose size stops.
struct Stopping;

impl Part for Stopping {
    ghost forms = { vast };

    #[inline(never)]
    fn run<H: Hold, E: Endian, U: Use>(name: &[u8], purpose: &mut U) -> Result<U::Answer, Missing> {
        if is(name, b"r65535.r65535.8") {
            Arrayed::<Arrayed<H, MOST>, MOST>::run::<_, E, U>(Number8::<E>::new(), purpose)
        } else if is(name, b"sr65535.r65535.8") {
            Arrayed::<Arrayed<Sliced<H>, MOST>, MOST>::run::<_, E, U>(Number8::<E>::new(), purpose)
        } else if is(name, b"r65535.r65535.r65535.r65535.8") {
            Vast::<H>::run::<_, E, U>(Number8::<E>::new(), purpose)
        } else if is(name, b"pr65535.r65535.r65535.r65535.8") {
            Vast::<Pointed<H>>::run::<_, E, U>(Number8::<E>::new(), purpose)
        } else if is(name, b"sr65535.r65535.r65535.r65535.8") {
            Vast::<Sliced<H>>::run::<_, E, U>(Number8::<E>::new(), purpose)
        } else if is(name, b"r32767.i65535.") {
            Arrayed::<H, MANY>::run::<_, E, U>(ZeroString::<E>::new(MOST as usize)?, purpose)
        } else {
            Err(Missing::NoKind)
        }
    }
}

// Counts and a capacity that no kind has.
struct Refusing;

impl Part for Refusing {
    ghost forms = { bad_counts };

    #[inline(never)]
    fn run<H: Hold, E: Endian, U: Use>(name: &[u8], purpose: &mut U) -> Result<U::Answer, Missing> {
        if is(name, b"r0.1") {
            Arrayed::<H, 0>::run::<_, E, U>(Number1::<E>::new(), purpose)
        } else if is(name, b"a65536.1") {
            Far::<H, OVER>::run::<_, E, U>(Number1::<E>::new(), purpose)
        } else if is(name, b"i0.") {
            H::run::<_, E, U>(ZeroString::<E>::new(0)?, purpose)
        } else {
            Err(Missing::NoKind)
        }
    }
}

// The kinds of one part, and behind them those of another.
struct Or<P: Part, Q: Part>(PhantomData<(P, Q)>);

impl<P: Part, Q: Part> Part for Or<P, Q> {
    ghost forms = { P.forms ++ Q.forms };

    fn run<H: Hold, E: Endian, U: Use>(name: &[u8], purpose: &mut U) -> Result<U::Answer, Missing> {
        // Each case by its name: of one that only falls through, as `told => told`, the check has no fact that a proof could name.
        match P::run::<H, E, U>(name, purpose) {
            Ok(answer) => Ok(answer),
            Err(Missing::Refused(refusal)) => Err(Missing::Refused(refusal)),
            Err(Missing::NoKind) => Q::run::<H, E, U>(name, purpose),
        }
    }
}

type Deep = Or<DeepPointer, Or<DeepSlice, DeepCounted>>;

// Short names are looked for first, since they are used most.
type All = Or<Layer<Layer<DeepLeaf>>, Or<Deep, Or<Stopping, Refusing>>>;

// Uses the kind of a name, in a byte order; a name that tells none uses none.
pub fn with_kind<U: Use>(name: &[u8], order: Order, purpose: &mut U) -> Result<U::Answer, Missing>
    ensures { Used U.tells (sense_of (order_of order) name.now) purpose.old result purpose.new }
{
    // An order is a type, so it is chosen here.
    match order {
        Order::Little => All::run::<Alone, LittleEndian, U>(name, purpose),
        Order::Big => All::run::<Alone, BigEndian, U>(name, purpose),
    }
}
