// The byte order of a kind, as a value.
ghost use Rattle.std.specs.Prelude.{◌≡◌};
ghost use Rattle.catalogue.specs.Orders.{order_named};

#[derive(Clone, Copy, PartialEq, Eq, Debug)]
pub enum Order {
    Little,
    Big,
}

impl Order {
    // By its ASCII letter. No `TryFrom`: it would need an error, and there is one reason alone.
    pub fn named(letter: u8) -> Option<Order>
        ensures { result ≡ order_named letter }
    {
        match letter {
            b'l' => Some(Order::Little),
            b'b' => Some(Order::Big),
            _ => None,
        }
    }
}
