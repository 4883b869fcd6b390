// The two sides of a call.
ghost use Rattle.std.specs.Prelude.{◌≡◌};
ghost use Rattle.sent.specs.Side.{peer_of, on_side, with_side};

#[derive(Clone, Copy)]
pub enum Side {
    Calling,
    Called,
}

// One thing for each side.
#[derive(Clone, Copy)]
pub struct BySide<T> {
    pub calling: T,
    pub called: T,
}

impl<T: Copy> BySide<T> {
    // The same for each side.
    pub fn same(for_each: T) -> BySide<T>
        ensures { result ≡ record { calling = for_each; called = for_each } }
    {
        BySide {
            calling: for_each,
            called: for_each,
        }
    }

    // What is there for a side.
    pub fn of(self, side: Side) -> T
        ensures { result ≡ on_side self side }
    {
        match side {
            Side::Calling => self.calling,
            Side::Called => self.called,
        }
    }

    // Another value for one side.
    pub fn with(self, side: Side, value: T) -> BySide<T>
        ensures { result ≡ with_side self side value }
    {
        match side {
            Side::Calling => BySide {
                calling: value,
                ..self
            },
            Side::Called => BySide {
                called: value,
                ..self
            },
        }
    }
}

pub fn peer(side: Side) -> Side
    ensures { result ≡ peer_of side }
{
    match side {
        Side::Calling => Side::Called,
        Side::Called => Side::Calling,
    }
}
