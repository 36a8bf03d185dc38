// The two sides of a request.
ghost use Rattle.std.specs.Prelude.{◌≡◌};
ghost use Rattle.conversion.specs.Beyond.{turned};

// Which side of a request is looked at.
#[derive(Clone, Copy)]
pub(crate) enum Side {
    Above,
    Below,
}

impl Side {
    // Two requests, turned round for the side above.
    pub(crate) fn turned(self, x: usize, y: usize) -> (usize, usize)
        ensures { result ≡ turned self x y }
    {
        match self {
            Side::Above => (y, x),
            Side::Below => (x, y),
        }
    }
}
