// Rules between two different gates, x and y. The letters also mean their positions.
ghost use Rattle.std.specs.Prelude.{◌≡◌, ◌≢◌};

/// Two different gates.
#[derive(Clone, Copy, Debug, PartialEq, Eq, Hash)]
pub struct Pair {
    pub x: u8,
    pub y: u8,
    ghost apart: { x ≢ y },
}

/// x = y + c
#[derive(Clone, Copy, Debug, PartialEq, Eq, Hash)]
pub struct Offset {
    pub pair: Pair,
    pub c: i16,
}

/// x and y differ by at most d.
#[derive(Clone, Copy, Debug, PartialEq, Eq, Hash)]
pub struct Near {
    pub pair: Pair,
    pub d: u8,
}

/// x ≤ y + c
#[derive(Clone, Copy, Debug, PartialEq, Eq, Hash)]
pub struct NotAbove {
    pub pair: Pair,
    pub c: i16,
}
