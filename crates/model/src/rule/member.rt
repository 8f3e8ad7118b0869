/// One member of a Total.
#[derive(Clone, Copy, Debug, PartialEq, Eq, Hash)]
pub struct Member {
    pub gate: u8,
    pub weight: u8,
}
