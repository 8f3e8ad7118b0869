// The list that a keep is given.
ghost use Rattle.std.specs.Prelude.{◌≡◌};
ghost use Rattle.model.specs.Planners.{all_below};

/// Whether every entry lies below w.
pub fn all_below(list: &[u16], w: u16) -> bool
    ensures { result ≡ all_below w list.now }
{
    list.iter().all(|&p| p < w)
}
