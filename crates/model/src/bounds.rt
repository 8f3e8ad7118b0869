// The bounds of a plan and of what serves it, each named once.
ghost use Rattle.std.specs.Prelude.{◌≡◌, pos};
ghost use Rattle.model.specs.Bounds.{most_gates, most_width, most_rules, most_members, most_ranges, most_shift, most_cells, readers, most_saves, most_marks};

/// The most gates of a plan.
pub const GATES: usize = 32;
/// The most positions of a gate.
pub const WIDTH: usize = 256;
/// The most rules of a plan.
pub const RULES: usize = 64;
/// The most members of one Total.
pub const MEMBERS: usize = GATES;
/// The most ranges of one Positions field.
pub const RANGES: usize = 128;
/// The furthest that the constant c of a rule lies from 0.
pub const SHIFT: i16 = 255;
/// The most cells of a store: a position of a gate is one.
pub const CELLS: usize = GATES * WIDTH;
/// How many readers of changes there are.
pub const READERS: usize = 4;
/// The most saves that are open at a time.
pub const SAVES: usize = 32;
/// The most marks of a store: one for each open save, and one for each gate that a search goes into.
pub const MARKS: usize = SAVES + GATES;

/// The constants are the bounds that the definitions speak of.
pub fn bounds_agree()
    ensures gates { GATES ≡ most_gates }
    ensures width { WIDTH ≡ most_width }
    ensures rules { RULES ≡ most_rules }
    ensures members { MEMBERS ≡ most_members }
    ensures ranges { RANGES ≡ most_ranges }
    ensures shift { SHIFT ≡ pos most_shift }
    ensures cells { CELLS ≡ most_cells }
    ensures readers { READERS ≡ readers }
    ensures saves { SAVES ≡ most_saves }
    ensures marks { MARKS ≡ most_marks }
{}
