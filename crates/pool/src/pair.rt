// Levels and layers are two kinds of counts, ordered only as a pair, level first.
ghost use Rattle.std.specs.Prelude.{◌≡◌, not, ◌<◌, length, get_or, ltb};
ghost use Rattle.finite.specs.Pairs.{pair_le};

#[derive(Clone, Copy, Debug, PartialEq, Eq)]
pub struct Level(pub u16);

#[derive(Clone, Copy, Debug, PartialEq, Eq)]
pub struct Layer(pub u16);

#[derive(Clone, Copy, Debug, PartialEq, Eq)]
pub struct Pair {
    pub level: Level,
    pub layer: Layer,
}

impl Pair {
    pub fn new(level: Level, layer: Layer) -> Pair
        ensures level { result.level.0 ≡ level.0 }
        ensures layer { result.layer.0 ≡ layer.0 }
    {
        Pair { level, layer }
    }

    // Whether this pair is at or above the other. An anchored vertex has level 65,535, so it stands above every pair of a sheet.
    pub fn at_or_above(self, other: Pair) -> bool
        ensures { result ≡ pair_le other.level.0 other.layer.0 self.level.0 self.layer.0 }
    {
        (other.level.0, other.layer.0) <= (self.level.0, self.layer.0)
    }
}

// Whether a level is lower than the other. Levels alone are compared as pairs of layer 0.
pub fn is_lower(level: u16, other: u16) -> bool
    ensures { result ≡ ltb level other }
{
    let own = Pair::new(Level(level), Layer(0));
    let bound = Pair::new(Level(other), Layer(0));
    !own.at_or_above(bound)
}

// Whether the level of p is higher than that of v.
pub fn is_higher(levels: &[u16], p: usize, v: usize) -> bool
    requires p_in_bounds { p < length levels.now }
    requires v_in_bounds { v < length levels.now }
    ensures { result ≡ ltb (get_or levels.now v 0) (get_or levels.now p 0) }
{
    is_lower(levels[v], levels[p])
}

// Whether the pair of w is above that of u.
pub fn is_above(levels: &[u16], layers: &[u16], w: usize, u: usize) -> bool
    requires w_in_bounds { w < length levels.now }
    requires w_in_bounds_2 { w < length layers.now }
    requires u_in_bounds { u < length levels.now }
    requires u_in_bounds_2 { u < length layers.now }
    ensures { result ≡ not (pair_le (get_or levels.now w 0) (get_or layers.now w 0) (get_or levels.now u 0) (get_or layers.now u 0)) }
{
    let lower = Pair::new(Level(levels[u]), Layer(layers[u]));
    let upper = Pair::new(Level(levels[w]), Layer(layers[w]));
    !lower.at_or_above(upper)
}
