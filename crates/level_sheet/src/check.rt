// The check of a level sheet: four tests of each entry, by three local counts. One pass finds the lowest number of a test that some
// entry fails, and the lowest vertex that fails it.
ghost use Rattle.std.specs.Prelude.{◌≡◌, not, cond, ◌&&◌, ℕ, ◌-◌, ◌<◌, length, leb, ltb, eqb, Ok, Err};
ghost use Rattle.finite.specs.Count.{count, In};
ghost use Rattle.table.specs.Table.{vertices};
ghost use Rattle.table.specs.Size.{size_of};
ghost use Rattle.table.specs.Guard.{answer};
ghost use Rattle.pool.specs.Input.{Admitted};
ghost use Rattle.level_sheet.specs.SheetCheck.{sheet_of, check_sheet_of, number_in, Tells};
ghost use Rattle.level_sheet.specs.Faults.{HasRow, stands_at, fault_of, failed, number_or_none, place_or_0, IsNumbered, Lowest};

use pool::pair::{Layer, Level, Pair};
use table::{Refusal, Rule, Size};

// Of a vertex with pair (k, l): how many neighbors are anchored, or at or above another pair.
#[derive(Clone, Copy, Debug, PartialEq, Eq)]
struct Support {
    level: usize, // (k, 0)
    pair: usize, // (k, l)
    before: usize, // (k, l - 1)
}

// Whether w is anchored, or at or above the pair. The byte decides: in a sheet not yet checked any level may stand anywhere.
fn stands_at(anchored: &[u8], levels: &[u16], layers: &[u16], pair: Pair, w: usize) -> bool
    requires { HasRow anchored.now levels.now layers.now w }
    ensures { result ≡ stands_at anchored.now levels.now layers.now pair.level.0 pair.layer.0 w }
{
    anchored[w] == 1 || Pair::new(Level(levels[w]), Layer(layers[w])).at_or_above(pair)
}

// The three counts over the neighbors of a vertex with that pair, in one pass.
fn count_support(
    part: &[u16],
    anchored: &[u8],
    levels: &[u16],
    layers: &[u16],
    pair: Pair,
) -> Support
    requires by_index { (w : ℕ) → In w part.now → HasRow anchored.now levels.now layers.now w }
    requires layer_nonzero { 0 < pair.layer.0 }
    ensures level { result.level ≡ count (stands_at anchored.now levels.now layers.now pair.level.0 0) part.now }
    ensures pair { result.pair ≡ count (stands_at anchored.now levels.now layers.now pair.level.0 pair.layer.0) part.now }
    ensures before { result.before ≡ count (stands_at anchored.now levels.now layers.now pair.level.0 (pair.layer.0 - 1)) part.now }
{
    let lowest = Pair::new(pair.level, Layer(0));
    let before = Pair::new(pair.level, Layer(pair.layer.0 - 1));
    let mut support = Support {
        level: 0,
        pair: 0,
        before: 0,
    };
    for u in part {
        let w = *u as usize;
        support.level += stands_at(anchored, levels, layers, lowest, w) as usize;
        support.pair += stands_at(anchored, levels, layers, pair, w) as usize;
        support.before += stands_at(anchored, levels, layers, before, w) as usize;
    }
    support
}

// Whether an entry is out of place: of an anchored vertex any but 65,535 and 0, of another one a layer 0.
fn is_misplaced(anchored: bool, level: u16, layer: u16) -> bool
    ensures { result ≡ cond anchored (not (eqb level 65535 && eqb layer 0)) (eqb layer 0) }
{
    if anchored {
        return level != 65535 || layer != 0;
    }
    layer == 0
}

// The lowest number of a test that the counts of a vertex with that pair fail.
fn counted_fault(level: u16, layer: u16, support: Support) -> Option<Rule>
    ensures { failed result ≡ cond (ltb support.level level) 19 (cond (ltb level support.pair) 20 (cond (ltb 1 layer && leb support.before level) 21 65535)) }
{
    let k = level as usize;
    if support.level < k {
        return Some(Rule::TooHigh);
    }
    if k < support.pair {
        return Some(Rule::TooLow);
    }
    if 1 < layer && support.before <= k {
        return Some(Rule::TooLate);
    }
    None
}

// The lowest number of a test that the entry of v fails.
fn fault_at(
    starts: &[u16],
    links: &[u16],
    anchored: &[u8],
    levels: &[u16],
    layers: &[u16],
    v: usize,
) -> Option<Rule>
    requires admitted { Admitted starts.now links.now anchored.now }
    requires levels_len { length levels.now ≡ vertices starts.now }
    requires layers_len { length layers.now ≡ vertices starts.now }
    requires v_bound { v < vertices starts.now }
    ensures { failed result ≡ fault_of starts.now links.now anchored.now levels.now layers.now v }
{
    let level = levels[v];
    let layer = layers[v];
    let is_anchored = anchored[v] == 1;
    if is_misplaced(is_anchored, level, layer) {
        return Some(Rule::Misplaced);
    }
    if is_anchored {
        return None;
    }
    let part = table::neighbors(starts, links, v);
    let pair = Pair::new(Level(level), Layer(layer));
    let support = count_support(part, anchored, levels, layers, pair);
    counted_fault(level, layer, support)
}

// The lower of the fault found so far and that of v, which stands behind it.
fn lower(found: Option<Refusal>, own: Option<Rule>, v: usize) -> Option<Refusal>
    requires { IsNumbered found }
    ensures numbered { IsNumbered result }
    ensures number { number_or_none result ≡ cond (ltb (failed own) (number_or_none found)) (failed own) (number_or_none found) }
    ensures place { place_or_0 result ≡ cond (ltb (failed own) (number_or_none found)) v (place_or_0 found) }
{
    let Some(rule) = own else {
        return found;
    };
    match found {
        Some(lowest) if lowest.number() <= rule.number() => Some(lowest),
        _ => Some(Refusal::new(rule, v)),
    }
}

// The lowest number of a test that some entry fails, with the lowest vertex that fails it.
fn lowest_fault(
    starts: &[u16],
    links: &[u16],
    anchored: &[u8],
    levels: &[u16],
    layers: &[u16],
) -> Option<Refusal>
    requires admitted { Admitted starts.now links.now anchored.now }
    requires levels_len { length levels.now ≡ vertices starts.now }
    requires layers_len { length layers.now ≡ vertices starts.now }
    ensures numbered { IsNumbered result }
    ensures lowest { Lowest (fault_of starts.now links.now anchored.now levels.now layers.now) (vertices starts.now) (number_or_none result) (place_or_0 result) }
{
    let mut lowest = None;
    for v in 0..starts.len() - 1 {
        let own = fault_at(starts, links, anchored, levels, layers, v);
        lowest = lower(lowest, own, v);
    }
    lowest
}

// Refusals 13, 14, 19, 20 and 21 of an admitted input.
pub fn test_sheet(
    starts: &[u16],
    links: &[u16],
    anchored: &[u8],
    levels: &[u16],
    layers: &[u16],
) -> Result<(), Refusal>
    requires { Admitted starts.now links.now anchored.now }
    ensures { result ≡ sheet_of starts.now links.now anchored.now levels.now layers.now }
{
    let n = starts.len() - 1;
    if levels.len() != n || layers.len() != n {
        return Err(Refusal::new(Rule::SheetLength, 0));
    }
    match lowest_fault(starts, links, anchored, levels, layers) {
        Some(fault) => Err(fault),
        None => Ok(()),
    }
}

// Refusals 1 to 10, 13, 14, 19, 20 and 21.
fn test_given(
    starts: &[u16],
    links: &[u16],
    anchored: &[u8],
    levels: &[u16],
    layers: &[u16],
) -> Result<(), Refusal>
    ensures { result ≡ check_sheet_of starts.now links.now anchored.now levels.now layers.now }
{
    pool::input::admit(starts, links, anchored)?;
    test_sheet(starts, links, anchored, levels, layers)
}

// The check of a level sheet: the size of its table, if it is the defined one. `tells` says what the answer tells of the sheet.
pub fn check_sheet(
    starts: &[u16],
    links: &[u16],
    anchored: &[u8],
    levels: &[u16],
    layers: &[u16],
) -> Result<Size, Refusal>
    ensures answer { result ≡ answer (check_sheet_of starts.now links.now anchored.now levels.now layers.now) (Ok (size_of starts.now links.now)) Err }
    ensures tells { Tells starts.now links.now anchored.now levels.now layers.now (number_in result) }
{
    test_given(starts, links, anchored, levels, layers)?;
    Ok(Size::measure(starts, links))
}
