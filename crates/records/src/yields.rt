// Net yields, out of a record.
ghost use Rattle.std.specs.Prelude.{◌≡◌, ◌≤◌, length};
ghost use Rattle.finite.specs.Count.{tabulate};
ghost use Rattle.records.specs.Yield.{yield_by, yield_at, Small, Smalls};

use super::Record;

// The net yield of a row, by its numbers; -32,768 for an anchored vertex.
pub fn net_yield(anchored: u8, followers: u16, level: u16, bare: u16) -> i16
    requires { Small anchored followers level bare }
    ensures { result ≡ yield_by anchored followers level bare }
{
    if anchored == 1 {
        return i16::MIN;
    }
    followers as i16 - (level - bare) as i16
}

// The net yields of as many rows as there are places.
pub fn write_yields(kept: &Record, yields: &mut [i16])
    requires yields_len_bound { length yields.old ≤ 1024 }
    requires smalls { Smalls kept.now (length yields.old) }
    ensures { yields.new ≡ tabulate (yield_at kept.now) (length yields.old) }
{
    for (v, place) in yields.iter_mut().enumerate() {
        *place = net_yield(
            kept.anchored[v],
            kept.followers[v],
            kept.columns.level[v],
            kept.bare[v],
        );
    }
}
