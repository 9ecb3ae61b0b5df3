// What a record copies into lent slices.
ghost use Rattle.std.specs.Prelude.{◌≡◌, ◌≤◌, length, take};
ghost use Rattle.finite.specs.Count.{tabulate};
ghost use Rattle.records.specs.Yield.{yield_at, Smalls};

use pool::lent::copy;
use records::Record;

// Copies the sheet of a record out.
pub fn copy_sheet(kept: &Record, levels: &mut [u16], layers: &mut [u16], components: &mut [u16])
    requires { (length levels.old ≤ 1024) × (length layers.old ≤ 1024) × (length components.old ≤ 1024) }
    ensures levels { levels.new ≡ take (length levels.old) kept.now.columns.level }
    ensures layers { layers.new ≡ take (length layers.old) kept.now.columns.layer }
    ensures components { components.new ≡ take (length components.old) kept.now.columns.component }
{
    copy(&kept.columns.level, levels);
    copy(&kept.columns.layer, layers);
    copy(&kept.columns.component, components);
}

// Copies its anchored bytes, reached counts and stamps out, and writes its net yields.
pub fn copy_rows(
    kept: &Record,
    anchored: &mut [u8],
    yields: &mut [i16],
    reached: &mut [u16],
    stamps: &mut [u16],
)
    requires anchored_len_bound { (length anchored.old ≤ 1024) × (length yields.old ≤ 1024) × (length reached.old ≤ 1024) × (length stamps.old ≤ 1024) }
    requires smalls { Smalls kept.now (length yields.old) }
    ensures anchored { anchored.new ≡ take (length anchored.old) kept.now.anchored }
    ensures yields { yields.new ≡ tabulate (yield_at kept.now) (length yields.old) }
    ensures reached { reached.new ≡ take (length reached.old) kept.now.reached }
    ensures stamps { stamps.new ≡ take (length stamps.old) kept.now.stamp }
{
    copy(&kept.anchored, anchored);
    records::yields::write_yields(kept, yields);
    copy(&kept.reached, reached);
    copy(&kept.stamp, stamps);
}
