// Worked afresh: the columns of a table with anchored vertices, its bare levels, and the counts of a row.
ghost use Rattle.std.specs.Prelude.{◌≡◌, ◌<◌};
ghost use Rattle.table.specs.Table.{vertices, SoundTable};
ghost use Rattle.anchored.specs.Core.{level as level_of, layer as layer_of};
ghost use Rattle.anchored.specs.Followers.{follower_count};
ghost use Rattle.anchored.specs.Yield.{bare_level};
ghost use Rattle.pool.specs.Input.{graph_of, anchored_by, Admitted};
ghost use Rattle.pool.specs.Arrays.{Holds};
ghost use Rattle.stale.specs.Columns.{ColumnsOf};
ghost use Rattle.records.specs.Record.{row_reached};

use stale::Columns;

// Levels, layers, components and the numbers above.
pub fn refresh(starts: &[u16], links: &[u16], anchored: &[u8; 1024]) -> Columns
    requires { Admitted starts.now links.now anchored.now }
    ensures { ColumnsOf (graph_of starts.now links.now) (anchored_by anchored.now) result }
{
    let mut columns = Columns {
        level: [0; 1024],
        layer: [0; 1024],
        component: [0; 1024],
        above: [0; 1024],
    };
    level::work::fill(
        starts,
        links,
        anchored,
        &mut columns.level,
        &mut columns.layer,
        &mut columns.component,
    );
    stale::fill_above(starts, links, &columns.level, &mut columns.above);
    columns
}

// Bare levels, those with nobody anchored, into the first n places.
pub fn fill_bare(starts: &[u16], links: &[u16], bare: &mut [u16; 1024])
    requires { SoundTable starts.now links.now }
    ensures { Holds bare.new (vertices starts.now) (bare_level (graph_of starts.now links.now)) }
{
    let nobody = [0u8; 1024];
    let mut layer = [0u16; 1024];
    peel::peel(starts, links, &nobody, bare, &mut layer);
}

// The counts of a row.
#[derive(Clone, Copy)]
pub struct Counts {
    pub followers: u16,
    pub reached: u16,
}

// How many follow u, and, where reached counts are kept, how many the search from u reaches; 65,535 for an anchored vertex. Where none are kept
// the count is 0 and no Option: it goes into a record's array, from which it is copied out.
pub fn count_row(
    starts: &[u16],
    links: &[u16],
    anchored: &[u8; 1024],
    level: &[u16; 1024],
    layer: &[u16; 1024],
    u: usize,
    reaching: bool,
) -> Counts
    requires admitted { Admitted starts.now links.now anchored.now }
    requires levels { Holds level.now (vertices starts.now) (level_of (graph_of starts.now links.now) (anchored_by anchored.now)) }
    requires layers { Holds layer.now (vertices starts.now) (layer_of (graph_of starts.now links.now) (anchored_by anchored.now)) }
    requires u_bound { u < vertices starts.now }
    ensures followers { result.followers ≡ follower_count (graph_of starts.now links.now) (anchored_by anchored.now) u }
    ensures reached { result.reached ≡ row_reached reaching (graph_of starts.now links.now) (anchored_by anchored.now) u }
{
    if anchored[u] == 1 {
        return Counts {
            followers: 65535,
            reached: 65535,
        };
    }
    let mut marks = [0u8; 1024];
    let found = search::search(starts, links, anchored, level, layer, u, &mut marks);
    Counts {
        followers: found.lifted as u16,
        reached: if reaching { found.reached as u16 } else { 0 },
    }
}
