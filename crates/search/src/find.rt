// The follower search: candidates along upstair walks, then those of too little support struck out.
ghost use Rattle.std.specs.Prelude.{◌≡◌, ◌<◌, get_or};
ghost use Rattle.table.specs.Table.{vertices};
ghost use Rattle.anchored.specs.Followers.{mark as mark_of};
ghost use Rattle.anchored.specs.Followers.{followers as followers_of, reached as reached_of};
ghost use Rattle.pool.specs.Input.{graph_of, anchored_by};
ghost use Rattle.pool.specs.Arrays.{Holds};
ghost use Rattle.pool.specs.Sheet.{Sheet};

use candidates::Queue;
use support::Support;

// How many the search lifts, and how many it reaches.
#[derive(Clone, Copy, Debug, PartialEq, Eq)]
pub struct Found {
    pub lifted: usize,
    pub reached: usize,
}

// The search from x on the defined sheet: the marks into the first n places, and both counts.
pub fn search(
    starts: &[u16],
    links: &[u16],
    anchored: &[u8],
    levels: &[u16],
    layers: &[u16],
    x: usize,
    marks: &mut [u8; 1024],
) -> Found
    requires sheet { Sheet starts.now links.now anchored.now levels.now layers.now }
    requires x_bound { x < vertices starts.now }
    requires x_value { get_or anchored.now x 0 ≡ 0 }
    ensures marks { Holds marks.new (vertices starts.now) (mark_of (graph_of starts.now links.now) (anchored_by anchored.now) x) }
    ensures lifted { result.lifted ≡ followers_of (graph_of starts.now links.now) (anchored_by anchored.now) x }
    ensures reached { result.reached ≡ reached_of (graph_of starts.now links.now) (anchored_by anchored.now) x }
{
    let mut queue = Queue::new();
    let mut support = Support::new();
    *marks = [0u8; 1024];
    candidates::reach(
        starts, links, anchored, levels, layers, x, marks, &mut queue,
    );
    support::weigh(
        starts,
        links,
        anchored,
        levels,
        x,
        &queue,
        marks,
        &mut support,
    );
    support::settle(starts, links, levels, marks, &mut support);
    let reached = queue.tail;
    let lifted = reached - support.struck.tail;
    Found { lifted, reached }
}
