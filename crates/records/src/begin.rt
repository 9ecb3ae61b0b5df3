// The record at the start.
ghost use Rattle.std.specs.Prelude.{◌≡◌, [], ◌≤◌, length};
ghost use Rattle.table.specs.Table.{vertices};
ghost use Rattle.anchored.specs.Followers.{follower_count};
ghost use Rattle.pool.specs.Input.{graph_of, anchored_by, Admitted};
ghost use Rattle.pool.specs.Arrays.{Holds};
ghost use Rattle.stale.specs.Columns.{ColumnsOf};
ghost use Rattle.records.specs.Record.{row_reached, Keeps, session_of, Copied};

use super::Record;
use stale::Columns;

// The given bytes, with zeros after them.
fn pad(given: &[u8]) -> [u8; 1024]
    requires { length given.now ≤ 1024 }
    ensures { Copied given.now result }
{
    let mut anchored = [0; 1024];
    anchored[..given.len()].copy_from_slice(given);
    anchored
}

// The counts of every row, into the first n places.
fn count_rows(
    starts: &[u16],
    links: &[u16],
    anchored: &[u8; 1024],
    columns: &Columns,
    reaching: bool,
    followers: &mut [u16; 1024],
    reached: &mut [u16; 1024],
)
    requires admitted { Admitted starts.now links.now anchored.now }
    requires columns_of { ColumnsOf (graph_of starts.now links.now) (anchored_by anchored.now) columns.now }
    ensures followers { Holds followers.new (vertices starts.now) (follower_count (graph_of starts.now links.now) (anchored_by anchored.now)) }
    ensures reached { Holds reached.new (vertices starts.now) (row_reached reaching (graph_of starts.now links.now) (anchored_by anchored.now)) }
{
    let n = starts.len() - 1;
    for v in 0..n {
        let counts = super::afresh::count_row(
            starts,
            links,
            anchored,
            &columns.level,
            &columns.layer,
            v,
            reaching,
        );
        followers[v] = counts.followers;
        reached[v] = counts.reached;
    }
}

// The record of a session with no requests, with reached counts or without.
pub fn begin(starts: &[u16], links: &[u16], given: &[u8], reaching: bool) -> Record
    requires admitted { Admitted starts.now links.now given.now }
    requires given_len { length given.now ≡ vertices starts.now }
    ensures keeps { Keeps starts.now links.now result (session_of starts.now links.now given.now [] 0) }
    ensures reaching { result.reaching ≡ reaching }
{
    let anchored = pad(given);
    let columns = super::afresh::refresh(starts, links, &anchored);
    let mut bare = [0; 1024];
    super::afresh::fill_bare(starts, links, &mut bare);
    let mut followers = [0; 1024];
    let mut reached = [0; 1024];
    count_rows(
        starts,
        links,
        &anchored,
        &columns,
        reaching,
        &mut followers,
        &mut reached,
    );
    Record {
        anchored,
        columns,
        bare,
        followers,
        reaching,
        reached,
        stamp: [0; 1024],
    }
}
