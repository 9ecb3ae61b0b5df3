// Working the level sheet: vertices go in batches, from a queue, each in the shell of its level.
#![tactic(auto)]

ghost use Rattle.std.specs.Prelude.{◌≡◌, not, [], ◌∷◌, ◌+◌, ◌≤◌, ◌<◌, length, set};
ghost use Rattle.finite.specs.Count.{below, count};
ghost use Rattle.table.specs.Table.{vertices};
ghost use Rattle.pool.specs.Input.{graph_of, anchored_by, Admitted};
ghost use Rattle.pool.specs.Arrays.{Holds};
ghost use Rattle.pool.specs.Sheet.{Sheet};
ghost use Rattle.peel.specs.Peeling.{first_degree};
ghost use Rattle.peel.specs.Worksheet.{SameSheet, IsLong, PeelsTo, CanStrikeAll, StrikesAll, CanRemoveFrom, RemovesFrom, CanLookUp, LooksUp};

// The level sheet while it is worked, with the degrees that the vertices have left. The queue holds those that have a level: `tail` of them.
#[derive(Drop)]
struct Worksheet<'a> {
    degree: [u16; 1024],
    level: &'a mut [u16; 1024],
    layer: &'a mut [u16; 1024],
    queue: [u16; 1024],
    tail: usize,
}

impl<'a> Worksheet<'a> {
    // Gives v its level and its layer, and puts it at the end of the queue.
    fn settle(&mut self, v: usize, k: u16, number: u16)
        requires { (v < 1024) × (self.old.tail < 1024) }
        ensures same_sheet { SameSheet self.old self.new }
        ensures degree { self.new.degree ≡ self.old.degree }
        ensures level { self.new.level.now ≡ set self.old.level.now v k }
        ensures layer { self.new.layer.now ≡ set self.old.layer.now v number }
        ensures queue { self.new.queue ≡ set self.old.queue self.old.tail v }
        ensures tail { self.new.tail ≡ self.old.tail + 1 }
    {
        self.level[v] = k;
        self.layer[v] = number;
        self.queue[self.tail] = v as u16;
        self.tail += 1;
    }

    // Takes a removed neighbor from the degree of w, which goes in the next batch if that leaves it k neighbors. A degree of k or less
    // is that of a vertex which is anchored or has its level, and stays: no other array is read, and only the last test branches.
    fn strike(&mut self, w: usize, k: u16, turn: u16)
        requires turn_bound { turn ≤ 1024 }
        requires long { IsLong self.old }
        requires can_strike { CanStrikeAll self.old k turn (w ∷ []) }
        ensures same_sheet { SameSheet self.old self.new }
        ensures strikes { StrikesAll self.old self.new k turn (w ∷ []) }
    {
        let d = self.degree[w];
        self.degree[w] = d - (k < d) as u16;
        if d == k + 1 {
            self.settle(w, k, turn + 1);
        }
    }

    // Strikes every vertex of the part, the neighbors of a removed vertex.
    fn lower(&mut self, part: &[u16], k: u16, turn: u16)
        requires turn_bound { turn ≤ 1024 }
        requires long { IsLong self.old }
        requires can_strike { CanStrikeAll self.old k turn part.now }
        ensures same_sheet { SameSheet self.old self.new }
        ensures strikes { StrikesAll self.old self.new k turn part.now }
    {
        for w in part {
            self.strike(*w as usize, k, turn);
        }
    }

    // Removes the batch that stands in the queue from head on, and queues the next batch after it.
    fn batch(&mut self, starts: &[u16], links: &[u16], head: usize, k: u16, turn: u16)
        requires bounds { (head ≤ self.old.tail) × (turn ≤ 1024) }
        requires long { IsLong self.old }
        requires can_remove { CanRemoveFrom starts.now links.now self.old k turn head }
        ensures same_sheet { SameSheet self.old self.new }
        ensures removes { RemovesFrom starts.now links.now self.old self.new k turn head }
    {
        for i in head..self.tail {
            let part = table::neighbors(starts, links, self.queue[i] as usize);
            self.lower(part, k, turn);
        }
    }

    // Puts v into the first batch of shell k, if it has no more than k neighbors left: no vertex without a level has fewer than k, and
    // one with a level has a degree below k. An anchored one has degree 0.
    fn look(&mut self, anchored: &[u8], v: usize, k: u16)
        requires long { IsLong self.old }
        requires can_look { CanLookUp anchored.now self.old k v (v + 1) }
        ensures same_sheet { SameSheet self.old self.new }
        ensures looks { LooksUp anchored.now self.old self.new k v (v + 1) }
    {
        if self.degree[v] == k && anchored[v] != 1 {
            self.settle(v, k, 1);
        }
    }

    // Queues the first batch of shell k.
    fn seed(&mut self, anchored: &[u8], n: usize, k: u16)
        requires long { IsLong self.old }
        requires can_look { CanLookUp anchored.now self.old k 0 n }
        ensures same_sheet { SameSheet self.old self.new }
        ensures looks { LooksUp anchored.now self.old self.new k 0 n }
    {
        for v in 0..n {
            self.look(anchored, v, k);
        }
    }

    // Removes shell k, batch after batch.
    fn shell(&mut self, starts: &[u16], links: &[u16], anchored: &[u8], k: u16)
        requires admitted { Admitted starts.now links.now anchored.now }
        requires k_bound { k < 1024 }
        requires long { IsLong self.old }
        requires peels { PeelsTo (graph_of starts.now links.now) anchored.now self.old k }
        ensures same_sheet { SameSheet self.old self.new }
        ensures long { IsLong self.new }
        ensures peels { PeelsTo (graph_of starts.now links.now) anchored.now self.new (k + 1) }
    {
        let mut head = self.tail;
        self.seed(anchored, starts.len() - 1, k);
        let mut turn: u16 = 1;
        // The queue grows while it is read.
        while head < self.tail {
            let end = self.tail;
            self.batch(starts, links, head, k, turn);
            head = end;
            turn += 1;
        }
    }
}

// The number of neighbors of each vertex, 0 for an anchored one, into the first n places.
fn degrees(starts: &[u16], links: &[u16], anchored: &[u8], degree: &mut [u16; 1024])
    requires admitted { Admitted starts.now links.now anchored.now }
    ensures long { length degree.new ≡ 1024 }
    ensures holds { Holds degree.new (vertices starts.now) (first_degree (graph_of starts.now links.now) (anchored_by anchored.now)) }
{
    let n = starts.len() - 1;
    for (v, d) in degree[..n].iter_mut().enumerate() {
        let part = table::neighbors(starts, links, v);
        *d = if anchored[v] == 1 {
            0
        } else {
            part.len() as u16
        };
    }
}

// How many of n vertices are not anchored.
fn count_free(anchored: &[u8], n: usize) -> usize
    requires { n ≤ length anchored.now }
    ensures { result ≡ count (λ v. not (anchored_by anchored.now v)) (below n) }
{
    anchored[..n].iter().filter(|a| **a != 1).count()
}

// Levels and layers of every vertex, into the first n places; 65,535 and 0 for an anchored one.
pub fn peel(
    starts: &[u16],
    links: &[u16],
    anchored: &[u8],
    level: &mut [u16; 1024],
    layer: &mut [u16; 1024],
)
    requires { Admitted starts.now links.now anchored.now }
    ensures { Sheet starts.now links.now anchored.now level.new layer.new }
{
    level.fill(65535);
    layer.fill(0);
    let mut sheet = Worksheet {
        degree: [0; 1024],
        level,
        layer,
        queue: [0; 1024],
        tail: 0,
    };
    degrees(starts, links, anchored, &mut sheet.degree);
    let free = count_free(anchored, starts.len() - 1);
    let mut k: u16 = 0;
    // How many shells there are shows only as they go.
    while sheet.tail < free {
        sheet.shell(starts, links, anchored, k);
        k += 1;
    }
}
