// Vertices anchored by term: the first day of a span on which a level is under k.
#![tactic(auto)]

ghost use Rattle.std.specs.Prelude.{◌≡◌, ◌&&◌, ◌<◌, length, ltb};
ghost use Rattle.table.specs.Table.{vertices as vertices_in, SoundTable};
ghost use Rattle.anchored.specs.Core.{level as level_of};
ghost use Rattle.anchored.specs.Terms.{terms, next_end, runs as runs_of, first_under};
ghost use Rattle.pool.specs.Input.{graph_of, anchored_by, Admitted};
ghost use Rattle.terms.specs.Days.{TermsBelow, Shows, day_before};

// Terms, in three lists of one length: term i anchors vertex `vertices[i]` from day `firsts[i]` on, and no longer on day `ends[i]`.
#[derive(Clone, Copy)]
struct Terms<'a> {
    vertices: &'a [u16],
    firsts: &'a [u16],
    ends: &'a [u16],
}

impl<'a> Terms<'a> {
    // Whether term i runs on a day.
    fn runs(&self, day: u16, i: usize) -> bool
        requires i_in_bounds { i < length self.now.firsts.now }
        requires i_in_bounds_2 { i < length self.now.ends.now }
        ensures { result ≡ runs_of (terms self.now.firsts.now self.now.firsts.now self.now.ends.now) day i }
    {
        self.firsts[i] <= day && day < self.ends[i]
    }

    // The bytes of a day: 1 for each vertex with a term that runs.
    fn set_anchors(&self, day: u16, bytes: &mut [u8; 1024])
        requires terms_below { TermsBelow 1024 (terms self.now.vertices.now self.now.firsts.now self.now.ends.now) }
        requires shows { Shows (terms self.now.vertices.now self.now.firsts.now self.now.ends.now) day bytes.old 0 }
        ensures { Shows (terms self.now.vertices.now self.now.firsts.now self.now.ends.now) day bytes.new (length self.now.vertices.now) }
    {
        for (i, v) in self.vertices.iter().enumerate() {
            if self.runs(day, i) {
                bytes[*v as usize] = 1;
            }
        }
    }
}

// Whether the level of x is under k.
fn is_under(starts: &[u16], links: &[u16], anchored: &[u8; 1024], x: usize, k: u16) -> bool
    requires admitted { Admitted starts.now links.now anchored.now }
    requires x_bound { x < vertices_in starts.now }
    ensures { result ≡ ltb (level_of (graph_of starts.now links.now) (anchored_by anchored.now) x) k }
{
    let mut level = [0u16; 1024];
    let mut layer = [0u16; 1024];
    peel::peel(starts, links, anchored, &mut level, &mut layer);
    pool::pair::is_lower(level[x], k)
}

// The first day after this one on which a term ends, or the end of the span.
fn next_end(ends: &[u16], day: u16, until: u16) -> u16
    requires { day < until }
    ensures { result ≡ next_end ends.now day until }
{
    let mut next = until;
    for end in ends {
        if day < *end && *end < next {
            next = *end;
        }
    }
    next
}

// The first day of the span, its end left out, on which the level of x is under k. Levels fall only on days on which some term ends, so
// these are worked out, and the span's first.
pub fn first_under(
    starts: &[u16],
    links: &[u16],
    vertices: &[u16],
    firsts: &[u16],
    ends: &[u16],
    from: u16,
    until: u16,
    x: usize,
    k: u16,
) -> Option<u16>
    requires sound_table { SoundTable starts.now links.now }
    requires terms_below { TermsBelow (vertices_in starts.now) (terms vertices.now firsts.now ends.now) }
    requires x_bound { x < vertices_in starts.now }
    ensures { result ≡ day_before until (first_under (terms vertices.now firsts.now ends.now) (graph_of starts.now links.now) x k from until) }
{
    let terms = Terms {
        vertices,
        firsts,
        ends,
    };
    let mut day = from;
    // the days looked at are not evenly apart
    while day < until {
        let mut anchored = [0u8; 1024];
        terms.set_anchors(day, &mut anchored);
        if is_under(starts, links, &anchored, x, k) {
            return Some(day);
        }
        day = next_end(ends, day, until);
    }
    None
}
