// The adjacency table, in two lent slices: its check, refusals 1 to 8, and the neighbors of a vertex.
#![tactic(auto)]

ghost use Rattle.std.specs.Prelude.{◌≡◌, ◌<◌, Ok, Err};
ghost use Rattle.table.specs.Table.{vertices, links_of, check_of, Framed};
ghost use Rattle.table.specs.Table.{neighbors as neighbors_of};
ghost use Rattle.table.specs.Size.{size_of};
ghost use Rattle.table.specs.Guard.{answer};

mod paired; // the one pass that a sound table passes
pub mod part; // one vertex's neighbors
pub mod refusal; // what a call refuses
mod rules; // the rules of starts and of one vertex's neighbors
pub mod size; // edges and the greatest degree

pub use refusal::{Refusal, Rule, refuse};
use rules::{first_bad_start, first_unreturned, is_beyond, is_looped, is_unsorted};
pub use size::Size;

// The neighbors of v: the links from place start v up to, not including, start v + 1.
pub fn neighbors<'a, 'b>(starts: &'a [u16], links: &'b [u16], v: usize) -> &'b [u16]
    requires framed { Framed starts.now links.now }
    requires v_bound { v < vertices starts.now }
    ensures { result.now ≡ neighbors_of starts.now links.now v }
{
    let a = starts[v] as usize;
    let b = starts[v + 1] as usize;
    &links[a..b]
}

// Refusals 5 to 8 of a table whose starts are in order.
fn test_links(starts: &[u16], links: &[u16]) -> Result<(), Refusal>
    requires { Framed starts.now links.now }
    ensures { result ≡ links_of starts.now links.now }
{
    let n = starts.len() - 1;
    refuse(Rule::Beyond, (0..n).find(|v| is_beyond(starts, links, *v)))?;
    refuse(Rule::Loop, (0..n).find(|v| is_looped(starts, links, *v)))?;
    refuse(
        Rule::Unsorted,
        (0..n).find(|v| is_unsorted(starts, links, *v)),
    )?;
    refuse(Rule::Unreturned, first_unreturned(starts, links))
}

// Refusals 1 to 8: the lowest number first, each tested over the whole table.
pub fn test_table(starts: &[u16], links: &[u16]) -> Result<(), Refusal>
    ensures { result ≡ check_of starts.now links.now }
{
    if starts.is_empty() {
        return Err(Refusal::new(Rule::NoStarts, 0));
    }
    if 1024 < starts.len() - 1 {
        return Err(Refusal::new(Rule::ManyVertices, 0));
    }
    if 16384 < links.len() {
        return Err(Refusal::new(Rule::ManyLinks, 0));
    }
    refuse(Rule::Starts, first_bad_start(starts, links))?;
    if paired::all_paired(starts, links) {
        return Ok(());
    }
    test_links(starts, links)
}

// The check of a table: its size.
pub fn check(starts: &[u16], links: &[u16]) -> Result<Size, Refusal>
    ensures { result ≡ answer (check_of starts.now links.now) (Ok (size_of starts.now links.now)) Err }
{
    test_table(starts, links)?;
    Ok(Size::measure(starts, links))
}
