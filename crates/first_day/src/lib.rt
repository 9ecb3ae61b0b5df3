// The first day under k as an operation: it tests its input, then looks for the day.
#![tactic(auto)]

ghost use Rattle.std.specs.Prelude.{◌≡◌, ◌≤◌, length, Ok, Err};
ghost use Rattle.finite.specs.Search.{found};
ghost use Rattle.table.specs.Size.{size_of};
ghost use Rattle.table.specs.Guard.{answer};
ghost use Rattle.anchored.specs.Terms.{terms, first_under};
ghost use Rattle.pool.specs.Input.{graph_of};
ghost use Rattle.first_day.specs.Answers.{empty_term, lists_of, first_day_of, day_of};

use table::{Refusal, Rule, Size, refuse, test_table};

// The first term whose end is not after its first day.
fn first_empty_term(firsts: &[u16], ends: &[u16]) -> Option<usize>
    requires { length firsts.now ≤ length ends.now }
    ensures { result ≡ found (empty_term firsts.now ends.now) (length firsts.now) }
{
    firsts
        .iter()
        .zip(ends)
        .position(|(first, end)| end <= first)
}

// Refusals 9, 15, 24 and 25 of the terms and of x, with n vertices.
fn test_lists(
    n: usize,
    vertices: &[u16],
    firsts: &[u16],
    ends: &[u16],
    x: usize,
) -> Result<(), Refusal>
    ensures { result ≡ lists_of n vertices.now firsts.now ends.now x }
{
    let rest = [firsts.len(), ends.len()];
    if !pool::lent::all_are(&rest, vertices.len()) {
        return Err(Refusal::new(Rule::Length, 0));
    }
    if let Some(i) = pool::lent::first_outside(vertices, n) {
        return Err(Refusal::new(Rule::NoVertex, vertices[i] as usize));
    }
    if n <= x {
        return Err(Refusal::new(Rule::NoVertex, x));
    }
    if 256 < vertices.len() {
        return Err(Refusal::new(Rule::ManyTerms, 0));
    }
    refuse(Rule::EmptyTerm, first_empty_term(firsts, ends))
}

// The refusals of a call.
fn test_terms(
    starts: &[u16],
    links: &[u16],
    vertices: &[u16],
    firsts: &[u16],
    ends: &[u16],
    x: usize,
) -> Result<(), Refusal>
    ensures { result ≡ first_day_of starts.now links.now vertices.now firsts.now ends.now x }
{
    test_table(starts, links)?;
    test_lists(starts.len() - 1, vertices, firsts, ends, x)
}

// The first day of the span, its end left out, on which the level of x is under k, if there is one: vertices are anchored by term, and by
// nothing else. With it the size of the table.
pub fn first_day(
    starts: &[u16],
    links: &[u16],
    vertices: &[u16],
    firsts: &[u16],
    ends: &[u16],
    from: u16,
    until: u16,
    x: usize,
    k: u16,
) -> Result<(Option<u16>, Size), Refusal>
    ensures { let day = first_under (terms vertices.now firsts.now ends.now) (graph_of starts.now links.now) x k from until in
        result ≡ answer (first_day_of starts.now links.now vertices.now firsts.now ends.now x) (Ok (day_of day until (size_of starts.now links.now))) Err }
{
    test_terms(starts, links, vertices, firsts, ends, x)?;
    let size = Size::measure(starts, links);
    let day = terms::first_under(starts, links, vertices, firsts, ends, from, until, x, k);
    Ok((day, size))
}
