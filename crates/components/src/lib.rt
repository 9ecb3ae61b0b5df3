// The list of components: each once, as level, size and number, by falling level, then by rising number.
#![tactic(auto)]

ghost use Rattle.std.specs.Prelude.{◌≡◌, [], ◌∷◌, map, ◌≤◌, length, get_or};
ghost use Rattle.finite.specs.Count.{count as count_in, below};
ghost use Rattle.table.specs.Table.{vertices};
ghost use Rattle.table.specs.Guard.{held, front};
ghost use Rattle.anchored.specs.Component.{heads};
ghost use Rattle.pool.specs.Input.{graph_of, anchored_by, Admitted};
ghost use Rattle.pool.specs.Arrays.{Holds};
ghost use Rattle.pool.specs.Lengths.{slices_of};
ghost use Rattle.components.specs.Answers.{list_of, numbers_of, levels_of, sizes_of};
ghost use Rattle.ranking.specs.Ranking.{ranked_in, Low};
ghost use Rattle.components.specs.Entries.{members, Placed};

use table::{Refusal, Size};

// How many of n vertices have each component number, at the number's place. An anchored vertex has 65,535, which is no place.
fn count_members(n: usize, component: &[u16; 1024], size: &mut [u16; 1024])
    requires { n ≤ 1024 }
    ensures { Holds size.new n (members component.now n) }
{
    *size = [0; 1024];
    for number in &component[..n] {
        let number = *number as usize;
        if number < n {
            size[number] += 1;
        }
    }
}

// Puts the values of the numbers at the front of a slice. By index, since a proof knows nothing of what a zipped `iter_mut` writes.
fn gather(numbers: &[u16], value: &[u16; 1024], out: &mut [u16])
    requires numbers_in_bounds { length numbers.now ≤ length out.old }
    requires placed { Placed (length numbers.now) numbers.now }
    ensures { out.new ≡ front (map (λ v. get_or value.now v 0) numbers.now) out.old }
{
    for (i, v) in numbers.iter().enumerate() {
        out[i] = value[*v as usize];
    }
}

// Lists the components in order, with level and size. The result is how many there are.
fn list(
    n: usize,
    level: &[u16; 1024],
    component: &[u16; 1024],
    size: &[u16; 1024],
    levels: &mut [u16],
    sizes: &mut [u16],
    numbers: &mut [u16],
) -> usize
    requires n_bound { n ≤ 1024 }
    requires low { Low level.now component.now n }
    requires levels_len { (length levels.old ≡ n) × (length sizes.old ≡ n) × (length numbers.old ≡ n) }
    requires n_len_bound { length (ranked_in level.now component.now n n) ≤ n }
    ensures count { result ≡ length (ranked_in level.now component.now n n) }
    ensures levels { levels.new ≡ front (map (λ v. get_or level.now v 0) (ranked_in level.now component.now n n)) levels.old }
    ensures sizes { sizes.new ≡ front (map (λ v. get_or size.now v 0) (ranked_in level.now component.now n n)) sizes.old }
    ensures numbers { numbers.new ≡ front (ranked_in level.now component.now n n) numbers.old }
{
    let count = ranking::rank(n, level, component, numbers);
    let listed = &numbers[..count];
    gather(listed, level, levels);
    gather(listed, size, sizes);
    count
}

// The list of an admitted table's components, into slices of n. The result is how many there are.
fn write_list(
    starts: &[u16],
    links: &[u16],
    anchored: &[u8],
    levels: &mut [u16],
    sizes: &mut [u16],
    numbers: &mut [u16],
) -> usize
    requires admitted { Admitted starts.now links.now anchored.now }
    requires levels_len { (length levels.old ≡ vertices starts.now) × (length sizes.old ≡ vertices starts.now) × (length numbers.old ≡ vertices starts.now) }
    ensures count { result ≡ count_in (heads (graph_of starts.now links.now) (anchored_by anchored.now)) (below (vertices starts.now)) }
    ensures levels { levels.new ≡ front (levels_of starts.now links.now anchored.now) levels.old }
    ensures sizes { sizes.new ≡ front (sizes_of starts.now links.now anchored.now) sizes.old }
    ensures numbers { numbers.new ≡ front (numbers_of starts.now links.now anchored.now) numbers.old }
{
    let mut level = [0u16; 1024];
    let mut layer = [0u16; 1024];
    let mut component = [0u16; 1024];
    let mut size = [0u16; 1024];
    let n = starts.len() - 1;
    level::work::fill(
        starts,
        links,
        anchored,
        &mut level,
        &mut layer,
        &mut component,
    );
    count_members(n, &component, &mut size);
    list(n, &level, &component, &size, levels, sizes, numbers)
}

// Lists the components of a table with anchored vertices: how many there are, with the size of the table; places past the list, and at a refusal all, keep their contents.
pub fn list_components(
    starts: &[u16],
    links: &[u16],
    anchored: &[u8],
    levels: &mut [u16],
    sizes: &mut [u16],
    numbers: &mut [u16],
) -> Result<(usize, Size), Refusal>
    ensures { let lengths = map length (levels.old ∷ sizes.old ∷ numbers.old ∷ []) in
        let guard = slices_of starts.now links.now anchored.now lengths in
        (result ≡ list_of starts.now links.now anchored.now lengths)
        × (levels.new ≡ held guard (front (levels_of starts.now links.now anchored.now) levels.old) levels.old)
        × (sizes.new ≡ held guard (front (sizes_of starts.now links.now anchored.now) sizes.old) sizes.old)
        × (numbers.new ≡ held guard (front (numbers_of starts.now links.now anchored.now) numbers.old) numbers.old) }
{
    let lengths = [levels.len(), sizes.len(), numbers.len()];
    pool::lent::admit_slices(starts, links, anchored, &lengths)?;
    let size = Size::measure(starts, links);
    let count = write_list(starts, links, anchored, levels, sizes, numbers);
    Ok((count, size))
}
