// Working the sheet of a table: levels, layers and components into slices of n.
ghost use Rattle.std.specs.Prelude.{◌≡◌, [], ◌∷◌, map, length, Ok, Err};
ghost use Rattle.finite.specs.Count.{tabulate};
ghost use Rattle.table.specs.Table.{vertices};
ghost use Rattle.table.specs.Size.{size_of};
ghost use Rattle.table.specs.Guard.{answer, held};
ghost use Rattle.anchored.specs.Core.{level as level_of, layer as layer_of};
ghost use Rattle.anchored.specs.Component.{component as component_of};
ghost use Rattle.pool.specs.Input.{graph_of, anchored_by, Admitted};
ghost use Rattle.pool.specs.Arrays.{Holds};
ghost use Rattle.pool.specs.Lengths.{slices_of};

use table::{Refusal, Size};

// Levels, layers and components of an admitted table, into the first n places of scratch arrays.
pub fn fill(
    starts: &[u16],
    links: &[u16],
    anchored: &[u8],
    level: &mut [u16; 1024],
    layer: &mut [u16; 1024],
    component: &mut [u16; 1024],
)
    requires { Admitted starts.now links.now anchored.now }
    ensures levels { Holds level.new (vertices starts.now) (level_of (graph_of starts.now links.now) (anchored_by anchored.now)) }
    ensures layers { Holds layer.new (vertices starts.now) (layer_of (graph_of starts.now links.now) (anchored_by anchored.now)) }
    ensures components { Holds component.new (vertices starts.now) (component_of (graph_of starts.now links.now) (anchored_by anchored.now)) }
{
    peel::peel(starts, links, anchored, level, layer);
    flood::flood(starts, links, anchored, &level[..], component);
}

// Levels, layers and components of an admitted table, into slices of n.
fn write_sheet(
    starts: &[u16],
    links: &[u16],
    anchored: &[u8],
    levels: &mut [u16],
    layers: &mut [u16],
    components: &mut [u16],
)
    requires admitted { Admitted starts.now links.now anchored.now }
    requires levels_len { length levels.old ≡ vertices starts.now }
    requires layers_len { length layers.old ≡ vertices starts.now }
    requires components_len { length components.old ≡ vertices starts.now }
    ensures levels { levels.new ≡ tabulate (level_of (graph_of starts.now links.now) (anchored_by anchored.now)) (vertices starts.now) }
    ensures layers { layers.new ≡ tabulate (layer_of (graph_of starts.now links.now) (anchored_by anchored.now)) (vertices starts.now) }
    ensures components { components.new ≡ tabulate (component_of (graph_of starts.now links.now) (anchored_by anchored.now)) (vertices starts.now) }
{
    let mut level = [0u16; 1024];
    let mut layer = [0u16; 1024];
    let mut component = [0u16; 1024];
    fill(
        starts,
        links,
        anchored,
        &mut level,
        &mut layer,
        &mut component,
    );
    pool::lent::copy(&level, levels);
    pool::lent::copy(&layer, layers);
    pool::lent::copy(&component, components);
}

// Levels, layers and components of a table with anchored vertices, into the slices, and its size; a refusal leaves the slices as they are.
pub fn work(
    starts: &[u16],
    links: &[u16],
    anchored: &[u8],
    levels: &mut [u16],
    layers: &mut [u16],
    components: &mut [u16],
) -> Result<Size, Refusal>
    ensures { let G = graph_of starts.now links.now in
        let A = anchored_by anchored.now in
        let guard = slices_of starts.now links.now anchored.now (map length (levels.old ∷ layers.old ∷ components.old ∷ [])) in
        (result ≡ answer guard (Ok (size_of starts.now links.now)) Err)
        × (levels.new ≡ held guard (tabulate (level_of G A) G.size) levels.old)
        × (layers.new ≡ held guard (tabulate (layer_of G A) G.size) layers.old)
        × (components.new ≡ held guard (tabulate (component_of G A) G.size) components.old) }
{
    let lengths = [levels.len(), layers.len(), components.len()];
    pool::lent::admit_slices(starts, links, anchored, &lengths)?;
    let size = Size::measure(starts, links);
    write_sheet(starts, links, anchored, levels, layers, components);
    Ok(size)
}
