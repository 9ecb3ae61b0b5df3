// Levels, layers, components; the check of a sheet; the search, its ceiling; the collapse. `tells` is what the number that answers the check tells of the sheet.
ghost use Rattle.std.specs.Prelude.{◌≡◌, [], ◌∷◌, map, length, Ok, Err};
ghost use Rattle.finite.specs.Count.{tabulate, count, below};
ghost use Rattle.table.specs.Size.{size_of};
ghost use Rattle.table.specs.Guard.{answer, held, front};
ghost use Rattle.anchored.specs.Core.{level, layer};
ghost use Rattle.anchored.specs.Component.{component, heads};
ghost use Rattle.anchored.specs.Followers.{followers, reached};
ghost use Rattle.anchored.specs.Ceiling.{ceiling};
ghost use Rattle.pool.specs.Input.{graph_of, anchored_by};
ghost use Rattle.level_sheet.specs.SheetCheck.{check_sheet_of, Tells};
ghost use Rattle.marking.specs.Marking.{marking_of};
ghost use Rattle.pool.specs.Lengths.{slices_of};
ghost use Rattle.components.specs.Answers.{numbers_of, levels_of, sizes_of, list_of};
ghost use Rattle.search.specs.Answers.{search_of, marks_of, followers_of};
ghost use Rattle.ceiling.specs.Answers.{ceiling_of};
ghost use Rattle.collapse.specs.Answers.{fall_marks_of};
ghost use Rattle.numbers.specs.Numbers.{accepted_as, refused_as};
ghost use Rattle.numbers.specs.Numbers.{worked_as, listed_as, levels_as, searched_as, bounded_as, collapsed_as};

use numbers::Answer;

#[unsafe(no_mangle)]
pub extern "C" fn planner_work(
    starts: &[u16],
    links: &[u16],
    anchored: &[u8],
    levels: &mut [u16],
    layers: &mut [u16],
    components: &mut [u16],
) -> Answer
    ensures fact { let G = graph_of starts.now links.now in
        let A = anchored_by anchored.now in
        let guard = slices_of starts.now links.now anchored.now (map length (levels.old ∷ layers.old ∷ components.old ∷ [])) in
        (result ≡ answer guard (accepted_as 0 0 (size_of starts.now links.now)) refused_as)
        × (levels.new ≡ held guard (tabulate (level G A) G.size) levels.old)
        × (layers.new ≡ held guard (tabulate (layer G A) G.size) layers.old)
        × (components.new ≡ held guard (tabulate (component G A) G.size) components.old) }
    ensures told { let guard = slices_of starts.now links.now anchored.now (map length (levels.old ∷ layers.old ∷ components.old ∷ [])) in
        result ≡ worked_as (answer guard (Ok (size_of starts.now links.now)) Err) }
{
    Answer::from(level::work::work(starts, links, anchored, levels, layers, components))
}

#[unsafe(no_mangle)]
pub extern "C" fn planner_list_components(
    starts: &[u16],
    links: &[u16],
    anchored: &[u8],
    levels: &mut [u16],
    sizes: &mut [u16],
    numbers: &mut [u16],
) -> Answer
    ensures fact { let guard = slices_of starts.now links.now anchored.now (map length (levels.old ∷ sizes.old ∷ numbers.old ∷ [])) in
        let G = graph_of starts.now links.now in
        (result ≡ answer guard (accepted_as (count (heads G (anchored_by anchored.now)) (below G.size)) 0 (size_of starts.now links.now)) refused_as)
        × (levels.new ≡ held guard (front (levels_of starts.now links.now anchored.now) levels.old) levels.old)
        × (sizes.new ≡ held guard (front (sizes_of starts.now links.now anchored.now) sizes.old) sizes.old)
        × (numbers.new ≡ held guard (front (numbers_of starts.now links.now anchored.now) numbers.old) numbers.old) }
    ensures told { result ≡ listed_as (list_of starts.now links.now anchored.now (map length (levels.old ∷ sizes.old ∷ numbers.old ∷ []))) }
{
    Answer::from(components::list_components(starts, links, anchored, levels, sizes, numbers))
}

#[unsafe(no_mangle)]
pub extern "C" fn planner_check_sheet(
    starts: &[u16],
    links: &[u16],
    anchored: &[u8],
    levels: &[u16],
    layers: &[u16],
) -> Answer
    ensures answer { result ≡ answer (check_sheet_of starts.now links.now anchored.now levels.now layers.now) (accepted_as 0 0 (size_of starts.now links.now)) refused_as }
    ensures told { result ≡ levels_as (answer (check_sheet_of starts.now links.now anchored.now levels.now layers.now) (Ok (size_of starts.now links.now)) Err) }
    ensures tells { Tells starts.now links.now anchored.now levels.now layers.now result.number }
{
    Answer::from(level_sheet::check::check_sheet(starts, links, anchored, levels, layers))
}

#[unsafe(no_mangle)]
pub extern "C" fn planner_followers(
    starts: &[u16],
    links: &[u16],
    anchored: &[u8],
    levels: &[u16],
    layers: &[u16],
    x: usize,
    marks: &mut [u8],
) -> Answer
    ensures fact { let G = graph_of starts.now links.now in
        let A = anchored_by anchored.now in
        let guard = search_of starts.now links.now anchored.now levels.now layers.now x (length marks.old) in
        (result ≡ answer guard (accepted_as (followers G A x) (reached G A x) (size_of starts.now links.now)) refused_as)
        × (marks.new ≡ held guard (marks_of starts.now links.now anchored.now x) marks.old) }
    ensures told { result ≡ searched_as (followers_of starts.now links.now anchored.now levels.now layers.now x (length marks.old)) }
{
    Answer::from(search::followers(starts, links, anchored, levels, layers, x, marks))
}

#[unsafe(no_mangle)]
pub extern "C" fn planner_ceiling(
    starts: &[u16],
    links: &[u16],
    anchored: &[u8],
    levels: &[u16],
    layers: &[u16],
    x: usize,
) -> Answer
    ensures answer { let guard = ceiling_of starts.now links.now anchored.now levels.now layers.now x in
        let G = graph_of starts.now links.now in
        result ≡ answer guard (accepted_as (ceiling G (anchored_by anchored.now) x) 0 (size_of starts.now links.now)) refused_as }
    ensures told { let guard = ceiling_of starts.now links.now anchored.now levels.now layers.now x in
        let G = graph_of starts.now links.now in
        result ≡ bounded_as (answer guard (Ok (ceiling G (anchored_by anchored.now) x, size_of starts.now links.now)) Err) }
{
    Answer::from(ceiling::ceiling(starts, links, anchored, levels, layers, x))
}

#[unsafe(no_mangle)]
pub extern "C" fn planner_collapse(
    starts: &[u16],
    links: &[u16],
    anchored: &[u8],
    levels: &[u16],
    layers: &[u16],
    x: usize,
    marks: &mut [u8],
) -> Answer
    ensures fact { let guard = marking_of starts.now links.now anchored.now levels.now layers.now x (length marks.old) in
        (result ≡ answer guard (accepted_as 0 0 (size_of starts.now links.now)) refused_as)
        × (marks.new ≡ held guard (fall_marks_of starts.now links.now anchored.now x) marks.old) }
    ensures told { let guard = marking_of starts.now links.now anchored.now levels.now layers.now x (length marks.old) in
        result ≡ collapsed_as (answer guard (Ok (size_of starts.now links.now)) Err) }
{
    Answer::from(collapse::collapse(starts, links, anchored, levels, layers, x, marks))
}
