// The size of a table: how many edges it has, and the greatest degree.
ghost use Rattle.std.specs.Prelude.{◌≡◌};

#[derive(Clone, Copy, Debug, PartialEq, Eq)]
pub struct Size {
    pub edges: usize,
    pub max_degree: usize,
}

impl Size {
    ghost use Rattle.table.specs.Table.{SoundTable};
    ghost use Rattle.table.specs.Size.{size_of};

    // The degrees of all vertices together are twice the edges.
    pub fn measure(starts: &[u16], links: &[u16]) -> Size
        requires { SoundTable starts.now links.now }
        ensures { result ≡ size_of starts.now links.now }
    {
        let mut degrees: usize = 0;
        let mut max_degree: usize = 0;
        for v in 0..starts.len() - 1 {
            let degree = crate::neighbors(starts, links, v).len();
            degrees += degree;
            max_degree = max_degree.max(degree);
        }
        Size {
            edges: degrees / 2,
            max_degree,
        }
    }
}
