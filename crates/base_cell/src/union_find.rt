// A union-find over the primitive sites: each has a parent that is not after it, and a root is its own.
ghost use Rattle.std.specs.Prelude.{◌≤◌, ◌<◌, ◌≡◌, length};
ghost use Rattle.definitions.specs.Limits.{most_sites};
ghost use Rattle.definitions.specs.Lists.{up_to};
ghost use Rattle.definitions.specs.Orbit.{Step};
ghost use Rattle.definitions.specs.SiteCalls.{permutations_in};
ghost use Rattle.base_cell.specs.Given.{arguments_of};
ghost use Rattle.base_cell.specs.Classes.{Decides};
ghost use Rattle.base_cell.specs.Trees.{Forest, root, Flat, Linked, Pair, Along};

use crate::labels::Grouping;
use definitions::PrimSite;
use definitions::limits::MOST_SITES;

// The root of each site.
pub(crate) type Sites = [u8; MOST_SITES];

// The parent of each site. A call names a site by its number, its place in the table: as a byte it would need no bound,
// but cutting places to bytes makes the joining, the hot loop, a fifth slower.
#[derive(Drop)]
struct SiteForest {
    parent: [u8; MOST_SITES],
    ghost tree: { Forest most_sites parent },
}

impl SiteForest {
    // Each site its own root.
    fn each_alone() -> Self
        ensures { result.parent ≡ up_to most_sites }
    {
        let mut parent = [0u8; MOST_SITES];
        // no `iter_mut`: what the loop keeps of a table cannot be said while the table is lent
        for i in 0..MOST_SITES {
            parent[i] = i as u8;
        }
        SiteForest { parent }
    }

    // The root of site i.
    fn find(&self, i: PrimSite) -> PrimSite
        requires { i.0 < most_sites }
        ensures { (result.0 ≡ root self.now.parent i.0) × (result.0 < most_sites) }
    {
        let mut at = i.0;
        let mut up = usize::from(self.parent[at]);
        while up < at {
            at = up;
            up = usize::from(self.parent[at]);
        }
        PrimSite(at)
    }

    // The tree of i and that of j become one: the root that comes later under the other, and i and j directly below it,
    // so that later ways up are short. Sites of one parent are of one tree already.
    fn union(&mut self, i: PrimSite, j: PrimSite)
        requires { (i.0 < most_sites) × (j.0 < most_sites) }
        ensures { Linked most_sites (Pair i.0 j.0) self.old.parent self.new.parent }
    {
        let p = i.0;
        let q = j.0;
        if self.parent[p] == self.parent[q] {
            return;
        }
        let a = self.find(i);
        let b = self.find(j);
        let x = a.0;
        let y = b.0;
        if x < y {
            let top = x as u8;
            self.parent[y] = top;
            self.parent[q] = top;
            self.parent[p] = top;
        } else {
            let top = y as u8;
            self.parent[x] = top;
            self.parent[p] = top;
            self.parent[q] = top;
        }
    }

    // Each site with its image.
    fn join_images(&mut self, p: &[u8])
        requires { length p.now ≤ most_sites }
        ensures { Linked most_sites (Along p.now) self.old.parent self.new.parent }
    {
        for (i, image) in p.iter().enumerate() {
            self.union(PrimSite(i), PrimSite(usize::from(*image)));
        }
    }

    // Each site with its image under each of the permutations.
    fn join_all(&mut self, x: &Grouping)
        ensures { Linked most_sites (Step (permutations_in (arguments_of x.now.labelling)))
            self.old.parent self.new.parent }
    {
        let n = x.labelling.sites;
        // no `chunks_exact`, which takes no length 0: there may be no sites
        for o in 0..x.labelling.count {
            let at = o * n;
            self.join_images(&x.labelling.images[at..at + n]);
        }
    }

    // Each site's parent becomes its root: a parent comes earlier and has its root by then.
    fn flatten(self) -> Sites
        ensures { Flat most_sites self.parent result }
    {
        let mut roots = self.parent;
        for i in 0..MOST_SITES {
            roots[i] = roots[usize::from(roots[i])];
        }
        roots
    }
}

// moyo's `orbits_from_permutations`: two sites have one root just if the permutations join them.
pub(crate) fn orbits_from_permutations(x: &Grouping) -> Sites
    ensures { Decides most_sites (permutations_in (arguments_of x.now.labelling)) result }
{
    let mut forest = SiteForest::each_alone();
    forest.join_all(x);
    forest.flatten()
}
