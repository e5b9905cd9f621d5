//! `RouteNames`: the positions of the routes of a tree, by name.
//!
//! Invariant: each name has the position of the first route that has it. So a line that names a route costs one look-up, however
//! many routes there are.
ghost use Rattle.std.specs.Prelude.{◌≡◌, [], ◌∷◌, IfOk};
ghost use Rattle.am_alerts.specs.RoutingTree.{RoutingTree};
ghost use Rattle.am_session.specs.Row.{HasPositions, route_named};

use am_alerts::route::Routes;
use am_ghost::GhostList;
use am_seed::Seed;
use std::alloc::{AllocError, Global};
use std::collections::HashMap;
use std::marker::Model;

/// The positions of the routes of a tree, by name. Contracts see the tree, as a list of this one.
#[derive(Drop)]
pub struct RouteNames {
    positions: HashMap<String, u32, Seed>,
    tree: GhostList<Routes>,
}

impl Model for RouteNames {
    ghost use Rattle.std.specs.Coded.{codes};
    ghost use Rattle.std.specs.Prelude.{◌≡◌, List, [], ◌∷◌};
    ghost use Rattle.am_alerts.specs.Layout.{forest_code};
    ghost use Rattle.am_alerts.specs.RoutingTree.{RoutingTree};
    ghost use Rattle.am_session.specs.Row.{HasPositions};

    ghost Value = { List RoutingTree };

    ghost coded = { Prim.hlevel (codes, forest_code) };

    ghost view = { λ n. n.tree.items };

    ghost invariant = { λ n. (tree : RoutingTree) → n.tree.items ≡ tree ∷ [] → HasPositions tree n.positions };
}

impl RouteNames {
    /// Returns the names of the routes of a tree. Hashes start from the seed.
    ///
    /// # Errors
    ///
    /// `AllocError`: out of memory.
    pub fn of(alloc: Global, seed: Seed, routes: &Routes) -> Result<RouteNames, AllocError>
        ensures { IfOk result (λ names. names ≡ routes.now ∷ []) }
    {
        let positions = positions_of(alloc, seed, routes)?;
        let mut tree = GhostList::new();
        tree.add(routes);
        Ok(RouteNames { positions, tree })
    }

    /// Returns the position of the route of a name.
    pub fn find(&self, name: &str) -> Option<u32>
        ensures { (tree : RoutingTree) → self.now ≡ tree ∷ [] → result ≡ route_named tree name.now }
    {
        self.positions.get(name).copied()
    }
}

/// The position of the first route of each name. The root comes last, since its name counts before those of the others.
fn positions_of(
    alloc: Global,
    seed: Seed,
    routes: &Routes,
) -> Result<HashMap<String, u32, Seed>, AllocError>
    ensures { IfOk result (λ positions. HasPositions routes.now positions) }
{
    let mut positions = HashMap::with_hasher(alloc, seed);
    let children = routes.children();
    for index in (0..children.len()).rev() {
        let name = String::from_str(alloc, children[index].route.name.as_str())?;
        positions.insert(name, index as u32 + 1)?;
    }
    let root = String::from_str(alloc, routes.root().name.as_str())?;
    positions.insert(root, 0)?;
    Ok(positions)
}
