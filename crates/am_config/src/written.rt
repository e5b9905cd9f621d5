//! The routes below the root of a file, as it has them, before they are read: the one walk over
//! them that rejects nothing.
use am_alerts::limits::{MAX_DEPTH, MAX_ROUTES};
use serde_json::Value;
use std::alloc::{AllocError, Global};

/// The routes below a root, in the order of their positions, which begin at 1: each route comes before
/// those below it, and these before the next one on its level.
///
/// They are the first 16,383 that are no more than 64 levels below the root: further ones aren't read.
#[derive(Drop)]
pub struct WrittenRoutes<'v> {
    routes: Vec<&'v Value>,
    /// For each of them the position of the route right above it. The root's is 0.
    above: Vec<usize>,
}

impl<'v> WrittenRoutes<'v> {
    /// No routes.
    pub fn none(alloc: Global) -> WrittenRoutes<'v> {
        WrittenRoutes {
            routes: Vec::new(alloc),
            above: Vec::new(alloc),
        }
    }

    /// The routes below this root.
    pub fn below(alloc: Global, root: &'v Value) -> Result<WrittenRoutes<'v>, AllocError> {
        let mut written = WrittenRoutes::none(alloc);
        written.add_below(root, 0, MAX_DEPTH)?;
        Ok(written)
    }

    /// Adds the routes below the route at a position, under which so many levels are allowed.
    fn add_below(
        &mut self,
        route: &'v Value,
        position: usize,
        levels: usize,
    ) -> Result<(), AllocError> {
        let Some(below) = levels.checked_sub(1) else {
            return Ok(());
        };
        let Some(routes) = route.get("routes").and_then(Value::as_array) else {
            return Ok(());
        };
        for route in routes {
            if self.routes.len() >= MAX_ROUTES {
                return Ok(());
            }
            self.routes.push(route)?;
            self.above.push(position)?;
            let own = self.routes.len();
            self.add_below(route, own, below)?;
        }
        Ok(())
    }

    /// The routes, in the order of their positions.
    pub fn as_slice(&self) -> &[&'v Value] {
        self.routes.as_slice()
    }

    /// The position of the route right above each of them.
    pub fn above(&self) -> &[usize] {
        self.above.as_slice()
    }
}
