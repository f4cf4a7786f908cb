//! The edges out of each point of a core, found once.

ghost use Rattle.std.specs.Prelude.{◌≡◌, ◌<◌, [], length, map, replicate, slice_get, IfOk, IfSome};
ghost use Rattle.std.specs.List.{All};
ghost use Rattle.spl_core.specs.Facts.{EdgeFits};
ghost use Rattle.spl_runs.specs.Leaving.{edges_out, leaving};
ghost use Rattle.spl_runs.specs.Replay.{numbered};

use spl_core::{Core, Edge};
use std::alloc::{AllocError, Global};
use std::marker::Model;

/// The edges out of each point, in the order of edges.
#[derive(Drop)]
pub(crate) struct EdgesOut {
    lists: Vec<Vec<Edge>>,
}

impl Model for EdgesOut {
    ghost use Rattle.std.specs.Prelude.{List, map};
    ghost use Rattle.spl_core.specs.declared.parts.Edge.{Edge};

    ghost Value = { List (List Edge) };

    ghost view = { λ o. map (λ v. v.items) o.lists.items };
}

/// The edges out of each point of a core. It reads each edge once.
pub(crate) fn edges_out(alloc: Global, core: &Core) -> Result<EdgesOut, AllocError>
    ensures { IfOk result (λ o. o ≡ edges_out core.now) }
{
    let mut lists = no_edges(alloc, core.points())?;
    for e in 0..core.edge_count() {
        let edge = core.edge_at(e);
        lists[edge.source as usize].push(edge)?;
    }
    Ok(EdgesOut { lists })
}

// An empty list for each point.
fn no_edges(alloc: Global, points: u32) -> Result<Vec<Vec<Edge>>, AllocError>
    ensures { IfOk result (λ v. map (λ l. l.items) v.items ≡ replicate points []) }
{
    let mut lists = Vec::new(alloc);
    for point in 0..points {
        lists.push(Vec::new(alloc))?;
    }
    Ok(lists)
}

impl EdgesOut {
    // The edges of a core out of a point; none out of a number that is no point.
    fn of(&self, core: &Core, point: u32) -> &[Edge]
        requires { self.now ≡ edges_out core.now }
        ensures list { result.now ≡ leaving core.now.edges point }
        ensures fit { All (EdgeFits core.now) result.now }
    {
        // for its clause, that the parts are those of a core
        let _points = core.points();
        let at = point as usize;
        if at < self.lists.len() {
            &self.lists[at]
        } else {
            &[]
        }
    }

    /// The edge of a core with this number among the edges out of a point.
    pub(crate) fn at(&self, core: &Core, point: u32, number: usize) -> Option<Edge>
        requires { self.now ≡ edges_out core.now }
        ensures found { result ≡ slice_get (leaving core.now.edges point) number }
        ensures fits { IfSome result (EdgeFits core.now) }
    {
        let list = self.of(core, point);
        if number < list.len() {
            Some(list[number])
        } else {
            None
        }
    }

    /// The same for a number that may be none of an edge.
    pub(crate) fn numbered(&self, core: &Core, point: u32, number: i128) -> Option<Edge>
        requires { self.now ≡ edges_out core.now }
        ensures found { result ≡ numbered (leaving core.now.edges point) number }
        ensures fits { IfSome result (EdgeFits core.now) }
    {
        if number < 0 {
            return None;
        }
        if i128::from(core.edge_count()) <= number {
            return None;
        }
        self.at(core, point, number as usize)
    }
}
