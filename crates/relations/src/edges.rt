ghost use Rattle.std.specs.Prelude.{◌≡◌, ◌<◌, ◌==◌, ◌∷◌, filter, vec_len, vec_capacity};
ghost use Rattle.std.specs.List.Sorted.{IsNonDecreasingBy};
ghost use Rattle.relations.specs.Edges.{SameSums, is_apart, is_edge};
ghost use Rattle.std.specs.List.{list_any};

use pnp_labels::RelKind;

/// A relation as an edge from one device to another, by their serials.
#[derive(Clone, Copy)]
pub struct Edge {
    pub from: u64,
    pub to: u64,
    pub kind: RelKind,
}

impl Edge {
    /// Whether it neither begins nor ends at a device.
    fn is_apart(&self, serial: u64) -> bool
        ensures { result ≡ is_apart serial self.now }
    {
        self.from != serial && self.to != serial
    }
}

/// Puts an edge among those that are sorted by where they begin.
pub(crate) fn put(edges: &mut Vec<Edge>, edge: Edge)
    requires sorted { IsNonDecreasingBy (λ e. e.from) edges.old.items }
    requires room { vec_len edges.old < vec_capacity edges.old }
    ensures put { SameSums edges.new.items (edge ∷ edges.old.items) }
    ensures sorted { IsNonDecreasingBy (λ e. e.from) edges.new.items }
{
    let place = edges.partition_point(|other| other.from <= edge.from);
    let _ = edges.insert(place, edge);
}

/// Takes out the edges that begin or end at a device.
pub(crate) fn forget(edges: &mut Vec<Edge>, serial: u64)
    ensures { edges.new.items ≡ filter (is_apart serial) edges.old.items }
{
    edges.retain(|edge| edge.is_apart(serial));
}

/// The edges that begin at a device, of those that are sorted by where they begin. Cost: the logarithm of their number.
pub(crate) fn edges_from(edges: &[Edge], serial: u64) -> &[Edge]
    requires { IsNonDecreasingBy (λ e. e.from) edges.now }
    ensures { result.now ≡ filter (λ e. e.from == serial) edges.now }
{
    let low = edges.partition_point(|edge| edge.from < serial);
    let rest = &edges[low..];
    let count = rest.partition_point(|edge| edge.from <= serial);
    &rest[..count]
}

/// Whether there is an edge of a kind to a device.
pub(crate) fn has_edge(edges: &[Edge], to: u64, kind: RelKind) -> bool
    ensures { result ≡ list_any (is_edge to kind) edges.now }
{
    edges.iter().any(|edge| edge.to == to && edge.kind == kind)
}
